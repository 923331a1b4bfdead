//! The items of a state that read a token.

ghost use Rattle.std.specs.Prelude.{◌↔◌, Contains, IsTrue, IfOk, OnOk};
ghost use Rattle.automaton.specs.declared.item.Item.{Item};
ghost use Rattle.automaton.specs.Alternatives.{AreAlternatives};
ghost use Rattle.automaton.specs.Reading.{IsItem, Reads, ReadsFrom, HasToo};
ghost use Rattle.automaton.specs.States.{kernel_of};

use crate::{Alternatives, Automaton, Item, behind_dots, reachable, rest};
use grammar::{Grammar, Symbol};
use std::alloc::{AllocError, Global};

// Whether the token is behind the item's dot.
fn reads(grammar: &Grammar, item: Item, token: usize) -> bool
    ensures { IsTrue result ↔ Reads grammar.now item token }
{
    match rest(grammar, item).split_first() {
        Some((Symbol::Terminal(t), _)) => *t == token,
        _ => false,
    }
}

/// The items of a state that read a token: those of its closure with the token behind the dot.
pub fn items_reading(
    alloc: Global,
    grammar: &Grammar,
    alternatives: &Alternatives,
    automaton: &Automaton,
    state: usize,
    token: usize,
) -> Result<Vec<Item>, AllocError>
    requires { AreAlternatives grammar.now alternatives.now }
    ensures { IfOk result (λ v. (i : Item) → Contains v.items i
        ↔ (IsItem grammar.now (kernel_of automaton.now state) i × Reads grammar.now i token)) }
{
    let kernel = automaton.kernel(state);
    let starts = behind_dots(alloc, grammar, kernel)?;
    let reached = reachable(alloc, grammar, alternatives, starts.as_slice())?;
    let mut found = Vec::new(alloc);
    for entry in kernel {
        if reads(grammar, entry.item, token) {
            found.push(entry.item)?;
        }
    }
    for n in &reached {
        add_reading(grammar, alternatives.of(*n), token, &mut found)?;
    }
    Ok(found)
}

// Adds the productions that begin with the token.
fn add_reading(
    grammar: &Grammar,
    productions: &[usize],
    token: usize,
    found: &mut Vec<Item>,
) -> Result<(), AllocError>
    ensures { OnOk result (HasToo found.old.items found.new.items
        (ReadsFrom grammar.now token productions.now)) }
{
    for q in productions {
        let item = Item {
            production: *q,
            dot: 0,
        };
        if reads(grammar, item, token) {
            found.push(item)?;
        }
    }
    Ok(())
}
