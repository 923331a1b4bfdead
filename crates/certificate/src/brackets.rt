//! The brackets in which a reading is shown.

ghost use Rattle.std.specs.Prelude.{◌≡◌, List, Some, IfOk, slice_get, slice_index_or, length};
ghost use Rattle.grammar.specs.declared.symbol.Symbol.{Symbol};
ghost use Rattle.grammar.specs.declared.symbol.Production.{Production};
ghost use Rattle.certificate.specs.Readings.{IsReading};
ghost use Rattle.certificate.specs.Brackets.{AreBrackets};

use crate::reading::Action;
use grammar::Grammar;
use std::alloc::{AllocError, Global};

/// A nonterminal, over the symbols of a form that it is read from.
#[derive(Clone, Copy, Debug, PartialEq, Eq)]
pub struct Bracket {
    /// The production that it is read by.
    pub production: usize,
    /// The place of its first symbol.
    pub from: usize,
    /// The place behind its last symbol, which is `from` where there is none.
    pub to: usize,
}

// How many symbols a production's right side has.
fn width_of(grammar: &Grammar, production: usize) -> usize
    ensures { (p : Production) → slice_get grammar.now.productions.items production ≡ Some p
        → result ≡ length p.right.items }
{
    match grammar.productions.get(production) {
        Some(found) => found.right.len(),
        None => 0,
    }
}

// The number at a place, or another one behind the last.
fn number_at(numbers: &[usize], i: usize, other: usize) -> usize
    ensures { result ≡ slice_index_or numbers.now i other }
{
    numbers.get(i).copied().unwrap_or(other)
}

/// The brackets of a reading, in the order of its reductions: one that stands inside another comes before it.
pub fn brackets_of(
    alloc: Global,
    grammar: &Grammar,
    actions: &[Action],
) -> Result<Vec<Bracket>, AllocError>
    ensures { IfOk result (λ v. (form : List Symbol) (x : Symbol)
        → IsReading grammar.now.productions.items actions.now form x
        → AreBrackets grammar.now.productions.items actions.now form v.items) }
{
    let mut brackets = Vec::new(alloc);
    // Of each symbol on the stack the place of the first that it is read from.
    let mut starts = Vec::new(alloc);
    let mut read = 0usize;
    for action in actions {
        match *action {
            Action::Shift => {
                starts.push(read)?;
                read += 1;
            }
            Action::Reduce(production) => {
                let below = starts.len().saturating_sub(width_of(grammar, production));
                let from = number_at(starts.as_slice(), below, read);
                starts.truncate(below);
                starts.push(from)?;
                brackets.push(Bracket {
                    production,
                    from,
                    to: read,
                })?;
            }
        }
    }
    Ok(brackets)
}
