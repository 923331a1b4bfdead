//! Whether an automaton is the grammar's, and its clashes, in one pass over the closures.

ghost use Rattle.std.specs.Prelude.{◌≡◌, ℕ, ◌+◌, ◌<◌, ◌≤◌, All, IsTrue, IfOk, IfSome, OnOk, length, vec_len};
ghost use Rattle.bit_table.specs.Table.{Has};
ghost use Rattle.automaton.specs.Alternatives.{AreAlternatives};
ghost use Rattle.automaton.specs.Clashes.{KeepsClashes, ListsState};
ghost use Rattle.automaton.specs.Conflicts.{conflicts_in, MissesNone};
ghost use Rattle.automaton.specs.Spreading.{IsFirstOf};
ghost use Rattle.automaton.specs.States.{IsListed, EachMoves, MovesEntry, Starts};

use crate::clashes::list_clashes;
use crate::{Alternatives, Automaton, Clash, Entry, Item, close, rest, target};
use bit_table::BitTable;
use first_sets::FirstSets;
use grammar::Grammar;
use std::alloc::{AllocError, Global};

// Whether an entry is of the item and has all tokens of a row.
fn has_item(tokens: &BitTable, kernel: &[Entry], item: Item, table: &BitTable, row: usize) -> bool
    requires row { row < table.now.rows }
    requires columns { table.now.columns ≤ tokens.now.columns }
    ensures { IsTrue result → (t : ℕ) → Has table.now row t
        → IsListed tokens.now kernel.now item t }
{
    for entry in kernel {
        if entry.item == item
            && entry.tokens < tokens.rows
            && tokens.includes(entry.tokens, table, row)
        {
            return true;
        }
    }
    false
}

// Whether the state leads on from an item, over the symbol behind its dot.
fn moves(
    grammar: &Grammar,
    automaton: &Automaton,
    state: usize,
    table: &BitTable,
    entry: Entry,
) -> bool
    requires row { entry.tokens < table.now.rows }
    requires columns { table.now.columns ≤ automaton.now.tokens.columns }
    ensures { IsTrue result → MovesEntry grammar.now automaton.now state table.now entry }
{
    let Some((symbol, _)) = rest(grammar, entry.item).split_first() else {
        return true;
    };
    let Some(to) = target(automaton.transitions(state), *symbol) else {
        return table.is_empty_row(entry.tokens);
    };
    let Some(dot) = entry.item.dot.checked_add(1) else {
        return false;
    };
    let item = Item {
        production: entry.item.production,
        dot,
    };
    has_item(
        &automaton.tokens,
        automaton.kernel(to),
        item,
        table,
        entry.tokens,
    )
}

// Whether it does from each of them.
fn all_move(
    grammar: &Grammar,
    automaton: &Automaton,
    state: usize,
    table: &BitTable,
    entries: &[Entry],
) -> bool
    requires rows { All (λ e. e.tokens < table.now.rows) entries.now }
    requires columns { table.now.columns ≤ automaton.now.tokens.columns }
    ensures { IsTrue result
        → All (MovesEntry grammar.now automaton.now state table.now) entries.now }
{
    for entry in entries {
        if !moves(grammar, automaton, state, table, *entry) {
            return false;
        }
    }
    true
}

// Whether state 0 has the start production before the end of the input.
fn starts(grammar: &Grammar, automaton: &Automaton) -> bool
    requires { automaton.now.tokens.columns ≡ vec_len grammar.now.terminals + 1 }
    ensures { IsTrue result → Starts grammar.now automaton.now }
{
    let item = Item {
        production: 0,
        dot: 0,
    };
    for entry in automaton.kernel(0) {
        if entry.item == item
            && entry.tokens < automaton.tokens.rows
            && automaton
                .tokens
                .contains(entry.tokens, grammar.terminals.len())
        {
            return true;
        }
    }
    false
}

// Whether a state leads on from each of its items; its clashes are listed.
fn visit(
    alloc: Global,
    grammar: &Grammar,
    first: &FirstSets,
    alternatives: &Alternatives,
    automaton: &Automaton,
    state: usize,
    table: &mut BitTable,
    clashes: &mut Vec<Clash>,
) -> Result<bool, AllocError>
    requires first { IsFirstOf grammar.now first.now }
    requires alternatives { AreAlternatives grammar.now alternatives.now }
    requires columns { automaton.now.tokens.columns ≡ vec_len grammar.now.terminals + 1 }
    ensures moves { IfOk result (λ good. IsTrue good → EachMoves grammar.now automaton.now state) }
    ensures keeps { OnOk result (KeepsClashes clashes.old.items clashes.new.items) }
    ensures lists { IfOk result (λ good. IsTrue good
        → ListsState grammar.now automaton.now clashes.new.items state) }
{
    let entries = close(
        alloc,
        grammar,
        first,
        alternatives,
        &automaton.tokens,
        automaton.kernel(state),
        table,
    )?;
    if !all_move(grammar, automaton, state, table, entries.as_slice()) {
        return Ok(false);
    }
    let good = list_clashes(
        alloc,
        grammar,
        automaton,
        state,
        table,
        entries.as_slice(),
        clashes,
    )?;
    Ok(good)
}

/// The clashes of an automaton from anywhere: no conflict of the grammar is missing among their
/// conflicts. `None` where the automaton is not the grammar's.
pub fn validated_clashes(
    alloc: Global,
    grammar: &Grammar,
    first: &FirstSets,
    alternatives: &Alternatives,
    automaton: &Automaton,
) -> Result<Option<Vec<Clash>>, AllocError>
    requires first { IsFirstOf grammar.now first.now }
    requires alternatives { AreAlternatives grammar.now alternatives.now }
    ensures nothing_missed { IfOk result (λ found. IfSome found (λ clashes.
        MissesNone grammar.now automaton.now (conflicts_in clashes.items))) }
{
    if automaton.tokens.columns != grammar.terminals.len() + 1 {
        return Ok(None);
    }
    if !starts(grammar, automaton) {
        return Ok(None);
    }
    let mut table = BitTable::new(alloc, 0, 0)?;
    let mut clashes = Vec::new(alloc);
    for state in 0..automaton.states.len() {
        let good = visit(
            alloc,
            grammar,
            first,
            alternatives,
            automaton,
            state,
            &mut table,
            &mut clashes,
        )?;
        if !good {
            return Ok(None);
        }
    }
    Ok(Some(clashes))
}
