//! The closure of a kernel: all its items, each with its tokens.

ghost use Rattle.std.specs.Prelude.{◌≡◌, ℕ, ◌+◌, ◌<◌, ◌≤◌, ◌↔◌, All, Contains, IsTrue, IfOk, OnOk, length, vec_len};
ghost use Rattle.std.specs.Bool.{OnTrue, OnFalse};
ghost use Rattle.bit_table.specs.Bits.{room};
ghost use Rattle.bit_table.specs.Table.{Has, SameShape, KeepsBits};
ghost use Rattle.grammar.specs.Symbols.{SymbolFits};
ghost use Rattle.first_sets.specs.Sets.{SymbolNull, SymbolFirst, AllNull, InFirst};
ghost use Rattle.automaton.specs.declared.item.Item.{Item};
ghost use Rattle.automaton.specs.declared.automaton.Entry.{Entry};
ghost use Rattle.automaton.specs.States.{IsListed, InClosure};
ghost use Rattle.automaton.specs.Items.{fresh};
ghost use Rattle.automaton.specs.Alternatives.{alternatives_of, AreAlternatives};
ghost use Rattle.automaton.specs.Spreading.{IsFirstOf, IsSized, IsSpread, IsSpreadAt, IsSpreadFrom, AreSpread, IsBehindDot};

use crate::{Alternatives, Entry, Item, leading, reachable, rest};
use bit_table::BitTable;
use first_sets::FirstSets;
use grammar::{Grammar, Symbol};
use std::alloc::{AllocError, Global};

// Whether a symbol may be empty.
fn may_be_empty(first: &FirstSets, symbol: Symbol) -> bool
    requires { SymbolFits first.now.sets.columns (vec_len first.now.nullable) symbol }
    ensures { IsTrue result ↔ SymbolNull first.now symbol }
{
    match symbol {
        Symbol::Terminal(_) => false,
        Symbol::Nonterminal(n) => first.nullable[n],
    }
}

/// Whether all may be empty.
pub fn may_all_be_empty(first: &FirstSets, symbols: &[Symbol]) -> bool
    requires { All (SymbolFits first.now.sets.columns (vec_len first.now.nullable)) symbols.now }
    ensures { IsTrue result ↔ AllNull first.now symbols.now }
{
    for symbol in symbols {
        if !may_be_empty(first, *symbol) {
            return false;
        }
    }
    true
}

// Adds the terminals of a symbol to a row, and answers whether one of them is new.
fn add_symbol(table: &mut BitTable, first: &FirstSets, row: usize, symbol: Symbol) -> bool
    requires row { row < table.old.rows }
    requires columns { first.now.sets.columns ≤ table.old.columns }
    requires symbol { SymbolFits first.now.sets.columns (vec_len first.now.nullable) symbol }
    ensures shape { SameShape table.old table.new }
    ensures keeps { KeepsBits table.old table.new }
    ensures adds { (t : ℕ) → SymbolFirst first.now symbol t → Has table.new row t }
    ensures same { OnFalse result (KeepsBits table.new table.old) }
    ensures room { (room table.new.words.items ≤ room table.old.words.items)
        × OnTrue result (room table.new.words.items < room table.old.words.items) }
{
    match symbol {
        Symbol::Terminal(t) => table.insert(row, t),
        Symbol::Nonterminal(n) => table.add_row_of(row, &first.sets, n),
    }
}

/// Adds what begins the symbols to a row, and answers whether some of that is new.
pub fn add_first(table: &mut BitTable, first: &FirstSets, row: usize, symbols: &[Symbol]) -> bool
    requires row { row < table.old.rows }
    requires columns { first.now.sets.columns ≤ table.old.columns }
    requires symbols { All (SymbolFits first.now.sets.columns
        (vec_len first.now.nullable)) symbols.now }
    ensures shape { SameShape table.old table.new }
    ensures keeps { KeepsBits table.old table.new }
    ensures adds { (t : ℕ) → InFirst first.now symbols.now t → Has table.new row t }
    ensures same { OnFalse result (KeepsBits table.new table.old) }
    ensures room { (room table.new.words.items ≤ room table.old.words.items)
        × OnTrue result (room table.new.words.items < room table.old.words.items) }
{
    let mut changed = false;
    for symbol in symbols {
        if add_symbol(table, first, row, *symbol) {
            changed = true;
        }
        if !may_be_empty(first, *symbol) {
            return changed;
        }
    }
    changed
}

// Adds the tokens of one row to another where all symbols may be empty, and answers whether one of
// them is new.
fn add_passed(
    table: &mut BitTable,
    first: &FirstSets,
    into: usize,
    from: usize,
    symbols: &[Symbol],
) -> bool
    requires into { into < table.old.rows }
    requires from { from < table.old.rows }
    requires symbols { All (SymbolFits first.now.sets.columns
        (vec_len first.now.nullable)) symbols.now }
    ensures shape { SameShape table.old table.new }
    ensures keeps { KeepsBits table.old table.new }
    ensures adds { AllNull first.now symbols.now → (t : ℕ) → Has table.old from t
        → Has table.new into t }
    ensures same { OnFalse result (KeepsBits table.new table.old) }
    ensures room { (room table.new.words.items ≤ room table.old.words.items)
        × OnTrue result (room table.new.words.items < room table.old.words.items) }
{
    if may_all_be_empty(first, symbols) {
        table.add_row(into, from)
    } else {
        false
    }
}

// Gives the row of the nonterminal behind a dot what the symbols behind it and the tokens of the
// item's row say, and answers whether that is new.
fn give(table: &mut BitTable, first: &FirstSets, row: usize, symbols: &[Symbol]) -> bool
    requires sized { IsSized first.now table.old }
    requires row { row < table.old.rows }
    requires symbols { All (SymbolFits first.now.sets.columns
        (vec_len first.now.nullable)) symbols.now }
    ensures shape { SameShape table.old table.new }
    ensures keeps { KeepsBits table.old table.new }
    ensures spread { OnFalse result (IsSpread first.now table.new row symbols.now) }
    ensures same { OnFalse result (KeepsBits table.new table.old) }
    ensures room { (room table.new.words.items ≤ room table.old.words.items)
        × OnTrue result (room table.new.words.items < room table.old.words.items) }
{
    let Some((symbol, behind)) = symbols.split_first() else {
        return false;
    };
    let Symbol::Nonterminal(n) = *symbol else {
        return false;
    };
    let begun = add_first(table, first, n, behind);
    let passed = add_passed(table, first, n, row, behind);
    begun || passed
}

// Gives what the items of the kernel say, and answers whether that is new.
fn give_kernel(table: &mut BitTable, grammar: &Grammar, first: &FirstSets, kernel: &[Entry]) -> bool
    requires first { IsFirstOf grammar.now first.now }
    requires sized { IsSized first.now table.old }
    requires rows { All (λ e. e.tokens < table.old.rows) kernel.now }
    ensures shape { SameShape table.old table.new }
    ensures keeps { KeepsBits table.old table.new }
    ensures spread { OnFalse result (All (IsSpreadAt grammar.now first.now table.new) kernel.now) }
    ensures same { OnFalse result (KeepsBits table.new table.old) }
    ensures room { (room table.new.words.items ≤ room table.old.words.items)
        × OnTrue result (room table.new.words.items < room table.old.words.items) }
{
    let mut changed = false;
    for entry in kernel {
        if give(table, first, entry.tokens, rest(grammar, entry.item)) {
            changed = true;
        }
    }
    changed
}

// Gives what the productions of one nonterminal say, and answers whether that is new.
fn give_alternatives(
    table: &mut BitTable,
    grammar: &Grammar,
    first: &FirstSets,
    left: usize,
    productions: &[usize],
) -> bool
    requires first { IsFirstOf grammar.now first.now }
    requires sized { IsSized first.now table.old }
    requires left { left < table.old.rows }
    ensures shape { SameShape table.old table.new }
    ensures keeps { KeepsBits table.old table.new }
    ensures spread { OnFalse result (All
        (IsSpreadFrom grammar.now first.now table.new left) productions.now) }
    ensures same { OnFalse result (KeepsBits table.new table.old) }
    ensures room { (room table.new.words.items ≤ room table.old.words.items)
        × OnTrue result (room table.new.words.items < room table.old.words.items) }
{
    let mut changed = false;
    for q in productions {
        let item = Item {
            production: *q,
            dot: 0,
        };
        if give(table, first, left, rest(grammar, item)) {
            changed = true;
        }
    }
    changed
}

// Gives what the productions of the nonterminals say, and answers whether that is new.
fn give_rules(
    table: &mut BitTable,
    grammar: &Grammar,
    first: &FirstSets,
    alternatives: &Alternatives,
    reached: &[usize],
) -> bool
    requires first { IsFirstOf grammar.now first.now }
    requires sized { IsSized first.now table.old }
    requires reached { All (λ n. n < table.old.rows) reached.now }
    ensures shape { SameShape table.old table.new }
    ensures keeps { KeepsBits table.old table.new }
    ensures spread { OnFalse result (All
        (AreSpread grammar.now first.now alternatives.now table.new) reached.now) }
    ensures same { OnFalse result (KeepsBits table.new table.old) }
    ensures room { (room table.new.words.items ≤ room table.old.words.items)
        × OnTrue result (room table.new.words.items < room table.old.words.items) }
{
    let mut changed = false;
    for n in reached {
        if give_alternatives(table, grammar, first, *n, alternatives.of(*n)) {
            changed = true;
        }
    }
    changed
}

// Gives what all say, and answers whether that is new.
fn round(
    table: &mut BitTable,
    grammar: &Grammar,
    first: &FirstSets,
    alternatives: &Alternatives,
    reached: &[usize],
    kernel: &[Entry],
) -> bool
    requires first { IsFirstOf grammar.now first.now }
    requires sized { IsSized first.now table.old }
    requires reached { All (λ n. n < table.old.rows) reached.now }
    requires rows { All (λ e. e.tokens < table.old.rows) kernel.now }
    ensures shape { SameShape table.old table.new }
    ensures keeps { KeepsBits table.old table.new }
    ensures kernel { OnFalse result (All (IsSpreadAt grammar.now first.now table.new) kernel.now) }
    ensures rules { OnFalse result (All
        (AreSpread grammar.now first.now alternatives.now table.new) reached.now) }
    ensures room { (room table.new.words.items ≤ room table.old.words.items)
        × OnTrue result (room table.new.words.items < room table.old.words.items) }
{
    let by_kernel = give_kernel(table, grammar, first, kernel);
    let by_rules = give_rules(table, grammar, first, alternatives, reached);
    by_kernel || by_rules
}

// Copies the tokens of a kernel into the last rows, and lists its items with those.
fn load(
    alloc: Global,
    table: &mut BitTable,
    tokens: &BitTable,
    kernel: &[Entry],
) -> Result<Vec<Entry>, AllocError>
    requires rows { length kernel.now ≤ table.old.rows }
    requires columns { tokens.now.columns ≤ table.old.columns }
    ensures shape { SameShape table.old table.new }
    ensures in_range { IfOk result (λ v. All (λ e. e.tokens < table.old.rows) v.items) }
    ensures lists { IfOk result (λ v. (i : Item) (t : ℕ) → IsListed tokens.now kernel.now i t
        → IsListed table.new v.items i t) }
{
    let base = table.rows - kernel.len();
    let mut entries = Vec::new(alloc);
    for (i, entry) in kernel.iter().enumerate() {
        let row = base + i;
        if entry.tokens < tokens.rows {
            let _ = table.add_row_of(row, tokens, entry.tokens);
        }
        entries.push(Entry {
            item: entry.item,
            tokens: row,
        })?;
    }
    Ok(entries)
}

// Takes all bits of the rows away that a closure uses.
fn clear(table: &mut BitTable, reached: &[usize], count: usize)
    requires reached { All (λ n. n < table.old.rows) reached.now }
    requires count { count ≤ table.old.rows }
    ensures { SameShape table.old table.new }
{
    for n in reached {
        table.clear_row(*n);
    }
    let base = table.rows - count;
    for i in 0..count {
        table.clear_row(base + i);
    }
}

/// The nonterminals behind the dots of a kernel.
pub fn behind_dots(
    alloc: Global,
    grammar: &Grammar,
    kernel: &[Entry],
) -> Result<Vec<usize>, AllocError>
    ensures in_range { IfOk result (λ v. All (λ n. n < vec_len grammar.now.nonterminals) v.items) }
    ensures exact { IfOk result (λ v. (n : ℕ)
        → Contains v.items n ↔ IsBehindDot grammar.now kernel.now n) }
{
    let mut starts = Vec::new(alloc);
    for entry in kernel {
        if let Some(n) = leading(rest(grammar, entry.item)) {
            starts.push(n)?;
        }
    }
    Ok(starts)
}

// Lists the productions of a nonterminal, each with the nonterminal's row.
fn list_alternatives(
    left: usize,
    productions: &[usize],
    entries: &mut Vec<Entry>,
) -> Result<(), AllocError>
    ensures keeps { OnOk result ((e : Entry) → Contains entries.old.items e
        → Contains entries.new.items e) }
    ensures adds { OnOk result ((q : ℕ) → Contains productions.now q
        → Contains entries.new.items (record { item = fresh q; tokens = left })) }
    ensures in_range { (rows : ℕ) → left < rows
        → All (λ e. e.tokens < rows) entries.old.items
        → All (λ e. e.tokens < rows) entries.new.items }
{
    for q in productions {
        entries.push(Entry {
            item: Item {
                production: *q,
                dot: 0,
            },
            tokens: left,
        })?;
    }
    Ok(())
}

// Lists the productions of the nonterminals, each with its nonterminal's row.
fn list_rules(
    alternatives: &Alternatives,
    reached: &[usize],
    entries: &mut Vec<Entry>,
) -> Result<(), AllocError>
    ensures keeps { OnOk result ((e : Entry) → Contains entries.old.items e
        → Contains entries.new.items e) }
    ensures adds { OnOk result ((n q : ℕ) → Contains reached.now n
        → Contains (alternatives_of alternatives.now n) q
        → Contains entries.new.items (record { item = fresh q; tokens = n })) }
    ensures in_range { (rows : ℕ) → All (λ n. n < rows) reached.now
        → All (λ e. e.tokens < rows) entries.old.items
        → All (λ e. e.tokens < rows) entries.new.items }
{
    for n in reached {
        list_alternatives(*n, alternatives.of(*n), entries)?;
    }
    Ok(())
}

/// The items of a state with this kernel, all of its closure, each with the row of its tokens. The
/// rows are in `table`, which serves one closure after the other: what it had before is lost.
pub fn close(
    alloc: Global,
    grammar: &Grammar,
    first: &FirstSets,
    alternatives: &Alternatives,
    tokens: &BitTable,
    kernel: &[Entry],
    table: &mut BitTable,
) -> Result<Vec<Entry>, AllocError>
    requires first { IsFirstOf grammar.now first.now }
    requires alternatives { AreAlternatives grammar.now alternatives.now }
    requires columns { tokens.now.columns ≤ vec_len grammar.now.terminals + 1 }
    ensures columns { IfOk result (λ v. table.new.columns ≡ vec_len grammar.now.terminals + 1) }
    ensures in_range { IfOk result (λ v. All (λ e. e.tokens < table.new.rows) v.items) }
    ensures covers { IfOk result (λ v. (i : Item) (t : ℕ)
        → InClosure grammar.now tokens.now kernel.now i t
        → IsListed table.new v.items i t) }
{
    let starts = behind_dots(alloc, grammar, kernel)?;
    let reached = reachable(alloc, grammar, alternatives, starts.as_slice())?;
    let rows = grammar.nonterminals.len() + kernel.len();
    let columns = grammar.terminals.len() + 1;
    if table.rows < rows || table.columns != columns {
        *table = BitTable::new(alloc, rows, columns)?;
    } else {
        clear(table, reached.as_slice(), kernel.len());
    }
    let mut entries = load(alloc, table, tokens, kernel)?;
    while round(
        table,
        grammar,
        first,
        alternatives,
        reached.as_slice(),
        entries.as_slice(),
    ) {}
    list_rules(alternatives, reached.as_slice(), &mut entries)?;
    Ok(entries)
}
