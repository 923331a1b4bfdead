//! LALR(1) automata: the LR(0) states, with the tokens that their items pass on to each other.

ghost use Rattle.std.specs.Prelude.{All, IsTrue, vec_len};
ghost use Rattle.grammar.specs.Symbols.{SymbolFits};
ghost use Rattle.automaton.specs.Alternatives.{AreAlternatives};
ghost use Rattle.automaton.specs.Spreading.{IsFirstOf};
ghost use Rattle.propagation.specs.Edges.{EdgeFits};

use crate::lr0::States;
use crate::symbols::{place_of, symbol_count};
use automaton::{
    Alternatives, Automaton, Entry, Item, State, Transition, add_first, may_all_be_empty, rest,
};
use bit_table::BitTable;
use first_sets::FirstSets;
use grammar::{Grammar, Symbol};
use propagation::{Edge, propagate};
use std::alloc::{AllocError, Global};

// The rows of tokens: for each state one for each item of its kernel, and then for each state one
// for each nonterminal whose productions are in its closure.
#[derive(Drop)]
struct Rows {
    kernels: Vec<usize>,
    reached: Vec<usize>,
    count: usize,
}

impl Rows {
    fn new(alloc: Global, states: &States) -> Result<Rows, AllocError> {
        let mut count = 0usize;
        let mut kernels = Vec::new(alloc);
        for kernel in &states.kernels {
            kernels.push(count)?;
            count = count.saturating_add(kernel.len());
        }
        let mut reached = Vec::new(alloc);
        for nonterminals in &states.reached {
            reached.push(count)?;
            count = count.saturating_add(nonterminals.len());
        }
        Ok(Rows {
            kernels,
            reached,
            count,
        })
    }
}

// Of the state in hand where each symbol leads, and the row of each nonterminal.
#[derive(Drop)]
struct Hand {
    targets: Vec<usize>,
    rows: Vec<usize>,
}

impl Hand {
    fn take(
        &mut self,
        grammar: &Grammar,
        transitions: &[Transition],
        reached: &[usize],
        first_row: usize,
    ) {
        for transition in transitions {
            if let Some(target) = self.targets.get_mut(place_of(grammar, transition.symbol)) {
                *target = transition.to;
            }
        }
        let mut next = first_row;
        for n in reached {
            if let Some(row) = self.rows.get_mut(*n) {
                *row = next;
            }
            next = next.saturating_add(1);
        }
    }
}

// The row of an item of a state's kernel.
fn kernel_row(states: &States, rows: &Rows, state: usize, item: Item) -> Option<usize> {
    let kernel = states.kernels.get_index(state)?;
    let place = kernel.iter().position(|other| *other == item)?;
    let row = rows.kernels.get(state).copied()?;
    Some(row.saturating_add(place))
}

// What an item with these symbols behind its dot passes on to the nonterminal that they begin with:
// what begins behind that, and its own tokens where all that may be empty.
fn connect_behind(
    first: &FirstSets,
    hand: &Hand,
    row: usize,
    symbols: &[Symbol],
    table: &mut BitTable,
    edges: &mut Vec<Edge>,
) -> Result<(), AllocError>
    requires { All (SymbolFits first.now.sets.columns (vec_len first.now.nullable)) symbols.now }
{
    let Some((symbol, behind)) = symbols.split_first() else {
        return Ok(());
    };
    let Symbol::Nonterminal(n) = *symbol else {
        return Ok(());
    };
    let to = hand.rows.get(n).copied().unwrap_or(0);
    if to < table.rows && first.sets.columns <= table.columns {
        let _ = add_first(table, first, to, behind);
    }
    if may_all_be_empty(first, behind) {
        edges.push(Edge { from: row, to })?;
    }
    Ok(())
}

// What an item of the state in hand passes on: its tokens to the item with the dot moved, and
// tokens to the nonterminal behind its dot.
fn connect(
    grammar: &Grammar,
    first: &FirstSets,
    states: &States,
    rows: &Rows,
    hand: &Hand,
    row: usize,
    item: Item,
    table: &mut BitTable,
    edges: &mut Vec<Edge>,
) -> Result<(), AllocError>
    requires { IsFirstOf grammar.now first.now }
{
    let symbols = rest(grammar, item);
    let Some(symbol) = symbols.first() else {
        return Ok(());
    };
    let place = place_of(grammar, *symbol);
    let target = hand.targets.get(place).copied().unwrap_or(0);
    let moved = Item {
        production: item.production,
        dot: item.dot.saturating_add(1),
    };
    if let Some(to) = kernel_row(states, rows, target, moved) {
        edges.push(Edge { from: row, to })?;
    }
    connect_behind(first, hand, row, symbols, table, edges)
}

fn connect_kernel(
    grammar: &Grammar,
    first: &FirstSets,
    states: &States,
    rows: &Rows,
    hand: &Hand,
    first_row: usize,
    kernel: &[Item],
    table: &mut BitTable,
    edges: &mut Vec<Edge>,
) -> Result<(), AllocError>
    requires { IsFirstOf grammar.now first.now }
{
    let mut row = first_row;
    for item in kernel {
        connect(grammar, first, states, rows, hand, row, *item, table, edges)?;
        row = row.saturating_add(1);
    }
    Ok(())
}

fn connect_alternatives(
    grammar: &Grammar,
    first: &FirstSets,
    states: &States,
    rows: &Rows,
    hand: &Hand,
    row: usize,
    productions: &[usize],
    table: &mut BitTable,
    edges: &mut Vec<Edge>,
) -> Result<(), AllocError>
    requires { IsFirstOf grammar.now first.now }
{
    for q in productions {
        let item = Item {
            production: *q,
            dot: 0,
        };
        connect(grammar, first, states, rows, hand, row, item, table, edges)?;
    }
    Ok(())
}

// What the items of a state pass on.
fn connect_state(
    grammar: &Grammar,
    first: &FirstSets,
    alternatives: &Alternatives,
    states: &States,
    rows: &Rows,
    hand: &mut Hand,
    state: usize,
    table: &mut BitTable,
    edges: &mut Vec<Edge>,
) -> Result<(), AllocError>
    requires { IsFirstOf grammar.now first.now }
{
    let Some(kernel) = states.kernels.get_index(state) else {
        return Ok(());
    };
    let Some(transitions) = states.transitions.get(state) else {
        return Ok(());
    };
    let Some(reached) = states.reached.get(state) else {
        return Ok(());
    };
    let first_row = rows.kernels.get(state).copied().unwrap_or(0);
    let reached_row = rows.reached.get(state).copied().unwrap_or(0);
    hand.take(
        grammar,
        transitions.as_slice(),
        reached.as_slice(),
        reached_row,
    );
    connect_kernel(
        grammar,
        first,
        states,
        rows,
        hand,
        first_row,
        kernel.as_slice(),
        table,
        edges,
    )?;
    for n in reached {
        let row = hand.rows.get(*n).copied().unwrap_or(0);
        connect_alternatives(
            grammar,
            first,
            states,
            rows,
            hand,
            row,
            alternatives.of(*n),
            table,
            edges,
        )?;
    }
    Ok(())
}

fn all_fit(edges: &[Edge], rows: usize) -> bool
    ensures { IsTrue result → All (EdgeFits rows) edges.now }
{
    edges.iter().all(|edge| edge.from < rows && edge.to < rows)
}

// The rows of the kernels alone.
fn kernel_tokens(alloc: Global, table: &BitTable, rows: usize) -> Result<BitTable, AllocError> {
    let mut tokens = BitTable::new(alloc, rows, table.columns)?;
    for row in 0..rows {
        if row < tokens.rows && row < table.rows && table.columns <= tokens.columns {
            let _ = tokens.add_row_of(row, table, row);
        }
    }
    Ok(tokens)
}

// The states, each item of a kernel with its row.
fn states_of(alloc: Global, states: States, rows: &Rows) -> Result<Vec<State>, AllocError> {
    let mut made = Vec::new(alloc);
    let States {
        kernels,
        transitions,
        reached,
    } = states;
    drop(reached);
    for ((items, transitions), first_row) in kernels
        .iter()
        .zip(transitions)
        .zip(rows.kernels.iter())
    {
        let mut kernel = Vec::new(alloc);
        let mut tokens = *first_row;
        for item in items {
            kernel.push(Entry {
                item: *item,
                tokens,
            })?;
            tokens = tokens.saturating_add(1);
        }
        made.push(State {
            kernel,
            transitions,
        })?;
    }
    Ok(made)
}

/// The LALR(1) automaton of a grammar.
pub fn lalr(
    alloc: Global,
    grammar: &Grammar,
    first: &FirstSets,
    alternatives: &Alternatives,
) -> Result<Automaton, AllocError>
    requires first { IsFirstOf grammar.now first.now }
    requires alternatives { AreAlternatives grammar.now alternatives.now }
{
    let states = States::new(alloc, grammar, alternatives)?;
    let rows = Rows::new(alloc, &states)?;
    let end = grammar.terminals.len();
    let mut table = BitTable::new(alloc, rows.count, end + 1)?;
    if 0 < table.rows && end < table.columns {
        let _ = table.insert(0, end);
    }
    let mut edges = Vec::new(alloc);
    let mut hand = Hand {
        targets: vec![in alloc; 0usize; symbol_count(grammar)]?,
        rows: vec![in alloc; 0usize; grammar.nonterminals.len()]?,
    };
    for state in 0..states.transitions.len() {
        connect_state(
            grammar,
            first,
            alternatives,
            &states,
            &rows,
            &mut hand,
            state,
            &mut table,
            &mut edges,
        )?;
    }
    if all_fit(edges.as_slice(), table.rows) {
        propagate(alloc, &mut table, edges.as_slice())?;
    }
    drop(edges);
    let kernel_rows = rows.reached.first().copied().unwrap_or(0);
    let tokens = kernel_tokens(alloc, &table, kernel_rows)?;
    drop(table);
    let states = states_of(alloc, states, &rows)?;
    Ok(Automaton { states, tokens })
}
