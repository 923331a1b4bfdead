//! Canonical LR(1) automata.

ghost use Rattle.automaton.specs.Alternatives.{AreAlternatives};
ghost use Rattle.automaton.specs.Spreading.{IsFirstOf};

use crate::symbols::{Buckets, place_of, symbol_at};
use automaton::{Alternatives, Automaton, Entry, Item, State, Transition, close, rest};
use bit_table::BitTable;
use first_sets::FirstSets;
use grammar::Grammar;
use indexmap::IndexSet;
use std::alloc::{AllocError, Global};

// An item and one of its tokens.
#[derive(Clone, Copy, Debug, PartialEq, Eq, PartialOrd, Ord, Hash)]
struct Single {
    item: Item,
    token: usize,
}

// The entries of sorted items, with a row each from `first_row` on.
fn entries_of(
    alloc: Global,
    singles: &[Single],
    first_row: usize,
) -> Result<Vec<Entry>, AllocError> {
    let mut entries: Vec<Entry> = Vec::new(alloc);
    for single in singles {
        let is_new = match entries.last() {
            Some(entry) => entry.item != single.item,
            None => true,
        };
        if is_new {
            let tokens = first_row.saturating_add(entries.len());
            entries.push(Entry {
                item: single.item,
                tokens,
            })?;
        }
    }
    Ok(entries)
}

// Puts the tokens of sorted items into the rows of their entries.
fn add_tokens(table: &mut BitTable, entries: &[Entry], singles: &[Single]) {
    let mut at = 0usize;
    for single in singles {
        if let Some(entry) = entries.get(at) {
            if entry.item != single.item {
                at = at.saturating_add(1);
            }
        }
        if let Some(entry) = entries.get(at) {
            if entry.tokens < table.rows && single.token < table.columns {
                let _ = table.insert(entry.tokens, single.token);
            }
        }
    }
}

// Puts the items of a closure with the dot moved into the buckets of the symbols that they moved
// over.
fn advance(
    grammar: &Grammar,
    table: &BitTable,
    entries: &[Entry],
    buckets: &mut Buckets<Single>,
) -> Result<(), AllocError> {
    for entry in entries {
        if let Some(symbol) = rest(grammar, entry.item).first() {
            let item = Item {
                production: entry.item.production,
                dot: entry.item.dot.saturating_add(1),
            };
            add_singles(
                table,
                entry.tokens,
                item,
                place_of(grammar, *symbol),
                buckets,
            )?;
        }
    }
    Ok(())
}

// Puts an item with each token of a row into a bucket.
fn add_singles(
    table: &BitTable,
    row: usize,
    item: Item,
    place: usize,
    buckets: &mut Buckets<Single>,
) -> Result<(), AllocError> {
    for token in 0..table.columns {
        if row < table.rows && table.contains(row, token) {
            buckets.push(place, Single { item, token })?;
        }
    }
    Ok(())
}

// What is made so far.
#[derive(Drop)]
struct States {
    kernels: IndexSet<Vec<Single>>,
    transitions: Vec<Vec<Transition>>,
    // Serves one closure after the other.
    table: BitTable,
}

impl States {
    // Adds the transitions of a state, with the states that they lead to. False where there is no
    // such state.
    fn expand(
        &mut self,
        alloc: Global,
        grammar: &Grammar,
        first: &FirstSets,
        alternatives: &Alternatives,
        buckets: &mut Buckets<Single>,
        from: usize,
    ) -> Result<bool, AllocError>
        requires first { IsFirstOf grammar.now first.now }
        requires alternatives { AreAlternatives grammar.now alternatives.now }
    {
        let Some(singles) = self.kernels.get_index(from) else {
            return Ok(false);
        };
        let columns = grammar.terminals.len() + 1;
        let kernel = entries_of(alloc, singles.as_slice(), 0)?;
        let mut tokens = BitTable::new(alloc, kernel.len(), columns)?;
        add_tokens(&mut tokens, kernel.as_slice(), singles.as_slice());
        if tokens.columns > columns {
            return Ok(false);
        }
        let entries = close(
            alloc,
            grammar,
            first,
            alternatives,
            &tokens,
            kernel.as_slice(),
            &mut self.table,
        )?;
        advance(grammar, &self.table, entries.as_slice(), buckets)?;
        let transitions = self.transitions_over(alloc, grammar, buckets)?;
        self.transitions.push(transitions)?;
        Ok(true)
    }

    // The transitions into the kernels of the buckets, which are empty then.
    fn transitions_over(
        &mut self,
        alloc: Global,
        grammar: &Grammar,
        buckets: &mut Buckets<Single>,
    ) -> Result<Vec<Transition>, AllocError> {
        buckets.used.sort_unstable();
        let mut transitions = Vec::new(alloc);
        for place in &buckets.used {
            if let Some(bucket) = buckets.lists.get_mut(*place) {
                bucket.sort_unstable();
                bucket.dedup();
                let kernel = bucket.as_slice().to_vec(alloc)?;
                bucket.clear();
                let (to, _) = self.kernels.insert_full(kernel)?;
                transitions.push(Transition {
                    symbol: symbol_at(grammar, *place),
                    to,
                })?;
            }
        }
        buckets.used.clear();
        Ok(transitions)
    }

    // The automaton of the states.
    fn finish(self, alloc: Global, columns: usize) -> Result<Automaton, AllocError> {
        let States {
            kernels,
            transitions,
            table,
        } = self;
        drop(table);
        let mut states = Vec::new(alloc);
        let mut row = 0usize;
        for (singles, transitions) in kernels.iter().zip(transitions) {
            let kernel = entries_of(alloc, singles.as_slice(), row)?;
            row = row.saturating_add(kernel.len());
            states.push(State {
                kernel,
                transitions,
            })?;
        }
        let mut tokens = BitTable::new(alloc, row, columns)?;
        for (singles, state) in kernels.iter().zip(states.iter()) {
            add_tokens(&mut tokens, state.kernel.as_slice(), singles.as_slice());
        }
        Ok(Automaton { states, tokens })
    }
}

/// The canonical LR(1) automaton of a grammar; `None` where it has more states than the limit.
pub fn canonical(
    alloc: Global,
    grammar: &Grammar,
    first: &FirstSets,
    alternatives: &Alternatives,
    limit: usize,
) -> Result<Option<Automaton>, AllocError>
    requires first { IsFirstOf grammar.now first.now }
    requires alternatives { AreAlternatives grammar.now alternatives.now }
{
    let mut buckets = Buckets::new(alloc, grammar)?;
    let mut states = States {
        kernels: IndexSet::new(alloc),
        transitions: Vec::new(alloc),
        table: BitTable::new(alloc, 0, 0)?,
    };
    let start = vec![in alloc;
        Single {
            item: Item {
                production: 0,
                dot: 0,
            },
            token: grammar.terminals.len(),
        },
    ]?;
    let _ = states.kernels.insert_full(start)?;
    for from in 0..usize::MAX {
        if states.kernels.len() > limit {
            return Ok(None);
        }
        if !states.expand(alloc, grammar, first, alternatives, &mut buckets, from)? {
            break;
        }
    }
    let automaton = states.finish(alloc, grammar.terminals.len() + 1)?;
    Ok(Some(automaton))
}
