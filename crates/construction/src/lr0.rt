//! LR(0) states.

ghost use Rattle.automaton.specs.Alternatives.{AreAlternatives};

use crate::symbols::{Buckets, place_of, symbol_at};
use automaton::{Alternatives, Entry, Item, Transition, behind_dots, reachable, rest};
use grammar::Grammar;
use indexmap::IndexSet;
use std::alloc::{AllocError, Global};

/// The LR(0) states of a grammar, numbered as they are met: breadth first, over the symbols in
/// order, the terminals first. So bison numbers them.
#[derive(Drop)]
pub struct States {
    /// The items of each kernel ascend.
    pub kernels: IndexSet<Vec<Item>>,
    /// Of each state, ascending by their symbols.
    pub transitions: Vec<Vec<Transition>>,
    /// Of each state the nonterminals whose productions are in its closure.
    pub reached: Vec<Vec<usize>>,
}

// Puts an item with the dot moved into the bucket of the symbol that it moved over.
fn advance(grammar: &Grammar, item: Item, buckets: &mut Buckets<Item>) -> Result<(), AllocError> {
    let Some((symbol, _)) = rest(grammar, item).split_first() else {
        return Ok(());
    };
    let moved = Item {
        production: item.production,
        dot: item.dot.saturating_add(1),
    };
    buckets.push(place_of(grammar, *symbol), moved)
}

// The items as entries, whatever their tokens.
fn entries_of(alloc: Global, items: &[Item]) -> Result<Vec<Entry>, AllocError> {
    let mut entries = Vec::new(alloc);
    for item in items {
        entries.push(Entry {
            item: *item,
            tokens: 0,
        })?;
    }
    Ok(entries)
}

impl States {
    // Adds the transitions of a state, with the states that they lead to. False where there is no
    // such state.
    fn expand(
        &mut self,
        alloc: Global,
        grammar: &Grammar,
        alternatives: &Alternatives,
        buckets: &mut Buckets<Item>,
        from: usize,
    ) -> Result<bool, AllocError>
        requires { AreAlternatives grammar.now alternatives.now }
    {
        let Some(kernel) = self.kernels.get_index(from) else {
            return Ok(false);
        };
        let entries = entries_of(alloc, kernel.as_slice())?;
        let starts = behind_dots(alloc, grammar, entries.as_slice())?;
        let reached = reachable(alloc, grammar, alternatives, starts.as_slice())?;
        for entry in &entries {
            advance(grammar, entry.item, buckets)?;
        }
        for n in &reached {
            advance_alternatives(grammar, alternatives.of(*n), buckets)?;
        }
        let transitions = self.transitions_over(alloc, grammar, buckets)?;
        self.transitions.push(transitions)?;
        self.reached.push(reached)?;
        Ok(true)
    }

    // The transitions into the kernels of the buckets, which are empty then.
    fn transitions_over(
        &mut self,
        alloc: Global,
        grammar: &Grammar,
        buckets: &mut Buckets<Item>,
    ) -> Result<Vec<Transition>, AllocError> {
        buckets.used.sort_unstable();
        let mut transitions = Vec::new(alloc);
        for place in &buckets.used {
            if let Some(bucket) = buckets.lists.get_mut(*place) {
                bucket.sort_unstable();
                let kernel = bucket.as_slice().to_vec(alloc)?;
                bucket.clear();
                let (to, _) = self.kernels.insert_full(kernel)?;
                transitions.push(Transition {
                    symbol: symbol_at(grammar, *place),
                    to,
                })?;
            }
        }
        buckets.used.clear();
        Ok(transitions)
    }

    /// All states, from that of the first production.
    pub fn new(
        alloc: Global,
        grammar: &Grammar,
        alternatives: &Alternatives,
    ) -> Result<States, AllocError>
        requires { AreAlternatives grammar.now alternatives.now }
    {
        let mut buckets = Buckets::new(alloc, grammar)?;
        let mut states = States {
            kernels: IndexSet::new(alloc),
            transitions: Vec::new(alloc),
            reached: Vec::new(alloc),
        };
        let start = vec![in alloc;
            Item {
                production: 0,
                dot: 0
            },
        ]?;
        let _ = states.kernels.insert_full(start)?;
        for from in 0..usize::MAX {
            if !states.expand(alloc, grammar, alternatives, &mut buckets, from)? {
                break;
            }
        }
        Ok(states)
    }
}

// The same for productions with the dot before their first symbol.
fn advance_alternatives(
    grammar: &Grammar,
    productions: &[usize],
    buckets: &mut Buckets<Item>,
) -> Result<(), AllocError> {
    for q in productions {
        advance(
            grammar,
            Item {
                production: *q,
                dot: 0,
            },
            buckets,
        )?;
    }
    Ok(())
}
