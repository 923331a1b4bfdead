//! Symbols by their places among all.

use grammar::{Grammar, Symbol};
use std::alloc::{AllocError, Global};

/// How many symbols a grammar has.
pub fn symbol_count(grammar: &Grammar) -> usize {
    grammar
        .terminals
        .len()
        .saturating_add(grammar.nonterminals.len())
}

/// The place of a symbol among all, the terminals first.
pub fn place_of(grammar: &Grammar, symbol: Symbol) -> usize {
    match symbol {
        Symbol::Terminal(t) => t,
        Symbol::Nonterminal(n) => grammar.terminals.len().saturating_add(n),
    }
}

/// The symbol at a place.
pub fn symbol_at(grammar: &Grammar, place: usize) -> Symbol {
    match place.checked_sub(grammar.terminals.len()) {
        Some(n) => Symbol::Nonterminal(n),
        None => Symbol::Terminal(place),
    }
}

/// Things by the symbols that they belong to, and the places of the symbols that have some.
#[derive(Drop)]
pub struct Buckets<T> {
    pub lists: Vec<Vec<T>>,
    pub used: Vec<usize>,
}

impl<T: Drop> Buckets<T> {
    /// An empty list for each symbol.
    pub fn new(alloc: Global, grammar: &Grammar) -> Result<Buckets<T>, AllocError> {
        let mut lists = Vec::new(alloc);
        for _ in 0..symbol_count(grammar) {
            lists.push(Vec::new(alloc))?;
        }
        Ok(Buckets {
            lists,
            used: Vec::new(alloc),
        })
    }

    /// Puts a thing into the list at a place.
    pub fn push(&mut self, place: usize, thing: T) -> Result<(), AllocError> {
        if let Some(list) = self.lists.get_mut(place) {
            if list.is_empty() {
                self.used.push(place)?;
            }
            list.push(thing)?;
        }
        Ok(())
    }
}
