//! The productions of each nonterminal, so that a closure costs what it contains.

ghost use Rattle.std.specs.Prelude.{◌≡◌, ◌<◌, ◌++◌, [], ◌∷◌, IfOk, OnOk, slice_set, slice_index_or, vec_len};
ghost use Rattle.automaton.specs.Alternatives.{lists_of, alternatives_of, AreAlternatives};

use grammar::Grammar;
use std::alloc::{AllocError, Global};

/// The productions of each nonterminal, by their numbers.
#[derive(Debug, Drop)]
pub struct Alternatives {
    pub lists: Vec<Vec<usize>>,
}

// Adds a production to a nonterminal's.
fn add(lists: &mut Vec<Vec<usize>>, nonterminal: usize, production: usize) -> Result<(), AllocError>
    requires { nonterminal < vec_len lists.old }
    ensures len { vec_len lists.new ≡ vec_len lists.old }
    ensures ok { OnOk result (lists_of lists.new ≡ slice_set (lists_of lists.old) nonterminal
        (slice_index_or (lists_of lists.old) nonterminal [] ++ production ∷ [])) }
{
    let list = &mut lists[nonterminal];
    list.push(production)?;
    Ok(())
}

impl Alternatives {
    /// The productions of a grammar.
    pub fn new(alloc: Global, grammar: &Grammar) -> Result<Alternatives, AllocError>
        ensures { IfOk result (AreAlternatives grammar.now) }
    {
        let mut lists = Vec::new(alloc);
        for _ in 0..grammar.nonterminals.len() {
            lists.push(Vec::new(alloc))?;
        }
        for (q, production) in grammar.productions.iter().enumerate() {
            add(&mut lists, production.left, q)?;
        }
        Ok(Alternatives { lists })
    }

    /// Those of one nonterminal; none where there is no such nonterminal.
    pub fn of(&self, nonterminal: usize) -> &[usize]
        ensures { result.now ≡ alternatives_of self.now nonterminal }
    {
        match self.lists.get(nonterminal) {
            Some(list) => list.as_slice(),
            None => &[],
        }
    }
}
