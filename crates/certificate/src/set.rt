//! Sets of nonterminals.

ghost use Rattle.std.specs.Prelude.{◌≡◌, ℕ, ◌<◌, ◌≤◌, ◌↔◌, ◌⊎◌, All, IsTrue, IfOk, vec_len};
ghost use Rattle.std.specs.Bool.{OnTrue, OnFalse};

use grammar::Symbol;
use std::alloc::{AllocError, Global};

/// A set of nonterminals, by their numbers.
#[derive(Debug, Drop)]
pub struct NonterminalSet {
    pub members: Vec<bool>,
}

impl NonterminalSet {
    ghost use Rattle.certificate.specs.Sets.{IsIn, SymbolIn, room_of};

    /// The set of none of so many.
    pub fn new(alloc: Global, count: usize) -> Result<NonterminalSet, AllocError>
        ensures len { IfOk result (λ s. vec_len s.members ≡ count) }
        ensures empty { IfOk result (λ s. (n : ℕ) → IsIn s n → ⊥) }
    {
        Ok(NonterminalSet {
            members: vec![in alloc; false; count]?,
        })
    }

    /// Whether a nonterminal is in the set.
    pub fn contains(&self, nonterminal: usize) -> bool
        ensures { IsTrue result ↔ IsIn self.now nonterminal }
    {
        nonterminal < self.members.len() && self.members[nonterminal]
    }

    /// Whether a symbol is a terminal or in the set.
    pub fn has_symbol(&self, symbol: Symbol) -> bool
        ensures { IsTrue result ↔ SymbolIn self.now symbol }
    {
        match symbol {
            Symbol::Terminal(_) => true,
            Symbol::Nonterminal(n) => self.contains(n),
        }
    }

    /// Whether each of the symbols is a terminal or in the set.
    pub fn has_all(&self, symbols: &[Symbol]) -> bool
        ensures { IsTrue result ↔ All (SymbolIn self.now) symbols.now }
    {
        for symbol in symbols {
            if !self.has_symbol(*symbol) {
                return false;
            }
        }
        true
    }

    /// Puts a nonterminal into the set, and answers whether it is new there.
    pub fn insert(&mut self, nonterminal: usize) -> bool
        requires { nonterminal < vec_len self.old.members }
        ensures len { vec_len self.new.members ≡ vec_len self.old.members }
        ensures added { IsIn self.new nonterminal }
        ensures keeps { (n : ℕ) → IsIn self.old n → IsIn self.new n }
        ensures only { (n : ℕ) → IsIn self.new n → IsIn self.old n ⊎ (n ≡ nonterminal) }
        ensures same { OnFalse result (self.new.members ≡ self.old.members) }
        ensures room { (room_of self.new ≤ room_of self.old)
            × OnTrue result (room_of self.new < room_of self.old) }
    {
        if self.members[nonterminal] {
            return false;
        }
        self.members[nonterminal] = true;
        true
    }
}
