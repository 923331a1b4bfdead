//! The sets, and how they grow.

ghost use Rattle.std.specs.Prelude.{◌≡◌, ℕ, ◌+◌, ◌<◌, ◌≤◌, ◌↔◌, ◌⊎◌, List, All, IsTrue, IfOk, vec_len};
ghost use Rattle.std.specs.Bool.{OnTrue, OnFalse};
ghost use Rattle.bit_table.specs.Table.{SameShape, KeepsBits};
ghost use Rattle.grammar.specs.Symbols.{SymbolFits, ProductionFits};
ghost use Rattle.grammar.specs.Derives.{HasRule, Begins, Vanishes};
ghost use Rattle.grammar.specs.declared.symbol.Production.{Production};

use bit_table::BitTable;
use grammar::{Grammar, Production, Symbol};
use std::alloc::{AllocError, Global};

/// Of each nonterminal the terminals that begin what it derives, and whether it derives nothing.
#[derive(Debug, Drop)]
pub struct FirstSets {
    pub sets: BitTable,
    pub nullable: Vec<bool>,
    ghost sized: { sets.rows ≡ vec_len nullable },
}

impl FirstSets {
    ghost use Rattle.first_sets.specs.Sets.{IsSound, IsClosedFor, AreFirstSets, IsSame, room_of, SymbolNull, SymbolFirst, null_of, first_of};

    // Whether a symbol may be empty.
    fn may_be_empty(&self, symbol: Symbol) -> bool
        requires { SymbolFits self.now.sets.columns (vec_len self.now.nullable) symbol }
        ensures { IsTrue result ↔ SymbolNull self.now symbol }
    {
        match symbol {
            Symbol::Terminal(_) => false,
            Symbol::Nonterminal(n) => self.nullable[n],
        }
    }

    // Whether the terminal begins the symbol, as far as the sets say.
    fn has(&self, symbol: Symbol, terminal: usize) -> bool
        requires terminal { terminal < self.now.sets.columns }
        requires symbol { SymbolFits self.now.sets.columns (vec_len self.now.nullable) symbol }
        ensures { IsTrue result ↔ SymbolFirst self.now symbol terminal }
    {
        match symbol {
            Symbol::Terminal(t) => t == terminal,
            Symbol::Nonterminal(n) => self.sets.contains(n, terminal),
        }
    }

    // Adds the terminals of a symbol to a nonterminal's, and answers whether one of them is new.
    fn add(&mut self, left: usize, symbol: Symbol) -> bool
        requires left { left < vec_len self.old.nullable }
        requires symbol { SymbolFits self.old.sets.columns (vec_len self.old.nullable) symbol }
        ensures shape { SameShape self.old.sets self.new.sets }
        ensures nullable { self.new.nullable ≡ self.old.nullable }
        ensures keeps { KeepsBits self.old.sets self.new.sets }
        ensures adds { (t : ℕ) → SymbolFirst self.old symbol t → first_of self.new left t }
        ensures only { (n t : ℕ) → first_of self.new n t → first_of self.old n t
            ⊎ ((n ≡ left) × SymbolFirst self.old symbol t) }
        ensures same { OnFalse result (KeepsBits self.new.sets self.old.sets) }
        ensures room { (room_of self.new ≤ room_of self.old) × OnTrue result
            (room_of self.new < room_of self.old) }
    {
        match symbol {
            Symbol::Terminal(t) => self.sets.insert(left, t),
            Symbol::Nonterminal(n) => self.sets.add_row(left, n),
        }
    }

    // Marks a nonterminal as one that may be empty, and answers whether that is new.
    fn mark(&mut self, left: usize) -> bool
        requires { left < vec_len self.old.nullable }
        ensures sets { self.new.sets ≡ self.old.sets }
        ensures len { vec_len self.new.nullable ≡ vec_len self.old.nullable }
        ensures marked { null_of self.new left }
        ensures only { (n : ℕ) → null_of self.new n → null_of self.old n ⊎ (n ≡ left) }
        ensures same { OnFalse result (self.new.nullable ≡ self.old.nullable) }
        ensures room { (room_of self.new ≤ room_of self.old) × OnTrue result
            (room_of self.new < room_of self.old) }
    {
        if self.nullable[left] {
            return false;
        }
        self.nullable[left] = true;
        true
    }

    // Adds what one production says, and answers whether that is new.
    fn grow(&mut self, production: &Production) -> bool
        requires { ProductionFits self.old.sets.columns (vec_len self.old.nullable) production.now }
        ensures shape { SameShape self.old.sets self.new.sets }
        ensures len { vec_len self.new.nullable ≡ vec_len self.old.nullable }
        ensures sound { (ps : List Production)
            → HasRule ps production.now.left production.now.right.items
            → IsSound ps self.old → IsSound ps self.new }
        ensures closed { OnFalse result
            (IsClosedFor self.new production.now.left production.now.right.items) }
        ensures same { OnFalse result (IsSame self.old self.new) }
        ensures room { (room_of self.new ≤ room_of self.old) × OnTrue result
            (room_of self.new < room_of self.old) }
    {
        let left = production.left;
        let mut changed = false;
        for symbol in &production.right {
            if self.add(left, *symbol) {
                changed = true;
            }
            if !self.may_be_empty(*symbol) {
                return changed;
            }
        }
        if self.mark(left) {
            return true;
        }
        changed
    }

    // Adds what each production says, and answers whether something was new.
    fn round(&mut self, productions: &[Production]) -> bool
        requires fits { All (ProductionFits self.old.sets.columns
            (vec_len self.old.nullable)) productions.now }
        ensures shape { SameShape self.old.sets self.new.sets }
        ensures len { vec_len self.new.nullable ≡ vec_len self.old.nullable }
        ensures sound { IsSound productions.now self.old → IsSound productions.now self.new }
        ensures closed { OnFalse result (All
            (λ p. IsClosedFor self.new p.left p.right.items) productions.now) }
        ensures room { (room_of self.new ≤ room_of self.old) × OnTrue result
            (room_of self.new < room_of self.old) }
    {
        let mut changed = false;
        for production in productions {
            if self.grow(production) {
                changed = true;
            }
        }
        changed
    }

    /// The sets of a grammar.
    pub fn new(alloc: Global, grammar: &Grammar) -> Result<FirstSets, AllocError>
        ensures exact { IfOk result (AreFirstSets grammar.now.productions.items) }
        ensures terminals { IfOk result (λ s. s.sets.columns ≡ vec_len grammar.now.terminals) }
        ensures nonterminals { IfOk result (λ s. vec_len s.nullable
            ≡ vec_len grammar.now.nonterminals) }
    {
        let nonterminals = grammar.nonterminals.len();
        let mut sets = FirstSets {
            sets: BitTable::new(alloc, nonterminals, grammar.terminals.len())?,
            nullable: vec![in alloc; false; nonterminals]?,
        };
        let productions = grammar.productions.as_slice();
        while sets.round(productions) {}
        Ok(sets)
    }

    /// Whether the symbols derive nothing, in some derivation.
    pub fn is_nullable(&self, symbols: &[Symbol]) -> bool
        requires { All (SymbolFits self.now.sets.columns (vec_len self.now.nullable)) symbols.now }
        ensures { (ps : List Production) → AreFirstSets ps self.now
            → IsTrue result ↔ Vanishes ps symbols.now }
    {
        for symbol in symbols {
            if !self.may_be_empty(*symbol) {
                return false;
            }
        }
        true
    }

    /// Whether the symbols derive a form that begins with the terminal.
    pub fn begins_with(&self, symbols: &[Symbol], terminal: usize) -> bool
        requires terminal { terminal < self.now.sets.columns }
        requires symbols { All (SymbolFits self.now.sets.columns
            (vec_len self.now.nullable)) symbols.now }
        ensures { (ps : List Production) → AreFirstSets ps self.now
            → IsTrue result ↔ Begins ps symbols.now terminal }
    {
        for symbol in symbols {
            if self.has(*symbol, terminal) {
                return true;
            }
            if !self.may_be_empty(*symbol) {
                return false;
            }
        }
        false
    }
}
