//! Which nonterminals are of use: those that derive sentences, and those that stand in some.

ghost use Rattle.std.specs.Prelude.{◌≡◌, ℕ, ◌+◌, ◌<◌, ◌≤◌, ◌↔◌, ◌⊎◌, List, All, IsTrue, IfOk, Some, slice_get, take, drop, length, vec_len};
ghost use Rattle.std.specs.Bool.{OnTrue, OnFalse};
ghost use Rattle.grammar.specs.Derives.{HasRule};
ghost use Rattle.grammar.specs.declared.symbol.Production.{Production};
ghost use Rattle.certificate.specs.Sentences.{DerivesSentence, IsInReach};
ghost use Rattle.certificate.specs.Sets.{IsIn, SymbolIn, AreUseful, AreProductive, AreReachable, IsClosedFor, PassesOn, StandsAt, FitsIn, room_of};

use crate::set::NonterminalSet;
use grammar::{Grammar, Production, Symbol};
use std::alloc::{AllocError, Global};

/// The nonterminals that are of use in a grammar.
#[derive(Debug, Drop)]
pub struct UsefulSets {
    /// Those that derive a sentence.
    pub productive: NonterminalSet,
    /// Those that the start symbol derives among terminals alone.
    pub reachable: NonterminalSet,
}

// Puts the left side into the set where the right side derives a sentence, and answers whether it is new.
fn grow(set: &mut NonterminalSet, production: &Production) -> bool
    requires { FitsIn (vec_len set.old.members) production.now }
    ensures len { vec_len set.new.members ≡ vec_len set.old.members }
    ensures sound { (ps : List Production)
        → HasRule ps production.now.left production.now.right.items
        → AreProductive ps set.old → AreProductive ps set.new }
    ensures closed { OnFalse result (IsClosedFor set.new production.now) }
    ensures same { OnFalse result (set.new.members ≡ set.old.members) }
    ensures room { (room_of set.new ≤ room_of set.old)
        × OnTrue result (room_of set.new < room_of set.old) }
{
    if !set.has_all(production.right.as_slice()) {
        return false;
    }
    set.insert(production.left)
}

// Takes each production once, and answers whether something is new.
fn grow_all(set: &mut NonterminalSet, productions: &[Production]) -> bool
    requires { All (FitsIn (vec_len set.old.members)) productions.now }
    ensures len { vec_len set.new.members ≡ vec_len set.old.members }
    ensures sound { AreProductive productions.now set.old → AreProductive productions.now set.new }
    ensures closed { OnFalse result (All (IsClosedFor set.new) productions.now) }
    ensures room { (room_of set.new ≤ room_of set.old)
        × OnTrue result (room_of set.new < room_of set.old) }
{
    let mut changed = false;
    for production in productions {
        if grow(set, production) {
            changed = true;
        }
    }
    changed
}

// Whether the symbol at `i` stands among productive ones.
fn stands_alone(productive: &NonterminalSet, right: &[Symbol], i: usize) -> bool
    requires { i < length right.now }
    ensures { IsTrue result ↔ (All (SymbolIn productive.now) (take i right.now)
        × All (SymbolIn productive.now) (drop (i + 1) right.now)) }
{
    productive.has_all(&right[..i]) && productive.has_all(&right[i + 1..])
}

// Puts the nonterminal at `i` into the set where it stands among productive symbols, and answers whether it is new.
fn reach_at(
    set: &mut NonterminalSet,
    productive: &NonterminalSet,
    right: &[Symbol],
    i: usize,
) -> bool
    requires within { i < length right.now }
    requires fits { (n : ℕ) → slice_get right.now i ≡ Some (Symbol.Nonterminal n)
        → n < vec_len set.old.members }
    ensures len { vec_len set.new.members ≡ vec_len set.old.members }
    ensures adds { (n : ℕ) → StandsAt productive.now right.now i n → IsIn set.new n }
    ensures keeps { (n : ℕ) → IsIn set.old n → IsIn set.new n }
    ensures only { (n : ℕ) → IsIn set.new n
        → IsIn set.old n ⊎ StandsAt productive.now right.now i n }
    ensures same { OnFalse result (set.new.members ≡ set.old.members) }
    ensures room { (room_of set.new ≤ room_of set.old)
        × OnTrue result (room_of set.new < room_of set.old) }
{
    match right[i] {
        Symbol::Terminal(_) => false,
        Symbol::Nonterminal(n) => stands_alone(productive, right, i) && set.insert(n),
    }
}

// Puts what a production passes on into the set, and answers whether something is new.
fn reach(set: &mut NonterminalSet, productive: &NonterminalSet, production: &Production) -> bool
    requires { FitsIn (vec_len set.old.members) production.now }
    ensures len { vec_len set.new.members ≡ vec_len set.old.members }
    ensures keeps { (n : ℕ) → IsIn set.old n → IsIn set.new n }
    ensures sound { (ps : List Production)
        → HasRule ps production.now.left production.now.right.items
        → AreProductive ps productive.now → AreReachable ps set.old → AreReachable ps set.new }
    ensures closed { OnFalse result (PassesOn productive.now set.new production.now) }
    ensures same { OnFalse result (set.new.members ≡ set.old.members) }
    ensures room { (room_of set.new ≤ room_of set.old)
        × OnTrue result (room_of set.new < room_of set.old) }
{
    if !set.contains(production.left) {
        return false;
    }
    let right = production.right.as_slice();
    let mut changed = false;
    for i in 0..right.len() {
        if reach_at(set, productive, right, i) {
            changed = true;
        }
    }
    changed
}

// Takes each production once, and answers whether something is new.
fn reach_all(
    set: &mut NonterminalSet,
    productive: &NonterminalSet,
    productions: &[Production],
) -> bool
    requires { All (FitsIn (vec_len set.old.members)) productions.now }
    ensures len { vec_len set.new.members ≡ vec_len set.old.members }
    ensures keeps { (n : ℕ) → IsIn set.old n → IsIn set.new n }
    ensures sound { AreProductive productions.now productive.now
        → AreReachable productions.now set.old → AreReachable productions.now set.new }
    ensures closed { OnFalse result (All (PassesOn productive.now set.new) productions.now) }
    ensures room { (room_of set.new ≤ room_of set.old)
        × OnTrue result (room_of set.new < room_of set.old) }
{
    let mut changed = false;
    for production in productions {
        if reach(set, productive, production) {
            changed = true;
        }
    }
    changed
}

// Puts the start symbol into the set, if there is one.
fn start(set: &mut NonterminalSet, productions: &[Production])
    requires { All (FitsIn (vec_len set.old.members)) productions.now }
    ensures len { vec_len set.new.members ≡ vec_len set.old.members }
    ensures added { (p : Production) → slice_get productions.now 0 ≡ Some p → IsIn set.new p.left }
    ensures sound { AreReachable productions.now set.old → AreReachable productions.now set.new }
{
    if productions.len() > 0 {
        let _ = set.insert(productions[0].left);
    }
}

// The nonterminals that derive sentences.
fn productive_of(alloc: Global, grammar: &Grammar) -> Result<NonterminalSet, AllocError>
    ensures { IfOk result (λ s. (n : ℕ)
        → IsIn s n ↔ DerivesSentence grammar.now.productions.items (Symbol.Nonterminal n)) }
{
    let productions = grammar.productions.as_slice();
    let mut set = NonterminalSet::new(alloc, grammar.nonterminals.len())?;
    while grow_all(&mut set, productions) {}
    Ok(set)
}

// The nonterminals that stand in sentences.
fn reachable_of(
    alloc: Global,
    grammar: &Grammar,
    productive: &NonterminalSet,
) -> Result<NonterminalSet, AllocError>
    requires { (n : ℕ) → IsIn productive.now n
        ↔ DerivesSentence grammar.now.productions.items (Symbol.Nonterminal n) }
    ensures { IfOk result (λ s. (n : ℕ)
        → IsIn s n ↔ IsInReach grammar.now.productions.items n) }
{
    let productions = grammar.productions.as_slice();
    let mut set = NonterminalSet::new(alloc, grammar.nonterminals.len())?;
    start(&mut set, productions);
    while reach_all(&mut set, productive, productions) {}
    Ok(set)
}

impl UsefulSets {
    /// The sets of a grammar.
    pub fn new(alloc: Global, grammar: &Grammar) -> Result<UsefulSets, AllocError>
        ensures { IfOk result (AreUseful grammar.now.productions.items) }
    {
        let productive = productive_of(alloc, grammar)?;
        let reachable = reachable_of(alloc, grammar, &productive)?;
        Ok(UsefulSets {
            productive,
            reachable,
        })
    }
}
