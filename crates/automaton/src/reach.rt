//! The nonterminals whose productions a closure has.

ghost use Rattle.std.specs.Prelude.{◌≡◌, ℕ, ◌<◌, ◌↔◌, ◌⊎◌, [], All, Contains, IfOk, OnOk, vec_len};
ghost use Rattle.automaton.specs.Reach.{leading_of, IsMarked, Leads, IsReached};
ghost use Rattle.automaton.specs.Alternatives.{AreAlternatives};

use crate::{Alternatives, Item, rest};
use grammar::{Grammar, Symbol};
use std::alloc::{AllocError, Global};

/// The nonterminal that the symbols begin with, if they begin with one.
pub fn leading(symbols: &[Symbol]) -> Option<usize>
    ensures { result ≡ leading_of symbols.now }
{
    match symbols.split_first() {
        Some((Symbol::Nonterminal(n), _)) => Some(*n),
        _ => None,
    }
}

// The nonterminals that were met, and those of them whose productions were not yet looked at.
#[derive(Drop)]
struct Frontier {
    met: Vec<bool>,
    waiting: Vec<usize>,
}

impl Frontier {
    ghost use Rattle.automaton.specs.Reach.{size_of};

    // Of this many nonterminals none is met.
    fn new(alloc: Global, count: usize) -> Result<Frontier, AllocError>
        ensures len { IfOk result (λ f. vec_len f.met ≡ count) }
        ensures none { IfOk result (λ f. (m : ℕ) → ¬ (IsMarked f.met.items m)) }
        ensures waiting { IfOk result (λ f. f.waiting.items ≡ []) }
    {
        Ok(Frontier {
            met: vec![in alloc; false; count]?,
            waiting: Vec::new(alloc),
        })
    }

    // Meets a nonterminal, and lets it wait if that is new.
    fn meet(&mut self, n: usize) -> Result<(), AllocError>
        requires n { n < vec_len self.old.met }
        requires waiting { All (λ m. m < vec_len self.old.met) self.old.waiting.items }
        ensures len { OnOk result (vec_len self.new.met ≡ vec_len self.old.met) }
        ensures marked { OnOk result (IsMarked self.new.met.items n) }
        ensures keeps { OnOk result ((m : ℕ) → IsMarked self.old.met.items m
            → IsMarked self.new.met.items m) }
        ensures waits { OnOk result ((m : ℕ) → IsMarked self.new.met.items m
            → IsMarked self.old.met.items m ⊎ Contains self.new.waiting.items m) }
        ensures stays { OnOk result ((m : ℕ) → Contains self.old.waiting.items m
            → Contains self.new.waiting.items m) }
        ensures only { OnOk result ((m : ℕ) → Contains self.new.waiting.items m
            → Contains self.old.waiting.items m ⊎ (m ≡ n)) }
        ensures waiting { OnOk result (All (λ m. m < vec_len self.new.met) self.new.waiting.items) }
        ensures size { OnOk result (size_of self.new ≡ size_of self.old) }
    {
        if self.met[n] {
            return Ok(());
        }
        self.waiting.push(n)?;
        self.met[n] = true;
        Ok(())
    }

    // Meets what the productions begin with.
    fn meet_leading(&mut self, grammar: &Grammar, productions: &[usize]) -> Result<(), AllocError>
        requires met { vec_len self.old.met ≡ vec_len grammar.now.nonterminals }
        requires waiting { All (λ m. m < vec_len self.old.met) self.old.waiting.items }
        ensures len { OnOk result (vec_len self.new.met ≡ vec_len self.old.met) }
        ensures marked { OnOk result ((q m : ℕ) → Contains productions.now q → Leads grammar.now q m
            → IsMarked self.new.met.items m) }
        ensures keeps { OnOk result ((m : ℕ) → IsMarked self.old.met.items m
            → IsMarked self.new.met.items m) }
        ensures waits { OnOk result ((m : ℕ) → IsMarked self.new.met.items m
            → IsMarked self.old.met.items m ⊎ Contains self.new.waiting.items m) }
        ensures stays { OnOk result ((m : ℕ) → Contains self.old.waiting.items m
            → Contains self.new.waiting.items m) }
        ensures only { OnOk result ((m : ℕ) → Contains self.new.waiting.items m
            → Contains self.old.waiting.items m
            ⊎ ((q : ℕ) × Contains productions.now q × Leads grammar.now q m)) }
        ensures waiting { OnOk result (All (λ m. m < vec_len self.new.met) self.new.waiting.items) }
        ensures size { OnOk result (size_of self.new ≡ size_of self.old) }
    {
        for q in productions {
            let item = Item {
                production: *q,
                dot: 0,
            };
            if let Some(m) = leading(rest(grammar, item)) {
                self.meet(m)?;
            }
        }
        Ok(())
    }
}

/// The nonterminals that are reached from these by what their productions begin with, each once.
pub fn reachable(
    alloc: Global,
    grammar: &Grammar,
    alternatives: &Alternatives,
    starts: &[usize],
) -> Result<Vec<usize>, AllocError>
    requires alternatives { AreAlternatives grammar.now alternatives.now }
    requires starts { All (λ n. n < vec_len grammar.now.nonterminals) starts.now }
    ensures in_range { IfOk result (λ v. All (λ n. n < vec_len grammar.now.nonterminals) v.items) }
    ensures exact { IfOk result (λ v. (n : ℕ)
        → Contains v.items n ↔ IsReached grammar.now starts.now n) }
{
    let mut frontier = Frontier::new(alloc, grammar.nonterminals.len())?;
    let mut reached = Vec::new(alloc);
    for n in starts {
        frontier.meet(*n)?;
    }
    'visiting: while let Some(n) = frontier.waiting.pop() {
        reached.push(n)?;
        frontier.meet_leading(grammar, alternatives.of(n))?;
    }
    Ok(reached)
}
