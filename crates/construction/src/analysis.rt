//! The conflicts of a grammar, by an automaton of a kind.

ghost use Rattle.std.specs.Prelude.{IfOk};
ghost use Rattle.automaton.specs.Alternatives.{AreAlternatives};
ghost use Rattle.automaton.specs.Conflicts.{conflicts_in, MissesNone};
ghost use Rattle.automaton.specs.Spreading.{IsFirstOf};

use crate::canonical::canonical;
use crate::lalr::lalr;
use automaton::{Alternatives, Automaton, Clash, validated_clashes};
use first_sets::FirstSets;
use grammar::Grammar;
use std::alloc::{AllocError, Global};

/// Which automaton is made.
#[derive(Clone, Copy, Debug, PartialEq, Eq)]
pub enum Kind {
    /// LALR(1), as yacc and bison make it.
    Lalr,
    /// Canonical LR(1), of at most this many states.
    Canonical { limit: usize },
}

/// Why there is no answer.
#[derive(Clone, Copy, Debug, PartialEq, Eq)]
pub enum Failure {
    /// There is not enough memory.
    Memory,
    /// The automaton has more states than the limit.
    Limit,
    /// The validator refused the automaton: the fault is the maker's, and not the grammar's.
    Refused,
}

impl From<AllocError> for Failure {
    fn from(_error: AllocError) -> Failure {
        Failure::Memory
    }
}

/// An automaton of a grammar and its clashes.
#[derive(Debug, Drop)]
pub struct Analysis {
    pub alternatives: Alternatives,
    pub automaton: Automaton,
    pub clashes: Vec<Clash>,
}

// The automaton of this kind.
fn made(
    alloc: Global,
    grammar: &Grammar,
    first: &FirstSets,
    alternatives: &Alternatives,
    kind: Kind,
) -> Result<Automaton, Failure>
    requires first { IsFirstOf grammar.now first.now }
    requires alternatives { AreAlternatives grammar.now alternatives.now }
{
    match kind {
        Kind::Lalr => {
            let automaton = lalr(alloc, grammar, first, alternatives)?;
            Ok(automaton)
        }
        Kind::Canonical { limit } => match canonical(alloc, grammar, first, alternatives, limit)? {
            Some(automaton) => Ok(automaton),
            None => Err(Failure::Limit),
        },
    }
}

/// The clashes of a grammar, by an automaton of this kind. None of the grammar's conflicts is
/// missing among theirs: for all symbols and each token at which LR(1) items of the grammar are in
/// conflict, they have that pair of actions, in the state that the symbols lead to.
pub fn conflicts_of_grammar(
    alloc: Global,
    grammar: &Grammar,
    kind: Kind,
) -> Result<Analysis, Failure>
    ensures nothing_missed { IfOk result (λ a. MissesNone grammar.now a.automaton
        (conflicts_in a.clashes.items)) }
    ensures exact { IfOk result (λ a. AreAlternatives grammar.now a.alternatives) }
{
    let first = FirstSets::new(alloc, grammar)?;
    let alternatives = Alternatives::new(alloc, grammar)?;
    let automaton = made(alloc, grammar, &first, &alternatives, kind)?;
    match validated_clashes(alloc, grammar, &first, &alternatives, &automaton)? {
        Some(clashes) => Ok(Analysis {
            alternatives,
            automaton,
            clashes,
        }),
        None => Err(Failure::Refused),
    }
}

#[cfg(test)]
mod tests;
