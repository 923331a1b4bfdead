//! How conflicts come out by precedence, and their counts.

ghost use Rattle.std.specs.Prelude.{◌≡◌, ◌++◌, IfOk, OnOk, min};
ghost use Rattle.automaton.specs.Resolutions.{choice_in, takes_shift, taker_of, decided, against_shift, shift_resolution, loses, is_lost, resolution_of, resolved_of, resolved_in, left_count, is_shift_reduce, shift_reduce_count, reduce_reduce_count};

use crate::{Choice, Clash, Conflict, Other, choose, conflicts};
use grammar::Grammar;
use std::alloc::{AllocError, Global};

/// How a conflict comes out.
#[derive(Clone, Copy, Debug, PartialEq, Eq)]
pub enum Resolution {
    /// Nothing settles it.
    Open,
    /// Precedence keeps the shift.
    ShiftKept,
    /// Precedence keeps the reduction.
    ReductionKept,
    /// Precedence keeps neither: the token is an error there.
    NeitherKept,
    /// This other production took the shift away by its precedence.
    ShiftGone(usize),
    /// This production of the two lost against the shift by its precedence.
    ReductionGone(usize),
}

/// A conflict and how it comes out.
#[derive(Clone, Copy, Debug, PartialEq, Eq)]
pub struct Resolved {
    pub conflict: Conflict,
    pub resolution: Resolution,
}

// What precedence says of a production of a clash; nothing, where precedence is not used.
fn choice_for(grammar: &Grammar, used: bool, clash: &Clash, production: usize) -> Choice
    ensures { result ≡ choice_in grammar.now used clash.now production }
{
    if used {
        choose(grammar, production, clash.token)
    } else {
        Choice::Undecided
    }
}

fn takes(choice: Choice) -> bool
    ensures { result ≡ takes_shift choice }
{
    match choice {
        Choice::KeepReduction | Choice::KeepNeither => true,
        Choice::KeepShift | Choice::Undecided => false,
    }
}

// The first production that takes the shift away.
fn taker(grammar: &Grammar, used: bool, clash: &Clash) -> Option<usize>
    ensures { result ≡ taker_of grammar.now used clash.now }
{
    for production in &clash.reductions {
        if takes(choice_for(grammar, used, clash, *production)) {
            return Some(*production);
        }
    }
    None
}

fn decide(choice: Choice, otherwise: Resolution) -> Resolution
    ensures { result ≡ decided choice otherwise }
{
    match choice {
        Choice::KeepShift => Resolution::ShiftKept,
        Choice::KeepReduction => Resolution::ReductionKept,
        Choice::KeepNeither => Resolution::NeitherKept,
        Choice::Undecided => otherwise,
    }
}

// How a production comes out against the shift.
fn resolve_shift(grammar: &Grammar, used: bool, clash: &Clash, production: usize) -> Resolution
    ensures { result ≡ shift_resolution grammar.now used clash.now production }
{
    let choice = choice_for(grammar, used, clash, production);
    match taker(grammar, used, clash) {
        None => decide(choice, Resolution::Open),
        Some(taker) => {
            if taker < production {
                Resolution::ShiftGone(taker)
            } else {
                decide(choice, Resolution::ShiftGone(taker))
            }
        }
    }
}

// Whether a production is gone by then.
fn lost(grammar: &Grammar, used: bool, clash: &Clash, production: usize) -> bool
    ensures { result ≡ is_lost grammar.now used clash.now production }
{
    clash.shifts
        && matches!(
            resolve_shift(grammar, used, clash, production),
            Resolution::ShiftKept | Resolution::NeitherKept
        )
}

// How a conflict of a clash comes out.
fn resolve_conflict(
    grammar: &Grammar,
    used: bool,
    clash: &Clash,
    production: usize,
    other: Other,
) -> Resolution
    ensures { result ≡ resolution_of grammar.now used clash.now production other }
{
    match other {
        Other::Shift => resolve_shift(grammar, used, clash, production),
        Other::Reduce(q) => {
            if lost(grammar, used, clash, production) {
                Resolution::ReductionGone(production)
            } else if lost(grammar, used, clash, q) {
                Resolution::ReductionGone(q)
            } else {
                Resolution::Open
            }
        }
    }
}

// Adds the conflicts of a clash, each with how it comes out.
fn resolve_clash(
    alloc: Global,
    grammar: &Grammar,
    used: bool,
    clash: &Clash,
    list: &mut Vec<Resolved>,
) -> Result<(), AllocError>
    ensures { OnOk result (list.new.items ≡ list.old.items
        ++ resolved_of grammar.now used clash.now) }
{
    let found = conflicts(alloc, clash)?;
    for conflict in &found {
        let resolution = resolve_conflict(
            grammar,
            used,
            clash,
            conflict.production,
            conflict.other,
        );
        list.push(Resolved {
            conflict: *conflict,
            resolution,
        })?;
    }
    Ok(())
}

/// Each conflict of the clashes, in their order, with how it comes out. Precedence settles nothing
/// where it is not used.
pub fn resolve(
    alloc: Global,
    grammar: &Grammar,
    used: bool,
    clashes: &[Clash],
) -> Result<Vec<Resolved>, AllocError>
    ensures { IfOk result (λ v. v.items ≡ resolved_in grammar.now used clashes.now) }
{
    let mut list = Vec::new(alloc);
    for clash in clashes {
        resolve_clash(alloc, grammar, used, clash, &mut list)?;
    }
    Ok(list)
}

// How many reductions of a clash are left.
fn count_left(grammar: &Grammar, used: bool, clash: &Clash) -> usize
    ensures { result ≡ left_count grammar.now used clash.now }
{
    clash
        .reductions
        .iter()
        .filter(|production| !lost(grammar, used, clash, **production))
        .count()
}

// Whether a shift and a reduction are left.
fn is_open_shift(grammar: &Grammar, used: bool, clash: &Clash) -> bool
    ensures { result ≡ is_shift_reduce grammar.now used clash.now }
{
    clash.shifts && taker(grammar, used, clash).is_none() && count_left(grammar, used, clash) > 0
}

/// How many states and tokens have a shift and a reduction left, as bison counts them.
pub fn count_shift_reduce(grammar: &Grammar, used: bool, clashes: &[Clash]) -> usize
    ensures { result ≡ shift_reduce_count grammar.now used clashes.now }
{
    clashes
        .iter()
        .filter(|clash| is_open_shift(grammar, used, clash))
        .count()
}

/// How many reductions are left beside the first of each state and token, as bison counts them; the
/// largest number, where there are more than it says.
pub fn count_reduce_reduce(grammar: &Grammar, used: bool, clashes: &[Clash]) -> usize
    ensures { result ≡ min usize.MAX (reduce_reduce_count grammar.now used clashes.now) }
{
    let mut count = 0usize;
    for clash in clashes {
        count = count.saturating_add(count_left(grammar, used, clash).saturating_sub(1));
    }
    count
}
