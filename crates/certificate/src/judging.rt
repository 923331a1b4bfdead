//! Certificates of conflicts, and the judge of what they show.

ghost use Rattle.std.specs.Prelude.{◌≡◌, ◌≢◌, ◌<◌, ◌≤◌, ◌↔◌, All, length, take, slice_get, IsTrue, IfOk};
ghost use Rattle.certificate.specs.Sets.{AreUseful, IsIn, SymbolIn};
ghost use Rattle.certificate.specs.Readings.{shifts_of, is_shift};
ghost use Rattle.certificate.specs.Shown.{PartAt, IsShown, HasTwoParses, HasTwoInputs, form_of};

use crate::reading::{Action, is_reading, is_same_form};
use crate::useful::UsefulSets;
use grammar::{Grammar, Symbol};
use std::alloc::{AllocError, Global};

/// Where a parser may do two things: before a token it may reduce by a production, or take another action.
#[derive(Clone, Copy, Debug, PartialEq, Eq)]
pub struct Fork {
    pub token: usize,
    pub production: usize,
    pub other: Action,
}

/// Two forms that are the same up to a fork's token and with it, and for each a reading as one nonterminal.
#[derive(Debug, Drop)]
pub struct Certificate {
    /// The nonterminal that both forms are read as.
    pub root: usize,
    /// What stands before the token.
    pub front: Vec<Symbol>,
    /// What stands behind it where the parser reduces.
    pub tail: Vec<Symbol>,
    /// What stands behind it where the parser takes the other action.
    pub other_tail: Vec<Symbol>,
    /// The reading that reduces.
    pub first: Vec<Action>,
    /// The reading that takes the other action.
    pub second: Vec<Action>,
}

/// What a certificate shows.
#[derive(Clone, Copy, Debug, PartialEq, Eq)]
pub enum Verdict {
    /// One input has two parses, which part at the fork: the grammar is ambiguous.
    Ambiguous,
    /// Two inputs that are the same up to the token and with it have parses that part at the fork.
    TwoInputs,
    /// Nothing: the certificate is wrong.
    Refused,
}

fn is_same_action(a: Action, b: Action) -> bool
    ensures { IsTrue result ↔ (a ≡ b) }
{
    a == b
}

fn reads(action: Action) -> bool
    ensures { result ≡ is_shift action }
{
    match action {
        Action::Shift => true,
        Action::Reduce(_) => false,
    }
}

// How many symbols the actions read.
fn shifts(actions: &[Action]) -> usize
    ensures { result ≡ shifts_of actions.now }
{
    actions.iter().filter(|action| reads(**action)).count()
}

// With how many actions both readings begin.
fn common(first: &[Action], second: &[Action]) -> usize
    ensures within { result ≤ length first.now }
    ensures within_second { result ≤ length second.now }
    ensures same { take result first.now ≡ take result second.now }
    ensures parts { result < length first.now → result < length second.now
        → slice_get first.now result ≢ slice_get second.now result }
{
    let count = first.len().min(second.len());
    for i in 0..count {
        if !is_same_action(first[i], second[i]) {
            return i;
        }
    }
    count
}

// Whether the readings part at the fork, when so many symbols are read.
fn part_at(fork: Fork, first: &[Action], second: &[Action], point: usize) -> bool
    ensures { IsTrue result ↔ PartAt fork first.now second.now point }
{
    let at = common(first, second);
    if at >= first.len() || at >= second.len() {
        return false;
    }
    if !is_same_action(first[at], Action::Reduce(fork.production)) {
        return false;
    }
    if !is_same_action(second[at], fork.other) {
        return false;
    }
    shifts(&first[..at]) == point
}

// The symbols before the token, the token, and those behind it.
fn joined(
    alloc: Global,
    front: &[Symbol],
    token: usize,
    tail: &[Symbol],
) -> Result<Vec<Symbol>, AllocError>
    ensures { IfOk result (λ v. v.items ≡ form_of front.now token tail.now) }
{
    let mut form = Vec::new(alloc);
    form.extend_from_slice(front)?;
    form.push(Symbol::Terminal(token))?;
    form.extend_from_slice(tail)?;
    Ok(form)
}

// Whether the certificate's root stands in sentences, and each of its symbols derives one.
fn is_of_use(useful: &UsefulSets, certificate: &Certificate) -> bool
    ensures { IsTrue result ↔ (IsIn useful.now.reachable certificate.now.root
        × All (SymbolIn useful.now.productive) certificate.now.front.items
        × All (SymbolIn useful.now.productive) certificate.now.tail.items
        × All (SymbolIn useful.now.productive) certificate.now.other_tail.items) }
{
    useful.reachable.contains(certificate.root)
        && useful.productive.has_all(certificate.front.as_slice())
        && useful.productive.has_all(certificate.tail.as_slice())
        && useful.productive.has_all(certificate.other_tail.as_slice())
}

// Whether a certificate shows what it is to show.
fn is_shown(
    alloc: Global,
    grammar: &Grammar,
    useful: &UsefulSets,
    fork: Fork,
    certificate: &Certificate,
) -> Result<bool, AllocError>
    requires { AreUseful grammar.now.productions.items useful.now }
    ensures { IfOk result (λ b. IsTrue b
        ↔ IsShown grammar.now.productions.items fork certificate.now) }
{
    let root = Symbol::Nonterminal(certificate.root);
    let front = certificate.front.as_slice();
    let first = certificate.first.as_slice();
    let second = certificate.second.as_slice();
    if !part_at(fork, first, second, front.len()) {
        return Ok(false);
    }
    let form = joined(alloc, front, fork.token, certificate.tail.as_slice())?;
    if !is_reading(alloc, grammar, first, form.as_slice(), root)? {
        return Ok(false);
    }
    let other_form = joined(alloc, front, fork.token, certificate.other_tail.as_slice())?;
    if !is_reading(alloc, grammar, second, other_form.as_slice(), root)? {
        return Ok(false);
    }
    Ok(is_of_use(useful, certificate))
}

/// What a certificate shows of a fork. A certificate may come from anywhere.
pub fn judge(
    alloc: Global,
    grammar: &Grammar,
    useful: &UsefulSets,
    fork: Fork,
    certificate: &Certificate,
) -> Result<Verdict, AllocError>
    requires { AreUseful grammar.now.productions.items useful.now }
    ensures ambiguous { result ≡ Ok Verdict.Ambiguous
        → HasTwoParses grammar.now.productions.items fork }
    ensures two_inputs { result ≡ Ok Verdict.TwoInputs
        → HasTwoInputs grammar.now.productions.items fork }
    ensures accepted { IfOk result (λ v. (v ≢ Verdict.Refused)
        ↔ IsShown grammar.now.productions.items fork certificate.now) }
    ensures one_form { IfOk result (λ v. (v ≡ Verdict.Ambiguous)
        ↔ (IsShown grammar.now.productions.items fork certificate.now
        × (certificate.now.tail.items ≡ certificate.now.other_tail.items))) }
{
    if !is_shown(alloc, grammar, useful, fork, certificate)? {
        return Ok(Verdict::Refused);
    }
    let tail = certificate.tail.as_slice();
    if is_same_form(tail, certificate.other_tail.as_slice()) {
        Ok(Verdict::Ambiguous)
    } else {
        Ok(Verdict::TwoInputs)
    }
}
