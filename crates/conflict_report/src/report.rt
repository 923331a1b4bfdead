ghost use Rattle.std.specs.Prelude.{◌≡◌, ◌+◌, ◌≤◌, All, IfOk, Contains, vec_len, map, filter};
ghost use Rattle.automaton.specs.Alternatives.{AreAlternatives};
ghost use Rattle.conflict_report.specs.Groups.{AreGroupsOf, is_left, is_kept, open_of, settled_of};
ghost use Rattle.conflict_report.specs.Entries.{IsWholeEntry, Shows};

use crate::decision::Decisions;
use crate::entry::{Entry, Sources, entry_of};
use crate::group::{Group, by_rules, one_by_one};
use crate::{Only, Subject};
use automaton::{Alternatives, Automaton, Other, Resolution, Resolved, Ways};
use grammar::Grammar;
use std::alloc::{AllocError, Global};
use std::collections::HashSet;

/// How many conflicts are left, as bison counts them.
#[derive(Clone, Copy, Debug, PartialEq, Eq)]
pub struct Counts {
    /// At how many states and tokens a shift and a reduction are left.
    pub shift_reduce: usize,
    /// How many reductions are left beside the first of each state and token.
    pub reduce_reduce: usize,
}

/// What was found out about a grammar.
#[derive(Clone, Copy)]
pub struct Findings<'a> {
    pub grammar: &'a Grammar,
    pub automaton: &'a Automaton,
    /// All conflicts, each with how it comes out.
    pub conflicts: &'a [Resolved],
    pub counts: Counts,
}

/// How much is told in one entry.
#[derive(Clone, Copy, Debug, PartialEq, Eq)]
pub enum Detail {
    /// All states and tokens of a pair of rules.
    ByRules,
    /// One state and one token.
    ByState,
}

/// How large a grammar and its automaton are, and how many conflicts it has.
#[derive(Clone, Copy, Debug, PartialEq, Eq)]
pub struct Summary {
    /// How many nonterminals there are but `$accept`.
    pub nonterminals: usize,
    pub terminals: usize,
    /// How many productions there are but that of `$accept`.
    pub productions: usize,
    pub states: usize,
    pub counts: Counts,
    /// How many conflicts are left by their rules and token, whatever the state.
    pub distinct: usize,
    /// How many conflicts precedence settles, by state, token and production.
    pub settled: usize,
}

/// The conflicts of a grammar, as they are told.
#[derive(Debug, Drop)]
pub struct Report {
    pub detail: Detail,
    pub summary: Summary,
    /// The conflicts that are left, in the order of their places in the file.
    pub entries: Vec<Entry>,
    /// Those that precedence settles.
    pub settled: Vec<Entry>,
    /// How many entries and settled entries `keep_only` took out.
    pub left_out: usize,
    pub settled_left_out: usize,
}

fn is_open(resolution: Resolution) -> bool
    ensures { result ≡ is_left resolution }
{
    match resolution {
        Resolution::Open => true,
        Resolution::ShiftKept
        | Resolution::ReductionKept
        | Resolution::NeitherKept
        | Resolution::ShiftGone(_)
        | Resolution::ReductionGone(_) => false,
    }
}

fn is_settled(resolution: Resolution) -> bool
    ensures { result ≡ is_kept resolution }
{
    match resolution {
        Resolution::ShiftKept | Resolution::ReductionKept | Resolution::NeitherKept => true,
        Resolution::Open | Resolution::ShiftGone(_) | Resolution::ReductionGone(_) => false,
    }
}

// The conflicts that are left.
fn open(alloc: Global, conflicts: &[Resolved]) -> Result<Vec<Resolved>, AllocError>
    ensures { IfOk result (λ v. v.items ≡ open_of conflicts.now) }
{
    let mut list = Vec::new(alloc);
    for resolved in conflicts {
        if is_open(resolved.resolution) {
            list.push(*resolved)?;
        }
    }
    Ok(list)
}

// The conflicts that precedence settles.
fn settled(alloc: Global, conflicts: &[Resolved]) -> Result<Vec<Resolved>, AllocError>
    ensures { IfOk result (λ v. v.items ≡ settled_of conflicts.now) }
{
    let mut list = Vec::new(alloc);
    for resolved in conflicts {
        if is_settled(resolved.resolution) {
            list.push(*resolved)?;
        }
    }
    Ok(list)
}

fn groups_of(
    alloc: Global,
    grammar: &Grammar,
    conflicts: &[Resolved],
    detail: Detail,
) -> Result<Vec<Group>, AllocError>
    ensures { IfOk result (λ groups. AreGroupsOf conflicts.now groups.items) }
{
    match detail {
        Detail::ByRules => by_rules(alloc, grammar, conflicts),
        Detail::ByState => one_by_one(alloc, grammar, conflicts),
    }
}

// How many there are by their rules and token.
fn distinct_count(alloc: Global, conflicts: &[Resolved]) -> Result<usize, AllocError> {
    let mut met: HashSet<(usize, Option<usize>, usize)> = HashSet::new(alloc);
    for resolved in conflicts {
        let conflict = resolved.conflict;
        let other = match conflict.other {
            Other::Shift => None,
            Other::Reduce(later) => Some(later),
        };
        let _ = met.insert((conflict.production, other, conflict.token))?;
    }
    Ok(met.len())
}

// What is said of each group.
fn entries_of(
    alloc: Global,
    sources: &Sources,
    groups: Vec<Group>,
) -> Result<Vec<Entry>, AllocError>
    requires { AreAlternatives sources.now.findings.now.grammar.now sources.now.alternatives }
    ensures groups { IfOk result (λ v. map (λ e. e.group) v.items ≡ groups.items) }
    ensures whole { IfOk result (λ v. All IsWholeEntry v.items) }
{
    let mut entries = Vec::new(alloc);
    for group in groups {
        entries.push(entry_of(alloc, sources, group)?)?;
    }
    Ok(entries)
}

// What is said of the conflicts of a list.
fn told(
    alloc: Global,
    sources: &Sources,
    conflicts: &[Resolved],
    detail: Detail,
) -> Result<Vec<Entry>, AllocError>
    requires { AreAlternatives sources.now.findings.now.grammar.now sources.now.alternatives }
    ensures shows { IfOk result (λ v. Shows conflicts.now v.items) }
    ensures whole { IfOk result (λ v. All IsWholeEntry v.items) }
{
    let groups = groups_of(alloc, sources.findings.grammar, conflicts, detail)?;
    entries_of(alloc, sources, groups)
}

// Takes out the entries that are not about it, and returns how many these are.
fn keep(entries: &mut Vec<Entry>, subject: &Subject, only: &Only) -> usize
    ensures kept { (e : Entry) → Contains entries.new.items e → Contains entries.old.items e }
    ensures count { vec_len entries.new + result ≡ vec_len entries.old }
{
    let before = entries.len();
    entries.retain(|entry| only.is_about(subject, entry));
    before - entries.len()
}

impl Report {
    /// The report of what was found out. Each conflict that is left is in one of its entries, and each
    /// that precedence settles in one of its settled entries; the entries have no others.
    pub fn new(alloc: Global, findings: &Findings, detail: Detail) -> Result<Report, AllocError>
        ensures shows { IfOk result (λ r. Shows (open_of findings.now.conflicts.now) r.entries.items) }
        ensures settles { IfOk result (λ r.
            Shows (settled_of findings.now.conflicts.now) r.settled.items) }
        ensures whole { IfOk result (λ r. All IsWholeEntry r.entries.items) }
        ensures settled_whole { IfOk result (λ r. All IsWholeEntry r.settled.items) }
        ensures counts { IfOk result (λ r. r.summary.counts ≡ findings.now.counts) }
        ensures nothing_left_out { IfOk result (λ r. (r.left_out ≡ 0) × (r.settled_left_out ≡ 0)) }
    {
        let grammar = findings.grammar;
        let open = open(alloc, findings.conflicts)?;
        let settled = settled(alloc, findings.conflicts)?;
        let sources = Sources {
            alternatives: Alternatives::new(alloc, grammar)?,
            decisions: Decisions::new(alloc, grammar, findings.conflicts)?,
            ways: Ways::new(alloc, findings.automaton)?,
            findings,
        };
        let summary = Summary {
            nonterminals: grammar.nonterminals.len().saturating_sub(1),
            terminals: grammar.terminals.len(),
            productions: grammar.productions.len().saturating_sub(1),
            states: findings.automaton.states.len(),
            counts: findings.counts,
            distinct: distinct_count(alloc, open.as_slice())?,
            settled: settled.len(),
        };
        Ok(Report {
            detail,
            summary,
            entries: told(alloc, &sources, open.as_slice(), detail)?,
            settled: told(alloc, &sources, settled.as_slice(), detail)?,
            left_out: 0,
            settled_left_out: 0,
        })
    }

    /// Takes out the entries that are not about it, and counts them.
    pub fn keep_only(&mut self, subject: &Subject, only: &Only) {
        let left_out = keep(&mut self.entries, subject, only);
        let settled_left_out = keep(&mut self.settled, subject, only);
        self.left_out = self.left_out.saturating_add(left_out);
        self.settled_left_out = self.settled_left_out.saturating_add(settled_left_out);
    }
}
