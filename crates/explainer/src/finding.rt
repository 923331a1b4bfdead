ghost use Rattle.std.specs.Prelude.{◌≡◌, IfOk, min};
ghost use Rattle.automaton.specs.Resolutions.{resolved_in, shift_reduce_count, reduce_reduce_count};
ghost use Rattle.conflict_report.specs.Groups.{open_of, settled_of};
ghost use Rattle.conflict_report.specs.Entries.{Shows};
ghost use Rattle.explainer.specs.Told.{TellsAll};

use crate::Table;
use automaton::{count_reduce_reduce, count_shift_reduce, resolve};
use conflict_report::{Counts, Detail, Findings, Report};
use construction::{Analysis, Failure, Kind, conflicts_of_grammar};
use grammar::Grammar;
use std::alloc::Global;

/// How many canonical LR(1) states are made at most.
pub const MOST_STATES: usize = 100_000;

/// The report of a grammar, and what it was made from.
#[derive(Debug, Drop)]
pub struct Found {
    pub analysis: Analysis,
    pub report: Report,
}

fn kind_of(table: Table) -> Kind {
    match table {
        Table::Lalr => Kind::Lalr,
        Table::Lr1 => Kind::Canonical { limit: MOST_STATES },
    }
}

// The report of what was found.
fn told(
    alloc: Global,
    grammar: &Grammar,
    analysis: &Analysis,
    uses_precedence: bool,
    detail: Detail,
) -> Result<Report, Failure>
    ensures shows { IfOk result (λ r. Shows
        (open_of (resolved_in grammar.now uses_precedence analysis.now.clashes.items)) r.entries.items) }
    ensures settles { IfOk result (λ r. Shows
        (settled_of (resolved_in grammar.now uses_precedence analysis.now.clashes.items)) r.settled.items) }
    ensures shift_reduce { IfOk result (λ r. r.summary.counts.shift_reduce
        ≡ shift_reduce_count grammar.now uses_precedence analysis.now.clashes.items) }
    ensures reduce_reduce { IfOk result (λ r. r.summary.counts.reduce_reduce
        ≡ min usize.MAX (reduce_reduce_count grammar.now uses_precedence analysis.now.clashes.items)) }
{
    let clashes = analysis.clashes.as_slice();
    let conflicts = resolve(alloc, grammar, uses_precedence, clashes)?;
    let findings = Findings {
        grammar,
        automaton: &analysis.automaton,
        conflicts: conflicts.as_slice(),
        counts: Counts {
            shift_reduce: count_shift_reduce(grammar, uses_precedence, clashes),
            reduce_reduce: count_reduce_reduce(grammar, uses_precedence, clashes),
        },
    };
    let report = Report::new(alloc, &findings, detail)?;
    Ok(report)
}

/// The report of a grammar by an automaton of this kind. It tells each conflict of the grammar's
/// LR(1) items, as it comes out by precedence, and counts those that are left as bison does.
pub fn find(
    alloc: Global,
    grammar: &Grammar,
    table: Table,
    uses_precedence: bool,
    detail: Detail,
) -> Result<Found, Failure>
    ensures tells_all { IfOk result (λ f. TellsAll grammar.now uses_precedence
        f.analysis.automaton f.analysis.clashes.items f.report) }
    ensures shift_reduce { IfOk result (λ f. f.report.summary.counts.shift_reduce
        ≡ shift_reduce_count grammar.now uses_precedence f.analysis.clashes.items) }
    ensures reduce_reduce { IfOk result (λ f. f.report.summary.counts.reduce_reduce
        ≡ min usize.MAX (reduce_reduce_count grammar.now uses_precedence f.analysis.clashes.items)) }
{
    let analysis = conflicts_of_grammar(alloc, grammar, kind_of(table))?;
    let report = told(alloc, grammar, &analysis, uses_precedence, detail)?;
    Ok(Found { analysis, report })
}
