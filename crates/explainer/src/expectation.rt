ghost use Rattle.std.specs.Prelude.{◌≡◌, ◌↔◌, IsTrue, true};

use crate::{Options, Status, Table};
use conflict_report::Counts;
use grammar::Grammar;
use report_json::Expected;
use std::alloc::AllocError;

// Whether the parser is the file's own. Only for that one does the file say how many it expects.
fn is_own(options: &Options) -> bool {
    options.uses_precedence && options.table == Table::Lalr && options.start.is_none()
}

// How many conflicts the file expects, if it says so.
fn said(options: &Options, number: Option<usize>) -> Option<usize> {
    if is_own(options) { number } else { None }
}

fn meets(counts: Counts, shift_reduce: usize, reduce_reduce: usize) -> bool
    ensures { IsTrue result
        ↔ ((counts.shift_reduce ≡ shift_reduce) × (counts.reduce_reduce ≡ reduce_reduce)) }
{
    counts.shift_reduce == shift_reduce && counts.reduce_reduce == reduce_reduce
}

/// How many conflicts are expected: as the options say, or else the file, or else none.
pub fn expected_by(options: &Options, grammar: &Grammar, counts: Counts) -> Expected
    ensures { IsTrue result.is_met ↔ ((counts.shift_reduce ≡ result.shift_reduce)
        × (counts.reduce_reduce ≡ result.reduce_reduce)) }
{
    let own = said(options, grammar.expected);
    let own_reductions = said(options, grammar.expected_reductions);
    let (shifts, reductions) = match options.expected {
        Some(expected) => (
            Some(expected.shift_reduce),
            expected.reduce_reduce.or(own_reductions),
        ),
        None => (own, own_reductions),
    };
    let shift_reduce = shifts.unwrap_or(0);
    let reduce_reduce = reductions.unwrap_or(0);
    Expected {
        shift_reduce,
        reduce_reduce,
        is_given: shifts.is_some() || reductions.is_some(),
        is_met: meets(counts, shift_reduce, reduce_reduce),
    }
}

/// The status of a file with these conflicts.
pub fn status_by(expected: Expected) -> Status
    ensures { (result ≡ Status.Expected) ↔ IsTrue expected.is_met }
{
    if expected.is_met {
        Status::Expected
    } else {
        Status::Conflicts
    }
}

fn plural(count: usize) -> &'static str {
    if count == 1 { " is" } else { " are" }
}

/// Appends whether the conflicts are those that are expected, where that was said.
pub fn push_expected(out: &mut String, expected: Expected) -> Result<(), AllocError> {
    if !expected.is_given {
        return Ok(());
    }
    if expected.is_met {
        return out.push_str(", as expected");
    }
    let shifts = expected.shift_reduce;
    let reductions = expected.reduce_reduce;
    if reductions == 0 {
        let verb = plural(shifts);
        return write!(out, ", but {shifts} shift/reduce{verb} expected");
    }
    if shifts == 0 {
        let verb = plural(reductions);
        return write!(out, ", but {reductions} reduce/reduce{verb} expected");
    }
    write!(
        out,
        ", but {shifts} shift/reduce and {reductions} reduce/reduce are expected"
    )
}
