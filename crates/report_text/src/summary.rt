use conflict_report::{Counts, Report};
use std::alloc::AllocError;

fn plural(count: usize) -> &'static str {
    if count == 1 { "" } else { "s" }
}

/// Appends counts as words: `3 shift/reduce, 1 reduce/reduce conflicts`, or `no conflicts`.
pub fn push_counts(out: &mut String, counts: Counts) -> Result<(), AllocError> {
    let shifts = counts.shift_reduce;
    let reductions = counts.reduce_reduce;
    match (shifts, reductions) {
        (0, 0) => out.push_str("no conflicts"),
        (_, 0) => {
            let end = plural(shifts);
            write!(out, "{shifts} shift/reduce conflict{end}")
        }
        (0, _) => {
            let end = plural(reductions);
            write!(out, "{reductions} reduce/reduce conflict{end}")
        }
        _ => write!(
            out,
            "{shifts} shift/reduce, {reductions} reduce/reduce conflicts"
        ),
    }
}

/// Appends in how many entries the conflicts are told, where that is not how many there are.
pub fn push_entry_count(out: &mut String, report: &Report) -> Result<(), AllocError> {
    let counts = report.summary.counts;
    let entries = report.entries.len().saturating_add(report.left_out);
    if entries == counts.shift_reduce.saturating_add(counts.reduce_reduce) {
        return Ok(());
    }
    let end = if entries == 1 { "y" } else { "ies" };
    write!(out, " in {entries} entr{end}")
}

/// Appends how many conflicts precedence settles, where it settles some.
pub fn push_settled_count(out: &mut String, report: &Report) -> Result<(), AllocError> {
    let settled = report.summary.settled;
    if settled == 0 {
        return Ok(());
    }
    write!(out, "; {settled} settled by precedence")
}
