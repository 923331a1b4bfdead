use crate::Options;
use crate::expectation::push_expected;
use conflict_report::{Only, Report, Subject};
use diagnostics::Renderer;
use report_json::Expected;
use report_text::{push_counts, push_entry, push_entry_count, push_settled, push_settled_count};
use std::alloc::AllocError;

// What was left out, as it was asked for.
fn push_left_out(
    out: &mut String,
    options: &Options,
    left_out: usize,
    entries: usize,
) -> Result<(), AllocError> {
    let all = entries.saturating_add(left_out);
    let verb = if left_out == 1 { "is" } else { "are" };
    match &options.only {
        Some(Only::Line(line)) => {
            writeln!(
                out,
                "--only {line}: {left_out} of {all} entries {verb} left out"
            )
        }
        Some(Only::Name(name)) => {
            writeln!(
                out,
                "--only {name}: {left_out} of {all} entries {verb} left out"
            )
        }
        None => Ok(()),
    }
}

/// Appends a report as text. The last line is how many conflicts there are.
pub fn push_report(
    out: &mut String,
    options: &Options,
    renderer: &Renderer,
    subject: &Subject,
    report: &Report,
    expected: Expected,
) -> Result<(), AllocError> {
    let shown;
    let left_out;
    if options.shows_settled {
        let mut before = None;
        for entry in &report.settled {
            push_settled(out, renderer, subject, before, entry)?;
            before = Some(entry);
        }
        shown = report.settled.len();
        left_out = report.settled_left_out;
        if shown > 0 {
            out.push('\n')?;
        }
    } else {
        for entry in &report.entries {
            push_entry(out, renderer, subject, entry, options.detail)?;
            out.push('\n')?;
        }
        shown = report.entries.len();
        left_out = report.left_out;
    }
    if left_out > 0 {
        push_left_out(out, options, left_out, shown)?;
    }
    push_name(out, options, renderer.name)?;
    push_counts(out, report.summary.counts)?;
    push_entry_count(out, report)?;
    push_expected(out, expected)?;
    push_settled_count(out, report)?;
    out.push('\n')
}

// The name of the file, where there are several.
fn push_name(out: &mut String, options: &Options, name: &str) -> Result<(), AllocError> {
    if options.files.len() > 1 {
        write!(out, "{name}: ")?;
    }
    Ok(())
}

/// Appends how many conflicts a file has, as one line.
pub fn push_check(
    out: &mut String,
    name: &str,
    report: &Report,
    expected: Expected,
) -> Result<(), AllocError> {
    write!(out, "{name}: ")?;
    push_counts(out, report.summary.counts)?;
    push_expected(out, expected)?;
    out.push('\n')
}
