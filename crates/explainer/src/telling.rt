use crate::expectation::{expected_by, status_by};
use crate::finding::{Found, MOST_STATES, find};
use crate::lines::{push_check, push_report};
use crate::useless::useless_precedence;
use crate::{Format, Mode, Options, Status, Table, VERSION};
use conflict_report::{Report, Subject};
use construction::Failure;
use diagnostics::{Diagnostic, Renderer};
use grammar::Grammar;
use report_json::{Expected, Facts, json_of, summary_of};
use source::Lines;
use std::alloc::{AllocError, Global};
use yacc_grammar::{Reading, UnknownStart, read_grammar};

/// What a file comes to: its status, and what is written.
#[derive(Debug, Drop)]
pub struct Outcome {
    pub status: Status,
    /// For the standard output.
    pub out: String,
    /// For the standard error.
    pub errors: String,
}

impl Outcome {
    fn new(alloc: Global) -> Outcome {
        Outcome {
            status: Status::Expected,
            out: String::new(alloc),
            errors: String::new(alloc),
        }
    }
}

fn push_diagnostics(
    errors: &mut String,
    renderer: &Renderer,
    diagnostics: &[Diagnostic],
) -> Result<(), AllocError> {
    for diagnostic in diagnostics {
        renderer.push_diagnostic(errors, diagnostic)?;
    }
    Ok(())
}

fn push_unknown_start(
    errors: &mut String,
    name: &str,
    start: &str,
    unknown: &UnknownStart,
) -> Result<(), AllocError> {
    write!(
        errors,
        "lihvemur: {name}: --start {start}: no rule has this name"
    )?;
    if let Some(meant) = &unknown.meant {
        write!(errors, "; did you mean `{meant}`?")?;
    }
    errors.push('\n')
}

// Why there is no report.
fn push_failure(errors: &mut String, name: &str, failure: &Failure) -> Result<(), AllocError> {
    match failure {
        Failure::Memory => writeln!(errors, "lihvemur: {name}: out of memory"),
        Failure::Limit => writeln!(
            errors,
            "lihvemur: {name}: there are more than {MOST_STATES} canonical LR(1) states; `--table lalr` needs fewer"
        ),
        Failure::Refused => {
            writeln!(
                errors,
                "lihvemur: {name}: the automaton that was made did not pass its check, so nothing is said of the conflicts"
            )?;
            writeln!(
                errors,
                "help: this is a defect of lihvemur {VERSION}, not of the grammar: please report it with the file and the options"
            )
        }
    }
}

fn table_name(table: Table) -> &'static str {
    match table {
        Table::Lalr => "lalr",
        Table::Lr1 => "lr1",
    }
}

fn push_json(
    alloc: Global,
    out: &mut String,
    options: &Options,
    subject: &Subject,
    report: &Report,
    expected: Expected,
) -> Result<(), AllocError> {
    let facts = Facts {
        table: table_name(options.table),
        uses_precedence: options.uses_precedence,
        expected,
        shows_settled: options.shows_settled,
    };
    let line = match options.mode {
        Mode::Explain => json_of(alloc, subject, &facts, report)?,
        Mode::Check => summary_of(alloc, subject, &facts, report)?,
    };
    out.push_str(line.as_str())?;
    out.push('\n')
}

// What is told of a grammar that was read.
fn tell(
    alloc: Global,
    options: &Options,
    renderer: &Renderer,
    error_renderer: &Renderer,
    grammar: &Grammar,
    outcome: &mut Outcome,
) -> Result<(), AllocError> {
    let name = renderer.name;
    let found = find(
        alloc,
        grammar,
        options.table,
        options.uses_precedence,
        options.detail,
    );
    let mut report = match found {
        Ok(Found { analysis, report }) => {
            if options.uses_precedence && !options.is_quiet {
                let warnings = useless_precedence(alloc, grammar, analysis.clashes.as_slice())?;
                push_diagnostics(&mut outcome.errors, error_renderer, warnings.as_slice())?;
            }
            report
        }
        Err(failure) => {
            outcome.status = Status::Limited;
            return push_failure(&mut outcome.errors, name, &failure);
        }
    };
    let subject = Subject {
        file: name,
        lines: renderer.lines,
        grammar,
    };
    if let Some(only) = &options.only {
        report.keep_only(&subject, only);
    }
    let expected = expected_by(options, grammar, report.summary.counts);
    outcome.status = status_by(expected);
    let out = &mut outcome.out;
    if options.format == Format::Json {
        return push_json(alloc, out, options, &subject, &report, expected);
    }
    if options.is_quiet {
        return Ok(());
    }
    match options.mode {
        Mode::Check => push_check(out, name, &report, expected),
        Mode::Explain => push_report(out, options, renderer, &subject, &report, expected),
    }
}

/// What is written of a file, by its name and its text. Of a file with errors nothing but these.
pub fn explain(
    alloc: Global,
    options: &Options,
    name: &str,
    text: &[u8],
) -> Result<Outcome, AllocError> {
    let mut outcome = Outcome::new(alloc);
    let start = options.start.as_ref().map(|start| start.as_str());
    let Reading {
        grammar,
        diagnostics,
        unknown_start,
    } = read_grammar(alloc, text, start)?;
    let lines = Lines::new(alloc, text)?;
    let renderer = Renderer {
        alloc,
        name,
        lines: &lines,
        is_colored: options.is_colored,
    };
    let error_renderer = Renderer {
        alloc,
        name,
        lines: &lines,
        is_colored: options.has_colored_errors,
    };
    match grammar {
        Some(grammar) => {
            if !options.is_quiet {
                push_diagnostics(&mut outcome.errors, &error_renderer, diagnostics.as_slice())?;
            }
            tell(
                alloc,
                options,
                &renderer,
                &error_renderer,
                &grammar,
                &mut outcome,
            )?;
        }
        None => {
            outcome.status = Status::Unread;
            push_diagnostics(&mut outcome.errors, &error_renderer, diagnostics.as_slice())?;
            if let Some(unknown) = &unknown_start {
                outcome.status = Status::Failed;
                push_unknown_start(&mut outcome.errors, name, start.unwrap_or(""), unknown)?;
            }
        }
    }
    Ok(outcome)
}
