use crate::entry::{json_of_conflict, json_of_settled};
use conflict_report::{Report, Subject};
use serde_json::{Value, json};
use std::alloc::{AllocError, Global};

/// How many conflicts are expected.
#[derive(Clone, Copy, Debug, PartialEq, Eq)]
pub struct Expected {
    pub shift_reduce: usize,
    pub reduce_reduce: usize,
    /// Whether the grammar or the caller says so; else none are expected.
    pub is_given: bool,
    pub is_met: bool,
}

/// What is said of a file beside its report.
#[derive(Clone, Copy, Debug)]
pub struct Facts<'a> {
    /// The kind of automaton: `lalr` or `lr1`.
    pub table: &'a str,
    pub uses_precedence: bool,
    pub expected: Expected,
    /// Whether the conflicts that precedence settles are told too.
    pub shows_settled: bool,
}

fn summary(alloc: Global, facts: &Facts, report: &Report) -> Result<Value, AllocError> {
    let summary = report.summary;
    let entries = report.entries.len();
    let expected = facts.expected;
    json!(in alloc; {
        "shift_reduce": summary.counts.shift_reduce as u64,
        "reduce_reduce": summary.counts.reduce_reduce as u64,
        "distinct": summary.distinct as u64,
        "settled": summary.settled as u64,
        "entries": entries as u64,
        "left_out": report.left_out as u64,
        "nonterminals": summary.nonterminals as u64,
        "terminals": summary.terminals as u64,
        "productions": summary.productions as u64,
        "states": summary.states as u64,
        "table": facts.table,
        "precedence": facts.uses_precedence,
        "expected": {
            "shift_reduce": expected.shift_reduce as u64,
            "reduce_reduce": expected.reduce_reduce as u64,
            "given": expected.is_given,
            "met": expected.is_met
        }
    })
}

// The object of one file with no more than its summary.
fn summary_object(
    alloc: Global,
    subject: &Subject,
    facts: &Facts,
    report: &Report,
) -> Result<Value, AllocError> {
    let summary = summary(alloc, facts, report)?;
    json!(in alloc; {"file": subject.file, "summary": summary})
}

fn conflicts(alloc: Global, subject: &Subject, report: &Report) -> Result<Value, AllocError> {
    let mut conflicts = Vec::new(alloc);
    for entry in &report.entries {
        conflicts.push(json_of_conflict(alloc, subject, entry)?)?;
    }
    Ok(Value::Array(conflicts))
}

fn settled(alloc: Global, subject: &Subject, report: &Report) -> Result<Value, AllocError> {
    let mut settled = Vec::new(alloc);
    for entry in &report.settled {
        settled.push(json_of_settled(alloc, subject, entry)?)?;
    }
    Ok(Value::Array(settled))
}

// The object of one file.
fn object(
    alloc: Global,
    subject: &Subject,
    facts: &Facts,
    report: &Report,
) -> Result<Value, AllocError> {
    let conflicts = conflicts(alloc, subject, report)?;
    let summary = summary(alloc, facts, report)?;
    if !facts.shows_settled {
        return json!(in alloc; {
            "file": subject.file,
            "summary": summary,
            "conflicts": conflicts
        });
    }
    let settled = settled(alloc, subject, report)?;
    json!(in alloc; {
        "file": subject.file,
        "summary": summary,
        "conflicts": conflicts,
        "settled": settled
    })
}

/// The object of one file, on one line without its end.
pub fn json_of(
    alloc: Global,
    subject: &Subject,
    facts: &Facts,
    report: &Report,
) -> Result<String, AllocError> {
    object(alloc, subject, facts, report)?.to_string(alloc)
}

/// The object of one file with no more than its summary.
pub fn summary_of(
    alloc: Global,
    subject: &Subject,
    facts: &Facts,
    report: &Report,
) -> Result<String, AllocError> {
    summary_object(alloc, subject, facts, report)?.to_string(alloc)
}
