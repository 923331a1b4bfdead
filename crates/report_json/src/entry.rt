use crate::rule::{json_of_names, json_of_numbers, json_of_rule, json_of_tokens};
use automaton::{Other, Resolution};
use conflict_report::{Decision, Entry, Subject};
use serde_json::{Value, json};
use std::alloc::{AllocError, Global};

fn kind(other: Other) -> &'static str {
    match other {
        Other::Shift => "shift_reduce",
        Other::Reduce(_) => "reduce_reduce",
    }
}

// The rules of an entry, the reduced one first.
fn rules(alloc: Global, subject: &Subject, entry: &Entry) -> Result<Value, AllocError> {
    let mut list = Vec::new(alloc);
    list.push(json_of_rule(alloc, subject, entry.group.production, None)?)?;
    if let Other::Reduce(later) = entry.group.other {
        list.push(json_of_rule(alloc, subject, later, None)?)?;
    }
    for shifting in &entry.shifting {
        let shift = Some((shifting.item.dot, shifting.token));
        let number = shifting.item.production;
        list.push(json_of_rule(alloc, subject, number, shift)?)?;
    }
    Ok(Value::Array(list))
}

// What the parser does.
fn parser(alloc: Global, subject: &Subject, entry: &Entry) -> Result<Value, AllocError> {
    let mut list = Vec::new(alloc);
    for decided in &entry.decided {
        let tokens = json_of_tokens(alloc, subject, decided.tokens.as_slice())?;
        let value = match decided.decision {
            Decision::Shift => json!(in alloc; {"action": "shift", "tokens": tokens})?,
            Decision::Reduce(number) => {
                let rule = json_of_rule(alloc, subject, number, None)?;
                json!(in alloc; {"action": "reduce", "rule": rule, "tokens": tokens})?
            }
        };
        list.push(value)?;
    }
    Ok(Value::Array(list))
}

/// A conflict that is left.
pub fn json_of_conflict(
    alloc: Global,
    subject: &Subject,
    entry: &Entry,
) -> Result<Value, AllocError> {
    let tokens = json_of_tokens(alloc, subject, entry.tokens.as_slice())?;
    let states = json_of_numbers(alloc, entry.states.as_slice())?;
    let rules = rules(alloc, subject, entry)?;
    let after = json_of_names(alloc, subject, entry.after.as_slice())?;
    let parser = parser(alloc, subject, entry)?;
    json!(in alloc; {
        "kind": kind(entry.group.other),
        "tokens": tokens,
        "states": states,
        "rules": rules,
        "after": after,
        "parser": parser
    })
}

fn kept(resolution: Resolution) -> &'static str {
    match resolution {
        Resolution::ShiftKept => "shift",
        Resolution::ReductionKept => "reduction",
        Resolution::NeitherKept => "neither",
        Resolution::Open | Resolution::ShiftGone(_) | Resolution::ReductionGone(_) => "both",
    }
}

/// A conflict that precedence settles.
pub fn json_of_settled(
    alloc: Global,
    subject: &Subject,
    entry: &Entry,
) -> Result<Value, AllocError> {
    let tokens = json_of_tokens(alloc, subject, entry.tokens.as_slice())?;
    let states = json_of_numbers(alloc, entry.states.as_slice())?;
    let rules = rules(alloc, subject, entry)?;
    let after = json_of_names(alloc, subject, entry.after.as_slice())?;
    json!(in alloc; {
        "kind": kind(entry.group.other),
        "tokens": tokens,
        "states": states,
        "rules": rules,
        "after": after,
        "kept": kept(entry.group.resolution)
    })
}
