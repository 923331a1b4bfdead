//! Levels of precedence that settle nothing.

use automaton::{Clash, resolve, used_terminals};
use diagnostics::Diagnostic;
use grammar::{Grammar, Level, Symbol};
use std::alloc::{AllocError, Global};

fn mark(marks: &mut Vec<bool>, terminal: usize) {
    if let Some(mark) = marks.get_mut(terminal) {
        *mark = true;
    }
}

// Of each terminal whether a rule has it, as a symbol or by `%prec`.
fn terminals_in_rules(alloc: Global, grammar: &Grammar) -> Result<Vec<bool>, AllocError> {
    let mut marks = vec![in alloc; false; grammar.terminals.len()]?;
    for production in &grammar.productions {
        for symbol in &production.right {
            if let Symbol::Terminal(terminal) = *symbol {
                mark(&mut marks, terminal);
            }
        }
        if let Some(terminal) = production.precedence {
            mark(&mut marks, terminal);
        }
    }
    Ok(marks)
}

fn is_marked(marks: &[bool], terminal: usize) -> bool {
    marks.get(terminal).copied().unwrap_or(false)
}

// The names of a level's terminals that stand in rules and settle nothing.
fn useless_names(
    alloc: Global,
    grammar: &Grammar,
    level: &Level,
    in_rules: &[bool],
    used: &[bool],
) -> Result<String, AllocError> {
    let mut names = String::new(alloc);
    for terminal in &level.terminals {
        let is_useless = is_marked(in_rules, *terminal) && !is_marked(used, *terminal);
        if let Some(name) = grammar.terminals.get(*terminal)
            && is_useless
        {
            let separator = if names.is_empty() { "" } else { ", " };
            write!(names, "{separator}`{name}`")?;
        }
    }
    Ok(names)
}

/// Returns a warning for each level that has terminals whose precedence settles no conflict. A
/// terminal that no rule has is not named: the reader warns of it.
pub fn useless_precedence(
    alloc: Global,
    grammar: &Grammar,
    clashes: &[Clash],
) -> Result<Vec<Diagnostic>, AllocError> {
    let conflicts = resolve(alloc, grammar, true, clashes)?;
    let used = used_terminals(alloc, grammar, conflicts.as_slice())?;
    let in_rules = terminals_in_rules(alloc, grammar)?;
    let mut warnings = Vec::new(alloc);
    for level in &grammar.levels {
        let names = useless_names(alloc, grammar, level, in_rules.as_slice(), used.as_slice())?;
        if !names.is_empty() {
            let message = format!(in alloc; "the precedence of {names} settles no conflict")?;
            warnings.push(Diagnostic::warning(level.span, message))?;
        }
    }
    Ok(warnings)
}
