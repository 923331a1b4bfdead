//! What is likely a mistake in a file whose names all stand for something.

use crate::reach::{is_set, productive, reachable, set, used};
use crate::table::Table;
use diagnostics::{Diagnostic, Reports};
use grammar::{Grammar, Production, Symbol};
use std::alloc::{AllocError, Global};
use std::collections::HashMap;
use yacc_file::{File, Name};

// Names the rules that derive no text; of the start's it is an error.
fn check_productive(
    alloc: Global,
    file: &File,
    table: &Table,
    reports: &mut Reports,
) -> Result<(), AllocError> {
    let mut known = productive(alloc, &table.grammar)?;
    for rule in &file.rules {
        let Symbol::Nonterminal(n) = table.symbol(rule.left.id) else {
            continue;
        };
        if set(known.as_mut_slice(), n) {
            let name = file.text(rule.left);
            let is_start = rule.left.id == table.start;
            let message = format!(in alloc;
                "`{name}` derives no text: none of its alternatives comes to an end"
            )?;
            let diagnostic = if is_start {
                Diagnostic::error(rule.left.span, message)
            } else {
                Diagnostic::warning(rule.left.span, message)
            };
            let help = format!(in alloc;
                "give it an alternative without `{name}`, and without other rules that lead back"
            )?;
            reports.push(diagnostic.with_help(help))?;
        }
    }
    Ok(())
}

// Names the rules that the start does not lead to.
fn check_reachable(
    alloc: Global,
    file: &File,
    table: &Table,
    reports: &mut Reports,
) -> Result<(), AllocError> {
    let mut known = reachable(alloc, &table.grammar)?;
    for rule in &file.rules {
        let Symbol::Nonterminal(n) = table.symbol(rule.left.id) else {
            continue;
        };
        if set(known.as_mut_slice(), n) {
            let name = file.text(rule.left);
            let message = format!(in alloc;
                "`{name}` is out of reach: no rule that the start leads to has it"
            )?;
            reports.push(Diagnostic::warning(rule.left.span, message))?;
        }
    }
    Ok(())
}

// Adds a name, if it is of a terminal that was not met yet.
fn push_unused(
    table: &Table,
    met: &mut [bool],
    unused: &mut Vec<Name>,
    name: Name,
) -> Result<(), AllocError> {
    if let Symbol::Terminal(t) = table.symbol(name.id)
        && set(met, t)
    {
        unused.push(name)?;
    }
    Ok(())
}

// The tokens that are declared, or have a precedence, and that no rule has.
fn unused_tokens(alloc: Global, file: &File, table: &Table) -> Result<Vec<Name>, AllocError> {
    let mut met = used(alloc, &table.grammar)?;
    let mut unused = Vec::new(alloc);
    for name in &file.tokens {
        push_unused(table, met.as_mut_slice(), &mut unused, *name)?;
    }
    for group in &file.groups {
        for name in &group.names {
            push_unused(table, met.as_mut_slice(), &mut unused, *name)?;
        }
    }
    Ok(unused)
}

// Names the tokens that no rule has, all in one.
fn check_used(
    alloc: Global,
    file: &File,
    table: &Table,
    reports: &mut Reports,
) -> Result<(), AllocError> {
    let unused = unused_tokens(alloc, file, table)?;
    let Some(first) = unused.first() else {
        return Ok(());
    };
    let span = first.span;
    let count = unused.len();
    let mut message = if count == 1 {
        String::from_str(alloc, "no rule has the token")?
    } else {
        format!(in alloc; "no rule has these {count} tokens:")?
    };
    for (i, name) in unused.iter().enumerate() {
        let comma = if i == 0 { "" } else { "," };
        let text = file.text(*name);
        message.push_str(comma)?;
        message.push_str(" `")?;
        message.push_str(text)?;
        message.push_str("`")?;
    }
    reports.push(Diagnostic::warning(span, message))
}

// A production as one list, its left side first.
fn key_of(alloc: Global, production: &Production) -> Result<Vec<Symbol>, AllocError> {
    let mut key = Vec::new(alloc);
    key.push(Symbol::Nonterminal(production.left))?;
    key.extend_from_slice(production.right.as_slice())?;
    Ok(key)
}

fn left_name<'a>(grammar: &'a Grammar, production: &Production) -> &'a str {
    match grammar.nonterminals.get(production.left) {
        Some(name) => name.as_str(),
        None => "",
    }
}

// An alternative that a rule has more than once: the first two productions, and how many there are.
#[derive(Clone, Copy)]
struct Repeat {
    first: usize,
    second: Option<usize>,
    count: usize,
}

// Of each alternative its productions, in the order of the first.
fn repeats(alloc: Global, grammar: &Grammar) -> Result<Vec<Repeat>, AllocError> {
    let mut seen: HashMap<Vec<Symbol>, usize> = HashMap::new(alloc);
    let mut repeats: Vec<Repeat> = Vec::new(alloc);
    for (index, production) in grammar.productions.iter().enumerate() {
        let key = key_of(alloc, production)?;
        match seen.get(key.as_slice()).copied() {
            Some(place) if place < repeats.len() => {
                let repeat = &mut repeats[place];
                repeat.count = repeat.count.saturating_add(1);
                repeat.second = repeat.second.or(Some(index));
            }
            _ => {
                let _ = seen.insert(key, repeats.len())?;
                repeats.push(Repeat {
                    first: index,
                    second: None,
                    count: 1,
                })?;
            }
        }
    }
    Ok(repeats)
}

// Says that a rule has an alternative more than once.
fn say_repeat(
    alloc: Global,
    grammar: &Grammar,
    repeat: Repeat,
    reports: &mut Reports,
) -> Result<(), AllocError> {
    let Some(second) = repeat
        .second
        .and_then(|index| grammar.productions.get(index))
    else {
        return Ok(());
    };
    let Some(first) = grammar.productions.get(repeat.first) else {
        return Ok(());
    };
    let name = left_name(grammar, second);
    let count = repeat.count;
    let message = if count == 2 {
        format!(in alloc; "`{name}` has this alternative twice")?
    } else {
        format!(in alloc; "`{name}` has this alternative {count} times")?
    };
    let other = String::from_str(alloc, "the first is here")?;
    reports.push(Diagnostic::warning(second.span, message).with_note(first.span, other))
}

// Names the alternatives that a rule has more than once, each once.
fn check_repeats(
    alloc: Global,
    grammar: &Grammar,
    reports: &mut Reports,
) -> Result<(), AllocError> {
    for repeat in &repeats(alloc, grammar)? {
        say_repeat(alloc, grammar, *repeat, reports)?;
    }
    Ok(())
}

// Names what was given a type and stands for nothing.
fn check_typed(
    alloc: Global,
    file: &File,
    table: &Table,
    reports: &mut Reports,
) -> Result<(), AllocError> {
    for name in &file.typed {
        if table.entry(name.id).is_none() {
            let text = file.text(*name);
            let message = format!(in alloc;
                "`{text}` is given a type, and is neither a token nor the name of a rule"
            )?;
            reports.push(Diagnostic::warning(name.span, message))?;
        }
    }
    Ok(())
}

/// Looks for what is likely a mistake.
pub fn check(
    alloc: Global,
    file: &File,
    table: &Table,
    reports: &mut Reports,
) -> Result<(), AllocError> {
    check_productive(alloc, file, table, reports)?;
    check_reachable(alloc, file, table, reports)?;
    check_repeats(alloc, &table.grammar, reports)?;
    check_used(alloc, file, table, reports)?;
    check_typed(alloc, file, table, reports)
}
