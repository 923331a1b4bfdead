use conflict_report::Subject;
use grammar::{END, Symbol};
use std::alloc::{AllocError, Global};

fn article(name: &str) -> &'static str {
    match name.as_bytes().first() {
        Some(b'a' | b'e' | b'i' | b'o' | b'u' | b'A' | b'E' | b'I' | b'O' | b'U') => "an",
        _ => "a",
    }
}

/// A token as it stands in a sentence.
pub fn token_words<'a>(subject: &Subject<'a>, token: usize) -> &'a str {
    let name = subject.name(Symbol::Terminal(token));
    if token == END && name == "$end" {
        "the end of the input"
    } else {
        name
    }
}

/// What a rule makes, as it stands in a sentence.
pub fn made_words(alloc: Global, subject: &Subject, number: usize) -> Result<String, AllocError> {
    let left = subject.left(number);
    let Some(production) = subject.production(number) else {
        return Ok(String::new(alloc));
    };
    if subject.is_action(number) {
        let line = subject.line(production.span);
        return format!(in alloc; "the action at line {line}");
    }
    if production.right.is_empty() {
        return format!(in alloc; "an empty {left}");
    }
    let article = article(left);
    format!(in alloc; "{article} {left}")
}

/// A nonterminal as it stands in a sentence.
pub fn nonterminal_words(
    alloc: Global,
    subject: &Subject,
    number: usize,
) -> Result<String, AllocError> {
    let left = subject.left(number);
    let article = article(left);
    format!(in alloc; "{article} {left}")
}

/// What may be done with what a rule makes.
pub fn end_words(subject: &Subject, number: usize) -> &'static str {
    let is_empty = match subject.production(number) {
        Some(production) => production.right.is_empty(),
        None => false,
    };
    if subject.is_action(number) {
        "can be run here"
    } else if is_empty {
        "can stand here"
    } else {
        "can end here"
    }
}

/// Appends names with commas between them, and `and` before the last.
pub fn push_list(out: &mut String, names: &[&str]) -> Result<(), AllocError> {
    for (i, name) in names.iter().enumerate() {
        if i > 0 {
            let is_last = i.saturating_add(1) == names.len();
            out.push_str(if is_last { " and " } else { ", " })?;
        }
        out.push_str(name)?;
    }
    Ok(())
}
