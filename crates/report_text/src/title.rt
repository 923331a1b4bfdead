use crate::note::COLUMNS;
use crate::words::{end_words, made_words, nonterminal_words, push_list, token_words};
use automaton::Other;
use conflict_report::{Entry, Shifting, Subject};
use std::alloc::{AllocError, Global};
use unicode_width::UnicodeWidthStr;

// How near the rule of a shifting item is to the reduced one: of the same nonterminal, or begun.
fn nearness(subject: &Subject, entry: &Entry, shifting: Shifting) -> usize {
    let Some(production) = subject.production(entry.group.production) else {
        return 0;
    };
    let is_same = match subject.production(shifting.item.production) {
        Some(other) => other.left == production.left,
        None => false,
    };
    match (shifting.item.dot > 0, is_same) {
        (true, true) => 2,
        (true, false) => 1,
        (false, _) => 0,
    }
}

/// The shifting item that is shown: the nearest to the reduced rule, and of those the first.
pub fn shown_item(subject: &Subject, entry: &Entry) -> Option<Shifting> {
    let mut best: Option<Shifting> = None;
    for shifting in &entry.shifting {
        let is_nearer = match best {
            Some(other) => nearness(subject, entry, other) < nearness(subject, entry, *shifting),
            None => true,
        };
        if is_nearer {
            best = Some(*shifting);
        }
    }
    best
}

// Whether all shifting items are of rules of one nonterminal.
fn is_of_one(subject: &Subject, entry: &Entry, left: &str) -> bool {
    entry
        .shifting
        .iter()
        .all(|shifting| subject.left(shifting.item.production) == left)
}

// What the shifts are to a reader.
fn shift_words(
    alloc: Global,
    subject: &Subject,
    entry: &Entry,
    shown: Shifting,
) -> Result<String, AllocError> {
    let reduced = entry.group.production;
    let number = shown.item.production;
    if number == 0 {
        return String::from_str(alloc, "the input can end");
    }
    let left = subject.left(number);
    if !is_of_one(subject, entry, left) {
        return String::from_str(alloc, "other rules can go on");
    }
    let begun = shown.item.dot > 0;
    let is_empty = match subject.production(reduced) {
        Some(production) => production.right.is_empty(),
        None => true,
    };
    if begun && !is_empty && left == subject.left(reduced) {
        return String::from_str(alloc, "go on");
    }
    let words = nonterminal_words(alloc, subject, number)?;
    let verb = if begun { "can go on" } else { "can begin" };
    format!(in alloc; "{words} {verb}")
}

/// What the two rules can do, in words.
pub fn choice_words(
    alloc: Global,
    subject: &Subject,
    entry: &Entry,
    rules: (usize, usize),
) -> Result<String, AllocError> {
    let (first, second) = rules;
    let one = made_words(alloc, subject, first)?;
    let ends = end_words(subject, first);
    match entry.group.other {
        Other::Shift => {
            let other = match shown_item(subject, entry) {
                Some(shown) => shift_words(alloc, subject, entry, shown)?,
                None => String::from_str(alloc, "go on")?,
            };
            format!(in alloc; "{one} {ends} or {other}")
        }
        Other::Reduce(_) => {
            let two = made_words(alloc, subject, second)?;
            let other_ends = end_words(subject, second);
            if one.as_str() == two.as_str() {
                format!(in alloc; "{one} {ends} by two rules")
            } else if ends == other_ends {
                format!(in alloc; "{one} or {two} {ends}")
            } else {
                format!(in alloc; "{one} {ends} or {two} {other_ends}")
            }
        }
    }
}

/// The tokens of an entry, the one that is shown first.
pub fn tokens_in_order<'a>(
    alloc: Global,
    subject: &Subject<'a>,
    entry: &Entry,
) -> Result<Vec<&'a str>, AllocError> {
    let mut names = Vec::new(alloc);
    let shown = shown_item(subject, entry);
    if let Some(shown) = shown {
        names.push(token_words(subject, shown.token))?;
    }
    for token in &entry.tokens {
        let is_shown = match shown {
            Some(shown) => shown.token == *token,
            None => false,
        };
        if !is_shown {
            names.push(token_words(subject, *token))?;
        }
    }
    Ok(names)
}

/// What is in conflict, in a sentence, and whether it names all tokens. It names them where they
/// fit behind what stands in front of it on its line.
pub fn title(
    alloc: Global,
    names: &[&str],
    choice: &str,
    in_front: usize,
) -> Result<(String, bool), AllocError> {
    let mut whole = String::from_str(alloc, "before ")?;
    push_list(&mut whole, names)?;
    whole.push(' ')?;
    whole.push_str(choice)?;
    let width = in_front.saturating_add(whole.as_str().width());
    if names.len() < 3 || width <= COLUMNS {
        return Ok((whole, true));
    }
    let first = names.first().copied().unwrap_or("");
    let others = names.len().saturating_sub(1);
    let short = format!(in alloc; "before {first} and {others} other tokens {choice}")?;
    Ok((short, false))
}
