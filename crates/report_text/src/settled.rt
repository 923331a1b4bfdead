use crate::entry::span_of;
use crate::marks::marks_of;
use crate::note::Note;
use crate::words::made_words;
use automaton::{Resolution, level, level_of_production, precedence_terminal};
use conflict_report::{Entry, Subject};
use diagnostics::{Renderer, Style};
use grammar::{Associativity, Symbol};
use std::alloc::{AllocError, Global};

// How the level of a rule and that of a token compare.
#[derive(Clone, Copy, Debug, PartialEq, Eq)]
enum Comparison {
    Higher,
    Lower,
    Same(Associativity),
}

fn compare(subject: &Subject, production: usize, token: usize) -> Option<Comparison> {
    let own = level_of_production(subject.grammar, production)?;
    let other = level(subject.grammar, token)?;
    if other > own {
        return Some(Comparison::Higher);
    }
    if other < own {
        return Some(Comparison::Lower);
    }
    let level = subject.grammar.levels.get(own)?;
    Some(Comparison::Same(level.associativity))
}

fn directive(associativity: Associativity) -> &'static str {
    match associativity {
        Associativity::Left => "%left",
        Associativity::Right => "%right",
        Associativity::Nonassoc => "%nonassoc",
        Associativity::Precedence => "%precedence",
    }
}

fn outcome(resolution: Resolution) -> &'static str {
    match resolution {
        Resolution::ShiftKept => "shifts",
        Resolution::ReductionKept => "reduces",
        Resolution::NeitherKept => "gives an error",
        Resolution::Open | Resolution::ShiftGone(_) | Resolution::ReductionGone(_) => "goes on",
    }
}

// Whose precedence a rule has, and where that level is declared.
fn level_note(alloc: Global, subject: &Subject, production: usize) -> Result<Note, AllocError> {
    let mut note = Note::new(alloc);
    let Some(found) = subject.production(production) else {
        return Ok(note);
    };
    let Some(terminal) = precedence_terminal(found) else {
        return Ok(note);
    };
    note.push_words("its precedence is that of")?;
    note.push(subject.name(Symbol::Terminal(terminal)))?;
    if found.precedence.is_some() {
        note.push_words("by %prec")?;
    }
    if let Some(own) = level(subject.grammar, terminal)
        && let Some(level) = subject.grammar.levels.get(own)
    {
        let word = directive(level.associativity);
        let line = subject.line(level.span);
        let words = format!(in alloc; "({word}, line {line})")?;
        note.push_words(words.as_str())?;
    }
    Ok(note)
}

fn reason(alloc: Global, comparison: Comparison, is_one: bool) -> Result<String, AllocError> {
    let subject = if is_one { "it is" } else { "they are" };
    match comparison {
        Comparison::Higher => format!(in alloc; "since {subject} of a higher level"),
        Comparison::Lower => format!(in alloc; "since {subject} of a lower level"),
        Comparison::Same(associativity) => {
            let word = directive(associativity);
            format!(in alloc; "since {subject} of the same level, and that is {word}")
        }
    }
}

// What comes out before the tokens of one comparison.
fn push_comparison(
    alloc: Global,
    subject: &Subject,
    entry: &Entry,
    wanted: Comparison,
    notes: &mut Vec<Note>,
) -> Result<(), AllocError> {
    let production = entry.group.production;
    let mut tokens = Vec::new(alloc);
    for token in &entry.tokens {
        if compare(subject, production, *token) == Some(wanted) {
            tokens.push(*token)?;
        }
    }
    if tokens.is_empty() {
        return Ok(());
    }
    let mut note = Note::new(alloc);
    note.push("before")?;
    note.push_tokens(subject, tokens.as_slice())?;
    let outcome = outcome(entry.group.resolution);
    let reason = reason(alloc, wanted, tokens.len() == 1)?;
    let words = format!(in alloc; "the parser {outcome}, {reason}")?;
    note.push_words(words.as_str())?;
    notes.push(note)?;
    Ok(())
}

static COMPARISONS: [Comparison; 6] = [
    Comparison::Lower,
    Comparison::Same(Associativity::Left),
    Comparison::Same(Associativity::Right),
    Comparison::Same(Associativity::Nonassoc),
    Comparison::Same(Associativity::Precedence),
    Comparison::Higher,
];

// Whether an entry is said together with the one before it.
fn is_behind(before: Option<&Entry>, entry: &Entry) -> bool {
    match before {
        Some(before) => before.group.production == entry.group.production,
        None => false,
    }
}

/// Appends an entry of the conflicts that precedence settles. The head and the lines of its rule are
/// left out where the entry before it is of the same rule.
pub fn push_settled(
    out: &mut String,
    renderer: &Renderer,
    subject: &Subject,
    before: Option<&Entry>,
    entry: &Entry,
) -> Result<(), AllocError> {
    let alloc = renderer.alloc;
    let production = entry.group.production;
    let marks = marks_of(alloc, subject, production)?;
    let mut digits = 1usize;
    for mark in &marks {
        digits = digits.max(renderer.digits(*mark));
    }
    let mut notes = Vec::new(alloc);
    if !is_behind(before, entry) {
        if before.is_some() {
            out.push('\n')?;
        }
        let made = made_words(alloc, subject, production)?;
        let words = format!(in alloc; "where {made} can end or go on")?;
        let kind = (Style::Note, "settled by precedence");
        renderer.push_head(out, span_of(subject, production), kind, words.as_str())?;
        for mark in &marks {
            renderer.push_excerpt(out, digits, *mark, (Style::Primary, ""))?;
        }
        notes.push(level_note(alloc, subject, production)?)?;
    }
    for wanted in &COMPARISONS {
        push_comparison(alloc, subject, entry, *wanted, &mut notes)?;
    }
    for note in &notes {
        note.push_to(out, renderer, digits)?;
    }
    Ok(())
}
