use crate::marks::{begin_of_production, mark_behind, marks_of};
use crate::note::{Note, names_note};
use crate::title::{choice_words, shown_item, title, tokens_in_order};
use crate::words::token_words;
use automaton::Other;
use conflict_report::{Decision, Detail, Entry, Shifting, Subject};
use diagnostics::{Renderer, Style};
use grammar::Symbol;
use source::Span;
use std::alloc::{AllocError, Global};
use unicode_width::UnicodeWidthStr;

/// The two rules of an entry that are shown, in the order of their places: for a conflict with
/// shifts the reduced one and one that goes on.
fn shown_rules(subject: &Subject, entry: &Entry) -> (usize, usize) {
    let first = entry.group.production;
    let second = match entry.group.other {
        Other::Shift => match shown_item(subject, entry) {
            Some(shown) => shown.item.production,
            None => first,
        },
        Other::Reduce(later) => later,
    };
    let is_later = match (subject.production(first), subject.production(second)) {
        (Some(one), Some(other)) => other.span.start < one.span.start,
        _ => false,
    };
    match entry.group.other {
        Other::Reduce(_) if is_later => (second, first),
        _ => (first, second),
    }
}

// What stands under a rule that is reduced.
fn reduce_label(subject: &Subject, number: usize, is_taken: bool) -> &'static str {
    let is_empty = match subject.production(number) {
        Some(production) => production.right.is_empty(),
        None => false,
    };
    match (subject.is_action(number), is_empty, is_taken) {
        (true, _, false) => "is run here (reduce)",
        (true, _, true) => "is run here (reduce; the parser takes this one)",
        (false, true, false) => "is empty here (reduce)",
        (false, true, true) => "is empty here (reduce; the parser takes this one)",
        (false, false, false) => "ends here (reduce)",
        (false, false, true) => "ends here (reduce; the parser takes this one)",
    }
}

// The one decision for all tokens of an entry, if there is one.
fn only_decision(entry: &Entry) -> Option<Decision> {
    match entry.decided.as_slice() {
        [decided] => Some(decided.decision),
        _ => None,
    }
}

/// The part of the file that an entry is said of.
pub fn span_of(subject: &Subject, number: usize) -> Span {
    match subject.production(number) {
        Some(production) => begin_of_production(production),
        None => Span { start: 0, end: 0 },
    }
}

// A line of the file to be shown, and the words under it.
#[derive(Drop)]
struct Line {
    span: Span,
    style: Style,
    words: &'static str,
}

fn push_reduced(
    alloc: Global,
    subject: &Subject,
    number: usize,
    caret: (Style, &'static str),
    lines: &mut Vec<Line>,
) -> Result<(), AllocError> {
    let (style, words) = caret;
    let marks = marks_of(alloc, subject, number)?;
    for (i, mark) in marks.iter().enumerate() {
        let is_last = i.saturating_add(1) == marks.len();
        lines.push(Line {
            span: *mark,
            style,
            words: if is_last { words } else { "" },
        })?;
    }
    Ok(())
}

// The line of an item that goes on.
fn push_shifting(
    subject: &Subject,
    shown: Shifting,
    lines: &mut Vec<Line>,
) -> Result<(), AllocError> {
    let Some(production) = subject.production(shown.item.production) else {
        return Ok(());
    };
    let Some(span) = mark_behind(production, shown.item.dot) else {
        return Ok(());
    };
    lines.push(Line {
        span,
        style: Style::Secondary,
        words: if shown.item.dot == 0 {
            "begins here (shift)"
        } else {
            "goes on here (shift)"
        },
    })?;
    Ok(())
}

// The lines of the two rules.
fn lines_of(alloc: Global, subject: &Subject, entry: &Entry) -> Result<Vec<Line>, AllocError> {
    let (first, second) = shown_rules(subject, entry);
    let taken = only_decision(entry);
    let mut lines = Vec::new(alloc);
    match entry.group.other {
        Other::Shift => {
            let words = reduce_label(subject, first, false);
            push_reduced(alloc, subject, first, (Style::Primary, words), &mut lines)?;
            if let Some(shown) = shown_item(subject, entry) {
                push_shifting(subject, shown, &mut lines)?;
            }
        }
        Other::Reduce(_) => {
            let words = reduce_label(subject, first, taken == Some(Decision::Reduce(first)));
            push_reduced(alloc, subject, first, (Style::Primary, words), &mut lines)?;
            let words = reduce_label(subject, second, taken == Some(Decision::Reduce(second)));
            push_reduced(
                alloc,
                subject,
                second,
                (Style::Secondary, words),
                &mut lines,
            )?;
        }
    }
    Ok(lines)
}

// A symbol by its name; an action among symbols by its line.
fn push_symbol(
    alloc: Global,
    subject: &Subject,
    symbol: Symbol,
    note: &mut Note,
) -> Result<(), AllocError> {
    match symbol {
        Symbol::Terminal(token) => note.push(token_words(subject, token)),
        Symbol::Nonterminal(n) => match subject.action_line(n) {
            Some(line) => {
                let words = format!(in alloc; "{{line {line}}}")?;
                note.push(words.as_str())
            }
            None => note.push(subject.name(symbol)),
        },
    }
}

// The symbols that lead to the conflict.
fn after_note(alloc: Global, subject: &Subject, entry: &Entry) -> Result<Note, AllocError> {
    let mut note = Note::new(alloc);
    if entry.after.is_empty() {
        note.push_words("at the begin of the input")?;
    } else {
        note.push("after:")?;
        for symbol in &entry.after {
            push_symbol(alloc, subject, *symbol, &mut note)?;
        }
    }
    let others = entry.states.len().saturating_sub(1);
    if others == 1 {
        note.push_words("(and in 1 other state)")?;
    } else if others > 1 {
        let words = format!(in alloc; "(and in {others} other states)")?;
        note.push_words(words.as_str())?;
    }
    Ok(note)
}

// The lines where rules go on before a token, but for that of the shown item.
fn other_lines(
    alloc: Global,
    subject: &Subject,
    entry: &Entry,
    token: usize,
    shown: Option<Shifting>,
) -> Result<Vec<usize>, AllocError> {
    let mut lines = Vec::new(alloc);
    for shifting in &entry.shifting {
        if shifting.token != token || shown == Some(*shifting) {
            continue;
        }
        if let Some(production) = subject.production(shifting.item.production)
            && let Some(span) = mark_behind(production, shifting.item.dot)
        {
            lines.push(subject.line(span))?;
        }
    }
    lines.sort_unstable();
    lines.dedup();
    Ok(lines)
}

// Where else rules go on before the tokens.
fn same_note(alloc: Global, subject: &Subject, entry: &Entry) -> Result<Option<Note>, AllocError> {
    let shown = shown_item(subject, entry);
    let mut names: Vec<String> = Vec::new(alloc);
    for token in &entry.tokens {
        let lines = other_lines(alloc, subject, entry, *token, shown)?;
        if lines.is_empty() {
            continue;
        }
        let name = token_words(subject, *token);
        let mut words = format!(in alloc; "{name} (line")?;
        if lines.len() > 1 {
            words.push('s')?;
        }
        for (i, line) in lines.iter().enumerate() {
            let comma = if i == 0 { "" } else { "," };
            write!(words, "{comma} {line}")?;
        }
        let is_shown = match shown {
            Some(shown) => shown.token == *token,
            None => false,
        };
        words.push_str(if is_shown { " too)" } else { ")" })?;
        names.push(words)?;
    }
    if names.is_empty() {
        return Ok(None);
    }
    let mut note = Note::new(alloc);
    note.push_words("the same before")?;
    note.push_names(names.as_slice())?;
    Ok(Some(note))
}

fn decision_words(
    alloc: Global,
    subject: &Subject,
    decision: Decision,
) -> Result<String, AllocError> {
    match decision {
        Decision::Shift => String::from_str(alloc, "the parser shifts"),
        Decision::Reduce(number) => {
            let line = subject.line(span_of(subject, number));
            format!(in alloc; "the parser reduces by the rule at line {line}")
        }
    }
}

// What the parser does, where the labels do not say it.
fn push_decisions(
    alloc: Global,
    subject: &Subject,
    entry: &Entry,
    notes: &mut Vec<Note>,
) -> Result<(), AllocError> {
    let is_one = entry.decided.len() == 1;
    for decided in &entry.decided {
        let is_said = match (entry.group.other, decided.decision) {
            (Other::Reduce(later), Decision::Reduce(number)) => {
                is_one && (number == later || number == entry.group.production)
            }
            _ => false,
        };
        if is_said {
            continue;
        }
        let words = decision_words(alloc, subject, decided.decision)?;
        let mut note = Note::new(alloc);
        if !is_one {
            note.push("before")?;
            note.push_tokens(subject, decided.tokens.as_slice())?;
        }
        note.push_words(words.as_str())?;
        notes.push(note)?;
    }
    Ok(())
}

// What is said below the lines.
fn notes_of(
    alloc: Global,
    subject: &Subject,
    entry: &Entry,
    all_named: bool,
    detail: Detail,
) -> Result<Vec<Note>, AllocError> {
    let mut notes = Vec::new(alloc);
    if !all_named {
        let names = tokens_in_order(alloc, subject, entry)?;
        notes.push(names_note(alloc, "the tokens:", names.as_slice())?)?;
    }
    if let Some(note) = same_note(alloc, subject, entry)? {
        notes.push(note)?;
    }
    if detail == Detail::ByState
        && let Some(state) = entry.states.first()
    {
        let words = format!(in alloc; "in state {state}")?;
        let mut note = Note::new(alloc);
        note.push_words(words.as_str())?;
        notes.push(note)?;
    }
    notes.push(after_note(alloc, subject, entry)?)?;
    push_decisions(alloc, subject, entry, &mut notes)?;
    Ok(notes)
}

fn kind_words(other: Other) -> &'static str {
    match other {
        Other::Shift => "shift/reduce conflict",
        Other::Reduce(_) => "reduce/reduce conflict",
    }
}

/// Appends an entry of the conflicts that are left.
pub fn push_entry(
    out: &mut String,
    renderer: &Renderer,
    subject: &Subject,
    entry: &Entry,
    detail: Detail,
) -> Result<(), AllocError> {
    let alloc = renderer.alloc;
    let rules = shown_rules(subject, entry);
    let span = span_of(subject, rules.0);
    let kind = kind_words(entry.group.other);
    let place = subject.place(span);
    let line = place.line;
    let column = place.column;
    let name = renderer.name;
    let front = format!(in alloc; "{name}:{line}:{column}: {kind}: ")?;
    let choice = choice_words(alloc, subject, entry, rules)?;
    let names = tokens_in_order(alloc, subject, entry)?;
    let (words, all_named) = title(
        alloc,
        names.as_slice(),
        choice.as_str(),
        front.as_str().width(),
    )?;
    renderer.push_head(out, span, (Style::Conflict, kind), words.as_str())?;
    let lines = lines_of(alloc, subject, entry)?;
    let mut digits = 1usize;
    for line in &lines {
        digits = digits.max(renderer.digits(line.span));
    }
    for line in &lines {
        renderer.push_excerpt(out, digits, line.span, (line.style, line.words))?;
    }
    for note in &notes_of(alloc, subject, entry, all_named, detail)? {
        note.push_to(out, renderer, digits)?;
    }
    Ok(())
}
