use conflict_report::Subject;
use grammar::Production;
use source::Span;
use std::alloc::{AllocError, Global};

// From the begin of one part to the end of another.
fn joined(first: Span, last: Span) -> Span {
    if first.start <= last.end {
        Span {
            start: first.start,
            end: last.end,
        }
    } else {
        first
    }
}

// The empty part at the begin of another.
fn begin_of(span: Span) -> Span {
    Span {
        start: span.start,
        end: span.start,
    }
}

/// Where the symbols of a production stand: a part of each line that has some. An action, and an
/// empty alternative, have one part.
pub fn marks_of(alloc: Global, subject: &Subject, number: usize) -> Result<Vec<Span>, AllocError> {
    let mut marks: Vec<Span> = Vec::new(alloc);
    let Some(production) = subject.production(number) else {
        return Ok(marks);
    };
    if production.right.is_empty() {
        let span = production.span;
        marks.push(if subject.is_action(number) {
            span
        } else {
            begin_of(span)
        })?;
        return Ok(marks);
    }
    for place in &production.places {
        let place = *place;
        let joins = match marks.last() {
            Some(last) => subject.line(*last) == subject.line(place),
            None => false,
        };
        let mark = if joins {
            match marks.pop() {
                Some(last) => joined(last, place),
                None => place,
            }
        } else {
            place
        };
        marks.push(mark)?;
    }
    Ok(marks)
}

/// Where the symbol behind a dot stands.
pub fn mark_behind(production: &Production, dot: usize) -> Option<Span> {
    production.places.get(dot).copied()
}

/// Where a production begins: its first symbol, or else its alternative.
pub fn begin_of_production(production: &Production) -> Span {
    match production.places.first() {
        Some(place) => *place,
        None => production.span,
    }
}
