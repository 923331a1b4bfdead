//! The lines of a picture.

use crate::columns::{Columns, Span, left_name, text_of};
use certificate::Bracket;
use grammar::{Grammar, Symbol};
use std::alloc::{AllocError, Global};

/// A line of a picture, and the production of its bracket; the first line has none.
#[derive(Debug, Drop)]
pub struct Line {
    pub text: String,
    pub production: Option<usize>,
}

fn put(row: &mut Vec<char>, column: usize, letter: char) {
    if let Some(place) = row.get_mut(column) {
        *place = letter;
    }
}

fn text_from(alloc: Global, row: &[char]) -> Result<String, AllocError> {
    let mut text = String::new(alloc);
    for letter in row {
        text.push(*letter)?;
    }
    Ok(text)
}

// The line of the symbols.
fn first_line(alloc: Global, grammar: &Grammar, columns: &Columns) -> Result<Line, AllocError> {
    let mut row = vec![in alloc; ' '; columns.width()]?;
    for (i, part) in columns.parts.iter().enumerate() {
        let mut column = columns.begin(i);
        for letter in text_of(grammar, *part).chars() {
            put(&mut row, column, letter);
            column = column.saturating_add(1);
        }
    }
    Ok(Line {
        text: text_from(alloc, row.as_slice())?,
        production: None,
    })
}

// The row of a bracket, with a stroke wherever one of the later brackets begins or ends.
fn strokes(alloc: Global, columns: &Columns, later: &[Span]) -> Result<Vec<char>, AllocError> {
    let mut row = vec![in alloc; ' '; columns.width()]?;
    for span in later {
        put(&mut row, columns.begin(span.first), '│');
        put(&mut row, columns.end(span.last), '│');
    }
    Ok(row)
}

fn corner(row: &[char], column: usize, alone: char, shared: char) -> char {
    if row.get(column) == Some(&'│') {
        shared
    } else {
        alone
    }
}

// The line of a bracket.
fn bracket_line(
    alloc: Global,
    grammar: &Grammar,
    columns: &Columns,
    span: Span,
    later: &[Span],
) -> Result<Line, AllocError> {
    let mut row = strokes(alloc, columns, later)?;
    let begin = columns.begin(span.first);
    let end = columns.end(span.last);
    let left = corner(row.as_slice(), begin, '└', '├');
    let right = corner(row.as_slice(), end, '┘', '┤');
    for column in begin..end {
        put(&mut row, column, '─');
    }
    put(&mut row, begin, left);
    put(&mut row, end, right);
    let mut column = begin.saturating_add(2);
    for letter in left_name(grammar, span.production).chars() {
        put(&mut row, column, letter);
        column = column.saturating_add(1);
    }
    Ok(Line {
        text: text_from(alloc, row.as_slice())?,
        production: Some(span.production),
    })
}

/// The picture of a reading: its form, with a mark before the symbol at `point`, and below it a line for each of its
/// brackets, in their order. All lines are as long as the first.
pub fn draw(
    alloc: Global,
    grammar: &Grammar,
    form: &[Symbol],
    brackets: &[Bracket],
    point: usize,
) -> Result<Vec<Line>, AllocError> {
    let columns = Columns::new(alloc, grammar, form, brackets, point)?;
    let mut lines = Vec::new(alloc);
    lines.push(first_line(alloc, grammar, &columns)?)?;
    let mut later = columns.spans.as_slice();
    for span in &columns.spans {
        later = match later.split_first() {
            Some((_, rest)) => rest,
            None => &[],
        };
        lines.push(bracket_line(alloc, grammar, &columns, *span, later)?)?;
    }
    Ok(lines)
}
