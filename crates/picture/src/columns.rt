//! Which columns the parts of a picture take.

use certificate::Bracket;
use grammar::{Grammar, Symbol};
use std::alloc::{AllocError, Global};

// A bracket shows its name behind a corner and a stroke, and before a stroke and a corner.
const CORNERS: usize = 4;

/// A part of the picture's first line: a symbol, the mark before the token, or what stands for nothing.
#[derive(Clone, Copy, Debug, PartialEq, Eq)]
pub enum Part {
    Symbol(Symbol),
    Mark,
    Nothing,
}

/// A bracket, from one part of the first line to another.
#[derive(Clone, Copy, Debug)]
pub struct Span {
    pub production: usize,
    pub first: usize,
    pub last: usize,
}

/// The parts of the first line, each with the column where it begins and the columns that it takes, and the brackets.
#[derive(Debug, Drop)]
pub struct Columns {
    pub parts: Vec<Part>,
    pub begins: Vec<usize>,
    pub widths: Vec<usize>,
    pub spans: Vec<Span>,
}

/// The name of a symbol; a question mark where the grammar has none of this number.
pub fn name_of(grammar: &Grammar, symbol: Symbol) -> &str {
    let (names, number) = match symbol {
        Symbol::Terminal(t) => (grammar.terminals.as_slice(), t),
        Symbol::Nonterminal(n) => (grammar.nonterminals.as_slice(), n),
    };
    match names.get(number) {
        Some(name) => name.as_str(),
        None => "?",
    }
}

/// The name of a production's left side.
pub fn left_name(grammar: &Grammar, production: usize) -> &str {
    match grammar.productions.get(production) {
        Some(found) => name_of(grammar, Symbol::Nonterminal(found.left)),
        None => "?",
    }
}

/// What a part looks like.
pub fn text_of(grammar: &Grammar, part: Part) -> &str {
    match part {
        Part::Symbol(symbol) => name_of(grammar, symbol),
        Part::Mark => "•",
        Part::Nothing => "ε",
    }
}

fn width_of(text: &str) -> usize {
    text.chars().count()
}

// The first line as it is read, and the brackets over it.
#[derive(Debug, Drop)]
struct Draft {
    parts: Vec<Part>,
    spans: Vec<Span>,
    // Of each symbol that stands in no bracket yet, and of each bracket that stands in none, its first part.
    starts: Vec<usize>,
}

impl Draft {
    // Adds the symbols up to a place, with the mark before the one at `point`.
    fn read(
        &mut self,
        form: &[Symbol],
        read: usize,
        to: usize,
        point: usize,
    ) -> Result<(), AllocError> {
        for i in read..to {
            if i == point {
                self.parts.push(Part::Mark)?;
            }
            if let Some(symbol) = form.get(i) {
                self.starts.push(self.parts.len())?;
                self.parts.push(Part::Symbol(*symbol))?;
            }
        }
        Ok(())
    }

    // Adds a bracket over as many as the production has symbols.
    fn close(&mut self, grammar: &Grammar, production: usize) -> Result<(), AllocError> {
        let count = match grammar.productions.get(production) {
            Some(found) => found.right.len(),
            None => 0,
        };
        let below = self.starts.len().saturating_sub(count);
        let end = self.parts.len();
        let first = self.starts.get(below).copied().unwrap_or(end);
        if first == end {
            self.parts.push(Part::Nothing)?;
        }
        self.starts.truncate(below);
        self.starts.push(first)?;
        self.spans.push(Span {
            production,
            first,
            last: self.parts.len().saturating_sub(1),
        })?;
        Ok(())
    }
}

// The columns from the begin of one part to the end of another.
fn room_of(widths: &[usize], span: Span) -> usize {
    let mut room = span.last.saturating_sub(span.first);
    for i in span.first..span.last.saturating_add(1) {
        room = room.saturating_add(widths.get(i).copied().unwrap_or(0));
    }
    room
}

// The width of each part: its own, and more where the name of a bracket would have no room.
fn widths_of(
    alloc: Global,
    grammar: &Grammar,
    parts: &[Part],
    spans: &[Span],
) -> Result<Vec<usize>, AllocError> {
    let mut widths = Vec::new(alloc);
    for part in parts {
        widths.push(width_of(text_of(grammar, *part)))?;
    }
    for span in spans {
        let wanted = width_of(left_name(grammar, span.production)).saturating_add(CORNERS);
        let room = room_of(widths.as_slice(), *span);
        if let Some(last) = widths.get_mut(span.last) {
            *last = last.saturating_add(wanted.saturating_sub(room));
        }
    }
    Ok(widths)
}

// Where parts of these widths begin, with a column between two of them.
fn begins_of(alloc: Global, widths: &[usize]) -> Result<Vec<usize>, AllocError> {
    let mut begins = Vec::new(alloc);
    let mut begin = 0usize;
    for width in widths {
        begins.push(begin)?;
        begin = begin.saturating_add(*width).saturating_add(1);
    }
    Ok(begins)
}

impl Columns {
    /// The columns of a form and of the brackets over it, with the mark before the symbol at `point`.
    pub fn new(
        alloc: Global,
        grammar: &Grammar,
        form: &[Symbol],
        brackets: &[Bracket],
        point: usize,
    ) -> Result<Columns, AllocError> {
        let mut draft = Draft {
            parts: Vec::new(alloc),
            spans: Vec::new(alloc),
            starts: Vec::new(alloc),
        };
        let mut read = 0usize;
        for bracket in brackets {
            draft.read(form, read, bracket.to, point)?;
            read = read.max(bracket.to);
            draft.close(grammar, bracket.production)?;
        }
        draft.read(form, read, form.len(), point)?;
        let Draft {
            parts,
            spans,
            starts: _,
        } = draft;
        let widths = widths_of(alloc, grammar, parts.as_slice(), spans.as_slice())?;
        Ok(Columns {
            begins: begins_of(alloc, widths.as_slice())?,
            parts,
            widths,
            spans,
        })
    }

    /// The first column of a part.
    pub fn begin(&self, part: usize) -> usize {
        self.begins.get(part).copied().unwrap_or(0)
    }

    /// The last column of a part.
    pub fn end(&self, part: usize) -> usize {
        let width = self.widths.get(part).copied().unwrap_or(1);
        self.begin(part).saturating_add(width.saturating_sub(1))
    }

    /// How many columns there are.
    pub fn width(&self) -> usize {
        self.end(self.parts.len().saturating_sub(1))
            .saturating_add(1)
    }
}
