//! Messages with the line that they speak of, and carets under it.

ghost use Rattle.std.specs.Prelude.{◌≤◌, length};

use crate::shown::{push_bytes, push_repeated, push_text};
use crate::{Diagnostic, Severity};
use source::{Lines, Place, Span};
use std::alloc::{AllocError, Global};

// How many bytes of a longer line are shown, and how many of them before the place in question.
const SHOWN: usize = 160;

const BEFORE: usize = 60;

// What stands where a line was cut.
const CUT: &str = "…";

/// How a part of a message looks on a terminal.
#[derive(Clone, Copy, Debug, PartialEq, Eq)]
pub enum Style {
    Place,
    Error,
    Warning,
    Note,
    Help,
    /// The number of a line, and the bar behind it.
    Gutter,
    Conflict,
    /// The first of two places that are set against each other, and the second.
    Primary,
    Secondary,
}

impl Style {
    // What turns it on.
    fn code(self) -> &'static str {
        match self {
            Style::Place => "\x1b[1m",
            Style::Error => "\x1b[1;31m",
            Style::Warning => "\x1b[1;35m",
            Style::Note | Style::Help => "\x1b[1;36m",
            Style::Gutter | Style::Secondary => "\x1b[1;34m",
            Style::Conflict | Style::Primary => "\x1b[1;33m",
        }
    }
}

const PLAIN: &str = "\x1b[0m";

fn style_of(severity: Severity) -> Style {
    match severity {
        Severity::Error => Style::Error,
        Severity::Warning => Style::Warning,
    }
}

// Where a character begins at or behind `from`, and at `at` at the latest.
fn character_start(line: &[u8], from: usize, at: usize) -> usize
    requires order { from ≤ at }
    requires within { at ≤ length line.now }
    ensures { result ≤ at }
{
    for i in from..at {
        if line[i] & 0xc0 != 0x80 || i - from >= 3 {
            return i;
        }
    }
    at
}

// The part of a long line that is shown around a place in it.
fn window(line: &[u8], at: usize) -> (usize, usize)
    requires { at ≤ length line.now }
    ensures start { result.0 ≤ at }
    ensures end { (at ≤ result.1) × (result.1 ≤ length line.now) }
{
    if line.len() <= SHOWN {
        return (0, line.len());
    }
    let start = character_start(line, at.saturating_sub(BEFORE), at);
    let end = if line.len() - at > SHOWN - BEFORE {
        at + (SHOWN - BEFORE)
    } else {
        line.len()
    };
    (start, end)
}

/// Writes what is said of one file.
#[derive(Clone, Copy)]
pub struct Renderer<'a> {
    pub alloc: Global,
    /// What the file is called in front of its places.
    pub name: &'a str,
    pub lines: &'a Lines<'a>,
    pub is_colored: bool,
}

impl<'a> Renderer<'a> {
    /// Appends a text in a style.
    pub fn push_styled(
        &self,
        out: &mut String,
        style: Style,
        text: &str,
    ) -> Result<(), AllocError> {
        if self.is_colored {
            out.push_str(style.code())?;
        }
        push_text(out, text)?;
        if self.is_colored {
            out.push_str(PLAIN)?;
        }
        Ok(())
    }

    // The place that a part of the text begins at.
    fn place(&self, span: Span) -> Place
        ensures { 1 ≤ result.column }
    {
        self.lines.place(span.start.min(self.lines.text.len()))
    }

    /// How many digits the number of the line has that a part of the text begins on.
    pub fn digits(&self, span: Span) -> usize {
        let mut number = self.place(span).line;
        let mut digits = 1usize;
        for _ in 0..20 {
            if number < 10 {
                break;
            }
            number /= 10;
            digits = digits.saturating_add(1);
        }
        digits
    }

    /// Appends `file:line:column: kind: message` and a newline, the kind in a style.
    pub fn push_head(
        &self,
        out: &mut String,
        span: Span,
        kind: (Style, &str),
        message: &str,
    ) -> Result<(), AllocError> {
        let name = self.name;
        let Place { line, column } = self.place(span);
        let head = format!(in self.alloc; "{name}:{line}:{column}:")?;
        self.push_styled(out, Style::Place, head.as_str())?;
        out.push(' ')?;
        let (style, word) = kind;
        let label = format!(in self.alloc; "{word}:")?;
        self.push_styled(out, style, label.as_str())?;
        out.push(' ')?;
        push_text(out, message)?;
        out.push('\n')
    }

    // Appends what stands before a line: its number, or nothing, in so many digits, and a bar.
    fn push_gutter(&self, out: &mut String, number: &str, digits: usize) -> Result<(), AllocError> {
        let mut gutter = String::new(self.alloc);
        gutter.push(' ')?;
        push_repeated(&mut gutter, ' ', digits.saturating_sub(number.len()))?;
        gutter.push_str(number)?;
        gutter.push_str(" |")?;
        self.push_styled(out, Style::Gutter, gutter.as_str())?;
        out.push(' ')
    }

    /// Appends the line that a part of the text begins on, with its number in so many digits, and
    /// carets under the part, as far as it is on that line, with words behind them. Of a long line
    /// it shows the surroundings, with `…` where it is cut.
    pub fn push_excerpt(
        &self,
        out: &mut String,
        digits: usize,
        span: Span,
        caret: (Style, &str),
    ) -> Result<(), AllocError> {
        let place = self.place(span);
        let line = without_return(self.lines.line(place.line));
        let at = (place.column - 1).min(line.len());
        let (start, end) = window(line, at);
        let marked_end = at + (span.end - span.start).min(end - at);
        let number = place.line.to_string(self.alloc)?;
        self.push_gutter(out, number.as_str(), digits)?;
        let mut column = 0;
        if start > 0 {
            out.push_str(CUT)?;
            column = 1;
        }
        let from = push_bytes(self.alloc, out, &line[start..at], column)?;
        let to = push_bytes(self.alloc, out, &line[at..marked_end], from)?;
        let _ = push_bytes(self.alloc, out, &line[marked_end..end], to)?;
        if end < line.len() {
            out.push_str(CUT)?;
        }
        out.push('\n')?;
        self.push_gutter(out, "", digits)?;
        push_repeated(out, ' ', from)?;
        self.push_carets(out, to.saturating_sub(from).max(1), caret)
    }

    // Appends so many carets, and words behind them.
    fn push_carets(
        &self,
        out: &mut String,
        count: usize,
        caret: (Style, &str),
    ) -> Result<(), AllocError> {
        let (style, words) = caret;
        let mut carets = String::new(self.alloc);
        push_repeated(&mut carets, '^', count)?;
        if !words.is_empty() {
            carets.push(' ')?;
            carets.push_str(words)?;
        }
        self.push_styled(out, style, carets.as_str())?;
        out.push('\n')
    }

    /// Appends a mistake: its place and message, the line with carets below, the other place in the
    /// same way, and what may help.
    pub fn push_diagnostic(
        &self,
        out: &mut String,
        diagnostic: &Diagnostic,
    ) -> Result<(), AllocError> {
        let style = style_of(diagnostic.severity);
        let severity = diagnostic.severity;
        let word = format!(in self.alloc; "{severity}")?;
        let message = diagnostic.message.as_str();
        self.push_head(out, diagnostic.span, (style, word.as_str()), message)?;
        self.push_excerpt(
            out,
            self.digits(diagnostic.span),
            diagnostic.span,
            (style, ""),
        )?;
        if let Some(note) = &diagnostic.note {
            self.push_head(out, note.span, (Style::Note, "note"), note.message.as_str())?;
            self.push_excerpt(out, self.digits(note.span), note.span, (Style::Note, ""))?;
        }
        if let Some(help) = &diagnostic.help {
            self.push_styled(out, Style::Help, "help:")?;
            out.push(' ')?;
            push_text(out, help.as_str())?;
            out.push('\n')?;
        }
        Ok(())
    }
}

// A line that ends in CR LF has a carriage return, which is not shown.
fn without_return(line: &[u8]) -> &[u8] {
    match line {
        [front @ .., b'\r'] => front,
        _ => line,
    }
}
