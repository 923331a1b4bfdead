use crate::words::token_words;
use conflict_report::Subject;
use diagnostics::{Renderer, Style, push_repeated, push_text};
use std::alloc::{AllocError, Global};
use unicode_width::UnicodeWidthStr;

/// How many columns a line has, where it can be broken.
pub const COLUMNS: usize = 100;

/// A line below the lines of a file: pieces with spaces between them. It is broken between pieces
/// alone.
#[derive(Drop)]
pub struct Note {
    alloc: Global,
    pieces: Vec<String>,
}

impl Note {
    /// A note of nothing.
    pub fn new(alloc: Global) -> Note {
        Note {
            alloc,
            pieces: Vec::new(alloc),
        }
    }

    /// Adds a piece.
    pub fn push(&mut self, piece: &str) -> Result<(), AllocError> {
        let piece = String::from_str(self.alloc, piece)?;
        self.pieces.push(piece)?;
        Ok(())
    }

    /// Adds each word as a piece.
    pub fn push_words(&mut self, words: &str) -> Result<(), AllocError> {
        for word in words.split_whitespace() {
            self.push(word)?;
        }
        Ok(())
    }

    /// Adds names, with commas between them.
    pub fn push_names(&mut self, names: &[String]) -> Result<(), AllocError> {
        for (i, name) in names.iter().enumerate() {
            let is_last = i.saturating_add(1) == names.len();
            let comma = if is_last { "" } else { "," };
            let piece = format!(in self.alloc; "{name}{comma}")?;
            self.pieces.push(piece)?;
        }
        Ok(())
    }

    /// Adds the names of tokens, with commas between them.
    pub fn push_tokens(&mut self, subject: &Subject, tokens: &[usize]) -> Result<(), AllocError> {
        let mut names = Vec::new(self.alloc);
        for token in tokens {
            names.push(String::from_str(self.alloc, token_words(subject, *token))?)?;
        }
        self.push_names(names.as_slice())
    }

    /// Appends it below lines whose numbers have so many digits, in as many lines as it takes.
    pub fn push_to(
        &self,
        out: &mut String,
        renderer: &Renderer,
        digits: usize,
    ) -> Result<(), AllocError> {
        push_repeated(out, ' ', digits.saturating_add(2))?;
        renderer.push_styled(out, Style::Gutter, "=")?;
        let indent = digits.saturating_add(3);
        let mut column = indent;
        for (i, piece) in self.pieces.iter().enumerate() {
            let width = piece.as_str().width().saturating_add(1);
            if i > 0 && column.saturating_add(width) > COLUMNS {
                out.push('\n')?;
                push_repeated(out, ' ', indent)?;
                column = indent;
            }
            out.push(' ')?;
            push_text(out, piece.as_str())?;
            column = column.saturating_add(width);
        }
        out.push('\n')
    }
}

/// A note of names behind a few words.
pub fn names_note(alloc: Global, words: &str, names: &[&str]) -> Result<Note, AllocError> {
    let mut owned = Vec::new(alloc);
    for name in names {
        owned.push(String::from_str(alloc, name)?)?;
    }
    let mut note = Note::new(alloc);
    note.push_words(words)?;
    note.push_names(owned.as_slice())?;
    Ok(note)
}
