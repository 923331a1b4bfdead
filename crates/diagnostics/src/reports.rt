//! Mistakes as they are collected.

use crate::{Diagnostic, nearest_name};
use source::Span;
use std::alloc::{AllocError, Global};

// For so many names it is looked which other name may be meant, and so many comparisons are made
// for all of them together. A file with very many misspelled names would take long without.
const HINTS: usize = 20;

const COMPARISONS: usize = 100_000;

/// Mistakes as they are collected.
#[derive(Drop)]
pub struct Reports {
    pub alloc: Global,
    pub diagnostics: Vec<Diagnostic>,
    /// How many searches for a name that may be meant are left, and how many comparisons.
    pub hints: usize,
    pub comparisons: usize,
}

impl Reports {
    /// No mistakes yet.
    pub fn new(alloc: Global) -> Reports {
        Reports {
            alloc,
            diagnostics: Vec::new(alloc),
            hints: HINTS,
            comparisons: COMPARISONS,
        }
    }

    /// Adds a mistake.
    pub fn push(&mut self, diagnostic: Diagnostic) -> Result<(), AllocError> {
        self.diagnostics.push(diagnostic)?;
        Ok(())
    }

    /// Adds an error. It has no help where that is empty.
    pub fn error(&mut self, span: Span, message: &str, help: &str) -> Result<(), AllocError> {
        let mut diagnostic = Diagnostic::error(span, String::from_str(self.alloc, message)?);
        if !help.is_empty() {
            diagnostic.help = Some(String::from_str(self.alloc, help)?);
        }
        self.push(diagnostic)
    }

    /// The name that is perhaps meant by a misspelled one. After the first twenty such searches, or
    /// where there are very many names, it finds none any more.
    pub fn meant<'a>(
        &mut self,
        name: &str,
        names: &[&'a str],
    ) -> Result<Option<&'a str>, AllocError> {
        if self.hints == 0 || names.len() > self.comparisons {
            self.hints = 0;
            return Ok(None);
        }
        self.hints -= 1;
        self.comparisons -= names.len();
        nearest_name(self.alloc, name, names)
    }
}
