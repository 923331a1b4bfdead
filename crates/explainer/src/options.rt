use conflict_report::{Detail, Only};
use std::alloc::Global;

/// Whether conflicts are explained, or only counted.
#[derive(Clone, Copy, Debug, PartialEq, Eq)]
pub enum Mode {
    Explain,
    Check,
}

#[derive(Clone, Copy, Debug, PartialEq, Eq)]
pub enum Format {
    Text,
    Json,
}

/// The kind of automaton whose conflicts are told.
#[derive(Clone, Copy, Debug, PartialEq, Eq)]
pub enum Table {
    /// LALR(1), which yacc, byacc and bison make.
    Lalr,
    /// Canonical LR(1).
    Lr1,
}

/// How many conflicts the caller expects.
#[derive(Clone, Copy, Debug, PartialEq, Eq)]
pub struct Expectation {
    pub shift_reduce: usize,
    /// As the file says, where it is not given.
    pub reduce_reduce: Option<usize>,
}

/// What is to be done.
#[derive(Debug, Drop)]
pub struct Options {
    /// The files, in their order; `-` is the standard input.
    pub files: Vec<String>,
    pub mode: Mode,
    pub format: Format,
    pub table: Table,
    /// Whether precedence settles conflicts.
    pub uses_precedence: bool,
    /// Whether the conflicts that precedence settles are told.
    pub shows_settled: bool,
    pub detail: Detail,
    /// What is to be told about, if not everything.
    pub only: Option<Only>,
    /// The nonterminal to begin with, if not the file's.
    pub start: Option<String>,
    /// How many conflicts are expected, if not as many as the file says.
    pub expected: Option<Expectation>,
    /// Whether colours are written to the standard output.
    pub is_colored: bool,
    /// Whether colours are written to the standard error.
    pub has_colored_errors: bool,
    /// Whether text and warnings are left out.
    pub is_quiet: bool,
}

impl Options {
    /// To explain the files as their parsers are, in text without colours.
    pub fn new(alloc: Global) -> Options {
        Options {
            files: Vec::new(alloc),
            mode: Mode::Explain,
            format: Format::Text,
            table: Table::Lalr,
            uses_precedence: true,
            shows_settled: false,
            detail: Detail::ByRules,
            only: None,
            start: None,
            expected: None,
            is_colored: false,
            has_colored_errors: false,
            is_quiet: false,
        }
    }

    /// Whether an empty line stands between what is written of two files.
    pub fn parts_reports(&self) -> bool {
        self.mode == Mode::Explain && self.format == Format::Text
    }
}
