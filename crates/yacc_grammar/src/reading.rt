//! From a text to its grammar.

use crate::resolution::{Resolution, grammar_of, has_error};
use crate::start::UnknownStart;
use crate::table::Table;
use diagnostics::Diagnostic;
use grammar::Grammar;
use std::alloc::{AllocError, Global};
use yacc_file::{Parsed, parse, read_words};

/// What was read of a text.
#[derive(Drop)]
pub struct Reading {
    /// There is none where the text has errors, or no rule has the name that was asked for.
    pub grammar: Option<Grammar>,
    /// What is wrong with the text, in the order of the places.
    pub diagnostics: Vec<Diagnostic>,
    /// There is one where no rule has the name that was asked for.
    pub unknown_start: Option<UnknownStart>,
}

// All mistakes in the order of their places. Where there are errors, warnings are left out: they
// may come of what could not be read.
fn in_order(
    mut first: Vec<Diagnostic>,
    others: Vec<Diagnostic>,
) -> Result<Vec<Diagnostic>, AllocError> {
    for diagnostic in others {
        first.push(diagnostic)?;
    }
    if has_error(first.as_slice()) {
        first.retain(|diagnostic| diagnostic.is_error());
    }
    first.sort_by_key(|diagnostic| diagnostic.span.start)?;
    Ok(first)
}

/// Reads the grammar of a yacc or bison file. It begins with the rule that is asked for, or else
/// with the one that `%start` names, or else with the first.
pub fn read_grammar(
    alloc: Global,
    text: &[u8],
    start: Option<&str>,
) -> Result<Reading, AllocError> {
    let Parsed { file, diagnostics } = parse(alloc, read_words(alloc, text)?)?;
    let Resolution {
        table,
        diagnostics: others,
        unknown_start,
    } = grammar_of(alloc, &file, start)?;
    let diagnostics = in_order(diagnostics, others)?;
    let grammar = grammar_in(table, has_error(diagnostics.as_slice()));
    Ok(Reading {
        grammar,
        diagnostics,
        unknown_start,
    })
}

// The grammar of a table, unless the text has errors.
fn grammar_in(table: Option<Table>, has_errors: bool) -> Option<Grammar> {
    let Some(table) = table else {
        return None;
    };
    let Table {
        grammar,
        symbols: _,
        start: _,
    } = table;
    if has_errors { None } else { Some(grammar) }
}
