//! The grammar of a file.

ghost use Rattle.std.specs.Prelude.{◌≡◌, IsNone, Some, IfOk, vec_len};
ghost use Rattle.std.specs.Option.{ForSome};
ghost use Rattle.yacc_grammar.specs.GrammarOf.{IsGrammarOf, start_of};

use crate::actions::list_actions;
use crate::checks::check;
use crate::define::Definer;
use crate::naming::{Witness, are_named};
use crate::produce::{add_accept, add_actions, add_rules};
use crate::start::{Start, UnknownStart};
use crate::table::Table;
use diagnostics::{Diagnostic, Reports};
use grammar::Symbol;
use std::alloc::{AllocError, Global};
use yacc_file::{File, Name};

/// What was made of a file.
#[derive(Drop)]
pub struct Resolution {
    /// The grammar, and the symbols of the file's names. There is none where the file has errors,
    /// or has no such start.
    pub table: Option<Table>,
    /// What is wrong with the file.
    pub diagnostics: Vec<Diagnostic>,
    pub unknown_start: Option<UnknownStart>,
}

/// Whether any of the mistakes is an error.
pub fn has_error(diagnostics: &[Diagnostic]) -> bool {
    diagnostics.iter().any(|diagnostic| diagnostic.is_error())
}

// What all names of a file stand for.
fn define(alloc: Global, file: &File) -> Result<Definer, AllocError> {
    let mut definer = Definer::new(alloc, file)?;
    definer.rules(file)?;
    definer.actions(file)?;
    definer.tokens(file)?;
    definer.levels(file)?;
    definer.used(file)?;
    definer
        .table
        .set_expected(file.expected, file.expected_reductions);
    Ok(definer)
}

// The productions of a file whose names have their symbols. There are none if the names have not.
fn produce(
    alloc: Global,
    file: &File,
    table: Table,
    start: usize,
) -> Result<Option<Table>, AllocError>
    requires { vec_len table.grammar.productions ≡ 0 }
    ensures grammar { IfOk result (λ r. ForSome r
        (λ t. IsGrammarOf file.now t.start t.symbols.items t.grammar)) }
    ensures start { IfOk result (λ r. ForSome r (λ t. t.start ≡ start)) }
{
    let mut table = table;
    let Symbol::Nonterminal(number) = table.symbol(start) else {
        return Ok(None);
    };
    add_accept(alloc, &mut table, number)?;
    add_rules(alloc, &mut table, file)?;
    let actions = list_actions(alloc, file.rules.as_slice())?;
    add_actions(alloc, &mut table, actions.as_slice())?;
    let witness = Witness::new(alloc, file, &table)?;
    if are_named(file, &table, &witness) {
        table.start = start;
        Ok(Some(table))
    } else {
        Ok(None)
    }
}

// The grammar of a file without errors.
fn checked(
    alloc: Global,
    file: &File,
    table: Table,
    start: Name,
    reports: &mut Reports,
) -> Result<Option<Table>, AllocError>
    requires { vec_len table.grammar.productions ≡ 0 }
    ensures grammar { IfOk result (λ r. ForSome r
        (λ t. IsGrammarOf file.now t.start t.symbols.items t.grammar)) }
    ensures start { IfOk result (λ r. ForSome r (λ t. t.start ≡ start.id)) }
{
    match produce(alloc, file, table, start.id)? {
        Some(table) => {
            check(alloc, file, &table, reports)?;
            Ok(Some(table))
        }
        None => {
            let message = "internal defect: this grammar was not read as it is written";
            reports.error(start.span, message, "please report it, with this file")?;
            Ok(None)
        }
    }
}

/// The grammar of a file, if the file has no errors: its productions are the alternatives in the
/// order of the file, and each name in them has its symbol. It begins with the rule that is asked
/// for, or else with the one that `%start` names, or else with the first.
pub fn grammar_of(alloc: Global, file: &File, start: Option<&str>) -> Result<Resolution, AllocError>
    ensures grammar { IfOk result (λ r. ForSome r.table
        (λ t. IsGrammarOf file.now t.start t.symbols.items t.grammar)) }
    ensures start { IsNone start.entry
        → IfOk result (λ r. ForSome r.table (λ t. start_of file.now ≡ Some t.start)) }
{
    let mut definer = define(alloc, file)?;
    let found = definer.start(file, start)?;
    let Definer {
        alloc: _,
        table,
        mut reports,
        defined: _,
        leveled: _,
        repeated: _,
        actions: _,
    } = definer;
    let mut unknown_start = None;
    let mut made = None;
    match found {
        Start::Found(name) if !has_error(reports.diagnostics.as_slice()) => {
            made = checked(alloc, file, table, name, &mut reports)?;
        }
        Start::Unknown(unknown) => unknown_start = Some(unknown),
        _ => {}
    }
    let Reports {
        alloc: _,
        diagnostics,
        hints: _,
        comparisons: _,
    } = reports;
    Ok(Resolution {
        table: made,
        diagnostics,
        unknown_start,
    })
}
