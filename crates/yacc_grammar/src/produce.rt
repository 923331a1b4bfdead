//! The productions of a grammar, from the rules of its file.

ghost use Rattle.std.specs.Prelude.{◌≡◌, ◌<◌, ◌++◌, ◌∷◌, [], OnOk, IfOk, vec_len};
ghost use Rattle.std.specs.Option.{ForSome};
ghost use Rattle.grammar.specs.declared.symbol.Symbol.TheVariants.{Terminal, Nonterminal};
ghost use Rattle.yacc_grammar.specs.Symbols.{forms_of, forms_under, rule_forms, forms_of_rules, action_forms, forms_of_actions, right_of};

use crate::table::{ACCEPT, Table, places_of};
use grammar::{END, Production, Symbol};
use std::alloc::{AllocError, Global};
use yacc_file::{Alternative, File, Item, Rule};

/// Adds production 0, `$accept : START $end`.
pub fn add_accept(alloc: Global, table: &mut Table, start: usize) -> Result<(), AllocError>
    requires { start < vec_len table.old.grammar.nonterminals }
    ensures ok { OnOk result (forms_of table.new.grammar.productions.items
        ≡ forms_of table.old.grammar.productions.items
        ++ (Nonterminal 0 ∷ Nonterminal start ∷ Terminal 0 ∷ []) ∷ []) }
    ensures symbols { table.new.symbols ≡ table.old.symbols }
{
    let right = vec![in alloc; Symbol::Nonterminal(start), Symbol::Terminal(END)]?;
    table.add_production(Production::new(alloc, ACCEPT, right))
}

// The terminal whose precedence an alternative has, where `%prec` names one. Where tokens give
// their rules none, the end of the input stands for it, which is on no level.
fn precedence_of(table: &Table, file: &File, alternative: &Alternative) -> Option<usize>
    ensures { ForSome result (λ t. t < vec_len table.now.grammar.terminals) }
{
    match alternative.precedence {
        None if file.has_default_precedence => None,
        None => Some(END),
        Some(name) => match table.symbol(name.id) {
            Symbol::Terminal(t) => Some(t),
            Symbol::Nonterminal(_) => None,
        },
    }
}

// The production of an alternative.
fn add_alternative(
    alloc: Global,
    table: &mut Table,
    file: &File,
    left: usize,
    alternative: &Alternative,
) -> Result<(), AllocError>
    requires { left < vec_len table.old.grammar.nonterminals }
    ensures ok { OnOk result (forms_of table.new.grammar.productions.items
        ≡ forms_of table.old.grammar.productions.items
        ++ (Nonterminal left ∷ right_of table.old.symbols.items alternative.now) ∷ []) }
    ensures symbols { table.new.symbols ≡ table.old.symbols }
    ensures nonterminals { table.new.grammar.nonterminals ≡ table.old.grammar.nonterminals }
{
    let items = alternative.items.as_slice();
    let right = table.symbols_of(alloc, items)?;
    let precedence = precedence_of(table, file, alternative);
    table.add_production(Production {
        left,
        right,
        precedence,
        span: alternative.span,
        places: places_of(alloc, items)?,
    })
}

// The productions of a nonterminal's alternatives.
fn add_alternatives(
    alloc: Global,
    table: &mut Table,
    file: &File,
    left: usize,
    alternatives: &[Alternative],
) -> Result<(), AllocError>
    requires { left < vec_len table.old.grammar.nonterminals }
    ensures ok { OnOk result (forms_of table.new.grammar.productions.items
        ≡ forms_of table.old.grammar.productions.items
        ++ forms_under table.old.symbols.items alternatives.now (Nonterminal left)) }
    ensures symbols { table.new.symbols ≡ table.old.symbols }
{
    for alternative in alternatives {
        add_alternative(alloc, table, file, left, alternative)?;
    }
    Ok(())
}

// The productions of a rule.
fn add_rule(alloc: Global, table: &mut Table, file: &File, rule: &Rule) -> Result<(), AllocError>
    ensures ok { OnOk result (forms_of table.new.grammar.productions.items
        ≡ forms_of table.old.grammar.productions.items
        ++ rule_forms table.old.symbols.items rule.now) }
    ensures symbols { table.new.symbols ≡ table.old.symbols }
{
    match table.symbol(rule.left.id) {
        Symbol::Nonterminal(left) => {
            add_alternatives(alloc, table, file, left, rule.alternatives.as_slice())
        }
        Symbol::Terminal(_) => Ok(()),
    }
}

/// Adds the productions of all rules: one for each alternative, in the order of the file, of the
/// symbols that its names stand for.
pub fn add_rules(alloc: Global, table: &mut Table, file: &File) -> Result<(), AllocError>
    ensures ok { OnOk result (forms_of table.new.grammar.productions.items
        ≡ forms_of table.old.grammar.productions.items
        ++ forms_of_rules table.old.symbols.items file.now.rules.items) }
    ensures symbols { table.new.symbols ≡ table.old.symbols }
{
    for rule in &file.rules {
        add_rule(alloc, table, file, rule)?;
    }
    Ok(())
}

// The empty production of an action among symbols.
fn add_action(alloc: Global, table: &mut Table, item: Item) -> Result<(), AllocError>
    ensures ok { OnOk result (forms_of table.new.grammar.productions.items
        ≡ forms_of table.old.grammar.productions.items
        ++ action_forms table.old.symbols.items item) }
    ensures symbols { table.new.symbols ≡ table.old.symbols }
{
    match table.symbol(item.name.id) {
        Symbol::Nonterminal(left) => table.add_production(Production {
            left,
            right: Vec::new(alloc),
            precedence: None,
            span: item.name.span,
            places: Vec::new(alloc),
        }),
        Symbol::Terminal(_) => Ok(()),
    }
}

/// Adds the empty productions of actions among symbols.
pub fn add_actions(alloc: Global, table: &mut Table, items: &[Item]) -> Result<(), AllocError>
    ensures ok { OnOk result (forms_of table.new.grammar.productions.items
        ≡ forms_of table.old.grammar.productions.items
        ++ forms_of_actions table.old.symbols.items items.now) }
    ensures symbols { table.new.symbols ≡ table.old.symbols }
{
    for item in items {
        add_action(alloc, table, *item)?;
    }
    Ok(())
}
