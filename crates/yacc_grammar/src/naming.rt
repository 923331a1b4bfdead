//! Whether the symbols of a grammar have the names of the file that it was made of.

ghost use Rattle.std.specs.Prelude.{◌≡◌, ◌<◌, ℕ, List, All, IsTrue, IfSome, length};
ghost use Rattle.yacc_grammar.specs.GrammarOf.{IsSpelled, IsCalled, IsNamed, IsNonterminal, IsOwn, ActionHasOwn, ItemIsNamed, AlternativeIsNamed, RuleIsNamed};
ghost use Rattle.yacc_grammar.specs.Symbols.{symbol_of};

use crate::table::Table;
use grammar::Symbol;
use std::alloc::{AllocError, Global};
use yacc_file::{Alternative, File, Item, Rule};

/// What shows that symbols have their names. It is not trusted: it is looked at with them.
#[derive(Drop)]
pub struct Witness {
    /// Of each name, by its number, the place in the file's list of the alias that it is.
    pub aliases: Vec<Option<usize>>,
    /// Of each nonterminal the number of its name.
    pub owners: Vec<usize>,
}

fn list_aliases(alloc: Global, file: &File) -> Result<Vec<Option<usize>>, AllocError> {
    let mut aliases = Vec::new(alloc);
    for _ in 0..file.names.len() {
        aliases.push(None)?;
    }
    for (index, alias) in file.aliases.iter().enumerate() {
        if alias.text.id < aliases.len() {
            aliases[alias.text.id] = Some(index);
        }
    }
    Ok(aliases)
}

fn list_owners(alloc: Global, table: &Table) -> Result<Vec<usize>, AllocError> {
    let mut owners = vec![in alloc; 0; table.grammar.nonterminals.len()]?;
    for (id, symbol) in table.symbols.iter().enumerate() {
        if let Some(Symbol::Nonterminal(n)) = *symbol
            && n < owners.len()
        {
            owners[n] = id;
        }
    }
    Ok(owners)
}

impl Witness {
    /// What shows that the symbols of a table have the names of a file.
    pub fn new(alloc: Global, file: &File, table: &Table) -> Result<Witness, AllocError> {
        Ok(Witness {
            aliases: list_aliases(alloc, file)?,
            owners: list_owners(alloc, table)?,
        })
    }
}

fn is_spelled(file: &File, id: usize, text: &str) -> bool
    ensures { IsTrue result → IsSpelled file.now id text.now }
{
    match file.names.get_index(id) {
        Some(name) => name.as_str() == text,
        None => false,
    }
}

// The number of the token that a name stands for.
fn token_of(file: &File, aliases: &[Option<usize>], id: usize) -> Option<usize>
    ensures { IfSome result
        (λ token. (text : List ℕ) → IsCalled file.now token text → IsCalled file.now id text) }
{
    let index = aliases.get(id).copied().flatten()?;
    if index >= file.aliases.len() {
        return None;
    }
    let alias = file.aliases[index];
    if alias.text.id == id {
        Some(alias.token.id)
    } else {
        None
    }
}

// A string may stand for a token that stands for `$end`, and nothing goes further than that.
fn is_called(file: &File, aliases: &[Option<usize>], id: usize, text: &str) -> bool
    ensures { IsTrue result → IsCalled file.now id text.now }
{
    if is_spelled(file, id, text) {
        return true;
    }
    let Some(token) = token_of(file, aliases, id) else {
        return false;
    };
    if is_spelled(file, token, text) {
        return true;
    }
    let Some(last) = token_of(file, aliases, token) else {
        return false;
    };
    is_spelled(file, last, text)
}

fn is_own(owners: &[usize], id: usize, symbol: Symbol) -> bool
    ensures { IsTrue result → IsOwn owners.now id symbol }
{
    match symbol {
        Symbol::Terminal(_) => true,
        Symbol::Nonterminal(n) => n < owners.len() && owners[n] == id,
    }
}

fn is_named(file: &File, table: &Table, witness: &Witness, id: usize) -> bool
    ensures { IsTrue result → IsNamed file.now table.now.symbols.items witness.now.owners.items
        table.now.grammar id }
{
    match table.entry(id) {
        Some(symbol) => {
            is_called(
                file,
                witness.aliases.as_slice(),
                id,
                table.grammar.name(symbol),
            ) && is_own(witness.owners.as_slice(), id, symbol)
        }
        None => false,
    }
}

fn is_nonterminal(table: &Table, id: usize) -> bool
    ensures { IsTrue result → IsNonterminal (symbol_of table.now.symbols.items id) }
{
    match table.symbol(id) {
        Symbol::Terminal(_) => false,
        Symbol::Nonterminal(_) => true,
    }
}

fn action_has_own(table: &Table, witness: &Witness, id: usize) -> bool
    ensures { IsTrue result
        → ActionHasOwn table.now.symbols.items witness.now.owners.items id }
{
    is_nonterminal(table, id) && is_own(witness.owners.as_slice(), id, table.symbol(id))
}

fn item_is_named(file: &File, table: &Table, witness: &Witness, item: Item) -> bool
    ensures { IsTrue result → ItemIsNamed file.now table.now.symbols.items
        witness.now.owners.items table.now.grammar item }
{
    if item.is_action {
        action_has_own(table, witness, item.name.id)
    } else {
        is_named(file, table, witness, item.name.id)
    }
}

fn alternative_is_named(
    file: &File,
    table: &Table,
    witness: &Witness,
    alternative: &Alternative,
) -> bool
    ensures { IsTrue result → AlternativeIsNamed file.now table.now.symbols.items
        witness.now.owners.items table.now.grammar alternative.now }
{
    for item in &alternative.items {
        if !item_is_named(file, table, witness, *item) {
            return false;
        }
    }
    true
}

fn rule_is_named(file: &File, table: &Table, witness: &Witness, rule: &Rule) -> bool
    ensures { IsTrue result → RuleIsNamed file.now table.now.symbols.items
        witness.now.owners.items table.now.grammar rule.now }
{
    for alternative in &rule.alternatives {
        if !alternative_is_named(file, table, witness, alternative) {
            return false;
        }
    }
    is_named(file, table, witness, rule.left.id) && is_nonterminal(table, rule.left.id)
}

/// Whether each rule is of a nonterminal, each name in a rule has a symbol that is called as the
/// name is, and each action among symbols has a nonterminal of its own.
pub fn are_named(file: &File, table: &Table, witness: &Witness) -> bool
    ensures { IsTrue result → All (RuleIsNamed file.now table.now.symbols.items
        witness.now.owners.items table.now.grammar) file.now.rules.items }
{
    for rule in &file.rules {
        if !rule_is_named(file, table, witness, rule) {
            return false;
        }
    }
    true
}
