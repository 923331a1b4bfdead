//! A grammar in the making, and what the names of its file stand for.

ghost use Rattle.std.specs.Prelude.{◌≡◌, ◌<◌, ◌≤◌, ◌++◌, ◌∷◌, [], All, Some, vec_len, length, map, OnOk, OnErr, IfOk, IfSome};
ghost use Rattle.grammar.specs.Symbols.{SymbolFits, LevelFits, ProductionFits};
ghost use Rattle.yacc_grammar.specs.Symbols.{EntryFits, symbol_of, entry_of};

use grammar::{END, ERROR, Grammar, Level, Production, Symbol};
use source::Span;
use std::alloc::{AllocError, Global};
use yacc_file::{END_NAME, ERROR_NAME, Item};

/// The number of the nonterminal `$accept`, which production 0 is for.
pub const ACCEPT: usize = 0;

/// A grammar that grows, and of each name of the file, by its number, the symbol that it stands
/// for, as far as it is known.
#[derive(Drop)]
pub struct Table {
    pub grammar: Grammar,
    pub symbols: Vec<Option<Symbol>>,
    /// The name that production 0 begins with.
    pub start: usize,
    ghost in_range: { All (EntryFits (vec_len grammar.terminals) (vec_len grammar.nonterminals))
        symbols.items },
    ghost has_end: { 0 < vec_len grammar.terminals },
    ghost has_accept: { 0 < vec_len grammar.nonterminals },
}

impl Table {
    /// A grammar with `$end`, `error` and `$accept` alone, for so many names.
    pub fn new(alloc: Global, names: usize) -> Result<Table, AllocError>
        ensures { IfOk result (λ r. r.grammar.productions.items ≡ []) }
    {
        let mut grammar = Grammar::new(alloc);
        let _ = grammar.add_terminal(String::from_str(alloc, "$end")?)?;
        let _ = grammar.add_terminal(String::from_str(alloc, "error")?)?;
        let _ = grammar.add_nonterminal(String::from_str(alloc, "$accept")?)?;
        let mut symbols = Vec::new(alloc);
        for name in 0..names {
            symbols.push(match name {
                END_NAME => Some(Symbol::Terminal(END)),
                ERROR_NAME => Some(Symbol::Terminal(ERROR)),
                _ => None,
            })?;
        }
        Ok(Table {
            grammar,
            symbols,
            start: END_NAME,
        })
    }

    /// What a name stands for, if it is known.
    pub fn entry(&self, id: usize) -> Option<Symbol>
        ensures entry { result ≡ entry_of self.now.symbols.items id }
        ensures fits { IfSome result (SymbolFits (vec_len self.now.grammar.terminals)
            (vec_len self.now.grammar.nonterminals)) }
    {
        if id < self.symbols.len() {
            self.symbols[id]
        } else {
            None
        }
    }

    /// What a name stands for, or else the end of the input.
    pub fn symbol(&self, id: usize) -> Symbol
        ensures symbol { result ≡ symbol_of self.now.symbols.items id }
        ensures fits { SymbolFits (vec_len self.now.grammar.terminals)
            (vec_len self.now.grammar.nonterminals) result }
    {
        match self.entry(id) {
            Some(symbol) => symbol,
            None => Symbol::Terminal(END),
        }
    }

    /// Lets a name stand for a symbol of the grammar.
    pub fn set(&mut self, id: usize, symbol: Symbol)
        requires { SymbolFits (vec_len self.old.grammar.terminals)
            (vec_len self.old.grammar.nonterminals) symbol }
        ensures grammar { self.new.grammar ≡ self.old.grammar }
        ensures len { vec_len self.new.symbols ≡ vec_len self.old.symbols }
    {
        if id < self.symbols.len() {
            self.symbols[id] = Some(symbol);
        }
    }

    /// Lets a name stand for a new terminal.
    pub fn define_terminal(&mut self, id: usize, name: String) -> Result<usize, AllocError>
        ensures len { vec_len self.new.symbols ≡ vec_len self.old.symbols }
        ensures number { IfOk result (λ t. t < vec_len self.new.grammar.terminals) }
        ensures productions { self.new.grammar.productions ≡ self.old.grammar.productions }
    {
        let number = self.grammar.add_terminal(name)?;
        self.set(id, Symbol::Terminal(number));
        Ok(number)
    }

    /// Lets a name stand for a new nonterminal.
    pub fn define_nonterminal(&mut self, id: usize, name: String) -> Result<(), AllocError>
        ensures len { vec_len self.new.symbols ≡ vec_len self.old.symbols }
        ensures productions { self.new.grammar.productions ≡ self.old.grammar.productions }
    {
        let number = self.grammar.add_nonterminal(name)?;
        self.set(id, Symbol::Nonterminal(number));
        Ok(())
    }

    /// The symbols that items stand for, in their order.
    pub fn symbols_of(&self, alloc: Global, items: &[Item]) -> Result<Vec<Symbol>, AllocError>
        ensures symbols { IfOk result (λ v. v.items
            ≡ map (λ item. symbol_of self.now.symbols.items item.name.id) items.now) }
        ensures fit { IfOk result (λ v. All (SymbolFits (vec_len self.now.grammar.terminals)
            (vec_len self.now.grammar.nonterminals)) v.items) }
    {
        let mut symbols = Vec::new(alloc);
        for item in items {
            symbols.push(self.symbol(item.name.id))?;
        }
        Ok(symbols)
    }

    /// Says how many conflicts are expected.
    pub fn set_expected(&mut self, conflicts: Option<usize>, reductions: Option<usize>)
        ensures symbols { self.new.symbols ≡ self.old.symbols }
        ensures productions { self.new.grammar.productions ≡ self.old.grammar.productions }
    {
        self.grammar.expected = conflicts;
        self.grammar.expected_reductions = reductions;
    }

    /// Adds a level of precedence above the others.
    pub fn add_level(&mut self, level: Level) -> Result<(), AllocError>
        requires { LevelFits (vec_len self.old.grammar.terminals) level }
        ensures symbols { self.new.symbols ≡ self.old.symbols }
        ensures productions { self.new.grammar.productions ≡ self.old.grammar.productions }
    {
        self.grammar.add_level(level)
    }

    /// Adds a production.
    pub fn add_production(&mut self, production: Production) -> Result<(), AllocError>
        requires { ProductionFits (vec_len self.old.grammar.terminals)
            (vec_len self.old.grammar.nonterminals) production }
        ensures ok { OnOk result (self.new.grammar.productions.items
            ≡ self.old.grammar.productions.items ++ production ∷ []) }
        ensures err { OnErr result
            (self.new.grammar.productions.items ≡ self.old.grammar.productions.items) }
        ensures symbols { self.new.symbols ≡ self.old.symbols }
        ensures terminals { self.new.grammar.terminals ≡ self.old.grammar.terminals }
        ensures nonterminals { self.new.grammar.nonterminals ≡ self.old.grammar.nonterminals }
    {
        self.grammar.add_production(production)
    }
}

/// The places of items, in their order.
pub fn places_of(alloc: Global, items: &[Item]) -> Result<Vec<Span>, AllocError> {
    let mut places = Vec::new(alloc);
    for item in items {
        places.push(item.name.span)?;
    }
    Ok(places)
}
