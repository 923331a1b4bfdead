use grammar::{Grammar, Production, Symbol};
use source::{Lines, Place, Span};

/// A file, and the grammar that was read from it.
#[derive(Clone, Copy)]
pub struct Subject<'a> {
    /// What the file is called.
    pub file: &'a str,
    pub lines: &'a Lines<'a>,
    pub grammar: &'a Grammar,
}

impl<'a> Subject<'a> {
    /// The name of a symbol; nothing where the grammar has no such symbol.
    pub fn name(&self, symbol: Symbol) -> &'a str {
        let grammar = self.grammar;
        if grammar.has_symbol(symbol) {
            grammar.name(symbol)
        } else {
            ""
        }
    }

    /// A production by its number.
    pub fn production(&self, number: usize) -> Option<&'a Production> {
        self.grammar.productions.get(number)
    }

    /// The name of the nonterminal on its left side.
    pub fn left(&self, number: usize) -> &'a str {
        match self.production(number) {
            Some(production) => self.name(Symbol::Nonterminal(production.left)),
            None => "",
        }
    }

    /// Whether a production stands for an action among the symbols of another.
    pub fn is_action(&self, number: usize) -> bool {
        self.left(number).starts_with("$@")
    }

    /// The line of the action among symbols that a nonterminal stands for, if it stands for one.
    pub fn action_line(&self, nonterminal: usize) -> Option<usize> {
        if !self
            .name(Symbol::Nonterminal(nonterminal))
            .starts_with("$@")
        {
            return None;
        }
        for production in &self.grammar.productions {
            if production.left == nonterminal {
                return Some(self.line(production.span));
            }
        }
        None
    }

    /// The place at which a part of the text begins.
    pub fn place(&self, span: Span) -> Place {
        self.lines.place(span.start.min(self.lines.text.len()))
    }

    /// The line, from 1, on which a part of the text begins.
    pub fn line(&self, span: Span) -> usize {
        self.place(span).line
    }
}
