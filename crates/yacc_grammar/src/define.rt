//! What the names of a file stand for, and what is wrong with them.

ghost use Rattle.std.specs.Prelude.{◌≡◌, ◌<◌, All, IfOk, vec_len};

use crate::reach::set;
use crate::table::Table;
use diagnostics::{Diagnostic, Reports};
use grammar::{Level, Symbol};
use source::Span;
use std::alloc::{AllocError, Global};
use yacc_file::{Alias, Alternative, ERROR_NAME, File, Group, Name};

/// Finds out what the names of a file stand for.
#[derive(Drop)]
pub struct Definer {
    pub alloc: Global,
    pub table: Table,
    pub reports: Reports,
    /// Where each name, by its number, is declared, and where it is given a precedence.
    pub defined: Vec<Option<Span>>,
    pub leveled: Vec<Option<Span>>,
    /// The names of which it was said that they are declared more than once.
    pub repeated: Vec<bool>,
    /// How many actions stand among symbols.
    pub actions: usize,
    ghost no_productions: { vec_len table.grammar.productions ≡ 0 },
}

fn is_literal(text: &str) -> bool {
    matches!(text.as_bytes().first(), Some(b'\'' | b'"'))
}

/// Whether a name of a file is one of a symbol. Those of directives, numbers and C code are not.
pub fn is_symbol(text: &str) -> bool {
    !matches!(
        text.as_bytes().first(),
        Some(b'%' | b'{' | b'$' | b'0'..=b'9') | None
    )
}

fn span_at(spans: &[Option<Span>], id: usize) -> Option<Span> {
    spans.get(id).copied().flatten()
}

// Keeps the first place of a name.
fn note_place(spans: &mut [Option<Span>], name: Name) {
    if name.id < spans.len() && spans[name.id].is_none() {
        spans[name.id] = Some(name.span);
    }
}

fn no_spans(alloc: Global, count: usize) -> Result<Vec<Option<Span>>, AllocError> {
    let mut spans = Vec::new(alloc);
    for _ in 0..count {
        spans.push(None)?;
    }
    Ok(spans)
}

impl Definer {
    /// Of the names of a file none is known but `$end` and `error`.
    pub fn new(alloc: Global, file: &File) -> Result<Definer, AllocError> {
        let names = file.names.len();
        Ok(Definer {
            alloc,
            table: Table::new(alloc, names)?,
            reports: Reports::new(alloc),
            defined: no_spans(alloc, names)?,
            leveled: no_spans(alloc, names)?,
            repeated: vec![in alloc; false; names]?,
            actions: 0,
        })
    }

    /// Adds a mistake, and the place that it has to do with, if there is one.
    pub fn say(
        &mut self,
        diagnostic: Diagnostic,
        other: Option<Span>,
        what: &str,
    ) -> Result<(), AllocError>
        ensures { self.new.table ≡ self.old.table }
    {
        match other {
            Some(span) => {
                let what = String::from_str(self.alloc, what)?;
                self.reports.push(diagnostic.with_note(span, what))
            }
            None => self.reports.push(diagnostic),
        }
    }

    // Makes a name a terminal.
    fn add_terminal(&mut self, file: &File, name: Name) -> Result<usize, AllocError>
        ensures { IfOk result (λ t. t < vec_len self.new.table.grammar.terminals) }
    {
        let text = String::from_str(self.alloc, file.text(name))?;
        self.table.define_terminal(name.id, text)
    }

    fn add_nonterminal(&mut self, file: &File, name: Name) -> Result<(), AllocError> {
        let text = String::from_str(self.alloc, file.text(name))?;
        note_place(self.defined.as_mut_slice(), name);
        self.table.define_nonterminal(name.id, text)
    }

    /// The names of the rules are nonterminals.
    pub fn rules(&mut self, file: &File) -> Result<(), AllocError> {
        for rule in &file.rules {
            if self.table.entry(rule.left.id).is_none() {
                self.add_nonterminal(file, rule.left)?;
            }
            if rule.left.id == ERROR_NAME {
                let message = "`error` is a token of each grammar, and can have no rule";
                let help = "give the rule another name";
                self.reports.error(rule.left.span, message, help)?;
            }
        }
        Ok(())
    }

    // The actions of an alternative, numbered from the ones before.
    fn actions_of(&mut self, alternative: &Alternative) -> Result<(), AllocError> {
        for item in &alternative.items {
            if item.is_action {
                let number = self.actions.saturating_add(1);
                self.actions = number;
                let name = format!(in self.alloc; "$@{number}")?;
                self.table.define_nonterminal(item.name.id, name)?;
            }
        }
        Ok(())
    }

    /// The actions among the symbols of the alternatives are nonterminals too.
    pub fn actions(&mut self, file: &File) -> Result<(), AllocError> {
        for rule in &file.rules {
            for alternative in &rule.alternatives {
                self.actions_of(alternative)?;
            }
        }
        Ok(())
    }

    // Makes a name a terminal where it is declared as one.
    fn declare(&mut self, file: &File, name: Name) -> Result<(), AllocError> {
        match self.table.entry(name.id) {
            None => {
                note_place(self.defined.as_mut_slice(), name);
                let _ = self.add_terminal(file, name)?;
                Ok(())
            }
            Some(Symbol::Terminal(_)) => Ok(()),
            Some(Symbol::Nonterminal(_)) => {
                let text = file.text(name);
                let message = format!(in self.alloc;
                    "`{text}` is declared as a token, and has a rule"
                )?;
                let rule = span_at(self.defined.as_slice(), name.id);
                self.say(
                    Diagnostic::error(name.span, message),
                    rule,
                    "its rule is here",
                )
            }
        }
    }

    // A token that `%token` has.
    fn token(&mut self, file: &File, name: Name) -> Result<(), AllocError> {
        let first = span_at(self.defined.as_slice(), name.id);
        if let (Some(Symbol::Terminal(_)), Some(span)) = (self.table.entry(name.id), first)
            && span != name.span
        {
            if !set(self.repeated.as_mut_slice(), name.id) {
                return Ok(());
            }
            let text = file.text(name);
            let message = format!(in self.alloc; "the token `{text}` is declared more than once")?;
            return self.say(
                Diagnostic::warning(name.span, message),
                first,
                "the first is here",
            );
        }
        self.declare(file, name)
    }

    // Lets a name stand for the token that it was given to.
    fn alias(&mut self, file: &File, alias: Alias) -> Result<(), AllocError> {
        match (
            self.table.entry(alias.text.id),
            self.table.entry(alias.token.id),
        ) {
            (None, Some(symbol)) => {
                self.table.set(alias.text.id, symbol);
                note_place(self.defined.as_mut_slice(), alias.text);
                Ok(())
            }
            (Some(_), _) => {
                let text = file.text(alias.text);
                let first = span_at(self.defined.as_slice(), alias.text.id);
                let message = format!(in self.alloc; "{text} stands for a token already")?;
                self.say(
                    Diagnostic::error(alias.text.span, message),
                    first,
                    "the first is here",
                )
            }
            _ => Ok(()),
        }
    }

    // The names with the numbers of `$end` and of `error` stand for these.
    fn reserved(&mut self, file: &File) -> Result<(), AllocError> {
        for alias in &file.aliases {
            if alias.token.id <= ERROR_NAME {
                self.alias(file, *alias)?;
            }
        }
        Ok(())
    }

    /// What `%token` declares are terminals, and strings may stand for them.
    pub fn tokens(&mut self, file: &File) -> Result<(), AllocError> {
        self.reserved(file)?;
        for name in &file.tokens {
            self.token(file, *name)?;
        }
        for alias in &file.aliases {
            if alias.token.id > ERROR_NAME {
                self.alias(file, *alias)?;
            }
        }
        Ok(())
    }

    // A token on a level of precedence.
    fn give_precedence(&mut self, file: &File, name: Name) -> Result<(), AllocError> {
        self.declare(file, name)?;
        let first = span_at(self.leveled.as_slice(), name.id);
        if first.is_some() {
            let text = file.text(name);
            let message = format!(in self.alloc; "`{text}` is given a precedence more than once")?;
            return self.say(
                Diagnostic::error(name.span, message),
                first,
                "the first is here",
            );
        }
        note_place(self.leveled.as_mut_slice(), name);
        Ok(())
    }

    // Adds the number of a terminal, if the name stands for one.
    fn push_terminal(&self, terminals: &mut Vec<usize>, name: Name) -> Result<(), AllocError>
        requires { All (λ t. t < vec_len self.now.table.grammar.terminals) terminals.old.items }
        ensures { All (λ t. t < vec_len self.now.table.grammar.terminals) terminals.new.items }
    {
        match self.table.entry(name.id) {
            Some(Symbol::Terminal(t)) => {
                terminals.push(t)?;
                Ok(())
            }
            _ => Ok(()),
        }
    }

    // The terminals of a level.
    fn terminals_of(&mut self, file: &File, group: &Group) -> Result<Vec<usize>, AllocError>
        ensures { IfOk result
            (λ v. All (λ t. t < vec_len self.new.table.grammar.terminals) v.items) }
    {
        for name in &group.names {
            self.give_precedence(file, *name)?;
        }
        let mut terminals = Vec::new(self.alloc);
        for name in &group.names {
            self.push_terminal(&mut terminals, *name)?;
        }
        Ok(terminals)
    }

    /// What `%left` and its like name are terminals too, on levels of precedence.
    pub fn levels(&mut self, file: &File) -> Result<(), AllocError> {
        for group in &file.groups {
            let terminals = self.terminals_of(file, group)?;
            self.table.add_level(Level {
                associativity: group.associativity,
                terminals,
                span: group.span,
            })?;
        }
        Ok(())
    }

    // The names of symbols that are declared, of literals or of others.
    fn known<'a>(&self, file: &'a File, literals: bool) -> Result<Vec<&'a str>, AllocError> {
        let mut known = Vec::new(self.alloc);
        for (id, name) in file.names.iter().enumerate() {
            let text = name.as_str();
            let is_declared = id == ERROR_NAME || span_at(self.defined.as_slice(), id).is_some();
            if is_symbol(text) && is_literal(text) == literals && is_declared {
                known.push(text)?;
            }
        }
        Ok(known)
    }

    // What may help where a name is not known: another name, or else some words.
    fn help_for(&mut self, file: &File, text: &str, otherwise: &str) -> Result<String, AllocError>
        ensures { self.new.table ≡ self.old.table }
    {
        if self.reports.hints > 0 {
            let known = self.known(file, is_literal(text))?;
            if let Some(other) = self.reports.meant(text, known.as_slice())? {
                return format!(in self.alloc; "did you mean `{other}`?");
            }
        }
        String::from_str(self.alloc, otherwise)
    }

    // Makes a name that was not declared a terminal. A name should have been declared, a string
    // should stand for a token, and a character stands for itself.
    fn undeclared(&mut self, file: &File, name: Name) -> Result<(), AllocError> {
        let text = file.text(name);
        if !is_literal(text) {
            let otherwise = "declare it by `%token`, or write a rule for it";
            let help = self.help_for(file, text, otherwise)?;
            let message = format!(in self.alloc;
                "`{text}` is neither a token nor the name of a rule"
            )?;
            self.reports
                .push(Diagnostic::error(name.span, message).with_help(help))?;
        } else if text.as_bytes().first() == Some(&b'"') {
            let otherwise = "give it to a token, as in `%token NAME \"text\"`";
            let help = self.help_for(file, text, otherwise)?;
            let message = format!(in self.alloc; "the string {text} is given to no token")?;
            self.reports
                .push(Diagnostic::warning(name.span, message).with_help(help))?;
        }
        let _ = self.add_terminal(file, name)?;
        Ok(())
    }

    // The symbol that `%prec` names.
    fn precedence(&mut self, file: &File, name: Name) -> Result<(), AllocError> {
        let text = file.text(name);
        match self.table.entry(name.id) {
            None => {
                let otherwise =
                    "give it a precedence by `%left`, `%right`, `%nonassoc` or `%precedence`";
                let help = self.help_for(file, text, otherwise)?;
                let message = format!(in self.alloc;
                    "`%prec` names `{text}`, which is declared nowhere, and so has no precedence"
                )?;
                self.reports
                    .push(Diagnostic::warning(name.span, message).with_help(help))?;
                let _ = self.add_terminal(file, name)?;
                Ok(())
            }
            Some(Symbol::Terminal(_)) => Ok(()),
            Some(Symbol::Nonterminal(_)) => {
                let rule = span_at(self.defined.as_slice(), name.id);
                let message = format!(in self.alloc;
                    "`%prec` takes a token, and `{text}` is the name of a rule"
                )?;
                self.say(
                    Diagnostic::error(name.span, message),
                    rule,
                    "its rule is here",
                )
            }
        }
    }

    fn names_of(&mut self, file: &File, alternative: &Alternative) -> Result<(), AllocError> {
        for item in &alternative.items {
            if self.table.entry(item.name.id).is_none() {
                self.undeclared(file, item.name)?;
            }
        }
        match alternative.precedence {
            Some(name) => self.precedence(file, name),
            None => Ok(()),
        }
    }

    /// All other names in rules are terminals.
    pub fn used(&mut self, file: &File) -> Result<(), AllocError> {
        for rule in &file.rules {
            for alternative in &rule.alternatives {
                self.names_of(file, alternative)?;
            }
        }
        Ok(())
    }
}
