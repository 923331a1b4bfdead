//! The name that the whole input stands for.

ghost use Rattle.std.specs.Prelude.{◌≡◌, IsNone, Some, IfOk};
ghost use Rattle.yacc_grammar.specs.GrammarOf.{IsFoundAs, first_rule, start_of};

use crate::define::{Definer, is_symbol};
use diagnostics::Diagnostic;
use grammar::Symbol;
use std::alloc::AllocError;
use yacc_file::{File, Name};

/// A name that was asked for as the start, but has no rule in the file.
#[derive(Debug, Drop)]
pub struct UnknownStart {
    /// The name of a rule that is perhaps meant.
    pub meant: Option<String>,
}

/// The name to begin with.
#[derive(Drop)]
pub enum Start {
    Found(Name),
    /// There is none, and why has been said.
    Missing,
    Unknown(UnknownStart),
}

impl Definer {
    // The names that have rules.
    fn rule_names<'a>(&self, file: &'a File) -> Result<Vec<&'a str>, AllocError> {
        let mut names = Vec::new(self.alloc);
        for (id, name) in file.names.iter().enumerate() {
            let text = name.as_str();
            if is_symbol(text) && matches!(self.table.entry(id), Some(Symbol::Nonterminal(_))) {
                names.push(text)?;
            }
        }
        Ok(names)
    }

    // The name of a rule that is perhaps meant.
    fn rule_meant(&mut self, file: &File, text: &str) -> Result<Option<String>, AllocError>
        ensures { self.new.table ≡ self.old.table }
    {
        let names = self.rule_names(file)?;
        match self.reports.meant(text, names.as_slice())? {
            Some(other) => Ok(Some(String::from_str(self.alloc, other)?)),
            None => Ok(None),
        }
    }

    // A start that the caller asks for.
    fn chosen_start(&mut self, file: &File, text: &str) -> Result<Start, AllocError>
        ensures { self.new.table ≡ self.old.table }
    {
        if is_symbol(text)
            && let Some(id) = file.names.get_index_of(text)
            && let Some(Symbol::Nonterminal(_)) = self.table.entry(id)
        {
            for rule in &file.rules {
                if rule.left.id == id {
                    return Ok(Start::Found(rule.left));
                }
            }
        }
        let meant = self.rule_meant(file, text)?;
        Ok(Start::Unknown(UnknownStart { meant }))
    }

    // A start that `%start` names.
    fn declared_start(&mut self, file: &File, name: Name) -> Result<Start, AllocError>
        ensures table { self.new.table ≡ self.old.table }
        ensures found { IfOk result (IsFoundAs (Some name.id)) }
    {
        let text = file.text(name);
        match self.table.entry(name.id) {
            Some(Symbol::Nonterminal(_)) => return Ok(Start::Found(name)),
            Some(Symbol::Terminal(_)) => {
                let message = format!(in self.alloc;
                    "`{text}` is to be the start, and is a token"
                )?;
                let help = "name a rule behind `%start`";
                self.reports.error(name.span, message.as_str(), help)?;
            }
            None => {
                let message = format!(in self.alloc;
                    "`{text}` is to be the start, and has no rule"
                )?;
                let mut diagnostic = Diagnostic::error(name.span, message);
                if let Some(other) = self.rule_meant(file, text)? {
                    diagnostic.help = Some(format!(in self.alloc; "did you mean `{other}`?")?);
                }
                self.reports.push(diagnostic)?;
            }
        }
        Ok(Start::Missing)
    }

    // The first rule's name, where nothing else is said.
    fn first_start(&mut self, file: &File) -> Result<Start, AllocError>
        ensures table { self.new.table ≡ self.old.table }
        ensures found { IfOk result (IsFoundAs (first_rule file.now.rules.items)) }
    {
        if let Some(rule) = file.rules.first() {
            return Ok(Start::Found(rule.left));
        }
        if let Some(mark) = file.rules_mark {
            let help = "write a rule, as in `list : ITEM | list ITEM ;`";
            self.reports
                .error(mark, "no rule stands behind this `%%`", help)?;
        }
        Ok(Start::Missing)
    }

    /// The name to begin with: the one that is asked for, or else what `%start` says, or else the
    /// first rule's.
    pub fn start(&mut self, file: &File, chosen: Option<&str>) -> Result<Start, AllocError>
        ensures table { self.new.table ≡ self.old.table }
        ensures declared { IsNone chosen.entry → IfOk result (IsFoundAs (start_of file.now)) }
    {
        let declared = file.starts.first().copied();
        if let Some(name) = file.starts.get(1) {
            let message = String::from_str(self.alloc, "the start is given more than once")?;
            let first = declared.map(|first| first.span);
            self.say(
                Diagnostic::error(name.span, message),
                first,
                "the first is here",
            )?;
        }
        match (chosen, declared) {
            (Some(text), _) => self.chosen_start(file, text),
            (None, Some(name)) => self.declared_start(file, name),
            (None, None) => self.first_start(file),
        }
    }
}
