//! The declarations and rules of a file, as they are written.

ghost use Rattle.std.specs.Prelude.{◌≡◌, [], All};
ghost use Rattle.indexmap.specs.IndexSet.{index_set_len};
ghost use Rattle.yacc_file.specs.Words.{NameFits};
ghost use Rattle.yacc_file.specs.Syntax.{AliasFits, GroupFits, RuleFits};

use crate::Name;
use grammar::Associativity;
use indexmap::IndexSet;
use source::Span;
use std::alloc::{AllocError, Global};

/// A name that stands for a token: a string that `%token` gives to it, or the name of a token with
/// number 0 or 256, which stands for `$end` or `error`.
#[derive(Clone, Copy, Debug, PartialEq, Eq)]
pub struct Alias {
    pub text: Name,
    pub token: Name,
}

/// The tokens of a `%left` or its like: one level of precedence.
#[derive(Debug, Drop)]
pub struct Group {
    /// The directive.
    pub span: Span,
    pub associativity: Associativity,
    pub names: Vec<Name>,
}

/// A symbol of an alternative, or an action among the symbols, which is a symbol that stands for
/// nothing.
#[derive(Clone, Copy, Debug, PartialEq, Eq)]
pub struct Item {
    pub name: Name,
    pub is_action: bool,
}

/// One of the lists of symbols that a rule's name stands for.
#[derive(Debug, Drop)]
pub struct Alternative {
    pub items: Vec<Item>,
    /// What `%prec` names.
    pub precedence: Option<Name>,
    /// Its text; the token before where it has none.
    pub span: Span,
}

/// A rule: a name and its alternatives.
#[derive(Debug, Drop)]
pub struct Rule {
    pub left: Name,
    pub alternatives: Vec<Alternative>,
}

/// A whole file. The groups come from the lowest precedence up.
#[derive(Drop)]
pub struct File {
    pub names: IndexSet<String>,
    pub tokens: Vec<Name>,
    pub aliases: Vec<Alias>,
    pub groups: Vec<Group>,
    /// Names that were given a type.
    pub typed: Vec<Name>,
    /// What `%start` names.
    pub starts: Vec<Name>,
    /// Whether a rule without `%prec` has the precedence of its last token.
    pub has_default_precedence: bool,
    pub expected: Option<usize>,
    pub expected_reductions: Option<usize>,
    /// The `%%` before the rules, if there is one.
    pub rules_mark: Option<Span>,
    pub rules: Vec<Rule>,
    ghost tokens_fit: { All (NameFits (index_set_len names)) tokens.items },
    ghost aliases_fit: { All (AliasFits (index_set_len names)) aliases.items },
    ghost groups_fit: { All (GroupFits (index_set_len names)) groups.items },
    ghost typed_fit: { All (NameFits (index_set_len names)) typed.items },
    ghost starts_fit: { All (NameFits (index_set_len names)) starts.items },
    ghost rules_fit: { All (RuleFits (index_set_len names)) rules.items },
}

impl File {
    /// A file in which nothing stands, but that has names.
    pub fn new(alloc: Global, names: IndexSet<String>) -> File
        ensures { result.names ≡ names }
    {
        File {
            names,
            tokens: Vec::new(alloc),
            aliases: Vec::new(alloc),
            groups: Vec::new(alloc),
            typed: Vec::new(alloc),
            starts: Vec::new(alloc),
            has_default_precedence: true,
            expected: None,
            expected_reductions: None,
            rules_mark: None,
            rules: Vec::new(alloc),
        }
    }

    /// The text of a name; nothing where the file has no such name.
    pub fn text(&self, name: Name) -> &str {
        match self.names.get_index(name.id) {
            Some(text) => text.as_str(),
            None => "",
        }
    }

    /// Adds a token behind the others.
    pub fn add_token(&mut self, name: Name) -> Result<(), AllocError>
        requires { NameFits (index_set_len self.old.names) name }
        ensures names { self.new.names ≡ self.old.names }
    {
        self.tokens.push(name)?;
        Ok(())
    }

    /// Adds an alias behind the others.
    pub fn add_alias(&mut self, alias: Alias) -> Result<(), AllocError>
        requires { AliasFits (index_set_len self.old.names) alias }
        ensures names { self.new.names ≡ self.old.names }
    {
        self.aliases.push(alias)?;
        Ok(())
    }

    /// Whether a token or a rule has a name.
    pub fn declares(&self, id: usize) -> bool {
        self.tokens.iter().any(|name| name.id == id)
            || self.rules.iter().any(|rule| rule.left.id == id)
    }

    /// Adds names that have a type.
    pub fn add_typed(&mut self, names: &[Name]) -> Result<(), AllocError>
        requires { All (NameFits (index_set_len self.old.names)) names.now }
        ensures names { self.new.names ≡ self.old.names }
    {
        self.typed.extend_from_slice(names)
    }

    /// Adds names that `%start` has.
    pub fn add_starts(&mut self, names: &[Name]) -> Result<(), AllocError>
        requires { All (NameFits (index_set_len self.old.names)) names.now }
        ensures names { self.new.names ≡ self.old.names }
    {
        self.starts.extend_from_slice(names)
    }

    /// Adds a rule behind the others.
    pub fn add_rule(&mut self, rule: Rule) -> Result<(), AllocError>
        requires { RuleFits (index_set_len self.old.names) rule }
        ensures names { self.new.names ≡ self.old.names }
    {
        self.rules.push(rule)?;
        Ok(())
    }
}
