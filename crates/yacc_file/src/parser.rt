//! From tokens to declarations and rules.

ghost use Rattle.std.specs.Prelude.{◌≡◌, ◌<◌, ◌≤◌, All, vec_len, IfSome, OnSome, IfOk};
ghost use Rattle.std.specs.Option.{ForSome};
ghost use Rattle.indexmap.specs.IndexSet.{index_set_len};
ghost use Rattle.yacc_file.specs.Words.{NameFits, WordFits};
ghost use Rattle.yacc_file.specs.Syntax.{AlternativeFits, RuleFits};

use crate::{Alias, Alternative, END_NAME, ERROR_NAME, File, Group, Item, Name, Rule, Word, Words};
use diagnostics::{Diagnostic, Reports};
use grammar::Associativity;
use indexmap::IndexSet;
use source::Span;
use std::alloc::{AllocError, Global};
use yacc_lexer::{Fault, Keyword, TokenKind, directives};

/// What was read of a file, and what is wrong with the way it is written.
#[derive(Drop)]
pub struct Parsed {
    pub file: File,
    pub diagnostics: Vec<Diagnostic>,
}

// The part from the one through the other.
fn joined(first: Span, last: Span) -> Span {
    Span {
        start: first.start.min(last.start),
        end: first.end.max(last.end),
    }
}

// The number that a name says, if it does.
fn number_named(names: &IndexSet<String>, id: usize) -> Option<usize> {
    let name = names.get_index(id)?;
    match name.as_str().strip_prefix("0x") {
        Some(digits) => usize::from_str_radix(digits, 16).ok(),
        None => name.as_str().parse::<usize>().ok(),
    }
}

// The symbol that each parser has under a number of a token.
fn reserved_name(code: usize) -> Option<usize> {
    match code {
        0 => Some(END_NAME),
        256 => Some(ERROR_NAME),
        _ => None,
    }
}

// The tokens, of which the last `left` are left, and what was read of those before them.
#[derive(Drop)]
struct Parser {
    alloc: Global,
    words: Vec<Word>,
    left: usize,
    file: File,
    reports: Reports,
    ghost within: { left ≤ vec_len words },
    ghost in_range: { All (WordFits (index_set_len file.names)) words.items },
}

impl Parser {
    // Takes the next token.
    fn next(&mut self) -> Option<Word>
        ensures fits { IfSome result (WordFits (index_set_len self.old.file.names)) }
        ensures some { 0 < self.old.left → self.new.left < self.old.left }
        ensures nearer { OnSome result (self.new.left < self.old.left) }
        ensures left { self.new.left ≤ self.old.left }
        ensures file { self.new.file ≡ self.old.file }
    {
        if self.left == 0 {
            return None;
        }
        let word = self.words[self.words.len() - self.left];
        self.left -= 1;
        Some(word)
    }

    // The next token, which stays.
    fn peek(&self) -> Option<Word>
        ensures fits { IfSome result (WordFits (index_set_len self.now.file.names)) }
        ensures some { OnSome result (0 < self.now.left) }
    {
        if self.left == 0 {
            return None;
        }
        Some(self.words[self.words.len() - self.left])
    }

    fn kind_at(&self, index: usize) -> Option<TokenKind>
        ensures { OnSome result (index < self.now.left) }
    {
        if index >= self.left {
            return None;
        }
        Some(self.words[self.words.len() - self.left + index].kind)
    }

    // Whether a rule begins here: a name, maybe one by which its actions call it, and a colon.
    fn begins_rule(&self) -> bool {
        self.kind_at(0) == Some(TokenKind::Name)
            && (self.kind_at(1) == Some(TokenKind::Colon)
                || self.kind_at(1) == Some(TokenKind::Reference)
                    && self.kind_at(2) == Some(TokenKind::Colon))
    }

    fn add_token(&mut self, name: Name) -> Result<(), AllocError>
        requires { NameFits (index_set_len self.old.file.names) name }
        ensures left { self.new.left ≡ self.old.left }
        ensures names { self.new.file.names ≡ self.old.file.names }
    {
        self.file.add_token(name)
    }

    fn add_alias(&mut self, text: Name, token: Name) -> Result<(), AllocError>
        requires text { NameFits (index_set_len self.old.file.names) text }
        requires token { NameFits (index_set_len self.old.file.names) token }
        ensures left { self.new.left ≡ self.old.left }
        ensures names { self.new.file.names ≡ self.old.file.names }
    {
        self.file.add_alias(Alias { text, token })
    }

    fn add_rule(&mut self, rule: Rule) -> Result<(), AllocError>
        requires { RuleFits (index_set_len self.old.file.names) rule }
        ensures left { self.new.left ≡ self.old.left }
        ensures names { self.new.file.names ≡ self.old.file.names }
    {
        self.file.add_rule(rule)
    }

    fn error(&mut self, span: Span, message: &str, help: &str) -> Result<(), AllocError>
        ensures left { self.new.left ≡ self.old.left }
        ensures file { self.new.file ≡ self.old.file }
    {
        self.reports.error(span, message, help)
    }

    // Says that a token cannot stand here, or what is wrong with the token itself.
    fn unexpected(&mut self, word: Word, message: &str, help: &str) -> Result<(), AllocError>
        ensures left { self.new.left ≡ self.old.left }
        ensures file { self.new.file ≡ self.old.file }
    {
        match word.kind {
            TokenKind::Wrong(fault) => self.faulty(word.name.span, fault),
            _ => self.error(word.name.span, message, help),
        }
    }

    fn faulty(&mut self, span: Span, fault: Fault) -> Result<(), AllocError>
        ensures left { self.new.left ≡ self.old.left }
        ensures file { self.new.file ≡ self.old.file }
    {
        let message = format!(in self.alloc; "{fault}")?;
        self.error(span, message.as_str(), fault.help())
    }

    // The directive that is meant by one that is not known, if one is near.
    fn meant(&mut self, directive: Word) -> Result<Option<&'static str>, AllocError>
        ensures left { self.new.left ≡ self.old.left }
        ensures file { self.new.file ≡ self.old.file }
    {
        let text = self.file.text(directive.name);
        let word = text.strip_prefix('%').unwrap_or(text);
        let known = directives(self.alloc)?;
        self.reports.meant(word, known.as_slice())
    }

    // Says that a directive is not known.
    fn unknown(&mut self, directive: Word) -> Result<(), AllocError>
        ensures left { self.new.left ≡ self.old.left }
        ensures file { self.new.file ≡ self.old.file }
    {
        let help = match self.meant(directive)? {
            Some(other) => format!(in self.alloc; "did you mean `%{other}`?")?,
            None => String::new(self.alloc),
        };
        let text = self.file.text(directive.name);
        let message = format!(in self.alloc; "there is no directive `{text}`")?;
        self.error(directive.name.span, message.as_str(), help.as_str())
    }

    // Says that a directive is a preprocessor's.
    fn conditional(&mut self, directive: Word) -> Result<(), AllocError>
        ensures left { self.new.left ≡ self.old.left }
        ensures file { self.new.file ≡ self.old.file }
    {
        let text = self.file.text(directive.name);
        let message = format!(in self.alloc;
            "`{text}` is a preprocessor's, and what it would leave out or bring in is not known here"
        )?;
        let help = "run that preprocessor first, and give its output";
        self.error(directive.name.span, message.as_str(), help)
    }

    // Says that a directive stands outside of a rule.
    fn misplaced(&mut self, directive: Word) -> Result<(), AllocError>
        ensures left { self.new.left ≡ self.old.left }
        ensures file { self.new.file ≡ self.old.file }
    {
        let text = self.file.text(directive.name);
        let message = format!(in self.alloc; "`{text}` stands outside of a rule")?;
        let help = "it belongs among the symbols of an alternative";
        self.error(directive.name.span, message.as_str(), help)
    }

    // Says that a directive has nothing behind it. What is there and cannot be read is said
    // elsewhere.
    fn lacks(&mut self, directive: Word, what: &str) -> Result<(), AllocError>
        ensures left { self.new.left ≡ self.old.left }
        ensures file { self.new.file ≡ self.old.file }
    {
        if let Some(TokenKind::Wrong(_)) = self.kind_at(0) {
            return Ok(());
        }
        let text = self.file.text(directive.name);
        let message = format!(in self.alloc; "{what} is expected behind `{text}`")?;
        self.error(directive.name.span, message.as_str(), "")
    }

    // Leaves out words up to the next directive, `%%`, `;` or rule. What is wrong with one is said, of
    // several in a row with the first. Behind an error only what is not closed is said.
    fn skip(&mut self, is_behind_error: bool) -> Result<(), AllocError>
        ensures left { self.new.left ≤ self.old.left }
        ensures file { self.new.file ≡ self.old.file }
    {
        let mut was_wrong = false;
        while let Some(word) = self.peek() {
            let mut is_wrong = false;
            match word.kind {
                TokenKind::Directive(_)
                | TokenKind::Mark
                | TokenKind::Prologue
                | TokenKind::Semicolon => break,
                TokenKind::Name if self.begins_rule() => break,
                TokenKind::Wrong(fault) if fault.is_open() || !is_behind_error => {
                    if !was_wrong {
                        self.faulty(word.name.span, fault)?;
                    }
                    is_wrong = true;
                }
                _ => {}
            }
            was_wrong = is_wrong;
            let _ = self.next();
        }
        Ok(())
    }

    // The next token, if it calls a symbol or is a tag or a number, as stand in declarations.
    fn next_declared(&mut self) -> Option<Word>
        ensures fits { IfSome result (WordFits (index_set_len self.old.file.names)) }
        ensures nearer { OnSome result (self.new.left < self.old.left) }
        ensures left { self.new.left ≤ self.old.left }
        ensures file { self.new.file ≡ self.old.file }
    {
        let word = self.peek()?;
        match word.kind {
            TokenKind::Name if self.begins_rule() => None,
            TokenKind::Name
            | TokenKind::Character
            | TokenKind::Text
            | TokenKind::Tag
            | TokenKind::Number => self.next(),
            _ => None,
        }
    }

    // The symbol that each parser has under a token's number.
    fn reserved(&self, word: Word) -> Option<Name>
        ensures { ForSome result (NameFits (index_set_len self.now.file.names)) }
    {
        let id = reserved_name(number_named(&self.file.names, word.name.id)?)?;
        if id >= self.file.names.len() {
            return None;
        }
        Some(Name {
            id,
            span: word.name.span,
        })
    }

    // The names behind `%token`, and the strings that stand for them. The token with number 0
    // stands for `$end`, and the one with 256 for `error`.
    fn tokens(&mut self, directive: Word) -> Result<(), AllocError>
        ensures left { self.new.left ≤ self.old.left }
        ensures names { self.new.file.names ≡ self.old.file.names }
    {
        let mut last = None;
        let mut is_empty = true;
        while let Some(word) = self.next_declared() {
            is_empty = false;
            match (word.kind, last) {
                (TokenKind::Text, Some(token)) => {
                    self.add_alias(word.name, token)?;
                    last = None;
                }
                (TokenKind::Number, Some(token)) => {
                    if let Some(reserved) = self.reserved(word) {
                        self.add_alias(token, reserved)?;
                        last = Some(reserved);
                    }
                }
                (TokenKind::Name | TokenKind::Character | TokenKind::Text, _) => {
                    self.add_token(word.name)?;
                    last = Some(word.name);
                }
                _ => {}
            }
        }
        if is_empty {
            self.lacks(directive, "a token")?;
        }
        Ok(())
    }

    // The names behind a directive, without tags and numbers.
    fn symbols(&mut self, directive: Word) -> Result<Vec<Name>, AllocError>
        ensures fit { IfOk result
            (λ v. All (NameFits (index_set_len self.old.file.names)) v.items) }
        ensures left { self.new.left ≤ self.old.left }
        ensures file { self.new.file ≡ self.old.file }
    {
        let mut symbols = Vec::new(self.alloc);
        while let Some(word) = self.next_declared() {
            if !matches!(word.kind, TokenKind::Tag | TokenKind::Number) {
                symbols.push(word.name)?;
            }
        }
        if symbols.is_empty() {
            self.lacks(directive, "a symbol")?;
        }
        Ok(symbols)
    }

    // A level of precedence.
    fn group(&mut self, directive: Word, associativity: Associativity) -> Result<(), AllocError>
        ensures left { self.new.left ≤ self.old.left }
        ensures names { self.new.file.names ≡ self.old.file.names }
    {
        let names = self.symbols(directive)?;
        self.file.groups.push(Group {
            span: directive.name.span,
            associativity,
            names,
        })?;
        Ok(())
    }

    // The number that a directive gives.
    fn number(&mut self, directive: Word) -> Result<Option<usize>, AllocError>
        ensures left { self.new.left ≤ self.old.left }
        ensures file { self.new.file ≡ self.old.file }
    {
        let number = match self.next_declared() {
            Some(word) => number_named(&self.file.names, word.name.id),
            None => None,
        };
        if number.is_none() {
            self.lacks(directive, "a number")?;
        }
        Ok(number)
    }

    // What stands behind a directive.
    fn declaration(&mut self, directive: Word, keyword: Keyword) -> Result<(), AllocError>
        ensures left { self.new.left ≤ self.old.left }
        ensures names { self.new.file.names ≡ self.old.file.names }
    {
        match keyword {
            Keyword::Token => self.tokens(directive),
            Keyword::Left => self.group(directive, Associativity::Left),
            Keyword::Right => self.group(directive, Associativity::Right),
            Keyword::Nonassoc => self.group(directive, Associativity::Nonassoc),
            Keyword::Precedence => self.group(directive, Associativity::Precedence),
            Keyword::Type => {
                let names = self.symbols(directive)?;
                self.file.add_typed(names.as_slice())
            }
            Keyword::Start => {
                let names = self.symbols(directive)?;
                self.file.add_starts(names.as_slice())
            }
            Keyword::Expect => {
                self.file.expected = self.number(directive)?;
                Ok(())
            }
            Keyword::ExpectReductions => {
                self.file.expected_reductions = self.number(directive)?;
                Ok(())
            }
            Keyword::DefaultPrecedence => {
                self.file.has_default_precedence = true;
                Ok(())
            }
            Keyword::NoDefaultPrecedence => {
                self.file.has_default_precedence = false;
                Ok(())
            }
            Keyword::Skipped => self.skip(false),
            Keyword::Conditional => {
                self.conditional(directive)?;
                self.skip(true)
            }
            Keyword::Unknown => {
                self.unknown(directive)?;
                self.skip(true)
            }
            Keyword::Prec | Keyword::Dprec | Keyword::Merge | Keyword::Empty => {
                self.misplaced(directive)?;
                self.skip(true)
            }
        }
    }

    // All up to the first `%%`, or to a rule before it.
    fn declarations(&mut self) -> Result<(), AllocError>
        ensures left { self.new.left ≤ self.old.left }
        ensures names { self.new.file.names ≡ self.old.file.names }
    {
        while let Some(word) = self.peek() {
            if self.begins_rule() {
                let help = "write `%%` on a line of its own between the declarations and the rules";
                return self.error(word.name.span, "this rule stands before the `%%`", help);
            }
            let _ = self.next();
            match word.kind {
                TokenKind::Mark => {
                    self.file.rules_mark = Some(word.name.span);
                    return Ok(());
                }
                TokenKind::Prologue | TokenKind::Semicolon => {}
                TokenKind::Directive(keyword) => self.declaration(word, keyword)?,
                _ => {
                    let message = "a declaration, as `%token`, or `%%` is expected here";
                    self.unexpected(word, message, "")?;
                    self.skip(true)?;
                }
            }
        }
        self.no_rules()
    }

    // Says that there is no `%%`, unless what is not closed may hold it.
    fn no_rules(&mut self) -> Result<(), AllocError>
        ensures left { self.new.left ≡ self.old.left }
        ensures file { self.new.file ≡ self.old.file }
    {
        let span = match self.words.last() {
            Some(word) if matches!(word.kind, TokenKind::Wrong(_)) => return Ok(()),
            Some(word) => word.name.span,
            None => Span { start: 0, end: 0 },
        };
        let help = "write `%%` on a line of its own, and the rules behind it";
        self.error(span, "this file has no `%%`, and so no rules", help)
    }

    // Whether an alternative ends before a word.
    fn ends_alternative(&self, word: Word) -> bool {
        match word.kind {
            TokenKind::Bar | TokenKind::Semicolon | TokenKind::Mark => true,
            TokenKind::Directive(keyword) => !is_in_rules(keyword),
            _ => self.begins_rule(),
        }
    }

    // An alternative: up to the `|` or `;` behind it, or to what cannot stand in it. `opening` is
    // the token before.
    fn alternative(&mut self, opening: Span) -> Result<Alternative, AllocError>
        ensures fits { IfOk result (AlternativeFits (index_set_len self.old.file.names)) }
        ensures left { self.new.left ≤ self.old.left }
        ensures file { self.new.file ≡ self.old.file }
    {
        let mut items = Vec::new(self.alloc);
        let mut precedence = None;
        let mut empty = None;
        let mut span = opening;
        let mut is_first = true;
        // An action that is among the symbols if any more follow.
        let mut pending = None;
        // Whether the word before could not stand there. Of such a row one is said.
        let mut was_wrong = false;
        while let Some(word) = self.peek() {
            if self.ends_alternative(word) {
                break;
            }
            let _ = self.next();
            span = if is_first {
                word.name.span
            } else {
                joined(span, word.name.span)
            };
            is_first = false;
            let mut is_wrong = false;
            match word.kind {
                TokenKind::Name
                | TokenKind::Character
                | TokenKind::Text
                | TokenKind::Code
                | TokenKind::Predicate => {
                    if let Some(name) = pending {
                        items.push(Item {
                            name,
                            is_action: true,
                        })?;
                        pending = None;
                    }
                    if is_action(word.kind) {
                        pending = Some(word.name);
                    } else {
                        items.push(Item {
                            name: word.name,
                            is_action: false,
                        })?;
                    }
                }
                TokenKind::Directive(Keyword::Prec) => {
                    if precedence.is_some() {
                        let message = "this alternative has a `%prec` already";
                        self.error(word.name.span, message, "")?;
                    }
                    precedence = self.next_symbol(word)?;
                }
                TokenKind::Directive(Keyword::Empty) => empty = Some(word.name.span),
                TokenKind::Directive(_) => {
                    let _ = self.next_declared();
                }
                TokenKind::Reference | TokenKind::Tag | TokenKind::Equals | TokenKind::Prologue =>
                    {}
                _ => {
                    if !was_wrong {
                        self.unexpected(word, "this cannot stand in a rule", "")?;
                    }
                    is_wrong = true;
                }
            }
            was_wrong = is_wrong;
        }
        if let Some(place) = empty
            && !items.is_empty()
        {
            let message = "`%empty` stands in an alternative that has symbols";
            self.error(
                place,
                message,
                "write `|` between them, or leave `%empty` out",
            )?;
        }
        Ok(Alternative {
            items,
            precedence,
            span,
        })
    }

    // The symbol behind `%prec`.
    fn next_symbol(&mut self, directive: Word) -> Result<Option<Name>, AllocError>
        ensures fits { IfOk result
            (λ r. ForSome r (NameFits (index_set_len self.old.file.names))) }
        ensures left { self.new.left ≤ self.old.left }
        ensures file { self.new.file ≡ self.old.file }
    {
        match self.peek() {
            Some(word)
                if matches!(
                    word.kind,
                    TokenKind::Name | TokenKind::Character | TokenKind::Text
                ) => {
                let _ = self.next();
                Ok(Some(word.name))
            }
            _ => {
                self.lacks(directive, "a token")?;
                Ok(None)
            }
        }
    }

    // Takes a `|`, if it comes next.
    fn next_bar(&mut self) -> Option<Span>
        ensures nearer { OnSome result (self.new.left < self.old.left) }
        ensures left { self.new.left ≤ self.old.left }
        ensures file { self.new.file ≡ self.old.file }
    {
        let word = self.peek()?;
        if word.kind != TokenKind::Bar {
            return None;
        }
        let _ = self.next();
        Some(word.name.span)
    }

    // Takes a `;`, if it comes next.
    fn end_rule(&mut self)
        ensures left { self.new.left ≤ self.old.left }
        ensures file { self.new.file ≡ self.old.file }
    {
        if self.kind_at(0) == Some(TokenKind::Semicolon) {
            let _ = self.next();
        }
    }

    // The alternatives of a rule, and the `;` behind them, which may be missing.
    fn alternatives(&mut self, left: Name, opening: Span) -> Result<(), AllocError>
        requires { NameFits (index_set_len self.old.file.names) left }
        ensures left { self.new.left ≤ self.old.left }
        ensures names { self.new.file.names ≡ self.old.file.names }
    {
        let mut alternatives = Vec::new(self.alloc);
        alternatives.push(self.alternative(opening)?)?;
        while let Some(bar) = self.next_bar() {
            alternatives.push(self.alternative(bar)?)?;
        }
        self.end_rule();
        self.add_rule(Rule { left, alternatives })
    }

    // Lets a name that parsers of bison have stand for a symbol, where the file does not declare
    // it.
    fn predefine(&mut self, text: &str, reserved: usize) -> Result<(), AllocError>
        ensures left { self.new.left ≡ self.old.left }
        ensures names { self.new.file.names ≡ self.old.file.names }
    {
        let Some(id) = self.file.names.get_index_of(text) else {
            return Ok(());
        };
        if reserved >= self.file.names.len() || self.file.declares(id) {
            return Ok(());
        }
        let span = Span { start: 0, end: 0 };
        self.add_alias(Name { id, span }, Name { id: reserved, span })
    }

    // Says why no rule begins with a word.
    fn no_rule(&mut self, word: Word) -> Result<(), AllocError>
        ensures left { self.new.left ≡ self.old.left }
        ensures file { self.new.file ≡ self.old.file }
    {
        let message = match word.kind {
            TokenKind::Name => "no `:` follows this name, so that it begins no rule",
            TokenKind::Character | TokenKind::Text if self.kind_at(0) == Some(TokenKind::Colon) => {
                "the left side of a rule is a name, and this is a token"
            }
            _ => "a rule is expected here: a name and `:`",
        };
        let help = match word.kind {
            TokenKind::Name => {
                "write `:` behind it, or take away the `;` before it if it goes on with that rule"
            }
            TokenKind::Code | TokenKind::Bar => "the rule before has ended: take away the `;`",
            _ => "",
        };
        self.unexpected(word, message, help)
    }

    // All behind the first `%%`.
    fn rules(&mut self) -> Result<(), AllocError>
        ensures names { self.new.file.names ≡ self.old.file.names }
    {
        let mut left = None;
        while let Some(word) = self.peek() {
            let begins_rule = self.begins_rule();
            let _ = self.next();
            match word.kind {
                TokenKind::Mark => return Ok(()),
                TokenKind::Name if begins_rule => {
                    if self.kind_at(0) == Some(TokenKind::Reference) {
                        let _ = self.next();
                    }
                    let colon = self.next();
                    let opening = match colon {
                        Some(colon) => colon.name.span,
                        None => word.name.span,
                    };
                    left = Some(word.name);
                    self.alternatives(word.name, opening)?;
                }
                TokenKind::Bar => match left {
                    Some(left) => self.alternatives(left, word.name.span)?,
                    None => self.no_rule(word)?,
                },
                TokenKind::Semicolon | TokenKind::Prologue => {}
                TokenKind::Directive(keyword) => self.declaration(word, keyword)?,
                _ => {
                    self.no_rule(word)?;
                    self.skip(true)?;
                }
            }
        }
        Ok(())
    }
}

fn is_action(kind: TokenKind) -> bool {
    matches!(kind, TokenKind::Code | TokenKind::Predicate)
}

// Whether a directive may stand in an alternative.
fn is_in_rules(keyword: Keyword) -> bool {
    matches!(
        keyword,
        Keyword::Prec
            | Keyword::Empty
            | Keyword::Dprec
            | Keyword::Merge
            | Keyword::Expect
            | Keyword::ExpectReductions
    )
}

/// Reads a file from its tokens. Where something is wrong, it is left out, and the rest is read.
pub fn parse(alloc: Global, words: Words) -> Result<Parsed, AllocError>
    ensures names { IfOk result (λ r. r.file.names ≡ words.names) }
{
    let Words { names, words } = words;
    let mut parser = Parser {
        alloc,
        left: words.len(),
        words,
        file: File::new(alloc, names),
        reports: Reports::new(alloc),
    };
    parser.declarations()?;
    parser.rules()?;
    parser.predefine("YYEOF", END_NAME)?;
    parser.predefine("YYerror", ERROR_NAME)?;
    Ok(Parsed {
        file: parser.file,
        diagnostics: parser.reports.diagnostics,
    })
}
