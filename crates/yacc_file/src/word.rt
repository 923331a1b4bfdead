//! The tokens of a file with their names, each name once.

ghost use Rattle.std.specs.Prelude.{◌≡◌, ◌<◌, ◌≤◌, [], ◌∷◌, ◌++◌, All, length, IfOk, OnOk, OnErr};
ghost use Rattle.indexmap.specs.IndexSet.{index_set_len};
ghost use Rattle.yacc_file.specs.Words.{WordFits, AreInOrder, IsAt};

use crate::spelling::spelling_of;
use indexmap::IndexSet;
use source::Span;
use std::alloc::{AllocError, Global};
use yacc_lexer::{Lexer, TokenKind};

/// A name at one of its places: its number among the names of the file, and the place.
#[derive(Clone, Copy, Debug, PartialEq, Eq)]
pub struct Name {
    pub id: usize,
    pub span: Span,
}

/// A token. One that is called by a name, as a character, a number or a directive is by its own
/// text, has that name's number. A piece of C code has a number that no other token has. The rest
/// have that of `$end`, which means nothing there.
#[derive(Clone, Copy, Debug, PartialEq, Eq)]
pub struct Word {
    pub kind: TokenKind,
    pub name: Name,
}

/// The number of the name `$end`, which no file can spell.
pub const END_NAME: usize = 0;

/// The number of the name `error`.
pub const ERROR_NAME: usize = 1;

/// The tokens of a file, and its names, each once.
#[derive(Drop)]
pub struct Words {
    pub names: IndexSet<String>,
    pub words: Vec<Word>,
    ghost in_range: { All (WordFits (index_set_len names)) words.items },
}

impl Words {
    // No tokens, and the names `$end` and `error`.
    fn new(alloc: Global) -> Result<Words, AllocError>
        ensures words { IfOk result (λ r. r.words.items ≡ []) }
        ensures names { IfOk result (λ r. 0 < index_set_len r.names) }
    {
        let mut names = IndexSet::new(alloc);
        let (_, _) = names.insert_full(String::from_str(alloc, "$end")?)?;
        let (_, _) = names.insert_full(String::from_str(alloc, "error")?)?;
        Ok(Words {
            names,
            words: Vec::new(alloc),
        })
    }

    // Adds a token with its name.
    fn push(&mut self, kind: TokenKind, span: Span, name: Option<String>) -> Result<(), AllocError>
        requires { 0 < index_set_len self.old.names }
        ensures names { index_set_len self.old.names ≤ index_set_len self.new.names }
        ensures words { OnOk result (IsAt span self.old.words.items self.new.words.items) }
    {
        let mut id = END_NAME;
        if let Some(name) = name {
            let (number, _) = self.names.insert_full(name)?;
            id = number;
        }
        self.words.push(Word {
            kind,
            name: Name { id, span },
        })?;
        Ok(())
    }
}

/// Reads the tokens of a text up to the second `%%`.
pub fn read_words(alloc: Global, text: &[u8]) -> Result<Words, AllocError>
    ensures order { IfOk result (λ r. AreInOrder 0 (length text.now) r.words.items) }
{
    let mut words = Words::new(alloc)?;
    let mut lexer = Lexer::new(text);
    while let Some(token) = lexer.next_token() {
        let part = &text[token.span.start..token.span.end];
        let name = spelling_of(alloc, part, token.kind, words.words.len())?;
        words.push(token.kind, token.span, name)?;
    }
    Ok(words)
}
