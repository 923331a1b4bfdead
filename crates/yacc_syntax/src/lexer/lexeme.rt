// A word of a text and where it stands.

ghost use Rattle.std.specs.Prelude.{◌<◌};

use crate::lexer::Word;

// It stands from a place up to another.
#[derive(Clone, Copy)]
pub struct Lexeme {
    pub word: Word,
    pub from: usize,
    pub past: usize,
    pub ghost wide: { from < past },
}
