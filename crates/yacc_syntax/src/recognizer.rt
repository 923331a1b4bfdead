// The tokens of a yacc text from the first to the last: refusal 20 (specs/recognizer/Accepted).

ghost use Rattle.std.specs.Prelude.{◌≡◌, List, ℕ};
ghost use Rattle.yacc_syntax.specs.text.Forward.{move};
ghost use Rattle.yacc_syntax.specs.lexer.Steps.{token_at};
ghost use Rattle.yacc_syntax.specs.recognizer.Accepted.{mode_of, is_grammar_text};

use crate::lexer::{Next, Word, next_token};

// What may follow (module text, specs/Forward): between definitions, behind `%token`, in its list, each with: was a start seen; behind `%start`, behind `%%`, behind a left side, in a body, behind a rule; nothing.
#[derive(Clone, Copy)]
pub enum Mode {
    Top(bool),
    Wanted(bool),
    Listed(bool),
    Starting,
    Ruled,
    Sided,
    Bodied,
    Done,
    Dead,
}

// The mode behind a word.
#[tactic(auto, using(crate::proofs::recognizer::Laws::moves_is))]
pub fn moved(mode: Mode, word: Word) -> Mode
    ensures { (t : List ℕ) (from past : ℕ) → mode_of result ≡ move (mode_of mode) (token_at t word from past) }
{
    match (mode, word) {
        (Mode::Top(seen) | Mode::Listed(seen), Word::Token) => Mode::Wanted(seen),
        (Mode::Top(false) | Mode::Listed(false), Word::Start) => Mode::Starting,
        (Mode::Top(_) | Mode::Listed(_), Word::Mark) => Mode::Ruled,
        (Mode::Wanted(seen) | Mode::Listed(seen), Word::Name | Word::Literal) => Mode::Listed(seen),
        (Mode::Starting, Word::Name | Word::Literal) => Mode::Top(true),
        (Mode::Ruled | Mode::Done, Word::Name) => Mode::Sided,
        (Mode::Sided, Word::Colon) => Mode::Bodied,
        (Mode::Bodied, Word::Name | Word::Literal | Word::Bar) => Mode::Bodied,
        (Mode::Bodied, Word::Semi) => Mode::Done,
        _ => Mode::Dead,
    }
}

// Is this a text of the grammar, but for its length.
pub fn is_grammar(text: &[u8]) -> bool
    ensures { result ≡ is_grammar_text text.now }
{
    let mut mode = Mode::Top(false);
    let mut at: usize = 0;
    // The end of a text and what is no token answer differently, which a `for` over tokens would not tell apart.
    loop {
        match next_token(text, at) {
            Next::Token(lexeme) => {
                mode = moved(mode, lexeme.word);
                at = lexeme.past;
            }
            Next::End => {
                return matches!(mode, Mode::Done);
            }
            Next::Outside => {
                return false;
            }
        }
    }
}
