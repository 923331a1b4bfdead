// What a word of a yacc text says where it stands, by value (specs/events/Said; module parsed_file, specs/Events).

ghost use Rattle.std.specs.Prelude.{◌≡◌, ◌-◌, ◌≤◌, ◌<◌, true, false, length};
ghost use Rattle.yacc_syntax.specs.text.Places.{placed_from};
ghost use Rattle.yacc_syntax.specs.recognizer.Accepted.{mode_of, judged, is_grammar_text};
ghost use Rattle.yacc_reader.specs.events.Said.{id_said, end_said, said_in};

use yacc_syntax::lexer::{Lexeme, Next, Word, next_token};
use yacc_syntax::recognizer::{Mode, moved};

// An id of a TOKEN list, the START id, a left side, an id of a body, the end of a body, or none of these: a case, since with an Option around it each `match` would have `Some` in every arm.
#[derive(Clone, Copy)]
pub enum Saying {
    Lists,
    Opens,
    Defines,
    Uses,
    Shuts,
    Nothing,
}

#[tactic(auto, unfolding(crate::specs::events::Said::id_said))]
fn id_says(mode: Mode) -> Saying
    ensures { result ≡ id_said (mode_of mode) }
{
    match mode {
        Mode::Wanted(_) | Mode::Listed(_) => Saying::Lists,
        Mode::Starting => Saying::Opens,
        Mode::Ruled | Mode::Done => Saying::Defines,
        Mode::Bodied => Saying::Uses,
        Mode::Top(_) | Mode::Sided | Mode::Dead => Saying::Nothing,
    }
}

#[tactic(auto, unfolding(crate::specs::events::Said::end_said))]
fn end_says(mode: Mode) -> Saying
    ensures { result ≡ end_said (mode_of mode) }
{
    match mode {
        Mode::Bodied => Saying::Shuts,
        _ => Saying::Nothing,
    }
}

// What a word says in a mode.
#[tactic(auto, unfolding(crate::specs::events::Said::said_in))]
pub fn said(mode: Mode, word: Word) -> Saying
    ensures { result ≡ said_in (mode_of mode) word }
{
    match word {
        Word::Name | Word::Literal => id_says(mode),
        Word::Bar | Word::Semi => end_says(mode),
        Word::Token | Word::Start | Word::Mark | Word::Colon => Saying::Nothing,
    }
}

// A word where it stands, and what it says there: in a mode.
#[derive(Clone, Copy)]
pub struct Token {
    pub mode: Mode,
    pub lexeme: Lexeme,
    pub what: Saying,
    pub ghost says: { what ≡ said_in (mode_of mode) lexeme.word },
}

// The words of a text of the grammar, one after the other.
#[derive(Clone, Copy)]
pub struct TokenIter<'a> {
    pub text: &'a [u8],
    pub at: usize,
    pub mode: Mode,
    pub ghost inside: { at ≤ length text.now },
    pub ghost accepted: { judged (mode_of mode) (placed_from text.now at) ≡ true },
}

impl<'a> TokenIter<'a> {
    // From the front on. (That the text is the one given is said by what makes a value over a text, here and where ids are entered: a field's fact knows what the value holds, not what was given.)
    pub fn new(text: &'a [u8]) -> TokenIter<'a>
        requires { is_grammar_text text.now ≡ true }
        ensures text { result.text.now ≡ text.now }
        ensures at { result.at ≡ 0 }
        ensures mode { result.mode ≡ Mode.Top false }
    {
        TokenIter {
            text,
            at: 0,
            mode: Mode::Top(false),
        }
    }
}

impl<'a> Iterator for TokenIter<'a> {
    ghost use Rattle.std.specs.Iterator.{at_most};
    ghost use Rattle.yacc_reader.specs.events.Tokens.{Gives};

    type Item = Token;

    ghost next_gives = { Gives };

    ghost remaining = { λ s. at_most (length s.text.now - s.at) };

    // It becomes a part of each loop. A token that is handed back goes through memory, by small stores for which wider loads then wait.
    #[inline(always)]
    fn next(&mut self) -> Option<Token> {
        match next_token(self.text, self.at) {
            Next::Token(lexeme) => {
                let token = Token {
                    mode: self.mode,
                    lexeme,
                    what: said(self.mode, lexeme.word),
                };
                self.mode = moved(self.mode, lexeme.word);
                self.at = lexeme.past;
                Some(token)
            }
            Next::End | Next::Outside => None,
        }
    }
}
