// Where a yacc text leaves the grammar (specs/error_position/Stray), byte after byte (specs/error_position/Automaton).

ghost use Rattle.std.specs.Prelude.{false, ◌≡◌, ◌+◌, ◌≤◌, ◌<◌, [], ◌∷◌, length};
ghost use Rattle.yacc_syntax.specs.text.Grammar.{is_white_byte, is_letter_byte, kind_of};
ghost use Rattle.yacc_syntax.specs.recognizer.Accepted.{mode_of};
ghost use Rattle.yacc_syntax.specs.error_position.Stray.{IsStray, line_of, column_of};
ghost use Rattle.yacc_syntax.specs.error_position.Automaton.{lost, signs, marks, step_kind, step_signed, step_word, step_inside, step_part};
ghost use Rattle.yacc_syntax.specs.error_position.Numbers.{part_of, Stands};
ghost use Rattle.lr1_base.specs.numerals.Numeral.{is_digit_byte};

use crate::lexer::{Word, goes_on, is_digit, is_letter, is_literal, is_white};
use crate::recognizer::{Mode, moved};

// Where in a piece the next byte stands (specs/error_position/Automaton); of `%token` and `%start` with the bytes that must follow.
#[derive(Clone, Copy)]
pub enum Part {
    Between,
    Run,
    Signed,
    Word(&'static [u8]),
    Opened,
    Filled,
    Slashed,
    Inside,
    Starred,
}

// A mode and a part.
#[derive(Clone, Copy)]
pub struct Stage {
    pub mode: Mode,
    pub part: Part,
}

// No text of the grammar goes on so.
fn lost() -> Stage
    ensures { Stands result lost }
{
    Stage {
        mode: Mode::Dead,
        part: Part::Between,
    }
}

// A line and a column, both from 1.
#[derive(Clone, Copy)]
pub struct Position {
    pub line: usize,
    pub column: usize,
}

// The mode behind a `%`.
#[tactic(auto, unfolding(crate::specs::error_position::Automaton::signs))]
fn signed(mode: Mode) -> Mode
    ensures { mode_of result ≡ signs (mode_of mode) }
{
    match mode {
        Mode::Top(_) | Mode::Listed(_) => mode,
        _ => Mode::Dead,
    }
}

// The mode behind a second `%`.
#[tactic(auto, unfolding(crate::specs::error_position::Automaton::marks))]
fn marked(mode: Mode) -> Mode
    ensures { mode_of result ≡ marks (mode_of mode) }
{
    match mode {
        Mode::Dead => Mode::Dead,
        _ => Mode::Ruled,
    }
}

// The first byte of a piece that is neither white nor a letter nor a digit.
#[tactic(auto, unfolding(crate::specs::error_position::Automaton::step_kind, crate::specs::lexer::Steps::token_at))]
fn begin_sign(mode: Mode, b: u8) -> Stage
    requires { (is_white_byte b ≡ false) × (is_letter_byte b ≡ false) × (is_digit_byte b ≡ false) }
    ensures { Stands result (step_kind (kind_of b) (mode_of mode)) }
{
    match b {
        b'\'' => Stage {
            mode: moved(mode, Word::Literal),
            part: Part::Opened,
        },
        b'%' => Stage {
            mode: signed(mode),
            part: Part::Signed,
        },
        b'/' => Stage {
            mode,
            part: Part::Slashed,
        },
        b':' => Stage {
            mode: moved(mode, Word::Colon),
            part: Part::Between,
        },
        b'|' => Stage {
            mode: moved(mode, Word::Bar),
            part: Part::Between,
        },
        b';' => Stage {
            mode: moved(mode, Word::Semi),
            part: Part::Between,
        },
        _ => lost(),
    }
}

// The first byte of a piece.
#[tactic(auto, unfolding(crate::specs::error_position::Automaton::step_kind, crate::specs::lexer::Steps::token_at))]
fn begin(mode: Mode, b: u8) -> Stage
    ensures { Stands result (step_kind (kind_of b) (mode_of mode)) }
{
    if is_white(b) {
        return Stage {
            mode,
            part: Part::Between,
        };
    }
    if is_letter(b) {
        return Stage {
            mode: moved(mode, Word::Name),
            part: Part::Run,
        };
    }
    if is_digit(b) {
        return lost();
    }
    begin_sign(mode, b)
}

// A byte behind a `%`.
#[tactic(auto, unfolding(crate::specs::error_position::Automaton::step_signed, crate::specs::lexer::Steps::token_at))]
fn behind_sign(mode: Mode, b: u8) -> Stage
    ensures { Stands result (step_signed (mode_of mode) b) }
{
    match b {
        b'%' => Stage {
            mode: marked(mode),
            part: Part::Between,
        },
        b't' => Stage {
            mode: moved(mode, Word::Token),
            part: Part::Word(b"oken"),
        },
        b's' => Stage {
            mode: moved(mode, Word::Start),
            part: Part::Word(b"tart"),
        },
        _ => lost(),
    }
}

// A byte of `%token` or `%start`, or behind it.
#[tactic(auto, unfolding(crate::specs::error_position::Automaton::step_word))]
fn in_word(mode: Mode, word: &'static [u8], b: u8) -> Stage
    ensures { Stands result (step_word word.now (mode_of mode) b) }
{
    match word {
        [] if goes_on(b) => lost(),
        [] => begin(mode, b),
        [next, rest @ ..] if *next == b => Stage {
            mode,
            part: Part::Word(rest),
        },
        _ => lost(),
    }
}

// A byte in a comment.
#[tactic(auto, unfolding(crate::specs::error_position::Automaton::step_inside))]
fn in_comment(mode: Mode, b: u8) -> Stage
    ensures { Stands result (step_inside (mode_of mode) b) }
{
    match b {
        b'*' => Stage {
            mode,
            part: Part::Starred,
        },
        0 => lost(),
        _ => Stage {
            mode,
            part: Part::Inside,
        },
    }
}

// A byte.
#[tactic(auto, unfolding(crate::specs::error_position::Automaton::step_part))]
fn step(stage: Stage, b: u8) -> Stage
    ensures { Stands result (step_part (part_of stage.part) (mode_of stage.mode) b) }
{
    let mode = stage.mode;
    match stage.part {
        Part::Run if goes_on(b) => stage,
        Part::Between | Part::Run => begin(mode, b),
        Part::Signed => behind_sign(mode, b),
        Part::Word(word) => in_word(mode, word, b),
        Part::Opened if is_literal(b) => Stage {
            mode,
            part: Part::Filled,
        },
        Part::Slashed if b == b'*' => Stage {
            mode,
            part: Part::Inside,
        },
        Part::Filled if b == b'\'' => Stage {
            mode,
            part: Part::Between,
        },
        Part::Starred if b == b'/' => Stage {
            mode,
            part: Part::Between,
        },
        Part::Inside | Part::Starred => in_comment(mode, b),
        Part::Opened | Part::Slashed | Part::Filled => lost(),
    }
}

// The first byte that no text of the grammar can have there, or the text's length. (No Option: `IsStray` says it of one number, whether or not a byte stands there.)
pub fn stray(text: &[u8]) -> usize
    ensures { IsStray text.now result }
{
    let mut stage = Stage {
        mode: Mode::Top(false),
        part: Part::Between,
    };
    for (i, b) in text.iter().enumerate() {
        stage = step(stage, *b);
        if matches!(stage.mode, Mode::Dead) {
            return i;
        }
    }
    text.len()
}

// The place of a byte, or of the text's end.
pub fn place_of(text: &[u8], at: usize) -> Position
    requires { (at ≤ length text.now) × (at < 18446744073709551615) }
    ensures { (result.line ≡ line_of text.now at) × (result.column ≡ column_of text.now at) }
{
    let front = &text[..at];
    Position {
        line: 1 + front.iter().filter(|b| **b == b'\n').count(),
        column: 1 + front.iter().rev().take_while(|b| **b != b'\n').count(),
    }
}
