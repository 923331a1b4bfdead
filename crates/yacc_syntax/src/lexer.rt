// The tokens of a yacc text, one after the other: a step by value (specs/lexer/Steps).

mod lexeme;

ghost use Rattle.std.specs.Prelude.{◌≡◌, ◌+◌, ◌≤◌, ◌<◌, ◌&&◌, length, get_or, drop};
ghost use Rattle.yacc_syntax.specs.text.Grammar.{quote, percent, slash, is_white_byte, is_letter_byte, kind_of, goes_on_byte, closes, literal_byte, stops};
ghost use Rattle.yacc_syntax.specs.text.Lex.{run_of};
ghost use Rattle.yacc_syntax.specs.lexer.Steps.{begins, behind_comment, found_at, Steps, Told};
ghost use Rattle.lr1_base.specs.numerals.Numeral.{is_digit_byte};

pub use self::lexeme::Lexeme;

// The words of docs/YACC.md.
#[derive(Clone, Copy)]
pub enum Word {
    Name,
    Literal,
    Token,
    Start,
    Mark,
    Colon,
    Bar,
    Semi,
}

// What stands at a place: a white byte or a comment and the place behind it, a word and the place behind it, the end, or what no text has there.
#[derive(Clone, Copy)]
enum Piece {
    Gap(usize),
    Word(Word, usize),
    End,
    Outside,
}

// The next token. (The end and what no text has are two answers: an Option in a Result would say the same with two words at each arm.)
#[derive(Clone, Copy)]
pub enum Next {
    Token(Lexeme),
    End,
    Outside,
}

pub fn is_white(b: u8) -> bool
    ensures { result ≡ is_white_byte b }
{
    matches!(b, b' ' | b'\t' | b'\n' | b'\x0c')
}

// The library's test, in the words that contracts have for it.
pub fn is_digit(b: u8) -> bool
    ensures { result ≡ is_digit_byte b }
{
    b.is_ascii_digit()
}

pub fn is_letter(b: u8) -> bool
    ensures { result ≡ is_letter_byte b }
{
    b.is_ascii_alphabetic() || b == b'.' || b == b'_'
}

pub fn is_literal(b: u8) -> bool
    ensures { result ≡ literal_byte b }
{
    !matches!(b, 0 | b'\n' | b'\'' | b'\\')
}

// Goes a byte on a name.
pub fn goes_on(b: u8) -> bool
    ensures { result ≡ goes_on_byte (kind_of b) }
{
    is_letter(b) || is_digit(b)
}

// The place behind the longest run of letters and digits from `at` on. (Here and below a place is a number into the text beside it: a type that says it is inside would have to hold the text.)
fn run_end(text: &[u8], at: usize) -> usize
    requires { at ≤ length text.now }
    ensures { result ≡ at + length (run_of (drop at text.now)) }
{
    at + text[at..].iter().take_while(|b| goes_on(**b)).count()
}

// Does no letter and no digit stand at `at`.
fn stops_at(text: &[u8], at: usize) -> bool
    ensures { result ≡ stops (drop at text.now) }
{
    text.len() <= at || !goes_on(text[at])
}

// Does a word stand at `at`.
fn has_word(text: &[u8], at: usize, word: &[u8]) -> bool
    requires { at ≤ length text.now }
    ensures { result ≡ begins word.now (drop at text.now) }
{
    text[at..].starts_with(word)
}

// Does `*/` stand at `at`. (The star is tested alone first: most bytes of a comment are none.)
fn closes_at(text: &[u8], at: usize) -> bool
    requires { at < length text.now }
    ensures { result ≡ closes (get_or text.now at 0) (drop (at + 1) text.now) }
{
    text[at] == b'*' && has_word(text, at + 1, b"/")
}

// The place behind a comment whose bytes begin at `at`, behind the `/*`. (A `find` would stop at both ends and have to ask again at which.)
fn comment_end(text: &[u8], at: usize) -> Option<usize>
    requires { at ≤ length text.now }
    ensures { found_at result ≡ behind_comment at (drop at text.now) }
{
    for i in at..text.len() {
        if closes_at(text, i) {
            return Some(i + 2);
        }
        if text[i] == 0 {
            return None;
        }
    }
    None
}

// What begins with the `'` at `at`. (What it and the three below promise is of the text and the place too: a ghost field of `Piece` would need both in it.)
fn literal_at(text: &[u8], at: usize) -> Piece
    requires { (at < length text.now) × (kind_of (get_or text.now at 0) ≡ quote) }
    ensures { Steps text.now at result }
{
    match &text[at..] {
        [_, b, end, ..] if is_literal(*b) && *end == b'\'' => Piece::Word(Word::Literal, at + 3),
        _ => Piece::Outside,
    }
}

// What begins with the `%` at `at`.
fn directive_at(text: &[u8], at: usize) -> Piece
    requires { (at < length text.now) × (kind_of (get_or text.now at 0) ≡ percent) }
    ensures { Steps text.now at result }
{
    if has_word(text, at + 1, b"%") {
        return Piece::Word(Word::Mark, at + 2);
    }
    if has_word(text, at + 1, b"token") && stops_at(text, at + 6) {
        return Piece::Word(Word::Token, at + 6);
    }
    if has_word(text, at + 1, b"start") && stops_at(text, at + 6) {
        return Piece::Word(Word::Start, at + 6);
    }
    Piece::Outside
}

// What begins with the `/` at `at`.
fn comment_at(text: &[u8], at: usize) -> Piece
    requires { (at < length text.now) × (kind_of (get_or text.now at 0) ≡ slash) }
    ensures { Steps text.now at result }
{
    if !has_word(text, at + 1, b"*") {
        return Piece::Outside;
    }
    match comment_end(text, at + 2) {
        Some(past) => Piece::Gap(past),
        None => Piece::Outside,
    }
}

fn piece_at(text: &[u8], at: usize) -> Piece
    requires { at ≤ length text.now }
    ensures { Steps text.now at result }
{
    if text.len() <= at {
        return Piece::End;
    }
    match text[at] {
        // White bytes and letters come first, since most bytes are such.
        b if is_white(b) => Piece::Gap(at + 1),
        b if is_letter(b) => Piece::Word(Word::Name, run_end(text, at + 1)),
        b'\'' => literal_at(text, at),
        b'%' => directive_at(text, at),
        b'/' => comment_at(text, at),
        b':' => Piece::Word(Word::Colon, at + 1),
        b'|' => Piece::Word(Word::Bar, at + 1),
        b';' => Piece::Word(Word::Semi, at + 1),
        _ => Piece::Outside,
    }
}

// The first token from `at` on.
pub fn next_token(text: &[u8], at: usize) -> Next
    requires { at ≤ length text.now }
    ensures { Told text.now at result }
{
    let mut i = at;
    // Each gap says where the next piece stands: an iterator of gaps would be this loop again.
    loop {
        match piece_at(text, i) {
            Piece::Gap(past) => {
                i = past;
            }
            Piece::Word(word, past) => {
                return Next::Token(Lexeme {
                    word,
                    from: i,
                    past,
                });
            }
            Piece::End => {
                return Next::End;
            }
            Piece::Outside => {
                return Next::Outside;
            }
        }
    }
}
