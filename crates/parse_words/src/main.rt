// A table typed as text becomes words: reads numbers in decimal, white space between them and comments from `#` to the end of a line, and writes them as little-endian 16-bit words.
// At a byte that cannot be read it says where that is on standard error, and writes one lone byte after the words before it, so that whatever reads them sees that they are cut; so it does where a read fails. A write that fails is said too, and ends the run.
#![tactic(auto)]

ghost use Rattle.std.specs.Prelude.{◌≡◌, ◌+◌, ◌*◌, ◌≤◌, ◌<◌, IfOk, IfSome, length};
ghost use Rattle.parse_words.specs.Text.{digit, line_begun, step, scan};
ghost use Rattle.parse_words.specs.Bytes.{Below, Near, word_of, in_comment_of, reader_of, fed_of, written_of, tell, in_bytes};

use program_io::streams::{Failed, PIECES, read, write};
use std::io;

// Bytes of a piece, and for its words.
const PIECE: usize = 65536;

const ROOM: usize = PIECE * 2;

// What a reader stands in; a number may go on.
#[derive(Clone, Copy)]
pub enum Within {
    Space,
    Number(u16),
    Comment,
}

// Between two bytes: line and column of the next one, and what it stands in.
#[derive(Clone, Copy)]
pub struct Reader {
    pub line: u64,
    pub column: u64,
    pub within: Within,
}

// A byte that was read: the word that ends at it, and the reader after it.
#[derive(Clone, Copy)]
pub struct Fed {
    pub word: Option<u16>,
    pub reader: Reader,
}

// Where a byte cannot be read, in 64 bits, as a stream is counted: `Position` of module error_position of yacc_syntax is of a text in memory.
#[derive(Clone, Copy)]
pub struct Unreadable {
    pub line: u64,
    pub column: u64,
}

impl Reader {
    const START: Reader = Reader {
        line: 1,
        column: 1,
        within: Within::Space,
    };

    // That line and column have room is asked here and below: they count the bytes of a stream, and the bound falls with each byte, which a field of the type cannot follow.
    #[tactic(auto, unfolding(crate::specs::Text::line_begun))]
    fn next_line(self) -> Reader
        requires { Below (reader_of self) 18446744073709551615 }
        ensures { reader_of result ≡ line_begun (reader_of self) }
    {
        Reader {
            line: self.line + 1,
            column: 1,
            within: Within::Space,
        }
    }

    fn next_column(self, within: Within) -> Reader
        requires { Below (reader_of self) 18446744073709551615 }
        ensures { result ≡ record { line = self.line; column = self.column + 1; within = within } }
    {
        Reader {
            column: self.column + 1,
            within,
            ..self
        }
    }

    fn in_comment(self) -> bool
        ensures { result ≡ in_comment_of self.within }
    {
        matches!(self.within, Within::Comment)
    }

    // The number so far, a word where no digit follows.
    fn word(self) -> Option<u16>
        ensures { result ≡ word_of self.within }
    {
        match self.within {
            Within::Number(number) => Some(number),
            Within::Space | Within::Comment => None,
        }
    }

    // None where the number is no word.
    fn add_digit(self, value: u16) -> Option<Fed>
        requires { (value < 10) × Below (reader_of self) 18446744073709551615 }
        ensures { fed_of result ≡ digit (reader_of self) value }
    {
        let number = self
            .word()
            .unwrap_or(0)
            .checked_mul(10)?
            .checked_add(value)?;
        Some(Fed {
            word: None,
            reader: self.next_column(Within::Number(number)),
        })
    }

    // One byte; None where it cannot be read.
    fn feed(self, byte: u8) -> Option<Fed>
        requires { Below (reader_of self) 18446744073709551615 }
        ensures { fed_of result ≡ step (reader_of self) byte }
    {
        let reader = match byte {
            b'\n' => self.next_line(),
            _ if self.in_comment() => self.next_column(Within::Comment),
            b' ' | b'\t'..=b'\r' => self.next_column(Within::Space),
            b'#' => self.next_column(Within::Comment),
            b'0'..=b'9' => return self.add_digit((byte - b'0') as u16),
            _ => return None,
        };
        Some(Fed {
            word: self.word(),
            reader,
        })
    }
}

// The words of some bytes, as bytes, at most one word a byte: the place after the last, and the reader after all, or where one cannot be read. Not every byte ends a word, so the place is counted.
fn words_of(start: Reader, bytes: &[u8], out: &mut [u8]) -> (usize, Result<Reader, Unreadable>)
    requires below { Below (reader_of start) 9223372036854775808 }
    requires bytes_len_bound { (length bytes.now ≤ 65536) × (2 * length bytes.now ≤ length out.old) }
    ensures result_after { tell (written_of out.new result) ≡ in_bytes (scan (reader_of start) bytes.now) }
    ensures place_in_bounds { result.0 ≤ length out.new }
    ensures near { IfOk result.1 (λ next. Near (reader_of start) (reader_of next) (length bytes.now)) }
{
    let mut reader = start;
    let mut place: usize = 0;
    for byte in bytes {
        let Some(fed) = reader.feed(*byte) else {
            let Reader { line, column, .. } = reader;
            return (place, Err(Unreadable { line, column }));
        };
        if let Some(word) = fed.word {
            let [low, high] = word.to_le_bytes();
            out[place] = low;
            out[place + 1] = high;
            place += 2;
        }
        reader = fed.reader;
    }
    (place, Ok(reader))
}

// A lone byte behind the words says that they are cut.
fn say_unreadable<R: Print + Eprint>(rt: &R, at: Unreadable) -> Result<(), Failed> {
    let _ = eprintln!(rt; "line {} column {}: cannot read this", at.line, at.column);
    write(rt, b"\0")
}

// A piece of 65,536 bytes, or the rest; the reader after it, where there may be more.
fn read_piece<R: io::Input + Print + Eprint>(
    rt: &R,
    reader: Reader,
    bytes: &mut [u8; PIECE],
    out: &mut [u8; ROOM],
) -> Result<Option<Reader>, Failed>
    requires { Below (reader_of reader) 9223372036854775808 }
    ensures { IfOk result (λ more. IfSome more (λ next. Near (reader_of reader) (reader_of next) 65536)) }
{
    let Ok(got) = read(rt, bytes) else {
        write(rt, b"\0")?;
        return Err(Failed);
    };
    let (place, end) = words_of(reader, &bytes[..got], out);
    write(rt, &out[..place])?;
    let next = match end {
        Ok(next) => next,
        Err(at) => {
            say_unreadable(rt, at)?;
            return Ok(None);
        }
    };
    if got == bytes.len() {
        return Ok(Some(next));
    }
    if let Some(word) = next.word() {
        write(rt, &word.to_le_bytes())?;
    }
    Ok(None)
}

fn main(rt: HostRuntime) {
    let mut bytes = [0u8; PIECE];
    let mut out = [0u8; ROOM];
    let mut reader = Reader::START;
    for _piece in 0..PIECES {
        let Ok(Some(next)) = read_piece(&rt, reader, &mut bytes, &mut out) else {
            return;
        };
        reader = next;
    }
}
