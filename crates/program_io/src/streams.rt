// Standard input and output for the programs: what fails is said on standard error. There is no exit status, so nothing else shows it.
ghost use Rattle.std.specs.Prelude.{IfOk, MatchResult, length, ◌≤◌};
ghost use Rattle.program_io.specs.streams.Counts.{IsPrefixLen};

use std::io;
use std::io::{Read, Write};

// More pieces than any run reads: a loop over a stream has to end, so it counts up to here.
pub const PIECES: u64 = 1099511627776;

// A read or a write failed, and standard error says why.
#[derive(Clone, Copy)]
pub struct Failed;

// A read failed, and standard error says why; so many bytes came before.
#[derive(Clone, Copy)]
pub struct Cut {
    pub got: usize,
}

impl From<Cut> for Failed {
    ghost from_gives = { λ _ _. Unit {0} };

    fn from(_cut: Cut) -> Failed {
        Failed
    }
}

// A text's front, up to the number that std puts behind the system's text of an error.
fn without_number(text: &str) -> &str {
    match text.split_once(" (os error ") {
        Some((front, _)) => front,
        None => text,
    }
}

// The text of an error, at the front of the bytes; its length.
fn put_error(error: io::Error, bytes: &mut [u8]) -> usize
    ensures { result ≤ length bytes.old }
{
    let room = bytes.len();
    let mut cursor = io::Cursor::new(bytes);
    let _ = write!(cursor, "{error}");
    room.min(cursor.position() as usize)
}

// What failed, a colon and the system's text.
fn say_failed<R: Eprint>(rt: &R, what: &str, error: io::Error) -> Failed {
    let mut bytes = [0u8; 128];
    let n = put_error(error, &mut bytes);
    let text = without_number(str::from_utf8(&bytes[..n]).unwrap_or(""));
    let _ = eprintln!(rt; "{what}: {text}");
    Failed
}

// One read, at the front of the bytes; 0 at the end of the input.
fn read_some<R: io::Input + Eprint>(rt: &R, bytes: &mut [u8]) -> Result<usize, Failed>
    ensures { IfOk result (λ got. IsPrefixLen got bytes.new) }
{
    rt.reader()
        .read(bytes)
        .map_err(|error| say_failed(rt, "standard input", error))
}

// Bytes until the buffer is full, the input ends or a read fails; how many. It counts what each read gives, which no range does; where the input ends before, `read_exact` does not say how many.
pub fn read<R: io::Input + Eprint>(rt: &R, bytes: &mut [u8]) -> Result<usize, Cut>
    ensures { MatchResult result (λ got. IsPrefixLen got bytes.new) (λ cut. IsPrefixLen cut.got bytes.new) }
{
    let mut got: usize = 0;
    while got < bytes.len() {
        let Ok(more) = read_some(rt, &mut bytes[got..]) else {
            return Err(Cut { got });
        };
        if more == 0 {
            break;
        }
        got += more;
    }
    Ok(got)
}

// All of the bytes.
pub fn write<R: Print + Eprint>(rt: &R, bytes: &[u8]) -> Result<(), Failed> {
    rt.write_all(bytes)
        .map_err(|error| say_failed(rt, "standard output", error))
}
