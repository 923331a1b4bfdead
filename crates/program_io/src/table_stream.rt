// A table in a stream, as the programs read and write it: the number of its records, its words, the rest. What fails is said on standard error (module streams).
ghost use Rattle.std.specs.Prelude.{◌≡◌, ◌*◌, ◌≤◌, ℕ, Ok, IfOk, length};
ghost use Rattle.lr1_base.specs.repr.Sizes.{record_limit};
ghost use Rattle.program_io.specs.table_stream.Given.{Holds};

use crate::streams::{Cut, Failed, PIECES, read, write};
use lr1_base::le_words::{decode, encode};
use lr1_base::repr::Refusal;
use std::io;
pub use table::{RECORD_WORDS, RECORDS};

// The most words of a table, and their bytes.
pub const WORDS: usize = RECORDS * RECORD_WORDS;

pub const BYTES: usize = WORDS * 2;

// Words of a conflict behind a table. (Crate conflict_counts has the number for the builder, which most of the programs do without.)
pub const WORDS_OF_CONFLICT: usize = 5;

// The conflicts of a piece, as they are read at a time, their words and bytes.
pub const PIECE: usize = 4096;

pub const PIECE_WORDS: usize = PIECE * WORDS_OF_CONFLICT;

pub const PIECE_BYTES: usize = PIECE_WORDS * 2;

// What ends a program's run, an error that `?` takes: a refusal; or a read or a write failed, which standard error says already.
#[derive(Clone, Copy)]
pub enum Stop {
    Refused(Refusal),
    Failed,
}

impl From<Refusal> for Stop {
    ghost use Rattle.program_io.specs.declared.table_stream.Stop.TheVariants.{Refused};

    ghost from_gives = { λ refusal stop. stop ≡ Refused refusal };

    fn from(refusal: Refusal) -> Stop {
        Stop::Refused(refusal)
    }
}

impl From<Failed> for Stop {
    ghost use Rattle.program_io.specs.declared.table_stream.Stop.TheVariants.{Failed as Said};

    ghost from_gives = { λ _ stop. stop ≡ Said };

    fn from(_failed: Failed) -> Stop {
        Stop::Failed
    }
}

// Two, as `?` takes one step: what reads and what writes fail by errors of their own.
impl From<Cut> for Stop {
    ghost use Rattle.program_io.specs.declared.table_stream.Stop.TheVariants.{Failed as Said};

    ghost from_gives = { λ _ stop. stop ≡ Said };

    fn from(_cut: Cut) -> Stop {
        Stop::Failed
    }
}

// All of the bytes; where the stream ends before, that is refusal 1.
fn read_whole<R: io::Input + Eprint>(rt: &R, bytes: &mut [u8]) -> Result<(), Stop> {
    if read(rt, bytes)? < bytes.len() {
        return Err(Refusal::Words.into());
    }
    Ok(())
}

// The number of the table's records, its words at the front of `table`. A stream that ends before its table does, or has a number of records that no table has, is refusal 1.
// The buffers are slices here and below, since arrays of their sizes would ask more of callers, and so how long they are is asked at each call.
#[tactic(auto, unfolding(crate::specs::table_stream::Given::Holds))]
pub fn read_table<R: io::Input + Eprint>(
    rt: &R,
    bytes: &mut [u8],
    table: &mut [u16],
) -> Result<usize, Stop>
    requires { (65536 ≤ length bytes.old) × (32768 ≤ length table.old) }
    ensures words { Holds result bytes.new table.new }
    ensures few { IfOk result (λ records. records ≤ record_limit) }
{
    let mut first = [0u8; 2];
    read_whole(rt, &mut first)?;
    let records = u16::from_le_bytes(first) as usize;
    if records > RECORDS {
        return Err(Refusal::Words.into());
    }
    let size = records * 8;
    read_whole(rt, &mut bytes[..size])?;
    decode(&bytes[..size], table);
    Ok(records)
}

// The same, answered as the words of the table, cut to size. (What `table` holds after the call only the other says: an answer that borrows it leaves that unsaid.)
pub fn read_table_words<'t, R: io::Input + Eprint>(
    rt: &R,
    bytes: &mut [u8],
    table: &'t mut [u16],
) -> Result<&'t mut [u16], Stop>
    requires { (65536 ≤ length bytes.old) × (32768 ≤ length table.old) }
    ensures words { IfOk result (λ words. (records : ℕ) × ((length words.now ≡ records * 4) × Holds (Ok records) bytes.new words.now)) }
    ensures few { IfOk result (λ words. length words.now ≤ record_limit * 4) }
{
    let records = read_table(rt, bytes, table)?;
    Ok(&mut table[..records * RECORD_WORDS])
}

// A refusal, any number with any place, in one line on standard error.
pub fn say_refused<R: Eprint>(rt: &R, refusal: u16, place: u16) {
    let _ = eprintln!(rt; "refused {refusal} {place}");
}

// How a run ended: a refusal is said.
pub fn say_end<R: Eprint>(rt: &R, run: Result<(), Stop>) {
    if let Err(Stop::Refused(refusal)) = run {
        say_refused(rt, refusal.number(), refusal.place());
    }
}

// A piece of the rest, written as far as it was read; whether there may be more.
fn pass_piece<R: io::Input + Print + Eprint>(rt: &R, bytes: &mut [u8]) -> Result<bool, Failed> {
    let input = read(rt, bytes);
    let got = match input {
        Ok(got) => got,
        Err(cut) => cut.got,
    };
    write(rt, &bytes[..got])?;
    Ok(input? == bytes.len())
}

// The rest, byte for byte. What fails is said already and ends it, and so there is no answer, here and at `write_table`. A loop has to end, so it counts its pieces.
pub fn pass_on<R: io::Input + Print + Eprint>(rt: &R, bytes: &mut [u8]) {
    for _ in 0..PIECES {
        if !pass_piece(rt, bytes).unwrap_or(false) {
            break;
        }
    }
}

// Words as bytes, a table's most at a time.
pub fn write_words<R: Print + Eprint>(rt: &R, words: &[u16], bytes: &mut [u8]) -> Result<(), Failed>
    requires { 65536 ≤ length bytes.old }
{
    for piece in words.chunks(WORDS) {
        let size = piece.len() * 2;
        encode(piece, bytes);
        write(rt, &bytes[..size])?;
    }
    Ok(())
}

// A table's words, the number of its records before them.
pub fn write_records<R: Print + Eprint>(
    rt: &R,
    table: &[u16],
    bytes: &mut [u8],
) -> Result<(), Failed>
    requires { (length table.now ≤ record_limit * 4) × (65536 ≤ length bytes.old) }
{
    let records = (table.len() / RECORD_WORDS) as u16;
    write(rt, &records.to_le_bytes())?;
    write_words(rt, table, bytes)
}

// A table, then the rest of the input.
pub fn write_table<R: io::Input + Print + Eprint>(rt: &R, table: &[u16], bytes: &mut [u8])
    requires { (length table.now ≤ record_limit * 4) × (65536 ≤ length bytes.old) }
{
    if write_records(rt, table, bytes).is_ok() {
        pass_on(rt, bytes);
    }
}
