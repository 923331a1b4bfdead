// The explaining program (docs/RULES.md, "The explaining program"): reads a table and conflicts from standard input as little-endian words, and prints of each conflict its class and the two readings.
// A bad table is said in one line, and nothing more is read. A read or a write that fails is said on standard error and ends the run.
#![tactic(auto)]

ghost use Rattle.std.specs.Prelude.{◌≡◌, ◌+◌, ◌*◌, ◌≤◌, ◌<◌, length};
ghost use Rattle.conflict_sides.specs.conflict.Outcome.{classify_of};
ghost use Rattle.explain.specs.Printed.{nth_conflict, Prints};

use conflict_sides::conflict::Conflict;
use conflicts::classify;
use enumerator::example::Example;
use lr1_base::le_words::decode;
use lr1_base::repr::{ProductionIndex, Refusal};
use output_text::conflict_lines::{lines, refused_line};
use program_io::streams::{Failed, PIECES, read, write};
use program_io::table_stream::{
    BYTES, PIECE, PIECE_BYTES, PIECE_WORDS, Stop, WORDS, WORDS_OF_CONFLICT, read_table_words,
};
use state_graph::StateIndex;
use std::io;
use table_check::check;

// Bytes for the lines of a conflict, and for the line of a refusal.
const LINES: usize = 65536;

const LINE: usize = 200;

// One line for a refusal of the table (number 0) or of a conflict.
fn say_refused<R: Print + Eprint>(rt: &R, number: u64, refusal: Refusal) -> Result<(), Failed> {
    let mut out = [0u8; LINE];
    let n = refused_line(&mut out, number, refusal.number(), refusal.place());
    write(rt, &out[..n])
}

// The lines of one conflict, at the front of the bytes; their number. What is lent stands one by one, as `classify` takes it.
fn conflict_lines(
    table: &[u16],
    number: u64,
    conflict: Conflict,
    scratch: &mut [u16],
    action: &mut [u16],
    reduce: &mut [u16],
    out: &mut [u8; LINES],
) -> usize
    ensures { Prints number (classify_of table.now conflict scratch.old action.old reduce.old) out.new result }
{
    let classified = classify(table, conflict, scratch, action, reduce);
    lines(out, number, classified, action, reduce)
}

// A conflict of its five words.
fn conflict_of(words: &[u16; WORDS_OF_CONFLICT]) -> Conflict
    ensures { result ≡ nth_conflict words.now 0 }
{
    Conflict {
        state: StateIndex(words[0]),
        production: ProductionIndex(words[1]),
        action: words[2],
        operand: words[3],
        token: words[4],
    }
}

// The conflicts of some words, numbered on.
fn explain_some<R: Print + Eprint>(
    rt: &R,
    table: &[u16],
    words: &[u16],
    first: u64,
    out: &mut [u8; LINES],
) -> Result<(), Failed>
    requires { (length words.now ≤ 20480) × (first < 1152921504606846976) }
{
    let mut scratch = [0u16; Conflict::SCRATCH];
    let mut action = [0u16; Example::WORDS];
    let mut reduce = [0u16; Example::WORDS];
    let (conflicts, _) = words.as_chunks::<{ WORDS_OF_CONFLICT }>();
    for (k, conflict) in conflicts.iter().enumerate() {
        let n = conflict_lines(
            table,
            first + k as u64,
            conflict_of(conflict),
            &mut scratch,
            &mut action,
            &mut reduce,
            out,
        );
        write(rt, &out[..n])?;
    }
    Ok(())
}

// A piece of the conflicts; whether there may be more, a yes or no that a failing read or write does not answer (what is said of a piece stays in the loop, here and in crate print_table: a closure that writes and may fail is no plainer). A conflict cut short is refusal 9, and the last.
fn explain_piece<R: io::Input + Print + Eprint>(
    rt: &R,
    table: &[u16],
    first: u64,
    bytes: &mut [u8; PIECE_BYTES],
    words: &mut [u16; PIECE_WORDS],
    out: &mut [u8; LINES],
) -> Result<bool, Failed>
    requires { first < 1152921504606846976 }
{
    let got = read(rt, bytes)?;
    let n = decode(&bytes[..got], words);
    explain_some(rt, table, &words[..n], first, out)?;
    let size = WORDS_OF_CONFLICT * 2;
    if got % size != 0 {
        say_refused(rt, first + (got / size) as u64, Refusal::OutOfRange)?;
    }
    Ok(got == bytes.len())
}

// All conflicts, piece by piece.
fn explain_conflicts<R: io::Input + Print + Eprint>(rt: &R, table: &[u16]) -> Result<(), Failed> {
    let mut bytes = [0u8; PIECE_BYTES];
    let mut words = [0u16; PIECE_WORDS];
    let mut out = [0u8; LINES];
    for piece in 0..PIECES {
        if !explain_piece(
            rt,
            table,
            1 + piece * PIECE as u64,
            &mut bytes,
            &mut words,
            &mut out,
        )? {
            break;
        }
    }
    Ok(())
}

fn explain_input<R: io::Input + Print + Eprint>(rt: &R) -> Result<(), Stop> {
    let mut bytes = [0u8; BYTES];
    let mut room = [0u16; WORDS];
    let table = read_table_words(rt, &mut bytes, &mut room)?;
    check(table)?;
    Ok(explain_conflicts(rt, table)?)
}

fn main(rt: HostRuntime) {
    if let Err(Stop::Refused(refusal)) = explain_input(&rt) {
        let _ = say_refused(&rt, 0, refusal);
    }
}
