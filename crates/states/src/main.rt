// Builds the states of a stream's grammar (docs/RULES.md, "Building states"): record count, table words, the start production as one word more, the rest. Written are the full table in the same form, its conflicts, five words
// each as `explain` reads them, and the rest byte for byte. A refusal is said in one line on standard error, and nothing is written; a start production that is missing is out of range.
// A read or a write that fails is said there too and ends the run.
#![tactic(auto)]

ghost use Rattle.std.specs.Prelude.{◌*◌, ◌≤◌, length};
ghost use Rattle.lr1_base.specs.repr.Sizes.{record_limit};

use lr1_base::repr::ProductionIndex;
use lr1_tables::{Built, build_states};
use program_io::streams::{Failed, read};
use program_io::table_stream::{
    BYTES, RECORD_WORDS, Stop, WORDS, WORDS_OF_CONFLICT, pass_on, read_table_words, say_end,
    write_records, write_words,
};
use std::io;

// Conflicts of a table at most.
const CONFLICTS: usize = 65535;

// The start production behind the table; where there is none, a number that no production has: it is refused as any such number is, behind what comes before it in the order of refusals.
fn read_start<R: io::Input + Eprint>(rt: &R) -> Result<ProductionIndex, Failed> {
    let mut bytes = [0u8; 2];
    let start = match read(rt, &mut bytes)? {
        2 => u16::from_le_bytes(bytes),
        _ => u16::MAX,
    };
    Ok(ProductionIndex(start))
}

// A table, its conflicts, at most 65,535, then the rest of the input.
fn write_states<R: io::Input + Print + Eprint>(
    rt: &R,
    table: &[u16],
    conflicts: &[u16],
    bytes: &mut [u8; BYTES],
) -> Result<(), Failed>
    requires table_len { length table.now ≤ record_limit * 4 }
{
    write_records(rt, table, bytes)?;
    write_words(rt, conflicts, bytes)?;
    pass_on(rt, bytes);
    Ok(())
}

fn build_input<R: io::Input + Print + Eprint>(rt: &R) -> Result<(), Stop> {
    let mut bytes = [0u8; BYTES];
    let mut room = [0u16; WORDS];
    let table = read_table_words(rt, &mut bytes, &mut room)?;
    let start = read_start(rt)?;
    let mut scratch = [0u16; Built::SCRATCH];
    let mut out = [0u16; WORDS];
    let mut conflicts = [0u16; CONFLICTS * WORDS_OF_CONFLICT];
    let built = build_states(table, start, &mut scratch, &mut out, &mut conflicts)?;
    let past = built.records as usize * RECORD_WORDS;
    let end = built.conflicts as usize * WORDS_OF_CONFLICT;
    Ok(write_states(rt, &out[..past], &conflicts[..end], &mut bytes)?)
}

fn main(rt: HostRuntime) {
    say_end(&rt, build_input(&rt));
}
