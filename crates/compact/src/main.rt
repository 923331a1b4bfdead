// Takes back the records of a stream's table that no chain reaches (docs/RULES.md, "Unused records"): record count, table words, then the rest byte for byte.
// A refusal is said in one line on standard error, and nothing is written. A read or a write that fails is said there too and ends the run.
#![tactic(auto)]

use program_io::table_stream::{
    BYTES, RECORD_WORDS, Stop, WORDS, read_table_words, say_end, write_table,
};
use std::io;
use table_rewrite::compaction::compact;

fn compact_input<R: io::Input + Print + Eprint>(rt: &R) -> Result<(), Stop> {
    let mut bytes = [0u8; BYTES];
    let mut room = [0u16; WORDS];
    let table = read_table_words(rt, &mut bytes, &mut room)?;
    let past = compact(table)? as usize * RECORD_WORDS;
    write_table(rt, &table[..past], &mut bytes);
    Ok(())
}

fn main(rt: HostRuntime) {
    say_end(&rt, compact_input(&rt));
}
