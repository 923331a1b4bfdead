// Writes the table of a stream afresh in the single spelling of its meaning (docs/RULES.md, "One spelling"): record count, table words, then the rest byte for byte.
// A refusal is said in one line on standard error, and nothing is written. A read or a write that fails is said there too and ends the run.
#![tactic(auto)]

use program_io::table_stream::{
    BYTES, RECORD_WORDS, Stop, WORDS, read_table_words, say_end, write_table,
};
use std::io;
use table_rewrite::spelling::respell;

fn respell_input<R: io::Input + Print + Eprint>(rt: &R) -> Result<(), Stop> {
    let mut bytes = [0u8; BYTES];
    let mut room = [0u16; WORDS];
    let mut out = [0u16; WORDS];
    let table = read_table_words(rt, &mut bytes, &mut room)?;
    let past = respell(table, &mut out)? as usize * RECORD_WORDS;
    write_table(rt, &out[..past], &mut bytes);
    Ok(())
}

fn main(rt: HostRuntime) {
    say_end(&rt, respell_input(&rt));
}
