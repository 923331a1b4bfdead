// Writes the grammar of a stream's table as a yacc text (docs/YACC.md): record count and table words in, the text out; what follows the table is not read.
// A refusal is said in one line on standard error, and nothing is written. A read or a write that fails is said there too and ends the run.
#![tactic(auto)]

use program_io::streams::write;
use program_io::table_stream::{BYTES, Stop, WORDS, read_table_words, say_end};
use std::io;
use yacc_writer::text::TEXT_BYTES;
use yacc_writer::write_yacc;

fn write_text<R: io::Input + Print + Eprint>(rt: &R) -> Result<(), Stop> {
    let mut bytes = [0u8; BYTES];
    let mut room = [0u16; WORDS];
    let mut text = [0u8; TEXT_BYTES];
    let table = read_table_words(rt, &mut bytes, &mut room)?;
    let size = write_yacc(table, &mut text)? as usize;
    Ok(write(rt, &text[..size])?)
}

fn main(rt: HostRuntime) {
    say_end(&rt, write_text(&rt));
}
