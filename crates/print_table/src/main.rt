// The table of a stream as text (module table_text of output_text): a line for the number of its records and one for each record, with a comment that says what it is; then the rest, five words a line.
// The program `words` reads the same words back. A refusal is said in one line on standard error, and nothing is written. What fails is said there too and ends the run, and so is a byte that is no word.
#![tactic(auto)]

ghost use Rattle.std.specs.Prelude.{◌*◌, ◌≤◌, ◌<◌, length};

use lr1_base::item::Item;
use lr1_base::le_words::decode;
use lr1_base::repr::{Grammar, ProductionIndex};
use output_text::table_text::{Reached, Roles, numbers_line, record_line};
use program_io::streams::{Failed, PIECES, read, write};
use program_io::table_stream::{
    BYTES, PIECE, PIECE_BYTES, PIECE_WORDS, Stop, WORDS, WORDS_OF_CONFLICT, read_table_words,
    say_end,
};
use std::io;
use table::{AcceptedTable, word};
use table_check::areas::{Surveyed, survey};
use table_check::check;
use table_check::mark::{ALL, Marks};
use trace_graph::item_fits;

// Bytes for a line.
const LINE: usize = 2048;

// Numbers, a name and another number.
fn write_numbers<R: Print + Eprint>(
    rt: &R,
    words: &[u16],
    name: &[u8],
    n: usize,
    out: &mut [u8; LINE],
) -> Result<(), Failed>
    requires { (length words.now ≤ 8) × (length name.now ≤ 64) }
{
    let k = numbers_line(out, words, name, n);
    write(rt, &out[..k])
}

// A record and the sorts of chains that reach it, those of the records before it being followed.
fn reached<'a>(
    table: Surveyed<'a>,
    grammar: Grammar<'a>,
    number: usize,
    marks: &mut Marks<ALL>,
) -> Reached<'a>
    requires { number < table.areas.records }
{
    let item = Item {
        production: word(table.words, number, 1),
        index: word(table.words, number, 2),
    };
    let marked = marks.pass(table, number);
    let roles = Roles {
        item: marked.item && item_fits(grammar, item),
        ..marked
    };
    Reached {
        table,
        grammar,
        number,
        roles,
    }
}

// A line for each record.
fn write_records<'a, R: Print + Eprint>(
    rt: &R,
    table: Surveyed<'a>,
    grammar: Grammar<'a>,
    marks: &mut Marks<ALL>,
    out: &mut [u8; LINE],
) -> Result<(), Failed> {
    for number in 0..table.areas.records {
        let n = record_line(out, reached(table, grammar, number, marks));
        write(rt, &out[..n])?;
    }
    Ok(())
}

// The lines of an accepted table.
fn write_table<R: Print + Eprint>(
    rt: &R,
    table: AcceptedTable,
    out: &mut [u8; LINE],
) -> Result<(), Failed> {
    let words = table.words;
    let s = Surveyed {
        words,
        areas: survey(words),
    };
    let records = s.areas.records;
    write_numbers(
        rt,
        &[records as u16],
        b" # records of the table, the last with the number",
        records - 1,
        out,
    )?;
    let mut packed = [0u16; ProductionIndex::ALL_WORDS];
    let grammar = table.read_grammar(&mut packed);
    let mut marks = Marks::of_heads(s);
    write_records(rt, s, grammar, &mut marks, out)
}

// Conflicts of five words each, numbered on.
fn write_conflicts<R: Print + Eprint>(
    rt: &R,
    conflicts: &[[u16; WORDS_OF_CONFLICT]],
    first: usize,
    out: &mut [u8; LINE],
) -> Result<(), Failed>
    requires { (length conflicts.now ≤ 4096) × (first < 1152921504606846976) }
{
    for (k, conflict) in conflicts.iter().enumerate() {
        write_numbers(rt, conflict, b" # conflict", first + k, out)?;
    }
    Ok(())
}

// The words of a conflict that is cut short.
fn write_left<R: Print + Eprint>(
    rt: &R,
    words: &[u16],
    number: usize,
    out: &mut [u8; LINE],
) -> Result<(), Failed>
    requires { length words.now ≤ 8 }
{
    if words.is_empty() {
        return Ok(());
    }
    write_numbers(rt, words, b" # a part of conflict", number, out)
}

// Bytes that are no words.
fn say_odd<R: Eprint>(rt: &R, bytes: usize) {
    if bytes % 2 != 0 {
        let _ = eprintln!(rt; "one byte at the end is no word");
    }
}

// A piece of the rest; whether there may be more, a yes or no that a failing read or write does not answer. A byte that is no word is said even where the words of the last conflict could not be written.
fn text_piece<R: io::Input + Print + Eprint>(
    rt: &R,
    first: usize,
    bytes: &mut [u8; PIECE_BYTES],
    words: &mut [u16; PIECE_WORDS],
    out: &mut [u8; LINE],
) -> Result<bool, Failed>
    requires { first < 1152921504606846976 }
{
    let got = read(rt, bytes)?;
    let n = decode(&bytes[..got], words);
    let (conflicts, left) = words[..n].as_chunks::<{ WORDS_OF_CONFLICT }>();
    write_conflicts(rt, conflicts, first, out)?;
    let written = write_left(rt, left, first + conflicts.len(), out);
    say_odd(rt, got);
    written?;
    Ok(got == bytes.len())
}

// The rest, piece by piece.
fn text_rest<R: io::Input + Print + Eprint>(rt: &R, out: &mut [u8; LINE]) -> Result<(), Failed> {
    let mut bytes = [0u8; PIECE_BYTES];
    let mut words = [0u16; PIECE_WORDS];
    for piece in 0..PIECES as usize {
        if !text_piece(rt, 1 + piece * PIECE, &mut bytes, &mut words, out)? {
            break;
        }
    }
    Ok(())
}

fn text_input<R: io::Input + Print + Eprint>(rt: &R) -> Result<(), Stop> {
    let mut bytes = [0u8; BYTES];
    let mut room = [0u16; WORDS];
    let mut out = [0u8; LINE];
    let table = read_table_words(rt, &mut bytes, &mut room)?;
    write_table(rt, check(table)?, &mut out)?;
    Ok(text_rest(rt, &mut out)?)
}

fn main(rt: HostRuntime) {
    say_end(&rt, text_input(&rt));
}
