// Reads a yacc text (docs/YACC.md) and writes its grammar as `states` reads it: record count, table words, the start production as one word more. Where the start nonterminal has more than one
// production or stands in a right side, a nonterminal and a production that leads to it are added behind all others (module start_production of table_rewrite).
// A refusal is said in one line on standard error, and nothing is written; of 20 and 21 a second line says where. A read or a write that fails is said there too and ends the run.
#![tactic(auto)]

ghost use Rattle.std.specs.Prelude.{◌≡◌, ◌≤◌, length};
ghost use Rattle.table.specs.Decoded.{meaning};
ghost use Rattle.table_rewrite.specs.start_production.Started.{Startable};

use lr1_base::repr::{NonterminalString, ProductionIndex, Refusal, Symbol};
use program_io::streams::{read, write};
use program_io::table_stream::{RECORD_WORDS, Stop, say_end, write_records};
use table::AcceptedTable;
use table_rewrite::start_production::with_start;
use yacc_reader::{misnamed_at, read_yacc};
use yacc_syntax::error_position::{place_of, stray};

// The bytes of a text at most.
const TEXT: usize = 65535;

// Bytes of a buffer: one more than a text may have, which shows that it is too long; and for a table's words.
const BYTES: usize = TEXT + 1;

// Records of a grammar at most: record 0, nonterminals, a state, productions and their symbols. A start production is two more.
const RECORDS: usize = 2
    + NonterminalString::LIMIT
    + ProductionIndex::LIMIT
    + ProductionIndex::LIMIT * ProductionIndex::SYMBOLS;

const WORDS: usize = RECORDS * RECORD_WORDS;

const STARTED_WORDS: usize = WORDS + 2 * RECORD_WORDS;

// Places of the nonterminals and terminals.
const PLACES: usize = NonterminalString::LIMIT + Symbol::TERMINALS;

// Line and column of a byte of the text, and what is wrong there, on standard error. That a text fits its buffer is asked here and below, as `place_of` counts up to one past a place: a struct for it would serve these three alone.
fn say_place<R: Eprint>(rt: &R, text: &[u8], at: usize, wrong: &str)
    requires { (at ≤ length text.now) × (length text.now ≤ 65536) }
{
    let place = place_of(text, at);
    let _ = eprintln!(rt; "line {} column {}: {wrong}", place.line, place.column);
}

// Where 20 is: no text has a byte 65,535.
fn say_stray<R: Eprint>(rt: &R, text: &[u8])
    requires { length text.now ≤ 65536 }
{
    let at = stray(text);
    if at >= TEXT && text.len() > TEXT {
        say_place(rt, text, TEXT, "the text is too long");
    } else if at == text.len() {
        say_place(rt, text, at, "the text ends too early");
    } else {
        say_place(rt, text, at, "cannot read this");
    }
}

// Where 21 is.
fn say_misnamed<R: Eprint>(rt: &R, text: &[u8])
    requires { length text.now ≤ 65536 }
{
    let at = misnamed_at(text);
    say_place(rt, text, at, "cannot use this name");
}

// The grammar that was read, from its start nonterminal.
fn write_grammar<R: Print + Eprint>(
    rt: &R,
    table: AcceptedTable,
    start: NonterminalString,
    bytes: &mut [u8],
) -> Result<(), Stop>
    requires startable { Startable (meaning table.words.now) start.0 }
    requires in_bounds { 65536 ≤ length bytes.old }
{
    let mut out = [0u16; STARTED_WORDS];
    let started = with_start(table, start, &mut out)?;
    let past = started.records as usize * RECORD_WORDS;
    write_records(rt, &out[..past], bytes)?;
    Ok(write(rt, &started.production.0.to_le_bytes())?)
}

// A text that was read whole.
fn read_text<R: Print + Eprint>(rt: &R, text: &[u8], bytes: &mut [u8]) -> Result<(), Stop>
    requires { 65536 ≤ length bytes.old }
{
    let mut table = [0u16; WORDS];
    let mut places = [0u16; PLACES];
    let read = read_yacc(text, &mut table, &mut places)?;
    let words = read.records as usize * RECORD_WORDS;
    let table = AcceptedTable {
        words: &table[..words],
    };
    write_grammar(rt, table, read.start, bytes)
}

// Only the text itself is refused by 20 and 21.
fn main(rt: HostRuntime) {
    let mut text = [0u8; BYTES];
    let mut bytes = [0u8; BYTES];
    if let Ok(got) = read(&rt, &mut text) {
        let text = &text[..got];
        let run = read_text(&rt, text, &mut bytes);
        say_end(&rt, run);
        match run {
            Err(Stop::Refused(Refusal::NoText)) => say_stray(&rt, text),
            Err(Stop::Refused(Refusal::Misnamed)) => say_misnamed(&rt, text),
            _ => {}
        }
    }
}
