// Writing a table's grammar as a yacc text (docs/YACC.md), in code. Bytes are put as far as there is room (specs/Wrote), so that the functions that write also count. Each takes the text and a place and answers the place behind (module conflict_words of lr1_tables says why there is no writer).

#![tactic(auto)]

pub mod text;

ghost use Rattle.std.specs.Prelude.{◌≡◌, true, ◌∷◌, [], ◌+◌, ◌*◌, ◌≤◌, ◌<◌, length};
ghost use Rattle.lr1_base.specs.numerals.Numeral.{numeral};
ghost use Rattle.lr1_base.specs.repr.Reply.{reply_of};
ghost use Rattle.lr1_base.specs.repr.Sizes.{nonterminal_limit, terminal_limit, symbol_limit};
ghost use Rattle.lr1_base.specs.repr.Lists.{joined};
ghost use Rattle.lr1_base.specs.repr.Listed.{listed, list_is_fit};
ghost use Rattle.lr1_base.specs.repr.Symbols.{meant, IsInRange};
ghost use Rattle.lr1_base.specs.repr.Packed.{production_in, productions_in};
ghost use Rattle.table.specs.Decoded.{meaning};
ghost use Rattle.yacc_writer.specs.text.Text.{ascending};
ghost use Rattle.yacc_writer.specs.text.Outcome.{written_of, write_of};
ghost use Rattle.yacc_writer.specs.Wrote.{place_limit, Wrote, name_bytes, token_bytes, production_bytes, file_bytes, terminal_bytes};

use lr1_base::repr::{Grammar, ProductionIndex, Refusal, Symbol, SymbolIter};
use table::AcceptedTable;

// A byte; the place behind it. (By `get_mut`, tried: what the proof learns of the text is its length alone, as in module places of yacc_reader.)
fn put(text: &mut [u8], at: usize, byte: u8) -> usize
    requires { at < place_limit }
    ensures { Wrote text.old at (byte ∷ []) text.new result }
{
    if at < text.len() {
        text[at] = byte;
    }
    at + 1
}

// Bytes one behind the other.
fn put_all(text: &mut [u8], at: usize, bytes: &[u8]) -> usize
    requires { at + length bytes.now ≤ place_limit }
    ensures { Wrote text.old at bytes.now text.new result }
{
    let mut place = at;
    for byte in bytes {
        place = put(text, place, *byte);
    }
    place
}

// A number of one or two digits: no name has a greater one. (By hand: for two digits at most the kit's `itoa` would be a buffer, a copy out of it, and its law, which stands in module conflict_lines of output_text, carried below.)
fn put_number(text: &mut [u8], at: usize, n: usize) -> usize
    requires { (at + 1 < place_limit) × (n < 100) }
    ensures { Wrote text.old at (numeral n) text.new result × (result ≤ at + 2) }
{
    let last = b'0' + (n % 10) as u8;
    if n < 10 {
        return put(text, at, last);
    }
    let next = put(text, at, b'0' + (n / 10) as u8);
    put(text, next, last)
}

// A letter and a number.
fn put_name(text: &mut [u8], at: usize, letter: u8, n: usize) -> usize
    requires { (at + 2 < place_limit) × (n < 100) }
    ensures { Wrote text.old at (letter ∷ numeral n) text.new result × (result ≤ at + 3) }
{
    let next = put(text, at, letter);
    put_number(text, next, n)
}

// A space and a symbol's name.
fn put_symbol(text: &mut [u8], at: usize, symbol: Symbol) -> usize
    requires { (at + 3 < place_limit) × IsInRange symbol }
    ensures { Wrote text.old at (name_bytes (meant symbol)) text.new result × (result ≤ at + 4) }
{
    let next = put(text, at, b' ');
    match symbol {
        Symbol::Nonterminal(nonterminal) => put_name(text, next, b'N', nonterminal.0 as usize),
        Symbol::Terminal(terminal) => put_name(text, next, b'T', terminal as usize),
    }
}

// The names of the terminals below n, a space before each.
fn put_terminals(text: &mut [u8], at: usize, n: usize) -> usize
    requires { (at < 256) × (n ≤ terminal_limit) }
    ensures { Wrote text.old at (terminal_bytes n) text.new result × (result ≤ at + 4 * n) }
{
    let mut place = at;
    for t in 0..n {
        place = put_symbol(text, place, Symbol::Terminal(t as u16));
    }
    place
}

// The line of the tokens, if there are any.
fn put_tokens(text: &mut [u8], n: usize) -> usize
    requires { n ≤ terminal_limit }
    ensures { Wrote text.old 0 (token_bytes n) text.new result × (result ≤ 259) }
{
    if n == 0 {
        return 0;
    }
    let next = put_all(text, 0, b"%token");
    let last = put_terminals(text, next, n);
    put(text, last, b'\n')
}

// The names of symbols in words, a space before each.
fn put_symbols(text: &mut [u8], at: usize, words: &[u16]) -> usize
    requires { (at < 65000) × ((length words.now ≤ 2 * symbol_limit) × (list_is_fit nonterminal_limit terminal_limit words.now ≡ true)) }
    ensures { Wrote text.old at (joined name_bytes (listed words.now)) text.new result × (result ≤ at + 64) }
{
    let mut place = at;
    for symbol in (SymbolIter { words }) {
        place = put_symbol(text, place, symbol);
    }
    place
}

// The line of a production.
fn put_production(text: &mut [u8], at: usize, grammar: Grammar, p: usize) -> usize
    requires { (at < 64000) × (p < grammar.productions) }
    ensures { Wrote text.old at (production_bytes (production_in grammar.entry.words.now p)) text.new result × (result ≤ at + 72) }
{
    let name = put_name(text, at, b'N', grammar.owner(p));
    let space = put(text, name, b' ');
    let colon = put(text, space, b':');
    let last = put_symbols(text, colon, grammar.symbols(p));
    put_all(text, last, b" ;\n")
}

// The lines of the productions.
fn put_productions(text: &mut [u8], at: usize, grammar: Grammar) -> usize
    requires { at < 1000 }
    ensures { Wrote text.old at (joined production_bytes (productions_in grammar.entry.words.now grammar.entry.productions)) text.new result × (result ≤ at + 72 * grammar.entry.productions) }
{
    let mut place = at;
    for p in 0..grammar.productions {
        place = put_production(text, place, grammar, p);
    }
    place
}

// The whole text, from the front on.
fn put_file(text: &mut [u8], grammar: Grammar, terminals: usize) -> usize
    requires { terminals ≤ terminal_limit }
    ensures { Wrote text.old 0 (file_bytes terminals (productions_in grammar.entry.words.now grammar.entry.productions)) text.new result × (result < 65536) }
{
    let tokens = put_tokens(text, terminals);
    let mark = put_all(text, tokens, b"%%\n");
    put_productions(text, mark, grammar)
}

// Does each nonterminal have a production, and the first ones ascend: else 23.
fn ascends(table: AcceptedTable) -> bool
    ensures { result ≡ ascending 0 (meaning table.entry.words.now).nonterminals }
{
    let nonterminals = table.counts().nonterminals;
    let mut least: usize = 0;
    for n in 0..nonterminals {
        match table.productions(n).next() {
            Some(first) if least <= first.production => {
                least = first.production + 1;
            }
            _ => {
                return false;
            }
        }
    }
    true
}

// Writes an accepted table whose first productions ascend, if there is room: the bytes are counted first.
fn write_ordered(table: AcceptedTable, text: &mut [u8]) -> Result<u16, Refusal>
    requires { ascending 0 (meaning table.words.now).nonterminals ≡ true }
    ensures { record { answer = reply_of result; text = text.new } ≡ written_of (meaning table.entry.words.now) text.old }
{
    let counts = table.counts();
    let mut words = [0u16; ProductionIndex::ALL_WORDS];
    let grammar = table.read_grammar(&mut words);
    let mut nothing = [0u8; 1];
    let size = put_file(&mut nothing, grammar, counts.terminals);
    if size > text.len() {
        return Err(Refusal::NoRoom);
    }
    put_file(text, grammar, counts.terminals);
    Ok(size as u16)
}

// Writes an accepted table.
fn write_in(table: AcceptedTable, text: &mut [u8]) -> Result<u16, Refusal>
    ensures { record { answer = reply_of result; text = text.new } ≡ written_of (meaning table.entry.words.now) text.old }
{
    if ascends(table) {
        return write_ordered(table, text);
    }
    Err(Refusal::Unordered)
}

// Writes the grammar of a table as a yacc text at the front of `text`, and answers how many bytes that are. Refusals 1 to 8, then 23, then 17; they change nothing.
pub fn write_yacc(table: &[u16], text: &mut [u8]) -> Result<u16, Refusal>
    ensures { record { answer = reply_of result; text = text.new } ≡ write_of table.now text.old }
{
    write_in(table_check::check(table)?, text)
}
