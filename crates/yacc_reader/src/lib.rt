// Reading a yacc text into a table with one empty state, whole (docs/YACC.md): what is answered and left in the lent words is `read_of` (module parsed_file, specs/Outcome).

#![tactic(auto)]

pub mod counts;
pub mod events;
pub mod limits;
pub mod name_errors;
pub mod names;
pub mod numbers;
pub mod parsed_file;
pub mod places;
pub mod productions;
pub mod symbol_table;
pub mod symbols;

ghost use Rattle.std.specs.Prelude.{IfSome, true, false, ◌≡◌, ◌≤◌, [], length};
ghost use Rattle.std.proofs.Math.Option.{some};
ghost use Rattle.lr1_base.specs.repr.Reply.{reply_of};
ghost use Rattle.yacc_syntax.specs.text.Grammar.{Layout, text_limit};
ghost use Rattle.yacc_syntax.specs.text.Parse.{parse};
ghost use Rattle.yacc_syntax.specs.text.Forward.{top};
ghost use Rattle.yacc_syntax.specs.text.Places.{placed, placed_from};
ghost use Rattle.yacc_syntax.specs.lexer.Steps.{found_at};
ghost use Rattle.yacc_syntax.specs.recognizer.Accepted.{is_grammar_text};
ghost use Rattle.yacc_reader.specs.parsed_file.Outcome.{source_in, misnamed, counted_of, named_of, read_of};
ghost use Rattle.yacc_reader.specs.name_errors.Fault.{fault_from};
ghost use Rattle.yacc_reader.specs.Passed.{Passes};

use crate::counts::count;
use crate::events::TokenIter;
use crate::limits::check_counts;
use crate::name_errors::{fault_place, is_misnamed};
use crate::parsed_file::Reading;
use crate::places::{start_of, write_places};
use crate::productions::pack;
use crate::symbol_table::{Ids, SymbolTable, Words};
use lr1_base::repr::{Grammar, NonterminalString, ProductionIndex, Refusal};
use table::Counts;
use table_rewrite::start_production::write_started;
use yacc_syntax::recognizer::is_grammar;
use yacc_syntax::text::is_short;

// Writes the table and the places of a text that nothing refuses, whose ids are entered. Here and below the two lists are lent, and handed on as they came: a struct of both would be two `&mut` more, made anew at each step.
fn write_read(
    symbols: &SymbolTable,
    table: &mut [u16],
    places: &mut [u16],
) -> Result<Reading, Refusal>
    requires short { length symbols.now.ids.text.now ≤ text_limit }
    requires passes { (l : Layout) → parse symbols.now.ids.text.now ≡ some l → Passes (source_in l.pieces) table.old places.old }
    ensures { (l : Layout) → parse symbols.now.ids.text.now ≡ some l → record { answer = reply_of result; table = table.new; places = places.new } ≡ counted_of (source_in l.pieces) table.old places.old }
{
    let mut words = [0u16; ProductionIndex::ALL_WORDS];
    let productions = pack(symbols, &mut words);
    let grammar = Grammar {
        words: &words,
        productions,
    };
    let counts = Counts {
        nonterminals: symbols.ids.counts.nonterminals,
        terminals: symbols.ids.counts.terminals,
        states: 1,
        productions,
    };
    let started = write_started(grammar, counts, 0, table)?;
    write_places(symbols, places);
    let start = start_of(symbols);
    let listed = symbols.ids.counts.nonterminals + symbols.ids.counts.terminals;
    Ok(Reading {
        records: started.records,
        places: listed as u16,
        start: NonterminalString(start as u16),
    })
}

// Reads a text that is named well, whose ids are entered: 2, 5 and 17. (`check_counts` takes two numbers: of `Ids` it reads these alone, and not how many names there are.)
fn read_counted(
    symbols: &SymbolTable,
    table: &mut [u16],
    places: &mut [u16],
) -> Result<Reading, Refusal>
    requires short { length symbols.now.ids.text.now ≤ text_limit }
    requires pieces_value { (l : Layout) → parse symbols.now.ids.text.now ≡ some l → misnamed (source_in l.pieces) ≡ false }
    ensures { (l : Layout) → parse symbols.now.ids.text.now ≡ some l → record { answer = reply_of result; table = table.new; places = places.new } ≡ counted_of (source_in l.pieces) table.old places.old }
{
    let counts = count(symbols.ids.text);
    let nonterminals = symbols.ids.counts.nonterminals;
    let terminals = symbols.ids.counts.terminals;
    check_counts(nonterminals, terminals, counts, table, places)?;
    write_read(symbols, table, places)
}

// Reads a text of the grammar whose ids are entered: 21, then the others.
fn read_named(
    symbols: &SymbolTable,
    table: &mut [u16],
    places: &mut [u16],
) -> Result<Reading, Refusal>
    requires { length symbols.now.ids.text.now ≤ text_limit }
    ensures { (l : Layout) → parse symbols.now.ids.text.now ≡ some l → record { answer = reply_of result; table = table.new; places = places.new } ≡ named_of (source_in l.pieces) table.old places.old }
{
    if is_misnamed(symbols) {
        return Err(Refusal::Misnamed);
    }
    read_counted(symbols, table, places)
}

// Words for the ids of any text: it has fewer names than bytes. Lists side by side, as `Words` has them, on the stack: there is no heap.
#[derive(Drop)]
struct Room {
    starts: [u16; Ids::NAMES],
    pasts: [u16; Ids::NAMES],
    ix: [u16; Ids::INDEX_WORDS],
    lefts: [u16; Ids::NAMES],
    tokens: [u16; Ids::TOKEN_WORDS],
}

impl Room {
    ghost use Rattle.yacc_reader.specs.Room.{IsFresh};

    fn new() -> Room
        ensures { IsFresh result }
    {
        Room {
            starts: [0; Ids::NAMES],
            pasts: [0; Ids::NAMES],
            ix: [0; Ids::INDEX_WORDS],
            lefts: [0; Ids::NAMES],
            tokens: [0; Ids::TOKEN_WORDS],
        }
    }

    // The ids of a text of the grammar, entered. (`read_yacc` and `misnamed_at` test what is asked of the text here and below; that it is short is no field of the table, as module places says.)
    fn enter<'a>(&'a mut self, text: &'a [u8]) -> SymbolTable<'a>
        requires fresh { IsFresh self.old }
        requires text { (length text.now ≤ text_limit) × (is_grammar_text text.now ≡ true) }
        ensures { result.ids.text.now ≡ text.now }
    {
        // Taken apart first: a slice of a field of `self` in the literal (`&mut self.starts`) has no generated proof.
        let Room {
            starts,
            pasts,
            ix,
            lefts,
            tokens,
        } = self;
        let words = Words {
            starts,
            pasts,
            ix,
            lefts,
            tokens,
        };
        SymbolTable::enter(text, words)
    }
}

// Reads a text of the grammar.
fn read_in(text: &[u8], table: &mut [u16], places: &mut [u16]) -> Result<Reading, Refusal>
    requires { (length text.now ≤ text_limit) × (is_grammar_text text.now ≡ true) }
    ensures { (l : Layout) → parse text.now ≡ some l → record { answer = reply_of result; table = table.new; places = places.new } ≡ named_of (source_in l.pieces) table.old places.old }
{
    let mut room = Room::new();
    let symbols = room.enter(text);
    read_named(&symbols, table, places)
}

// Reads a yacc text into a table with one empty state: the table at the front of `table`, the places at the front of `places`. Refusals 20, 21, 2, 5, 17 in this order; they change nothing.
pub fn read_yacc(text: &[u8], table: &mut [u16], places: &mut [u16]) -> Result<Reading, Refusal>
    ensures { record { answer = reply_of result; table = table.new; places = places.new } ≡ read_of text.now table.old places.old }
{
    if !is_short(text) || !is_grammar(text) {
        return Err(Refusal::NoText);
    }
    read_in(text, table, places)
}

// Where a text of the grammar is at fault.
fn fault_in(text: &[u8]) -> Option<usize>
    requires { (length text.now ≤ text_limit) × (is_grammar_text text.now ≡ true) }
    ensures inside { IfSome result (λ at. at ≤ length text.now) }
    ensures first { (l : Layout) → parse text.now ≡ some l → found_at result ≡ fault_from (source_in l.pieces) (top false) (placed 0 l.pieces) }
{
    let mut room = Room::new();
    let symbols = room.enter(text);
    fault_place(&symbols)
}

// The place behind the last word of a text of the grammar.
fn words_end(text: &[u8]) -> usize
    requires { is_grammar_text text.now ≡ true }
    ensures { (result ≤ length text.now) × (placed_from text.now result ≡ some []) }
{
    let mut end: usize = 0;
    for token in TokenIter::new(text) {
        end = token.lexeme.past;
    }
    end
}

// Where a text that 21 refuses is at fault: the first byte of the first token that is. For a text that 20 refuses it is 0, for any other the place behind the last word. (No Option: it is asked of texts that 21 refuses, which all have such a place.)
pub fn misnamed_at(text: &[u8]) -> usize
    ensures { (result ≤ length text.now) × (length text.now ≤ text_limit → (l : Layout) → parse text.now ≡ some l → misnamed (source_in l.pieces) ≡ true → fault_from (source_in l.pieces) (top false) (placed 0 l.pieces) ≡ some result) }
{
    if is_short(text) && is_grammar(text) {
        return match fault_in(text) {
            Some(at) => at,
            None => words_end(text),
        };
    }
    0
}
