// The places of a yacc text whose ids are entered, and its start nonterminal (specs/places/Placed; crates yacc_enter, specs/Ids, and yacc_read, specs/Meaning).

ghost use Rattle.std.specs.Prelude.{◌≡◌, List, ◌+◌, ◌≤◌, ◌<◌, length, set};
ghost use Rattle.std.proofs.Math.Option.{some};
ghost use Rattle.lr1_base.specs.words.Lent.{in_front};
ghost use Rattle.lr1_base.specs.repr.Lists.{joined};
ghost use Rattle.yacc_syntax.specs.text.Grammar.{Layout, text_limit};
ghost use Rattle.yacc_syntax.specs.text.Parse.{parse};
ghost use Rattle.yacc_reader.specs.parsed_file.Source.{Known, left_side, token_use};
ghost use Rattle.yacc_reader.specs.parsed_file.Meaning.{places_of, start_of};
ghost use Rattle.yacc_reader.specs.parsed_file.Outcome.{source_in};
ghost use Rattle.yacc_reader.specs.events.Said.{id_at, events_of};
ghost use Rattle.yacc_reader.specs.names.Names.{held};
ghost use Rattle.yacc_reader.specs.symbol_table.Table.{Holds};
ghost use Rattle.yacc_reader.specs.places.Placed.{entered_place, written_to, written_in};

use crate::events::{Saying, Token, TokenIter};
use crate::symbol_table::{IdTable, SymbolTable};
use yacc_syntax::lexer::Word;

// The number of the nonterminal that a word enters.
fn left_said(ids: &IdTable, token: Token) -> Option<u16>
    requires { token.lexeme.past ≤ length ids.now.text.now }
    ensures { (ns ts : List Known) → Holds ids.now ns ts → held result ≡ entered_place ns (joined left_side (events_of token.what (id_at ids.now.text.now token.lexeme.word token.lexeme.from token.lexeme.past) token.lexeme.from token.lexeme.past)) }
{
    match token.what {
        Saying::Defines => ids.left(token.lexeme),
        _ => None,
    }
}

// The number of the terminal that a word enters: in a body a literal enters one, and a name none.
fn token_said(ids: &IdTable, token: Token) -> Option<u16>
    requires { token.lexeme.past ≤ length ids.now.text.now }
    ensures { (ns ts : List Known) → Holds ids.now ns ts → held result ≡ entered_place ts (joined token_use (events_of token.what (id_at ids.now.text.now token.lexeme.word token.lexeme.from token.lexeme.past) token.lexeme.from token.lexeme.past)) }
{
    match (token.what, token.lexeme.word) {
        (Saying::Lists, _) | (Saying::Uses, Word::Literal) => ids.token(token.lexeme),
        _ => None,
    }
}

// Word n, as far as there is room. (By `get_mut`, tried two ways: what the library says of it tells the length alone, and the proof did not close.)
fn put(places: &mut [u16], n: usize, from: usize)
    requires { from < 65536 }
    ensures { places.new ≡ set places.old n from }
{
    if n < places.len() {
        places[n] = from as u16;
    }
}

// The place of an id is written if its number comes next, as n are written; how many are then.
fn write_place(places: &mut [u16], n: usize, number: Option<u16>, from: usize) -> usize
    requires { from < 65536 }
    ensures value { result ≡ written_to n (held number) }
    ensures places_after { places.new ≡ written_in places.old n (held number) from }
{
    match number {
        Some(number) if usize::from(number) == n => {
            put(places, n, from);
            n + 1
        }
        _ => n,
    }
}

// The places of a text whose ids are entered: for each nonterminal by number the first byte of its first left side, then for each terminal by number that of the occurrence that numbered it. (That the text is short is asked here and in the two crates above: as a field of `SymbolTable` it would be asked of those who look a name up, too.)
pub fn write_places(symbols: &SymbolTable, places: &mut [u16])
    requires short { length symbols.now.ids.text.now ≤ text_limit }
    requires room { symbols.now.ids.counts.nonterminals + symbols.now.ids.counts.terminals ≤ length places.old }
    ensures { (l : Layout) → parse symbols.now.ids.text.now ≡ some l → places.new ≡ in_front (places_of (source_in l.pieces)) places.old }
{
    let (lefts, tokens) = places.split_at_mut(symbols.ids.counts.nonterminals);
    // Counted by hand: how many are written, to which not every word adds.
    let mut n: usize = 0;
    let mut m: usize = 0;
    for token in TokenIter::new(symbols.ids.text) {
        let left = left_said(&symbols.ids, token);
        let right = token_said(&symbols.ids, token);
        n = write_place(lefts, n, left, token.lexeme.from);
        m = write_place(tokens, m, right, token.lexeme.from);
    }
}

// The start nonterminal: the START id's number, else 0. (Where 21 refuses the START id it is the number behind the last.)
pub fn start_of(symbols: &SymbolTable) -> usize
    ensures { (l : Layout) → parse symbols.now.ids.text.now ≡ some l → result ≡ start_of (source_in l.pieces).nonterminals (source_in l.pieces).starts }
{
    let mut tokens = TokenIter::new(symbols.ids.text);
    let Some(token) = tokens.find(|token| matches!(token.what, Saying::Opens)) else {
        return 0;
    };
    match symbols.ids.left(token.lexeme) {
        Some(number) => usize::from(number),
        None => symbols.ids.counts.nonterminals,
    }
}
