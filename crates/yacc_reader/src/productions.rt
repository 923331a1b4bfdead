// The productions of a yacc text whose ids are entered, packed (specs/productions/Readable, specs/productions/Turn; crates yacc_read, specs/Meaning, and repr, specs/Packed).

ghost use Rattle.std.specs.Prelude.{true, ◌≡◌, List, ℕ, ◌+◌, ◌≤◌, ◌<◌, length};
ghost use Rattle.std.proofs.Math.Option.{some};
ghost use Rattle.lr1_base.specs.repr.Sizes.{grammar_room};
ghost use Rattle.lr1_base.specs.repr.Symbols.{meant};
ghost use Rattle.table_rewrite.specs.spelling.Spelled.{kind_of, number_of};
ghost use Rattle.table_rewrite.specs.grammar_records.Target.{PackedAs};
ghost use Rattle.yacc_syntax.specs.text.Grammar.{Layout, text_limit};
ghost use Rattle.yacc_syntax.specs.text.Parse.{parse};
ghost use Rattle.yacc_syntax.specs.text.Forward.{Mode as TextMode, move};
ghost use Rattle.yacc_syntax.specs.lexer.Steps.{token_at, Leads};
ghost use Rattle.yacc_reader.specs.parsed_file.Source.{Known, is_known, number_in, Source};
ghost use Rattle.yacc_reader.specs.parsed_file.Meaning.{table_of};
ghost use Rattle.yacc_reader.specs.parsed_file.Outcome.{source_in};
ghost use Rattle.yacc_reader.specs.events.Said.{said_in, id_at};
ghost use Rattle.yacc_reader.specs.symbol_table.Ids.{is_id};
ghost use Rattle.yacc_reader.specs.symbol_table.Table.{Holds};
ghost use Rattle.yacc_reader.specs.productions.Readable.{Readable, Whole};
ghost use Rattle.yacc_reader.specs.productions.Turn.{Small, Added, Closed, Turn};

use crate::events::{Saying, Token, TokenIter};
use crate::symbol_table::{IdTable, SymbolTable};
use crate::symbols::symbol;
use lr1_base::repr::{ProductionIndex, Symbol};
use table::{RECORD_WORDS, put};
use yacc_syntax::lexer::Lexeme;

// Records of a table that a production's words are.
const RECORDS: usize = ProductionIndex::WORDS / RECORD_WORDS;

// The production that is open: its number, its nonterminal's, its symbols so far, and where they begin and end. (That its numbers fit words, `Small`, is asked and promised by each step and no ghost field: specs/productions/Turn says what a step leaves as a record of the numbers alone.)
#[derive(Clone, Copy, Default)]
struct Body {
    production: usize,
    owner: usize,
    symbols: usize,
    span: Option<(usize, usize)>,
}

// The number of the nonterminal of a left side.
fn left_number(ids: &IdTable, lexeme: Lexeme) -> usize
    requires { lexeme.past ≤ length ids.now.text.now }
    ensures { (result < 65536) × (is_id lexeme.word ≡ true → (ns ts : List Known) → Holds ids.now ns ts → is_known ns (id_at ids.now.text.now lexeme.word lexeme.from lexeme.past) ≡ true → result ≡ number_in ns (id_at ids.now.text.now lexeme.word lexeme.from lexeme.past)) }
{
    usize::from(ids.left(lexeme).unwrap_or(0))
}

impl Body {
    // Puts a symbol behind those of the body, if there is room.
    fn add(self, grammar: &mut [u16], read: Symbol, lexeme: Lexeme) -> Body
        requires long { length grammar.old ≡ grammar_room }
        requires small { Small self }
        requires past_bound { lexeme.past < 65536 }
        ensures { Small result × Added grammar.old grammar.new self result (kind_of (meant read)) (number_of (meant read)) lexeme.from lexeme.past }
    {
        if ProductionIndex::LIMIT <= self.production || ProductionIndex::SYMBOLS <= self.symbols {
            return self;
        }
        let at = self.production * ProductionIndex::WORDS
            + ProductionIndex::HEAD
            + Symbol::WORDS * self.symbols;
        let (kind, number) = read.words();
        grammar[at] = kind;
        grammar[at + 1] = number;
        let (start, _) = self.span.unwrap_or((lexeme.from, lexeme.past));
        Body {
            symbols: self.symbols + 1,
            span: Some((start, lexeme.past)),
            ..self
        }
    }

    // Closes the body: the words in front of its symbols.
    fn close(self, grammar: &mut [u16], at: usize) -> Body
        requires long { length grammar.old ≡ grammar_room }
        requires small { Small self }
        requires at_bound { at < 65536 }
        ensures { Small result × Closed grammar.old grammar.new self result at }
    {
        if ProductionIndex::LIMIT <= self.production {
            return self;
        }
        let (start, end) = self.span.unwrap_or((at, at));
        put(
            grammar,
            self.production * RECORDS,
            self.owner,
            self.symbols,
            start,
            end,
        );
        Body {
            production: self.production + 1,
            owner: self.owner,
            ..Body::default()
        }
    }
}

// What a word says is packed.
fn step(ids: &IdTable, grammar: &mut [u16], body: Body, token: Token) -> Body
    requires inside { (token.lexeme.past ≤ length ids.now.text.now) × (length ids.now.text.now ≤ text_limit) }
    requires long { length grammar.old ≡ grammar_room }
    requires small { Small body }
    ensures small { Small result }
    ensures turn { (S : Source) → Holds ids.now S.nonterminals S.terminals → Whole S → (mode : TextMode) (at : ℕ) (n : TextMode) → Leads ids.now.text.now at token.lexeme.word token.lexeme.from token.lexeme.past → token.what ≡ said_in mode token.lexeme.word → n ≡ move mode (token_at ids.now.text.now token.lexeme.word token.lexeme.from token.lexeme.past) → Turn S ids.now.text.now grammar.old body mode at → Turn S ids.now.text.now grammar.new result n token.lexeme.past }
{
    match token.what {
        Saying::Defines => Body {
            production: body.production,
            owner: left_number(ids, token.lexeme),
            ..Body::default()
        },
        Saying::Uses => {
            let read = symbol(ids, token.lexeme);
            body.add(grammar, read, token.lexeme)
        }
        Saying::Shuts => body.close(grammar, token.lexeme.from),
        _ => body,
    }
}

// The productions of a text whose ids are entered, packed; how many there are. (Fixed words and how many of them are used, since there is no heap; a slice, since an array of their size would ask more of callers.)
pub fn pack(symbols: &SymbolTable, grammar: &mut [u16]) -> usize
    requires short { length symbols.now.ids.text.now ≤ text_limit }
    requires long { length grammar.old ≡ grammar_room }
    requires readable { (l : Layout) → parse symbols.now.ids.text.now ≡ some l → Readable (source_in l.pieces) }
    ensures { (l : Layout) → parse symbols.now.ids.text.now ≡ some l → (result ≡ length (source_in l.pieces).alternatives) × PackedAs (table_of (source_in l.pieces)) grammar.new result }
{
    let mut body = Body::default();
    for token in TokenIter::new(symbols.ids.text) {
        body = step(&symbols.ids, grammar, body, token);
    }
    body.production
}
