// The ids of a yacc text entered and numbered in one pass over its tokens (specs/symbol_table/Ids).

ghost use Rattle.std.specs.Prelude.{true, ◌≡◌, List, ℕ, [], ◌∷◌, ◌+◌, ◌≤◌, ◌<◌, length, get_or};
ghost use Rattle.lr1_base.specs.repr.Lists.{joined};
ghost use Rattle.yacc_syntax.specs.text.Grammar.{byte_limit, quoted};
ghost use Rattle.yacc_syntax.specs.recognizer.Accepted.{mode_of, is_grammar_text};
ghost use Rattle.yacc_reader.specs.parsed_file.Source.{Known, left_side, token_use};
ghost use Rattle.yacc_reader.specs.events.Said.{id_at, events_of};
ghost use Rattle.yacc_reader.specs.names.Names.{held, Entered};
ghost use Rattle.yacc_reader.specs.numbers.Numbers.{place_in};
ghost use Rattle.yacc_reader.specs.symbol_table.Props.{Kept-prop, Named-prop};
ghost use Rattle.yacc_reader.specs.symbol_table.Ids.{Held, Kept, is_id, Within, Fresh, NoQuote, name_at, Named};
ghost use Rattle.yacc_reader.specs.symbol_table.Words.{Ready, SameWords, Places, Enters};

use crate::events::{Saying, Token, TokenIter};
use crate::names::{BUCKETS, Placed, find, place};
use crate::numbers::number;
use yacc_syntax::lexer::{Lexeme, Word};
use yacc_syntax::text::Place;

// How many names are entered, and how many nonterminals and terminals there are.
#[derive(Clone, Copy, Default)]
pub struct Ids {
    pub names: usize,
    pub nonterminals: usize,
    pub terminals: usize,
}

impl Ids {
    // Words for the names of any text: it has fewer than bytes.
    pub const NAMES: usize = Place::LIMIT;

    // The words of their index, behind those of its buckets.
    pub const INDEX_WORDS: usize = BUCKETS + Ids::NAMES;

    // The words of the terminals: the literals', one for each byte, then the names'.
    pub const LITERALS: usize = 256;

    pub const TOKEN_WORDS: usize = Ids::LITERALS + Ids::NAMES;
}

// The byte at a place, or 0. (The library's `get`, in the words that contracts have for it.)
pub fn byte(text: &[u8], at: usize) -> usize
    ensures { (result ≡ get_or text.now at 0) × (result < byte_limit) }
{
    usize::from(text.get(at).copied().unwrap_or(0))
}

// The words that the ids of a text are entered in, as those of an `IdTable`: lists side by side, since there is no heap and they are lent.
#[derive(Drop)]
pub struct Words<'a> {
    pub starts: &'a mut [u16],
    pub pasts: &'a mut [u16],
    pub ix: &'a mut [u16],
    pub lefts: &'a mut [u16],
    pub tokens: &'a mut [u16],
}

// Ids of a text, as far as they are entered: names by their places with their index, and words for the numbers of those that are left sides, of the literals and of the names that are tokens. Looking an id up reads the words alone.
#[derive(Clone, Copy)]
pub struct IdTable<'a> {
    pub text: &'a [u8],
    pub starts: &'a [u16],
    pub pasts: &'a [u16],
    pub ix: &'a [u16],
    pub lefts: &'a [u16],
    pub tokens: &'a [u16],
    pub counts: Ids,
    pub ghost kept: { Kept text.now starts.now pasts.now ix.now lefts.now tokens.now counts } by { Kept-prop text.now starts.now pasts.now ix.now lefts.now tokens.now counts },
}

// The ids of a text of the grammar, all entered and numbered.
#[derive(Clone, Copy)]
pub struct SymbolTable<'a> {
    pub ids: IdTable<'a>,
    pub ghost named: { Named ids.text.now ids.starts.now ids.pasts.now ids.ix.now ids.lefts.now ids.tokens.now ids.counts } by { Named-prop ids.text.now ids.starts.now ids.pasts.now ids.ix.now ids.lefts.now ids.tokens.now ids.counts },
    pub ghost grammar: { is_grammar_text ids.text.now ≡ true },
}

// The number that a word holds, if it holds one.
fn number_at(words: &[u16], i: usize) -> Option<u16>
    requires { i < length words.now }
    ensures { held result ≡ get_or words.now i 0 }
{
    words[i].checked_sub(1)
}

// The number among the nonterminals of the name that stands from a place up to another. (The lists come one by one, here and at `token_place`: an `IdTable` asks for the words of both kinds of numbers.)
pub fn left_place(
    text: &[u8],
    starts: &[u16],
    pasts: &[u16],
    ix: &[u16],
    lefts: &[u16],
    ids: Ids,
    from: usize,
    past: usize,
) -> Option<u16>
    requires entered { Entered text.now starts.now pasts.now ix.now ids.names × (ids.names ≤ length lefts.now) }
    requires from_lt_past { (from < past) × (past ≤ length text.now) }
    ensures { (tokens : List ℕ) (ns ts : List Known) → Held text.now starts.now pasts.now ix.now lefts.now tokens ids ns ts → held result ≡ place_in ns (id_at text.now Word.Name from past) }
{
    let name = find(text, starts, pasts, ix, ids.names, from, past)?;
    number_at(lefts, name)
}

// Its number among the terminals.
pub fn token_place(
    text: &[u8],
    starts: &[u16],
    pasts: &[u16],
    ix: &[u16],
    tokens: &[u16],
    ids: Ids,
    from: usize,
    past: usize,
) -> Option<u16>
    requires entered { Entered text.now starts.now pasts.now ix.now ids.names × (byte_limit + ids.names ≤ length tokens.now) }
    requires from_lt_past { (from < past) × (past ≤ length text.now) }
    ensures { (lefts : List ℕ) (ns ts : List Known) → Held text.now starts.now pasts.now ix.now lefts tokens.now ids ns ts → held result ≡ place_in ts (id_at text.now Word.Name from past) }
{
    let name = find(text, starts, pasts, ix, ids.names, from, past)?;
    number_at(tokens, Ids::LITERALS + name)
}

impl<'a> IdTable<'a> {
    ghost use Rattle.yacc_reader.specs.symbol_table.Table.{Holds};

    // The number of an id among the nonterminals: a literal has none. (That a lexeme lies in the text is asked wherever it meets the table, here and in the crates above: one that held a text would still not say that it is the table's. Which ids the table holds, and which layout its text has, is said at each call, too: the caller chooses both, and a ghost field's fact has one proof.)
    pub fn left(&self, lexeme: Lexeme) -> Option<u16>
        requires { lexeme.past ≤ length self.now.text.now }
        ensures { is_id lexeme.word ≡ true → (ns ts : List Known) → Holds self.now ns ts → held result ≡ place_in ns (id_at self.now.text.now lexeme.word lexeme.from lexeme.past) }
    {
        match lexeme.word {
            Word::Name => left_place(
                self.text,
                self.starts,
                self.pasts,
                self.ix,
                self.lefts,
                self.counts,
                lexeme.from,
                lexeme.past,
            ),
            _ => None,
        }
    }

    // Its number among the terminals.
    pub fn token(&self, lexeme: Lexeme) -> Option<u16>
        requires { lexeme.past ≤ length self.now.text.now }
        ensures { is_id lexeme.word ≡ true → (ns ts : List Known) → Holds self.now ns ts → held result ≡ place_in ts (id_at self.now.text.now lexeme.word lexeme.from lexeme.past) }
    {
        match lexeme.word {
            Word::Name => token_place(
                self.text,
                self.starts,
                self.pasts,
                self.ix,
                self.tokens,
                self.counts,
                lexeme.from,
                lexeme.past,
            ),
            Word::Literal => number_at(self.tokens, byte(self.text, lexeme.from + 1)),
            _ => None,
        }
    }
}

impl<'a> SymbolTable<'a> {
    // Those of a text of the grammar.
    pub fn enter(text: &'a [u8], words: Words<'a>) -> SymbolTable<'a>
        requires { Fresh text.now words.starts.now words.pasts.now words.ix.now words.lefts.now words.tokens.now × (is_grammar_text text.now ≡ true) }
        ensures { result.ids.text.now ≡ text.now }
    {
        let Words {
            starts,
            pasts,
            ix,
            lefts,
            tokens,
        } = words;
        let entered = enter_all(text, starts, pasts, ix, lefts, tokens);
        let ids = IdTable {
            text,
            starts,
            pasts,
            ix,
            lefts,
            tokens,
            counts: entered,
        };
        SymbolTable { ids }
    }
}

// Enters the ids of a text of the grammar, where none is entered yet: the names by their places and their index, the numbers of the nonterminals and of the terminals. How many there are.
pub fn enter_all(
    text: &[u8],
    starts: &mut [u16],
    pasts: &mut [u16],
    ix: &mut [u16],
    lefts: &mut [u16],
    tokens: &mut [u16],
) -> Ids
    requires { Fresh text.now starts.old pasts.old ix.old lefts.old tokens.old × (is_grammar_text text.now ≡ true) }
    ensures { Named text.now starts.new pasts.new ix.new lefts.new tokens.new result }
{
    let mut words = Words {
        starts,
        pasts,
        ix,
        lefts,
        tokens,
    };
    words.enter_text(text)
}

// (That they stay the words lent is said by each step: a struct lent for writing could be put over others.)
impl<'a> Words<'a> {
    // The number of a name, entered unless it is there, and how many names there are then. (`Within` is of a text that is lent beside the lexeme, as at `IdTable::left`.)
    fn place(&mut self, text: &[u8], ids: Ids, lexeme: Lexeme) -> Placed
        requires ready { Ready text.now self.old ids }
        requires within { Within text.now lexeme.from lexeme.past }
        ensures places { Places text.now self.old ids.names lexeme.from lexeme.past self.new result }
        ensures same { SameWords self.old self.new }
    {
        place(
            text,
            self.starts,
            self.pasts,
            self.ix,
            ids.names,
            lexeme.from,
            lexeme.past,
        )
    }

    // A name that is a left side; how many there are then. (Asked at each step, here and below: `Ready` is room for one more name, which a step may take.)
    fn define(&mut self, text: &[u8], ids: Ids, lexeme: Lexeme) -> Ids
        requires ready { Ready text.now self.old ids }
        requires within { Within text.now lexeme.from lexeme.past }
        ensures enters { Enters text.now self.old ids self.new result (name_at text.now lexeme.from lexeme.past ∷ []) [] }
        ensures same { SameWords self.old self.new }
    {
        let placed = self.place(text, ids, lexeme);
        Ids {
            names: placed.names,
            nonterminals: number(self.lefts, placed.number, ids.nonterminals),
            ..ids
        }
    }

    // A name of a TOKEN list.
    fn declare(&mut self, text: &[u8], ids: Ids, lexeme: Lexeme) -> Ids
        requires ready { Ready text.now self.old ids }
        requires within { Within text.now lexeme.from lexeme.past }
        ensures enters { Enters text.now self.old ids self.new result [] (name_at text.now lexeme.from lexeme.past ∷ []) }
        ensures same { SameWords self.old self.new }
    {
        let placed = self.place(text, ids, lexeme);
        let word = Ids::LITERALS + placed.number;
        Ids {
            names: placed.names,
            terminals: number(self.tokens, word, ids.terminals),
            ..ids
        }
    }

    // A literal of a TOKEN list or of a body.
    fn quote(&mut self, text: &[u8], ids: Ids, lexeme: Lexeme) -> Ids
        requires ready { Ready text.now self.old ids }
        requires within { Within text.now lexeme.from lexeme.past }
        ensures enters { Enters text.now self.old ids self.new result [] (record { id = quoted (get_or text.now (lexeme.from + 1) 0); at = lexeme.from } ∷ []) }
        ensures same { SameWords self.old self.new }
    {
        let word = byte(text, lexeme.from + 1);
        Ids {
            terminals: number(self.tokens, word, ids.terminals),
            ..ids
        }
    }

    // What a word says is entered.
    fn enter(&mut self, text: &[u8], ids: Ids, token: Token) -> Ids
        requires ready { Ready text.now self.old ids }
        requires within { Within text.now token.lexeme.from token.lexeme.past }
        requires no_quote { NoQuote (mode_of token.mode) token.lexeme.word }
        ensures enters { Enters text.now self.old ids self.new result (joined left_side (events_of token.what (id_at text.now token.lexeme.word token.lexeme.from token.lexeme.past) token.lexeme.from token.lexeme.past)) (joined token_use (events_of token.what (id_at text.now token.lexeme.word token.lexeme.from token.lexeme.past) token.lexeme.from token.lexeme.past)) }
        ensures same { SameWords self.old self.new }
    {
        match (token.lexeme.word, token.what) {
            (Word::Name, Saying::Lists) => self.declare(text, ids, token.lexeme),
            (Word::Name, Saying::Defines) => self.define(text, ids, token.lexeme),
            (Word::Literal, Saying::Lists | Saying::Uses) => self.quote(text, ids, token.lexeme),
            _ => ids,
        }
    }

    // What a text of the grammar says is entered, where no id is yet.
    fn enter_text(&mut self, text: &[u8]) -> Ids
        requires { Fresh text.now self.old.starts.now self.old.pasts.now self.old.ix.now self.old.lefts.now self.old.tokens.now × (is_grammar_text text.now ≡ true) }
        ensures named { Named text.now self.new.starts.now self.new.pasts.now self.new.ix.now self.new.lefts.now self.new.tokens.now result }
        ensures same { SameWords self.old self.new }
    {
        let mut ids = Ids::default();
        for token in TokenIter::new(text) {
            ids = self.enter(text, ids, token);
        }
        ids
    }
}
