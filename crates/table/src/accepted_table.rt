// An accepted table: what the check answered is kept in the type, and reading it asks for nothing more.

ghost use Rattle.std.specs.Prelude.{◌≡◌, [], ◌+◌, ◌≤◌, ◌<◌, length, get_or};
ghost use Rattle.lr1_base.specs.repr.Sizes.{record_limit, grammar_room};
ghost use Rattle.lr1_base.specs.repr.Meaning.{state_at, production_at};
ghost use Rattle.lr1_base.specs.repr.Packed.{Packed, productions_in};
ghost use Rattle.table.specs.Words.{records, state_area, production_area};
ghost use Rattle.table.specs.Checked.{Accepted};
ghost use Rattle.table.specs.Decoded.{meaning, items_from, edges_from, productions_from};
ghost use Rattle.table.specs.Refusals.{check_of};
ghost use Rattle.table.specs.Index.{CountsOf, ItemIndex, EdgeIndex, ProductionHead, ItemRead, EdgeRead, ProductionRead};
ghost use Rattle.table.specs.Written.{symbols_from, SymbolIndex, SymbolRead, OwnerStored, OwnersIn, SymbolsStored, ProductionStored};

use crate::{
    Counts, EdgeIter, EdgeRecord, ItemIter, ItemRecord, ProductionIter, ProductionRecord,
    RECORD_WORDS, word,
};
use lr1_base::repr::{Grammar, ProductionIndex, Symbol};

// A symbol, its kind and number as they are copied into packed words, and the index of the next.
#[derive(Clone, Copy)]
struct SymbolRecord {
    next: usize,
    kind: usize,
    number: usize,
}

// The words of a table that rows 1 to 8 let through.
#[derive(Clone, Copy)]
pub struct AcceptedTable<'a> {
    pub words: &'a [u16],
    pub ghost accepted: { check_of words.now ≡ Accepted },
}

// Which state, nonterminal, production or record is asked is a number, and that there is such a one is asked at each call: a type for it would have to hold the table.
// The methods that read a head, and those that read a record, are alike but for a word's number: each promises the list that the chain from there on is, which one for all would not say.
impl<'a> AcceptedTable<'a> {
    // How many records.
    pub fn records(self) -> usize
        ensures is { result ≡ records self.entry.words.now }
        ensures few { result ≤ record_limit }
    {
        self.words.len() / RECORD_WORDS
    }

    pub fn counts(self) -> Counts
        ensures { CountsOf (meaning self.entry.words.now) result.nonterminals result.terminals result.states result.productions }
    {
        Counts::of(self.words)
    }

    // A state's record.
    fn state_record(self, state: usize) -> usize
        requires { state < length (meaning self.words.now).states }
        ensures { result ≡ state_area self.entry.words.now + state }
    {
        self.counts().states_at() + state
    }

    // A production's record.
    fn production_record(self, production: usize) -> usize
        requires { production < length (meaning self.words.now).productions }
        ensures { result ≡ production_area self.entry.words.now + production }
    {
        self.counts().productions_at() + production
    }

    // The index of a state's first item.
    pub fn first_item(self, state: usize) -> usize
        requires { state < length (meaning self.words.now).states }
        ensures items { items_from self.entry.words.now result ≡ (state_at (meaning self.entry.words.now) state).items }
        ensures on { ItemIndex self.entry.words.now result }
    {
        word(self.words, self.state_record(state), 0)
    }

    pub fn item(self, at: usize) -> ItemRecord
        requires some { at ≡ 0 → ⊥ }
        requires on { ItemIndex self.words.now at }
        ensures read { ItemRead self.entry.words.now at result.next result.production result.index }
        ensures at { result.at ≡ at }
    {
        ItemRecord {
            at,
            next: word(self.words, at, 0),
            production: word(self.words, at, 1),
            index: word(self.words, at, 2),
        }
    }

    // A state's items.
    pub fn items(self, state: usize) -> ItemIter<'a>
        requires { state < length (meaning self.words.now).states }
        ensures { (result.table.words.now ≡ self.entry.words.now) × (items_from self.entry.words.now result.at ≡ (state_at (meaning self.entry.words.now) state).items) }
    {
        ItemIter {
            table: self,
            at: self.first_item(state),
        }
    }

    // The index of a state's first edge.
    pub fn first_edge(self, state: usize) -> usize
        requires { state < length (meaning self.words.now).states }
        ensures edges { edges_from self.entry.words.now result ≡ (state_at (meaning self.entry.words.now) state).edges }
        ensures on { EdgeIndex self.entry.words.now result }
    {
        word(self.words, self.state_record(state), 1)
    }

    pub fn edge(self, at: usize) -> EdgeRecord
        requires some { at ≡ 0 → ⊥ }
        requires on { EdgeIndex self.words.now at }
        ensures { EdgeRead self.entry.words.now at result.next result.kind result.number result.target }
    {
        EdgeRecord {
            next: word(self.words, at, 0),
            kind: word(self.words, at, 1),
            number: word(self.words, at, 2),
            target: word(self.words, at, 3),
        }
    }

    // A state's edges.
    pub fn edges(self, state: usize) -> EdgeIter<'a>
        requires { state < length (meaning self.words.now).states }
        ensures { (result.table.words.now ≡ self.entry.words.now) × (edges_from self.entry.words.now result.at ≡ (state_at (meaning self.entry.words.now) state).edges) }
    {
        EdgeIter {
            table: self,
            at: self.first_edge(state),
        }
    }

    // The index of a nonterminal's first production.
    pub fn first_production(self, nonterminal: usize) -> usize
        requires { nonterminal < length (meaning self.words.now).nonterminals }
        ensures productions { productions_from self.entry.words.now result ≡ get_or (meaning self.entry.words.now).nonterminals nonterminal [] }
        ensures on { ProductionHead self.entry.words.now result }
    {
        word(self.words, 1 + nonterminal, 0)
    }

    pub fn production(self, at: usize) -> ProductionRecord
        requires some { at ≡ 0 → ⊥ }
        requires on { ProductionHead self.words.now at }
        ensures { ProductionRead self.entry.words.now at result.next result.production }
    {
        ProductionRecord {
            next: word(self.words, at, 0),
            production: at - self.counts().productions_at(),
        }
    }

    // A nonterminal's productions.
    pub fn productions(self, nonterminal: usize) -> ProductionIter<'a>
        requires { nonterminal < length (meaning self.words.now).nonterminals }
        ensures { (result.table.words.now ≡ self.entry.words.now) × (productions_from self.entry.words.now result.at ≡ get_or (meaning self.entry.words.now).nonterminals nonterminal []) }
    {
        ProductionIter {
            table: self,
            at: self.first_production(nonterminal),
        }
    }

    // The index of a production's first symbol.
    fn first_symbol(self, production: usize) -> usize
        requires { production < length (meaning self.words.now).productions }
        ensures { (symbols_from self.entry.words.now result ≡ (production_at (meaning self.entry.words.now) production).symbols) × SymbolIndex self.entry.words.now result }
    {
        word(self.words, self.production_record(production), 1)
    }

    fn symbol(self, at: usize) -> SymbolRecord
        requires { (at ≡ 0 → ⊥) × SymbolIndex self.words.now at }
        ensures { SymbolRead self.entry.words.now at result.next result.kind result.number }
    {
        SymbolRecord {
            next: word(self.words, at, 0),
            kind: word(self.words, at, 1),
            number: word(self.words, at, 2),
        }
    }

    // Stores a nonterminal's number in each of its productions.
    fn read_owner(self, grammar: &mut [u16], nonterminal: usize)
        requires { (length grammar.old ≡ grammar_room) × (nonterminal < length (meaning self.words.now).nonterminals) }
        ensures { OwnerStored self.entry.words.now grammar.old grammar.new nonterminal }
    {
        for read in self.productions(nonterminal) {
            let owned = read.production;
            grammar[owned * ProductionIndex::WORDS] = nonterminal as u16;
        }
    }

    // Stores in each production its nonterminal's number.
    fn read_owners(self, grammar: &mut [u16])
        requires { length grammar.old ≡ grammar_room }
        ensures { OwnersIn (meaning self.entry.words.now) grammar.new }
    {
        for n in 0..self.counts().nonterminals {
            self.read_owner(grammar, n);
        }
    }

    // Stores a production's symbols, and returns how many they are. `RecordIter` of module spelling of table_rewrite, above, says of a chain what records it has; here they are symbols.
    fn store_symbols(self, grammar: &mut [u16], production: usize) -> usize
        requires { (length grammar.old ≡ grammar_room) × (production < length (meaning self.words.now).productions) }
        ensures { SymbolsStored self.entry.words.now grammar.old grammar.new production result }
    {
        let mut at = self.first_symbol(production);
        let mut count: usize = 0;
        while at != 0 {
            let read = self.symbol(at);
            let put = production * ProductionIndex::WORDS
                + ProductionIndex::HEAD
                + Symbol::WORDS * count;
            grammar[put] = read.kind as u16;
            grammar[put + 1] = read.number as u16;
            count += 1;
            at = read.next;
        }
        count
    }

    // Stores a production's symbols, their number and its span.
    fn read_symbols_of(self, grammar: &mut [u16], production: usize)
        requires { (length grammar.old ≡ grammar_room) × (production < length (meaning self.words.now).productions) }
        ensures { ProductionStored self.entry.words.now grammar.old grammar.new production }
    {
        let count = self.store_symbols(grammar, production);
        let record = self.production_record(production);
        let start = word(self.words, record, 2);
        let end = word(self.words, record, 3);
        let base = production * ProductionIndex::WORDS;
        grammar[base + 1] = count as u16;
        grammar[base + 2] = start as u16;
        grammar[base + 3] = end as u16;
    }

    // Stores each production's symbols and span. It reads like `read_owners`; one of both would take a closure that writes, which is no plainer.
    fn read_symbols(self, grammar: &mut [u16])
        requires { OwnersIn (meaning self.words.now) grammar.old }
        ensures { Packed grammar.new (length (meaning self.entry.words.now).productions) × (productions_in grammar.new (length (meaning self.entry.words.now).productions) ≡ (meaning self.entry.words.now).productions) }
    {
        for p in 0..self.counts().productions {
            self.read_symbols_of(grammar, p);
        }
    }

    // Writes the productions into words, as specs/repr/Packed of lr1_base has them: a slice here and above, since the words may be a part of a lent scratch (examples::prepare).
    pub fn read_productions(self, grammar: &mut [u16])
        requires { length grammar.old ≡ grammar_room }
        ensures { Packed grammar.new (length (meaning self.entry.words.now).productions) × (productions_in grammar.new (length (meaning self.entry.words.now).productions) ≡ (meaning self.entry.words.now).productions) }
    {
        self.read_owners(grammar);
        self.read_symbols(grammar);
    }

    // The productions, packed into words that are lent for them.
    pub fn read_grammar<'b>(self, words: &'b mut [u16; ProductionIndex::ALL_WORDS]) -> Grammar<'b>
        ensures { (result.productions ≡ length (meaning self.entry.words.now).productions) × (productions_in result.words.now result.productions ≡ (meaning self.entry.words.now).productions) }
    {
        self.read_productions(words);
        Grammar {
            words,
            productions: self.counts().productions,
        }
    }
}
