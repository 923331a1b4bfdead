// Items and their symbol sets (lr1/core/mod.rs). An item is a production and an index; its symbols are parts of the packed words (specs/repr/Packed).

ghost use Rattle.std.specs.Prelude.{◌≡◌, ℕ, suc, ◌+◌, ◌*◌, ◌/◌, ◌%◌, ◌<◌, ◌≤◌, false, List, [], ◌∷◌, MatchOption, length, take, drop, ◌==◌, nat_lt};
ghost use Rattle.lr1_base.specs.repr.Sizes.{production_limit, index_limit, item_limit};
ghost use Rattle.lr1_base.specs.repr.Listed.{listed};
ghost use Rattle.lr1_base.specs.repr.Packed.{Packed, symbol_words};
ghost use Rattle.lr1_base.specs.repr.Symbols.{meant, IsInRange};
ghost use Rattle.lr1_base.specs.item.Items.{no_sets, symbol_sets, counts, counts_of, shifts_nonterminal, sets_in};

use crate::repr::{Grammar, ProductionIndex, Symbol};

// The number of symbols before the cursor, at it and after it: its readers want these alone, the symbols are `prefix` and `suffix`.
#[derive(Clone, Copy)]
pub struct SymbolSets {
    pub prefix: usize,
    pub cursor: usize,
    pub suffix: usize,
}

impl SymbolSets {
    // The empty sets: `new` as in the Rust, with a contract that a derived `Default` would not have.
    pub fn new() -> SymbolSets
        ensures by_index { (ws : List ℕ) → sets_in ws result.prefix result.cursor result.suffix ≡ no_sets }
        ensures suffix_value { counts result.prefix result.cursor result.suffix ≡ counts_of no_sets }
    {
        SymbolSets {
            prefix: 0,
            cursor: 0,
            suffix: 0,
        }
    }
}

// An item: the cursor stands before symbol `index`.
#[derive(Clone, Copy)]
pub struct Item {
    pub production: usize,
    pub index: usize,
}

// The grammar is given to each method, as an item is stored and compared without one: what holds of both is asked at each call.
impl Item {
    // Items of all productions.
    pub const LIMIT: usize = ProductionIndex::LIMIT * ProductionIndex::INDEXES;

    // Words of 64 flags, one flag for each of them.
    pub const FLAG_WORDS: usize = Item::LIMIT / 64;

    // The item of a production's number and an index.
    pub fn of(production: ProductionIndex, index: u16) -> Item
        ensures { (result.production ≡ production.0) × (result.index ≡ index) }
    {
        Item {
            production: production.0 as usize,
            index: index as usize,
        }
    }

    // Its place among all items: those of each production one behind the other.
    pub fn place(self) -> usize
        requires { (self.production < production_limit) × (self.index < index_limit) }
        ensures is { result ≡ self.production * index_limit + self.index }
        ensures within { result < item_limit }
    {
        self.production * ProductionIndex::INDEXES + self.index
    }

    // The item of a place.
    pub fn at(place: usize) -> Item
        ensures { (result.production ≡ place / index_limit) × (result.index ≡ place % index_limit) }
    {
        Item {
            production: place / ProductionIndex::INDEXES,
            index: place % ProductionIndex::INDEXES,
        }
    }

    // How many symbols the production has.
    pub fn length(self, grammar: Grammar) -> usize
        requires { self.production < grammar.productions }
        ensures { (result ≡ length (listed (symbol_words grammar.entry.words.now self.production))) × (result ≤ 16) }
    {
        grammar.length(self.production)
    }

    pub fn can_shift(self, grammar: Grammar) -> bool
        requires { self.production < grammar.productions }
        ensures { result ≡ nat_lt self.index (length (listed (symbol_words grammar.entry.words.now self.production))) }
    {
        self.index < self.length(grammar)
    }

    pub fn can_reduce(self, grammar: Grammar) -> bool
        requires { self.production < grammar.productions }
        ensures { result ≡ (self.index == length (listed (symbol_words grammar.entry.words.now self.production))) }
    {
        self.index == self.length(grammar)
    }

    pub fn symbol_sets(self, grammar: Grammar) -> SymbolSets
        requires within { self.production < grammar.productions }
        requires index_in_bounds { self.index ≤ length (listed (symbol_words grammar.words.now self.production)) }
        ensures suffix_value { sets_in (symbol_words grammar.entry.words.now self.production) result.prefix result.cursor result.suffix ≡ symbol_sets (listed (symbol_words grammar.entry.words.now self.production)) self.index }
        ensures suffix_value_2 { counts result.prefix result.cursor result.suffix ≡ counts_of (symbol_sets (listed (symbol_words grammar.entry.words.now self.production)) self.index) }
    {
        let length = self.length(grammar);
        let index = self.index;
        if index < length {
            SymbolSets {
                prefix: index,
                cursor: 1,
                suffix: length - index - 1,
            }
        } else {
            SymbolSets {
                prefix: index,
                cursor: 0,
                suffix: 0,
            }
        }
    }

    // The symbol at the cursor, none at the end: what is left of the symbols from the cursor on begins with it.
    pub fn cursor(self, grammar: Grammar) -> Option<Symbol>
        requires { self.production < grammar.productions }
        ensures { let left = drop self.index (listed (symbol_words grammar.entry.words.now self.production)) in MatchOption result (left ≡ []) (λ s. (left ≡ meant s ∷ drop (suc self.index) (listed (symbol_words grammar.entry.words.now self.production))) × IsInRange s) }
    {
        if self.can_shift(grammar) {
            Some(grammar.symbol(self.production, self.index))
        } else {
            None
        }
    }

    // By a match and not `==` with a symbol: `nonterminal` is any number, and a symbol's is a `u16`.
    pub fn can_shift_nonterminal(self, grammar: Grammar, nonterminal: usize) -> bool
        requires { self.production < grammar.productions }
        ensures { result ≡ shifts_nonterminal (listed (symbol_words grammar.entry.words.now self.production)) self.index nonterminal }
    {
        match self.cursor(grammar) {
            Some(Symbol::Nonterminal(n)) => n.0 as usize == nonterminal,
            Some(Symbol::Terminal(_)) => false,
            None => false,
        }
    }

    // The symbols before the cursor.
    pub fn prefix<'a>(self, grammar: Grammar<'a>) -> &'a [u16]
        requires within { self.production < grammar.productions }
        requires index_in_bounds { self.index ≤ length (listed (symbol_words grammar.words.now self.production)) }
        ensures { (result.now ≡ take (2 * self.index) (symbol_words grammar.entry.words.now self.production)) × (listed result.now ≡ (symbol_sets (listed (symbol_words grammar.entry.words.now self.production)) self.index).prefix) }
    {
        let symbols = grammar.symbols(self.production);
        &symbols[..Symbol::WORDS * self.index]
    }

    // The symbols after the cursor.
    pub fn suffix<'a>(self, grammar: Grammar<'a>) -> &'a [u16]
        requires within { self.production < grammar.productions }
        requires index_in_bounds { self.index ≤ length (listed (symbol_words grammar.words.now self.production)) }
        ensures { (result.now ≡ drop (2 * self.index + 2) (symbol_words grammar.entry.words.now self.production)) × (listed result.now ≡ (symbol_sets (listed (symbol_words grammar.entry.words.now self.production)) self.index).suffix) }
    {
        let symbols = grammar.symbols(self.production);
        let from = Symbol::WORDS * self.index + Symbol::WORDS;
        &symbols[from.min(symbols.len())..]
    }
}
