// The productions of a table in a fixed number of words (specs/repr/Packed), as the code works on them.

ghost use Rattle.std.specs.Prelude.{◌≡◌, suc, ◌+◌, ◌≤◌, ◌<◌, ◌∷◌, length, get_or, drop};
ghost use Rattle.lr1_base.specs.repr.Sizes.{production_place};
ghost use Rattle.lr1_base.specs.repr.Listed.{listed};
ghost use Rattle.lr1_base.specs.repr.Symbols.{meant, IsInRange};
ghost use Rattle.lr1_base.specs.repr.Packed.{Packed, symbol_words};

use crate::repr::{ProductionIndex, Symbol, word};

// The productions, packed: numbers are in range, and no production is too long. Words of a fixed number, and how many productions stand in them: there is no heap.
#[derive(Clone, Copy)]
pub struct Grammar<'a> {
    pub words: &'a [u16],
    pub productions: usize,
    pub ghost packed: { Packed words.now productions },
}

// Which production is asked is a number, and that there is such a one is asked at each call: a type for it would have to hold the grammar.
impl<'a> Grammar<'a> {
    // A production's nonterminal.
    pub fn owner(self, production: usize) -> usize
        requires { production < self.productions }
        ensures { result ≡ get_or self.entry.words.now (production_place production) 0 }
    {
        word(self.words, production * ProductionIndex::WORDS)
    }

    // How many symbols a production has.
    pub fn length(self, production: usize) -> usize
        requires { production < self.productions }
        ensures is { result ≡ length (listed (symbol_words self.entry.words.now production)) }
        ensures short { result ≤ 16 }
    {
        word(self.words, production * ProductionIndex::WORDS + 1)
    }

    // A production's symbols, as a part of the packed words.
    pub fn symbols(self, production: usize) -> &'a [u16]
        requires { production < self.productions }
        ensures { result.now ≡ symbol_words self.entry.words.now production }
    {
        let from = production * ProductionIndex::WORDS + ProductionIndex::HEAD;
        let past = from + Symbol::WORDS * self.length(production);
        &self.words[from..past]
    }

    // Symbol `index` of a production: what is left of the symbols from there on begins with it.
    pub fn symbol(self, production: usize, index: usize) -> Symbol
        requires within { production < self.productions }
        requires index_in_bounds { index < length (listed (symbol_words self.words.now production)) }
        ensures is { drop index (listed (symbol_words self.entry.words.now production)) ≡ meant result ∷ drop (suc index) (listed (symbol_words self.entry.words.now production)) }
        ensures in_range { IsInRange result }
    {
        let at = production * ProductionIndex::WORDS
            + ProductionIndex::HEAD
            + Symbol::WORDS * index;
        Symbol::of(self.words[at], self.words[at + 1])
    }

    // Where a production stands in its text, up to where.
    pub fn span(self, production: usize) -> (u16, u16)
        requires { production < self.productions }
        ensures { (result.0 ≡ get_or self.entry.words.now (production_place production + 2) 0) × (result.1 ≡ get_or self.entry.words.now (production_place production + 3) 0) }
    {
        let at = production * ProductionIndex::WORDS + 2;
        (self.words[at], self.words[at + 1])
    }
}
