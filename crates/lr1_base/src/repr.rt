// Kinds of number, kept apart as in the Rust, and the productions of a table in a fixed number of words (specs/repr/Packed).

mod productions;
mod refusals;

ghost use Rattle.std.specs.Prelude.{◌≡◌, true, false, ◌++◌, ◌+◌, ◌*◌, ◌<◌, length, get_or};
ghost use Rattle.lr1_base.specs.repr.Sizes.{nonterminal_limit, terminal_limit};
ghost use Rattle.lr1_base.specs.repr.Listed.{symbol_of_kind, symbol_is_fit, list_is_fit};
ghost use Rattle.lr1_base.specs.repr.Symbols.{meant};
ghost use Rattle.lr1_base.specs.repr.Packed.{Packed};

pub use self::productions::Grammar;
pub use self::refusals::Refusal;

// The number of a nonterminal.
#[derive(Clone, Copy, PartialEq, Eq)]
pub struct NonterminalString(pub u16);

impl NonterminalString {
    pub const LIMIT: usize = 32;
}

// The number of a production.
#[derive(Clone, Copy, PartialEq, Eq)]
pub struct ProductionIndex(pub u16);

impl ProductionIndex {
    pub const LIMIT: usize = 128;
    // Symbols of one production, and places of a cursor among them.
    pub const SYMBOLS: usize = 16;

    pub const INDEXES: usize = ProductionIndex::SYMBOLS + 1;

    // Words of one production before its symbols, of one, and of all.
    pub const HEAD: usize = 4;

    pub const WORDS: usize = ProductionIndex::HEAD + Symbol::WORDS * ProductionIndex::SYMBOLS;

    pub const ALL_WORDS: usize = ProductionIndex::LIMIT * ProductionIndex::WORDS;
}

// The number of a state.
#[derive(Clone, Copy, PartialEq, Eq)]
pub struct StateIndex(pub u16);

impl StateIndex {
    pub const LIMIT: usize = 128;
}

// A symbol of the grammar, in the Rust's order.
#[derive(Clone, Copy, PartialEq, Eq)]
pub enum Symbol {
    Nonterminal(NonterminalString),
    Terminal(u16),
}

impl Symbol {
    // Terminals of a table at most; a nonterminal's limit is `NonterminalString::LIMIT`.
    pub const TERMINALS: usize = 63;

    // All symbols, the terminals behind the nonterminals.
    pub const LIMIT: usize = NonterminalString::LIMIT + Symbol::TERMINALS;

    // Words of a symbol, as lists have them: its kind and its number.
    pub const WORDS: usize = 2;

    // Here and in `words` methods and no `From`: kind and number come and go as two words of a longer list.
    // The symbol of its two words. That a kind is 0 or 1 is asked where a list is lent (`list_fits`).
    #[tactic(auto, unfolding(crate::specs::repr::Listed::symbol_of_kind))]
    pub fn of(kind: u16, number: u16) -> Symbol
        ensures { meant result ≡ symbol_of_kind kind number }
    {
        match kind {
            0 => Symbol::Nonterminal(NonterminalString(number)),
            _ => Symbol::Terminal(number),
        }
    }

    // Its two words.
    #[tactic(auto, unfolding(crate::specs::repr::Listed::symbol_of_kind))]
    pub fn words(self) -> (u16, u16)
        ensures { (symbol_of_kind result.0 result.1 ≡ meant self) × (result.0 < 2) }
    {
        match self {
            Symbol::Nonterminal(nonterminal) => (0, nonterminal.0),
            Symbol::Terminal(terminal) => (1, terminal),
        }
    }
}

// The symbols of a list in words, kind and number each, one after the other.
#[derive(Clone, Copy)]
pub struct SymbolIter<'a> {
    pub words: &'a [u16],
    pub ghost fits: { list_is_fit nonterminal_limit terminal_limit words.now ≡ true },
}

impl<'a> Iterator for SymbolIter<'a> {
    ghost use Rattle.std.specs.Iterator.{YieldsFirstBy, item_count};
    ghost use Rattle.lr1_base.specs.repr.Listed.{listed};

    type Item = Symbol;

    ghost next_gives = { YieldsFirstBy meant (λ s. listed s.words.now) };

    ghost remaining = { item_count (λ s. listed s.words.now) };

    fn next(&mut self) -> Option<Symbol> {
        match self.words {
            [kind, number, rest @ ..] => {
                self.words = rest;
                Some(Symbol::of(*kind, *number))
            }
            _ => None,
        }
    }
}

// A word of a list, as a number.
pub fn word(words: &[u16], at: usize) -> usize
    requires { at < length words.now }
    ensures { (result ≡ get_or words.now at 0) × (result < 65536) }
{
    words[at] as usize
}

// `n` and `t` are two numbers here and below: what holds both, `Counts` of crate table, holds those of states and productions too, which a list is not asked by.
// Whether a symbol is in range, of n nonterminals and t terminals. Kind and number are any two words: that they are a symbol is what is asked.
pub fn symbol_fits(n: usize, t: usize, kind: usize, number: usize) -> bool
    ensures { result ≡ symbol_is_fit n t kind number }
{
    match kind {
        0 => number < n,
        1 => number < t,
        _ => false,
    }
}

// Whether a list holds whole symbols, each in range.
pub fn list_fits(n: usize, t: usize, list: &[u16]) -> bool
    ensures { result ≡ list_is_fit n t list.now }
{
    list.len() % Symbol::WORDS == 0
        && list.chunks_exact(Symbol::WORDS).all(|symbol| symbol_fits(
            n,
            t,
            symbol[0] as usize,
            symbol[1] as usize,
        ))
}

// The same of two lists joined. Where the first is odd, a symbol begins with its last word and ends with the other's first.
// `first0_joined` of crate first and `walk_joined` of state_graph split two lists alike. What they do with the three parts differs (they are tested, their FIRST sets are joined in order, a walk goes over them from the last), so that one function for all would take a closure and be no shorter.
pub fn joined_fits(n: usize, t: usize, xs: &[u16], ys: &[u16]) -> bool
    ensures { result ≡ list_is_fit n t (xs.now ++ ys.now) }
{
    if xs.len() % Symbol::WORDS == 0 {
        return list_fits(n, t, xs) && list_fits(n, t, ys);
    }
    if ys.is_empty() {
        return false;
    }
    let last = xs.len() - 1;
    list_fits(n, t, &xs[..last])
        && symbol_fits(n, t, word(xs, last), word(ys, 0))
        && list_fits(n, t, &ys[1..])
}
