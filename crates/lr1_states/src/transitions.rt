// Taking a state: its edges over all symbols, nonterminals first and ascending (specs/transitions/Taking).

ghost use Rattle.std.specs.Prelude.{OnErr, ◌≡◌, [], ℕ, ◌+◌, ◌*◌, ◌≤◌, ◌<◌, length, get_or, set};
ghost use Rattle.lr1_base.specs.repr.Sizes.{item_limit, state_limit};
ghost use Rattle.lr1_base.specs.repr.Symbols.{meant, IsInRange};
ghost use Rattle.lr1_base.specs.item.Cursor.{symbol_code};
ghost use Rattle.lr1_states.specs.canonical.States.{tried};
ghost use Rattle.lr1_states.specs.goto.Steps.{goto_to, take_to};
ghost use Rattle.lr1_states.specs.goto.Search.{Search, IsOneOf};
ghost use Rattle.lr1_states.specs.transitions.Taking.{edge_of, Tried, TakenAs};

use crate::goto::{Halt, Source, goto_over};
use crate::state_list::Begins;
use lr1_base::repr::{NonterminalString, Symbol};

// An edge found: the symbol that it is over, and the state that it leads to.
#[derive(Clone, Copy)]
pub struct FoundEdge {
    pub symbol: Symbol,
    pub target: usize,
}

impl FoundEdge {
    // As one word: its symbol in one number, terminals behind the nonterminals, then the target. No `From`, as it asks for range, and the way back stands beside it.
    #[tactic(auto, unfolding(lr1_base::specs::item::Cursor::symbol_code))]
    fn word(self) -> u16
        requires { IsInRange self.symbol × (self.target < state_limit) }
        ensures { result ≡ symbol_code (meant self.symbol) * state_limit + self.target }
    {
        let number = match self.symbol {
            Symbol::Nonterminal(nonterminal) => nonterminal.0 as usize,
            Symbol::Terminal(terminal) => NonterminalString::LIMIT + terminal as usize,
        };
        (number * Begins::STATES + self.target) as u16
    }

    // The edge of a word.
    #[tactic(auto, unfolding(crate::specs::transitions::Taking::edge_of, crate::specs::transitions::Taking::symbol_of_code))]
    pub fn of(word: u16) -> FoundEdge
        ensures { record { symbol = meant result.symbol; target = result.target } ≡ edge_of word }
    {
        let number = usize::from(word) / Begins::STATES;
        let symbol = if number < NonterminalString::LIMIT {
            Symbol::Nonterminal(NonterminalString(number as u16))
        } else {
            Symbol::Terminal((number - NonterminalString::LIMIT) as u16)
        };
        FoundEdge {
            symbol,
            target: usize::from(word) % Begins::STATES,
        }
    }
}

// The edges found, one word each, and how many there are: room for one of each state over each symbol, since there is no heap.
#[derive(Clone, Copy)]
pub struct EdgeList {
    pub words: [u16; EdgeList::LIMIT],
    pub many: usize,
    pub ghost long: { length words ≡ 12160 },
}

impl EdgeList {
    // Symbols of a table at most.
    const SYMBOLS: usize = Symbol::LIMIT;

    pub const LIMIT: usize = Begins::STATES * EdgeList::SYMBOLS;

    // Without edges.
    pub fn new() -> EdgeList
        ensures { result.many ≡ 0 }
    {
        EdgeList {
            words: [0; EdgeList::LIMIT],
            many: 0,
        }
    }

    // One behind the others.
    fn push(&mut self, edge: FoundEdge)
        requires { (self.old.many < 12160) × IsInRange edge.symbol × (edge.target < state_limit) }
        ensures { (self.new.many ≡ self.old.many + 1) × (self.new.words ≡ set self.old.words self.old.many (symbol_code (meant edge.symbol) * state_limit + edge.target)) }
    {
        self.words[self.many] = edge.word();
        self.many += 1;
    }
}

// The edges of all states, and where those of each begin. Taking a state asks for the list alone.
#[derive(Clone, Copy)]
pub struct Edges {
    pub list: EdgeList,
    pub rows: [usize; Begins::ROWS],
    pub ghost long: { length rows ≡ 129 },
}

impl Edges {
    // Without edges.
    pub fn new() -> Edges
        ensures { (result.list.many ≡ 0) × ((k : ℕ) → get_or result.rows k 0 ≡ 0) }
    {
        Edges {
            list: EdgeList::new(),
            rows: [0; Begins::ROWS],
        }
    }

    // Where the edges of state k begin and end.
    pub fn span(&self, k: usize) -> (usize, usize)
        requires { k < state_limit }
        ensures { (result.0 ≡ get_or self.now.rows k 0) × (result.1 ≡ get_or self.now.rows (k + 1) 0) }
    {
        (self.rows[k], self.rows[k + 1])
    }
}

// One symbol tried, its edge behind the others.
fn take_one(
    source: Source,
    words: &mut [u16],
    begins: &mut Begins,
    k: usize,
    symbol: Symbol,
    kernel: &mut [u16],
    edges: &mut EdgeList,
) -> Result<(), Halt>
    requires search { Search source words.old begins.old.items begins.old.states }
    requires k_lt_states { (k < begins.old.states) × IsOneOf source.sizes.nonterminals source.sets.now.terminals (meant symbol) × (item_limit * 5 ≤ length kernel.old) × (edges.old.many < 12160) }
    ensures { (length kernel.new ≡ length kernel.old) × ((s : Search source.entry words.old begins.old.items begins.old.states) → Tried s.T s.start s.Rs (goto_to s.T s.room (get_or s.Rs k []) s.Rs (meant symbol)) (symbol_code (meant symbol)) words.new begins.new.items edges.old.words edges.new.words edges.old.many begins.new.states edges.new.many result) }
{
    if let Some(target) = goto_over(source, words, begins, k, symbol, kernel)? {
        edges.push(FoundEdge { symbol, target });
    }
    Ok(())
}

// Every symbol tried.
fn take_symbols(
    source: Source,
    words: &mut [u16],
    begins: &mut Begins,
    k: usize,
    kernel: &mut [u16],
    edges: &mut EdgeList,
) -> Result<(), Halt>
    requires search { Search source words.old begins.old.items begins.old.states }
    requires k_lt_found { (k < begins.old.states) × (item_limit * 5 ≤ length kernel.old) × (edges.old.many + 95 ≤ 12160) }
    ensures { (length kernel.new ≡ length kernel.old) × ((s : Search source.entry words.old begins.old.items begins.old.states) → TakenAs s.T s.start s.Rs (take_to s.T s.room (get_or s.Rs k []) s.Rs (tried s.T)) words.new begins.new.items edges.old.words edges.new.words edges.old.many begins.new.states edges.new.many result) }
{
    for n in 0..source.sizes.nonterminals {
        let symbol = Symbol::Nonterminal(NonterminalString(n as u16));
        take_one(source, words, begins, k, symbol, kernel, edges)?;
    }
    for terminal in 0..source.sets.terminals {
        let symbol = Symbol::Terminal(terminal);
        take_one(source, words, begins, k, symbol, kernel, edges)?;
    }
    Ok(())
}

// State k taken. Where it halts, there are as many states and edges as before.
pub fn take_state(
    source: Source,
    words: &mut [u16],
    begins: &mut Begins,
    k: usize,
    kernel: &mut [u16],
    edges: &mut EdgeList,
) -> Result<(), Halt>
    requires search { Search source words.old begins.old.items begins.old.states }
    requires k_lt_found { (k < begins.old.states) × (item_limit * 5 ≤ length kernel.old) × (edges.old.many + 95 ≤ 12160) }
    ensures { (length kernel.new ≡ length kernel.old) × OnErr result ((begins.new.states ≡ begins.old.states) × (edges.new.many ≡ edges.old.many)) × ((s : Search source.entry words.old begins.old.items begins.old.states) → TakenAs s.T s.start s.Rs (take_to s.T s.room (get_or s.Rs k []) s.Rs (tried s.T)) words.new begins.new.items edges.old.words edges.new.words edges.old.many begins.new.states edges.new.many result) }
{
    let states = begins.states;
    let many = edges.many;
    match take_symbols(source, words, begins, k, kernel, edges) {
        Ok(()) => Ok(()),
        Err(halt) => {
            begins.states = states;
            edges.many = many;
            Err(halt)
        }
    }
}
