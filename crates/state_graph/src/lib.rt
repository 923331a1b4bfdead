// The walk back over edges (lr1/state_graph.rs), by sets of states.

#![tactic(auto)]

ghost use Rattle.std.specs.Prelude.{MatchOption, ◌≡◌, true, false, ◌&&◌, ◌||◌, ◌++◌, ℕ, ◌+◌, ◌*◌, ◌≤◌, ◌<◌, eqb, ltb, length, set, replicate};
ghost use Rattle.lr1_base.specs.repr.Sizes.{record_limit};
ghost use Rattle.lr1_base.specs.repr.Listed.{symbol_of_kind, symbol_is_fit, listed, list_is_fit};
ghost use Rattle.table.specs.Words.{records};
ghost use Rattle.table.specs.Decoded.{meaning};
ghost use Rattle.std.specs.Iterator.{YieldsFirstBy, item_count};
ghost use Rattle.state_graph.specs.Walk.{leads, predecessors, walked_back, traced_back};
ghost use Rattle.state_graph.specs.States.{has_state, states_in};
ghost use Rattle.state_graph.specs.Hits.{hit_words, goes_in, has_end_in, is_hit_now, Hits, SteppedTo};
ghost use Rattle.state_graph.specs.Remembered.{step_rows, step_places, Remembered};

use lr1_base::bits::{is_set, put};
use lr1_base::lookahead::TokenSet;
use lr1_base::repr;
pub use lr1_base::repr::StateIndex;
use lr1_base::repr::{NonterminalString, Symbol};
use table::{AcceptedTable, RECORDS, word};

// A set of states: 0 to 63 in `low`, 64 to 127 in `high`. Two words and no `u128`: C is handed low and high. Every operation is total: a state above 127 is not contained and not inserted.
#[derive(Clone, Copy, PartialEq, Eq)]
pub struct StateSet {
    pub low: u64,
    pub high: u64,
}

impl StateSet {
    // A bit for each record of a table, while walking back.
    pub const HIT_WORDS: usize = RECORDS / 64;

    // Steps that are remembered.
    pub const STEPS: usize = 31;

    // Two primes and two factors by which the places of steps are spread.
    const LOW_PRIME: u64 = 67;

    const HIGH_PRIME: u64 = 61;

    const LOW_FACTOR: usize = 7;

    const HIGH_FACTOR: usize = 11;

    // The empty set: as `TokenSet::new`, with a contract that a derived `Default` would not have.
    pub fn new() -> StateSet
        ensures { (k : ℕ) → has_state result.low result.high k ≡ false }
    {
        StateSet { low: 0, high: 0 }
    }

    pub fn insert(self, state: usize) -> StateSet
        ensures { (k : ℕ) → has_state result.low result.high k ≡ has_state self.low self.high k || (ltb k 128 && eqb k state) }
    {
        match state {
            0..64 => StateSet {
                low: self.low | 1 << state,
                ..self
            },
            64..StateIndex::LIMIT => StateSet {
                high: self.high | 1 << (state - 64),
                ..self
            },
            _ => self,
        }
    }

    pub fn contains(self, state: usize) -> bool
        ensures { result ≡ has_state self.low self.high state }
    {
        match state {
            0..64 => (self.low >> state) & 1 == 1,
            64..StateIndex::LIMIT => (self.high >> (state - 64)) & 1 == 1,
            _ => false,
        }
    }

    pub fn union(self, other: StateSet) -> StateSet
        ensures { (k : ℕ) → has_state result.low result.high k ≡ has_state self.low self.high k || has_state other.low other.high k }
    {
        StateSet {
            low: self.low | other.low,
            high: self.high | other.high,
        }
    }

    pub fn len(self) -> usize
        ensures { result ≡ length (states_in self.low self.high) }
    {
        TokenSet(self.low).len() + TokenSet(self.high).len()
    }

    // The states in order.
    pub fn iter(self) -> StateSetIter
        ensures { result.0 ≡ self }
    {
        StateSetIter(self)
    }
}

// The set of one state.
impl From<usize> for StateSet {
    ghost from_gives = { λ state set. (k : ℕ) → has_state set.low set.high k ≡ ltb k 128 && eqb k state };

    fn from(state: usize) -> StateSet {
        StateSet::new().insert(state)
    }
}

// What is left of a set that is gone through in order.
#[derive(Clone, Copy)]
pub struct StateSetIter(pub StateSet);

impl Iterator for StateSetIter {
    type Item = StateIndex;

    ghost next_gives = { YieldsFirstBy (λ k. k.0) (λ s. states_in s.0.low s.0.high) };

    ghost remaining = { item_count (λ s. states_in s.0.low s.0.high) };

    fn next(&mut self) -> Option<StateIndex> {
        let set = self.0;
        let mut low = TokenSet(set.low).iter();
        if let Some(state) = low.next() {
            self.0 = StateSet {
                low: low.0,
                high: set.high,
            };
            return Some(StateIndex(state));
        }
        let mut high = TokenSet(set.high).iter();
        if let Some(state) = high.next() {
            self.0 = StateSet {
                low: 0,
                high: high.0,
            };
            return Some(StateIndex(64 + state));
        }
        None
    }
}

// A step back in an accepted table: over edges by one symbol, into a set of states.
#[derive(Clone, Copy)]
struct Step<'a> {
    table: AcceptedTable<'a>,
    // As in the words of a record, which may be none of an edge.
    kind: usize,
    number: usize,
    set: StateSet,
    ghost symbol: { symbol_is_fit (length (meaning table.words.now).nonterminals) (meaning table.words.now).terminals kind number ≡ true },
}

impl Step<'_> {
    // Whether an edge by a symbol to a state goes by the symbol into the set.
    #[tactic(auto, unfolding(crate::specs::Hits::goes_in))]
    fn goes(self, kind: usize, number: usize, target: usize) -> bool
        ensures { result ≡ goes_in self.entry.kind self.entry.number self.entry.set.low self.entry.set.high kind number target }
    {
        kind == self.kind && number == self.number && self.set.contains(target)
    }

    // Whether a record does, read as an edge.
    #[tactic(auto, unfolding(crate::specs::Hits::has_end_in))]
    fn ends_in(self, r: usize) -> bool
        requires { (r < record_limit) × (r * 4 + 3 < length self.table.words.now) }
        ensures { result ≡ has_end_in self.entry.table.words.now self.entry.kind self.entry.number self.entry.set.low self.entry.set.high r }
    {
        let words = self.table.words;
        self.goes(word(words, r, 1), word(words, r, 2), word(words, r, 3))
    }

    // Whether it does, or the record after it is hit. A record that no chain reaches may hold anything, so its next index is looked at only where it keeps the rule.
    #[tactic(auto, unfolding(crate::specs::Hits::is_hit_now))]
    fn hit_now(self, hits: &[u64], r: usize) -> bool
        requires { (records self.table.words.now ≤ record_limit) × (length self.table.words.now ≡ 4 * records self.table.words.now) × (r < records self.table.words.now) × (length hits.now ≡ hit_words) }
        ensures { result ≡ is_hit_now self.entry.table.words.now hits.now self.entry.kind self.entry.number self.entry.set.low self.entry.set.high r }
    {
        let next = word(self.table.words, r, 0);
        self.ends_in(r) || (next > r && next < self.table.records() && is_set(hits, next))
    }

    // The records from the last down: a next index is larger than its record's number, so what follows a record is known when it is read.
    fn sweep(self, hits: &mut [u64])
        requires { hits.old ≡ replicate hit_words 0 }
        ensures { Hits self.entry.table.words.now self.entry.kind self.entry.number self.entry.set.low self.entry.set.high hits.new }
    {
        for r in (0..self.table.records()).rev() {
            if self.hit_now(hits, r) {
                put(hits, r);
            }
        }
    }

    // With the hits in words that are lent.
    fn states_over(self, hits: &mut [u64]) -> StateSet
        requires { hits.old ≡ replicate hit_words 0 }
        ensures { states_in result.low result.high ≡ predecessors (meaning self.entry.table.words.now) (symbol_of_kind self.entry.kind self.entry.number) (states_in self.entry.set.low self.entry.set.high) }
    {
        self.sweep(hits);
        let mut found = StateSet::new();
        for s in 0..self.table.counts().states {
            let head = self.table.first_edge(s);
            if head != 0 && is_set(hits, head) {
                found = found.insert(s);
            }
        }
        found
    }

    // Whether a state has an edge by the symbol into the set; none where that takes more edges than may still be read, as chains may be shared. (`left` is counted down by hand over the chains of all states, which `take` of one chain does not do.)
    fn leads(self, state: usize, left: &mut usize) -> Option<bool>
        requires { state < length (meaning self.table.words.now).states }
        ensures { MatchOption result (Unit {0}) (λ led. led ≡ leads (meaning self.entry.table.words.now) (symbol_of_kind self.entry.kind self.entry.number) (states_in self.entry.set.low self.entry.set.high) state) }
    {
        for edge in self.table.edges(state) {
            if *left == 0 {
                return None;
            }
            *left -= 1;
            if self.goes(edge.kind, edge.number, edge.target) {
                return Some(true);
            }
        }
        Some(false)
    }

    // Along the chains of all states: the states found, or none where more edges would be read than the table has records.
    fn states_along(self) -> Option<StateSet>
        ensures { SteppedTo (predecessors (meaning self.entry.table.words.now) (symbol_of_kind self.entry.kind self.entry.number) (states_in self.entry.set.low self.entry.set.high)) result }
    {
        let mut left = self.table.records();
        let mut found = StateSet::new();
        for s in 0..self.table.counts().states {
            if self.leads(s, &mut left)? {
                found = found.insert(s);
            }
        }
        Some(found)
    }

    // The states with an edge by the symbol into the set: along the chains, or where they are shared by a sweep over all records.
    fn states(self) -> StateSet
        ensures { states_in result.low result.high ≡ predecessors (meaning self.entry.table.words.now) (symbol_of_kind self.entry.kind self.entry.number) (states_in self.entry.set.low self.entry.set.high) }
    {
        match self.states_along() {
            Some(found) => found,
            None => {
                let mut hits = [0u64; StateSet::HIT_WORDS];
                self.states_over(&mut hits)
            }
        }
    }
}

// A step that was made: over which symbol, from which set, and the states that it found. (Its symbol is two numbers, as `Step` has it.)
#[derive(Clone, Copy)]
pub struct MadeStep {
    pub kind: usize,
    pub number: usize,
    pub from: StateSet,
    pub found: StateSet,
}

// A place for what a step finds, by its symbol (a row: its number among all symbols, the terminals behind the nonterminals) and its set: steps from different sets over one symbol have different places as far as may be, and a place says what it holds.
fn place_of(row: usize, set: StateSet) -> usize
    requires { row < step_rows }
    ensures { result < step_places }
{
    let low = (set.low % StateSet::LOW_PRIME) as usize;
    let high = (set.high % StateSet::HIGH_PRIME) as usize;
    (row + StateSet::LOW_FACTOR * low + StateSet::HIGH_FACTOR * high) % StateSet::STEPS
}

// A walk back over an accepted table: each step is remembered until another takes its place. There is no heap, so the places for that are a fixed number.
#[derive(Drop)]
pub struct StateWalk<'a> {
    pub table: AcceptedTable<'a>,
    pub steps: [Option<MadeStep>; StateSet::STEPS],
    pub ghost remembered: { Remembered (meaning table.words.now) steps },
}

impl<'a> StateWalk<'a> {
    pub fn new(table: AcceptedTable<'a>) -> StateWalk<'a>
        ensures { result.table.words.now ≡ table.entry.words.now }
    {
        StateWalk {
            table,
            steps: [None; StateSet::STEPS],
        }
    }

    // The states with an edge by one symbol into the set; where that step is remembered, what it found.
    fn step_back(&mut self, kind: usize, number: usize, set: StateSet) -> StateSet
        requires { symbol_is_fit (length (meaning self.old.table.words.now).nonterminals) (meaning self.old.table.words.now).terminals kind number ≡ true }
        ensures found { states_in result.low result.high ≡ predecessors (meaning self.old.table.words.now) (symbol_of_kind kind number) (states_in set.low set.high) }
        ensures table { self.new.table.words.now ≡ self.old.table.words.now }
    {
        let row = kind * NonterminalString::LIMIT + number;
        let place = place_of(row, set);
        if let Some(step) = self.steps[place] {
            if step.kind == kind && step.number == number && step.from == set {
                return step.found;
            }
        }
        let step = Step {
            table: self.table,
            kind,
            number,
            set,
        };
        let found = step.states();
        self.steps[place] = Some(MadeStep {
            kind,
            number,
            from: set,
            found,
        });
        found
    }

    // The states from which a path spells the symbols and ends in the set. (A list comes as words, here and below, as in crate first: two lists joined are split in the middle of a symbol.)
    pub fn walk_back(&mut self, set: StateSet, symbols: &[u16]) -> StateSet
        requires { list_is_fit (length (meaning self.old.table.words.now).nonterminals) (meaning self.old.table.words.now).terminals symbols.now ≡ true }
        ensures found { states_in result.low result.high ≡ walked_back (meaning self.old.table.words.now) (states_in set.low set.high) (listed symbols.now) }
        ensures table { self.new.table.words.now ≡ self.old.table.words.now }
    {
        let mut found = set;
        for symbol in symbols.rchunks_exact(Symbol::WORDS) {
            found = self.step_back(repr::word(symbol, 0), repr::word(symbol, 1), found);
        }
        found
    }

    // Back over two lists joined: over the second and, from the states found, over the first. Where the first is odd, a symbol begins with its last word and ends with the other's first; `joined_fits` of repr says why this is no function of its own.
    fn walk_joined(&mut self, set: StateSet, xs: &[u16], ys: &[u16]) -> StateSet
        requires { list_is_fit (length (meaning self.old.table.words.now).nonterminals) (meaning self.old.table.words.now).terminals (xs.now ++ ys.now) ≡ true }
        ensures { states_in result.low result.high ≡ walked_back (meaning self.old.table.words.now) (states_in set.low set.high) (listed (xs.now ++ ys.now)) }
    {
        if xs.len() % Symbol::WORDS == 0 {
            let found = self.walk_back(set, ys);
            return self.walk_back(found, xs);
        }
        let last = xs.len() - 1;
        let straddling = [xs[last], ys[0]];
        let behind = self.walk_back(set, &ys[1..]);
        let found = self.walk_back(behind, &straddling);
        self.walk_back(found, &xs[..last])
    }
}

// `trace_back` of one state, over two lists joined.
pub fn trace_back_joined(table: AcceptedTable, state: usize, xs: &[u16], ys: &[u16]) -> StateSet
    requires state_in_bounds { (state < length (meaning table.words.now).states) × (list_is_fit (length (meaning table.words.now).nonterminals) (meaning table.words.now).terminals (xs.now ++ ys.now) ≡ true) }
    ensures { states_in result.low result.high ≡ traced_back (meaning table.entry.words.now) state (listed (xs.now ++ ys.now)) }
{
    StateWalk::new(table).walk_joined(StateSet::from(state), xs, ys)
}

// `trace_back` of one state.
pub fn trace_back(table: AcceptedTable, state: usize, symbols: &[u16]) -> StateSet
    requires state_in_bounds { (state < length (meaning table.words.now).states) × (list_is_fit (length (meaning table.words.now).nonterminals) (meaning table.words.now).terminals symbols.now ≡ true) }
    ensures { states_in result.low result.high ≡ traced_back (meaning table.entry.words.now) state (listed symbols.now) }
{
    StateWalk::new(table).walk_back(StateSet::from(state), symbols)
}
