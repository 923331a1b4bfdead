// The table a caller lends: its words' meaning (specs/Decoded), read from a table that is accepted. What accepts it is the crate table_check.

#![tactic(auto)]

mod accepted_table;
mod iter;

ghost use Rattle.std.specs.Prelude.{◌≡◌, ◌+◌, ◌*◌, ◌≤◌, ◌<◌, length};
ghost use Rattle.lr1_base.specs.repr.Sizes.{record_limit};
ghost use Rattle.table.specs.Words.{word_at};
ghost use Rattle.table.specs.Quads.{put_quad};
ghost use Rattle.table.specs.Decoded.{meaning};

pub use accepted_table::AcceptedTable;
pub use iter::{EdgeIter, ItemIter, ProductionIter};

// Records of a table at most (refusal 1), and words of a record.
pub const RECORDS: usize = 8192;

pub const RECORD_WORDS: usize = 4;

// Word k of record r.
// Which word is a number, asked at each call: heads stand in word 0 and in word 1, which one function goes over.
pub fn word(table: &[u16], r: usize, k: usize) -> usize
    requires { (r < record_limit) × ((k < 4) × (r * 4 + k < length table.now)) }
    ensures { (result ≡ word_at table.now r k) × (result < 65536) }
{
    table[r * RECORD_WORDS + k] as usize
}

// Puts record r.
pub fn put(table: &mut [u16], r: usize, a: usize, b: usize, c: usize, d: usize)
    requires r_lt_record_limit { (r < record_limit) × (r * 4 + 3 < length table.old) }
    requires a_bound { (a < 65536) × ((b < 65536) × ((c < 65536) × (d < 65536))) }
    ensures { table.new ≡ put_quad table.old r a b c d }
{
    let at = r * RECORD_WORDS;
    table[at] = a as u16;
    table[at + 1] = b as u16;
    table[at + 2] = c as u16;
    table[at + 3] = d as u16;
}

// The counts of record 0. (That they are below 65,536 is asked here and below: as a ghost field it would be proved at each of five places that make them, for four that ask it.)
#[derive(Clone, Copy)]
pub struct Counts {
    pub nonterminals: usize,
    pub terminals: usize,
    pub states: usize,
    pub productions: usize,
}

impl Counts {
    // Those of any words that have a record 0.
    pub fn of(table: &[u16]) -> Counts
        requires { 4 ≤ length table.now }
        ensures read { (result.nonterminals ≡ word_at table.now 0 0) × ((result.terminals ≡ word_at table.now 0 1) × ((result.states ≡ word_at table.now 0 2) × (result.productions ≡ word_at table.now 0 3))) }
        ensures small { (result.nonterminals < 65536) × ((result.terminals < 65536) × ((result.states < 65536) × (result.productions < 65536))) }
    {
        Counts {
            nonterminals: word(table, 0, 0),
            terminals: word(table, 0, 1),
            states: word(table, 0, 2),
            productions: word(table, 0, 3),
        }
    }

    // Puts them into record 0.
    pub fn put(self, table: &mut [u16])
        requires room { 4 ≤ length table.old }
        requires small { (self.nonterminals < 65536) × ((self.terminals < 65536) × ((self.states < 65536) × (self.productions < 65536))) }
        ensures { table.new ≡ put_quad table.old 0 self.nonterminals self.terminals self.states self.productions }
    {
        put(
            table,
            0,
            self.nonterminals,
            self.terminals,
            self.states,
            self.productions,
        );
    }

    // The first record of the states, behind record 0 and the nonterminals.
    pub fn states_at(self) -> usize
        requires { self.nonterminals < 65536 }
        ensures { result ≡ 1 + self.nonterminals }
    {
        1 + self.nonterminals
    }

    // The first record of the productions.
    pub fn productions_at(self) -> usize
        requires { (self.nonterminals < 65536) × (self.states < 65536) }
        ensures { result ≡ 1 + self.nonterminals + self.states }
    {
        self.states_at() + self.states
    }

    // The first loose record.
    pub fn loose_at(self) -> usize
        requires { (self.nonterminals < 65536) × ((self.states < 65536) × (self.productions < 65536)) }
        ensures { result ≡ 1 + self.nonterminals + self.states + self.productions }
    {
        self.productions_at() + self.productions
    }
}

// An item, the index of its record, and the index of the next.
#[derive(Clone, Copy)]
pub struct ItemRecord {
    pub at: usize,
    pub next: usize,
    pub production: usize,
    pub index: usize,
}

// An edge, its symbol's kind and number, and the index of the next. They stay two words, as what reads an edge compares them with words of records that may be none (state_graph).
#[derive(Clone, Copy)]
pub struct EdgeRecord {
    pub next: usize,
    pub kind: usize,
    pub number: usize,
    pub target: usize,
}

// A production's number, and the index of its nonterminal's next.
#[derive(Clone, Copy)]
pub struct ProductionRecord {
    pub next: usize,
    pub production: usize,
}
