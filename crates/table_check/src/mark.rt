// Marks the records that chains of loose records reach: the heads first, then the next of each marked record, record by record. A next index is larger than its
// record's number, so one pass over the records in order follows every chain, however many heads share it.
ghost use Rattle.std.specs.Prelude.{true, List, ◌≡◌, ℕ, ◌+◌, ◌*◌, ◌/◌, ◌≤◌, ◌<◌, length};
ghost use Rattle.lr1_base.specs.bits.Bits.{bit_at};
ghost use Rattle.table.specs.Words.{word_at, records, loose, loose_records, names};
ghost use Rattle.table_check.specs.Passed.{Blank, Passed, Reaching};

use crate::areas::Surveyed;
use crate::loose::Roles;
use lr1_base::bits::{is_set, put};
use table::{RECORDS, word};

// Words of marks for 512 records, and for all that a table can have.
pub const FEW: usize = 8;

pub const ALL: usize = RECORDS / 64;

// What the records are reached as: for each sort of chain a flag for each record, 64 to a word. Three lists of bits and no list of `Roles`, which would be eight times the fixed memory.
#[derive(Drop)]
pub struct Marks<const N: usize> {
    pub symbols: [u64; N],
    pub items: [u64; N],
    pub edges: [u64; N],
}

// The heads in word k of the n records from `first` on: both words of a state are heads, of items and of edges.
pub fn mark_heads(s: Surveyed, first: usize, n: usize, k: usize, marks: &mut [u64])
    requires { (first + n ≤ s.areas.loose_at) × ((k < 2) × Blank s.words.now marks.old) }
    ensures { Passed s.entry.words.now first n k n (loose s.entry.words.now) marks.new }
{
    for r in first..first + n {
        let x = word(s.words, r, k);
        if s.loose().names(r, x) {
            put(marks, x);
        }
    }
}

// Whether record r is marked; if so, its next index x, which is by the rule, is marked too. From whatever heads the marks began.
pub fn mark_next(marks: &mut [u64], r: usize, x: usize) -> bool
    requires { (r / 64 < length marks.old) × (x / 64 < length marks.old) }
    ensures value { result ≡ bit_at marks.old r }
    ensures by_index { (t : List ℕ) (first n k : ℕ)
        → x ≡ word_at t r 0
        → names (loose_records t) r x ≡ true
        → Passed t first n k n r marks.old
        → Passed t first n k n (r + 1) marks.new }
{
    let marked = is_set(marks, r);
    if marked {
        put(marks, x);
    }
    marked
}

impl<const N: usize> Marks<N> {
    // All heads marked.
    pub fn of_heads(s: Surveyed) -> Marks<N>
        requires { records s.words.now ≤ N * 64 }
        ensures { Reaching s.entry.words.now (loose s.entry.words.now) result.symbols result.items result.edges }
    {
        let a = s.areas;
        let mut marks = Marks {
            symbols: [0u64; N],
            items: [0u64; N],
            edges: [0u64; N],
        };
        mark_heads(
            s,
            a.productions_at,
            a.counts.productions,
            1,
            &mut marks.symbols,
        );
        mark_heads(s, a.states_at, a.counts.states, 0, &mut marks.items);
        mark_heads(s, a.states_at, a.counts.states, 1, &mut marks.edges);
        marks
    }

    // What record r is marked as.
    pub(crate) fn roles(&self, r: usize) -> Roles
        requires { r < N * 64 }
        ensures symbol { result.symbol ≡ bit_at self.now.symbols r }
        ensures item { result.item ≡ bit_at self.now.items r }
        ensures edge { result.edge ≡ bit_at self.now.edges r }
    {
        Roles {
            symbol: is_set(&self.symbols, r),
            item: is_set(&self.items, r),
            edge: is_set(&self.edges, r),
        }
    }

    // What record r is marked as; record x, its next by the rule, is marked so too.
    pub(crate) fn pass_to(&mut self, r: usize, x: usize) -> Roles
        requires { (r < N * 64) × (x < N * 64) }
        ensures symbol { result.symbol ≡ bit_at self.old.symbols r }
        ensures item { result.item ≡ bit_at self.old.items r }
        ensures edge { result.edge ≡ bit_at self.old.edges r }
        ensures reaching { (t : List ℕ)
            → x ≡ word_at t r 0
            → names (loose_records t) r x ≡ true
            → Reaching t r self.old.symbols self.old.items self.old.edges
            → Reaching t (r + 1) self.new.symbols self.new.items self.new.edges }
    {
        Roles {
            symbol: mark_next(&mut self.symbols, r, x),
            item: mark_next(&mut self.items, r, x),
            edge: mark_next(&mut self.edges, r, x),
        }
    }

    // What record r is marked as; its next, if it is by the rule, is marked so too.
    pub fn pass(&mut self, s: Surveyed, r: usize) -> Roles
        requires inside { r < s.areas.records }
        requires room { s.areas.records ≤ N * 64 }
        ensures symbol { result.symbol ≡ bit_at self.old.symbols r }
        ensures item { result.item ≡ bit_at self.old.items r }
        ensures edge { result.edge ≡ bit_at self.old.edges r }
        ensures reaching { Reaching s.entry.words.now r self.old.symbols self.old.items self.old.edges → Reaching s.entry.words.now (r + 1) self.new.symbols self.new.items self.new.edges }
    {
        let x = word(s.words, r, 0);
        if s.loose().names(r, x) {
            self.pass_to(r, x)
        } else {
            self.roles(r)
        }
    }
}
