// The items of a chain's tail that have a nonterminal at the cursor, each once and by nonterminal: read in the tail's place, which is long where it is listed and may be that of many states.
// `records`: word 1 is the record that the tail begins with (0: none is listed), and from slot FIRST_SLOT on the listed records stand in their order; word 0 is 0, the record of no slot.
// `links`: of each nonterminal the first slot, of each slot the next with the same nonterminal; 0 where there is none.
// `others`, `other_links`: the same of the tail that was used before, so that two long chains by turns are each listed once.
ghost use Rattle.std.specs.Prelude.{◌≡◌, ℕ, ◌+◌, ◌<◌, IfSome, List, length, drop, replicate, ◌≢◌, slice_index};
ghost use Rattle.lr1_base.specs.repr.Sizes.{nonterminal_limit};
ghost use Rattle.table.specs.Decoded.{items_from};
ghost use Rattle.table.specs.Index.{ItemIndex};
ghost use Rattle.trace.specs.Held.{Working};
ghost use Rattle.trace.specs.Tails.{tail_words, first_slot, Collected, Linked, Usable, TwoTails, Begins, Follows};

use crate::nonterminal_at;
use lr1_base::bits::{is_set, put};
use lr1_base::item::Item;
use lr1_base::repr::{Grammar, NonterminalString, word};
use table::{AcceptedTable, ItemIter};

// A slot and its record, or slot 0 and a record of the chain; record 0 is the end.
// Numbers as the table and the lists have them: an Option would be made of each word that is read.
#[derive(Clone, Copy)]
pub struct Place {
    pub slot: usize,
    pub at: usize,
}

// Words of each list, and where no tail is listed, which word 1 says.
pub const LIST_WORDS: usize = 2000;

pub const NO_LIST: usize = 2;

// The slot of the first record: those before it are nonterminals.
pub const FIRST_SLOT: usize = NonterminalString::LIMIT;

// A tail begins so many records into a chain: 128 states cannot have more records of their own each.
pub const TAIL_AHEAD: usize = 64;

// Words of a table that is too short for tails that are read often to matter.
pub const SHORT_TABLE: usize = 2560;

// A listed tail in N words each.
// Records and their links in fixed words, since there is no heap. The functions below take them as two slices: of the struct each, and the recursion of `trace_epsilon`, would be generic in N and stand in the program for both lengths; a struct of the two slices would be made anew at each call, as a list is written between two readings of it.
#[derive(Clone, Copy)]
pub struct TailList<const N: usize> {
    pub records: [u16; N],
    pub links: [u16; N],
}

impl<const N: usize> TailList<N> {
    // No tail is listed.
    pub fn new() -> TailList<N>
        ensures { (result.records ≡ replicate N 0) × (result.links ≡ replicate N 0) }
    {
        TailList {
            records: [0u16; N],
            links: [0u16; N],
        }
    }
}

// The record `most` further along a chain of items, its first record where the chain ends before. An `ItemIter`'s `nth` tells which record stands there, and not that its chain is what is left of this one, which is promised.
pub fn ahead(table: AcceptedTable, first: usize, most: usize) -> usize
    requires { ItemIndex table.words.now first }
    ensures { ((k : ℕ) × (items_from table.entry.words.now result ≡ drop k (items_from table.entry.words.now first))) × ItemIndex table.entry.words.now result }
{
    let mut at = first;
    for _ in 0..most {
        if at == 0 {
            return first;
        }
        at = table.item(at).next;
    }
    at
}

// Tails are listed of a table and its packed productions, here and below: of what else tracing works over (`Working`) nothing is read.
// Puts each item of the tail that has a nonterminal at the cursor into a slot where it is met first. The answer is the slot behind the last; none where there are too many. Slots are counted by hand: not every record gets one.
fn collect(
    table: AcceptedTable,
    grammar: Grammar,
    tail: usize,
    records: &mut [u16],
) -> Option<usize>
    requires { ((ls : List ℕ) × Working table.words.now grammar.words.now grammar.productions ls) × ItemIndex table.words.now tail × (length records.old ≡ tail_words) }
    ensures { IfSome result (λ count. Collected table.entry.words.now records.new tail count) }
{
    let mut met = [0u64; Item::FLAG_WORDS];
    let mut count = FIRST_SLOT;
    for read in (ItemIter { table, at: tail }) {
        let item = Item {
            production: read.production,
            index: read.index,
        };
        if nonterminal_at(grammar, item).is_none() {
            continue;
        }
        let place = item.place();
        if is_set(&met, place) {
            continue;
        }
        if count >= LIST_WORDS {
            return None;
        }
        put(&mut met, place);
        records[count] = read.at as u16;
        count += 1;
    }
    Some(count)
}

// No nonterminal has a slot yet.
fn unlink(links: &mut [u16])
    requires { length links.old ≡ tail_words }
    ensures { (n : ℕ) → n < nonterminal_limit → slice_index links.new n ≡ 0 }
{
    links[..NonterminalString::LIMIT].fill(0);
}

// Links the slots before `count` from the last on: each to the one that its nonterminal has so far.
fn link(table: AcceptedTable, grammar: Grammar, records: &[u16], count: usize, links: &mut [u16])
    requires { ((ls : List ℕ) × Working table.words.now grammar.words.now grammar.productions ls) × ((tail : ℕ) × Collected table.words.now records.now tail count) × (length links.old ≡ tail_words) }
    ensures { Linked table.entry.words.now records.now links.new count first_slot }
{
    unlink(links);
    for k in (FIRST_SLOT..count).rev() {
        let read = table.item(word(records, k));
        let item = Item {
            production: read.production,
            index: read.index,
        };
        if let Some(nonterminal) = nonterminal_at(grammar, item) {
            links[k] = links[nonterminal];
            links[nonterminal] = k as u16;
        }
    }
}

// Lists a tail; none where it has too many items.
fn fill(table: AcceptedTable, grammar: Grammar, tail: usize, records: &mut [u16], links: &mut [u16])
    requires on { ((ls : List ℕ) × Working table.words.now grammar.words.now grammar.productions ls) × ItemIndex table.words.now tail }
    requires records_len { (length records.old ≡ tail_words) × (length links.old ≡ tail_words) }
    ensures { Usable table.entry.words.now records.new links.new }
{
    let listed = collect(table, grammar, tail, records);
    records[0] = 0;
    records[1] = 0;
    if let Some(count) = listed {
        link(table, grammar, records, count, links);
        records[1] = tail as u16;
    }
}

// Whether a chain comes to the record `tail` within TAIL_AHEAD records. Records follow in ascending order.
fn meets(table: AcceptedTable, first: usize, tail: usize) -> bool
    requires { ItemIndex table.words.now first }
{
    ItemIter { table, at: first }
        .take(TAIL_AHEAD + 1)
        .find(|read| read.at >= tail)
        .is_some_and(|read| read.at == tail)
}

// Lists the tail of a chain over the one that is listed, unless that is it. False: the chain has no tail, and the lists are as they were.
fn relist(
    table: AcceptedTable,
    grammar: Grammar,
    first: usize,
    records: &mut [u16],
    links: &mut [u16],
) -> bool
    requires on { ((ls : List ℕ) × Working table.words.now grammar.words.now grammar.productions ls) × ItemIndex table.words.now first }
    requires records_len { (length records.old ≡ tail_words) × (length links.old ≡ tail_words) × Usable table.words.now records.old links.old }
    ensures { Usable table.entry.words.now records.new links.new }
{
    if meets(table, first, word(records, 1)) {
        return true;
    }
    let tail = ahead(table, first, TAIL_AHEAD);
    if tail == first {
        return false;
    }
    fill(table, grammar, tail, records, links);
    true
}

// Sees to it that the tail of a long chain is listed in `records` and `links`, where there is room for lists. The tail that was listed there goes to `others` and `other_links`; a tail that neither has is listed over the older one.
pub fn list_tail(
    table: AcceptedTable,
    grammar: Grammar,
    first: usize,
    records: &mut [u16],
    links: &mut [u16],
    others: &mut [u16],
    other_links: &mut [u16],
)
    requires on { ((ls : List ℕ) × Working table.words.now grammar.words.now grammar.productions ls) × ItemIndex table.words.now first }
    requires two_tails { TwoTails table.words.now records.old links.old others.old other_links.old }
    ensures { TwoTails table.entry.words.now records.new links.new others.new other_links.new }
{
    if records.len() < LIST_WORDS || meets(table, first, word(records, 1)) {
        return;
    }
    if relist(table, grammar, first, others, other_links) {
        records.swap_with_slice(others);
        links.swap_with_slice(other_links);
    }
}

// The place of a record of the chain: where the tail begins the first slot of the nonterminal.
pub fn begin(records: &[u16], links: &[u16], nonterminal: usize, at: usize) -> Place
    requires { (1 < length records.now) × ((slice_index records.now 1 ≢ 0) → (nonterminal < length links.now) × (slice_index links.now nonterminal < length records.now)) }
    ensures { Begins records.now links.now nonterminal at result.slot result.at }
{
    if at == 0 {
        return Place { slot: 0, at: 0 };
    }
    if at != word(records, 1) {
        return Place { slot: 0, at };
    }
    let slot = word(links, nonterminal);
    Place {
        slot,
        at: word(records, slot),
    }
}

// The place after one: the next slot with the nonterminal, or the next record of the chain.
pub fn after(records: &[u16], links: &[u16], nonterminal: usize, slot: usize, next: usize) -> Place
    requires in_bounds { (1 < length records.now) × ((slice_index records.now 1 ≢ 0) → (nonterminal < length links.now) × (slice_index links.now nonterminal < length records.now)) }
    requires slot_in_bounds { (slot ≢ 0) → (slot < length links.now) × (slice_index links.now slot < length records.now) }
    ensures { Follows records.now links.now nonterminal slot next result.slot result.at }
{
    if slot == 0 {
        return begin(records, links, nonterminal, next);
    }
    let follows = word(links, slot);
    Place {
        slot: follows,
        at: word(records, follows),
    }
}
