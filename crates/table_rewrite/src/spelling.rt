// The single spelling of a table (specs/spelling/Spelled, specs/spelling/Outcome).

ghost use Rattle.std.specs.Prelude.{◌≡◌, [], ◌∷◌, suc, ◌+◌, ◌*◌, ◌≤◌, ◌<◌, min, length};
ghost use Rattle.lr1_base.specs.repr.Sizes.{record_limit};
ghost use Rattle.lr1_base.specs.repr.Reply.{reply_of};
ghost use Rattle.table.specs.Decoded.{meaning};
ghost use Rattle.table_rewrite.specs.spelling.Spelled.{chain_from, chains_from, size_of, states_at, productions_at, symbols_at, items_place, edges_at, records_of, quads};
ghost use Rattle.table_check.specs.Known.{AreasOf};
ghost use Rattle.table_rewrite.specs.spelling.Grown.{Grown, Room, Stands, records_from, same_quad, LooseIndex, chains_of, Heads, SizesOf};
ghost use Rattle.table_rewrite.specs.spelling.Outcome.{written_of, respell_of};

mod chain;

use self::chain::RecordIter;
use lr1_base::repr::Refusal;
use table::{AcceptedTable, RECORD_WORDS, RECORDS, put, word};
use table_check::areas::{Areas, survey};

// How far records are counted: one more than a table may have.
const COUNTED: usize = RECORDS + 1;

// The next index of a record that is followed by the next one, or by none.
pub fn next_of(next: usize, at: usize) -> usize
    requires { at < record_limit }
    ensures { (next ≡ 0 → result ≡ 0) × ((next ≡ 0 → ⊥) → result ≡ at + 1) }
{
    head_of(next, at + 1)
}

// The head of a chain of `count` records that begins at record `at`.
pub fn head_of(count: usize, at: usize) -> usize
    ensures { (count ≡ 0 → result ≡ 0) × ((count ≡ 0 → ⊥) → result ≡ at) }
{
    if count == 0 { 0 } else { at }
}

// Writes the records of a chain from record `begin` on, one behind the other, and returns the record behind them. (Crate grammar_records writes symbols, which are no records yet. Counted by hand: where the chain ends is the answer.)
fn write_chain(table: AcceptedTable, out: &mut [u16], head: usize, begin: usize) -> usize
    requires loose_index { LooseIndex table.words.now head × (Stands (quads (meaning table.words.now)) begin (chain_from (same_quad table.words.now) begin (records_from table.words.now head)) × Room (meaning table.words.now) out.old) }
    ensures { (result ≡ begin + length (records_from table.entry.words.now head)) × Grown (meaning table.entry.words.now) out.old out.new begin result }
{
    let mut at = begin;
    for record in (RecordIter { table, at: head }) {
        let follower = next_of(record.next, at);
        put(out, at, follower, record.one, record.two, record.three);
        at += 1;
    }
    at
}

// How many records a chain has, counted up to `most`.
fn count_chain(table: AcceptedTable, head: usize, most: usize) -> usize
    requires loose_index { LooseIndex table.words.now head × (most ≤ suc record_limit) }
    ensures { result ≡ min (length (records_from table.entry.words.now head)) most }
{
    (RecordIter { table, at: head }).take(most).count()
}

// A region of loose records: the chains whose heads stand in word k of the records from `first` up to and without `past`.
#[derive(Clone, Copy)]
struct Region {
    first: usize,
    past: usize,
    k: usize,
}

// Where the items and the edges begin in the spelling, and how many records there are in all, counted up to 8,193.
#[derive(Clone, Copy)]
struct Sizes {
    items: usize,
    edges: usize,
    records: usize,
}

// A table to be written afresh, and its areas, which stand in the spelling where they do in the table. What is written stands beside it: as a field behind a reference each clause would say more of it.
#[derive(Clone, Copy)]
struct Spelling<'a> {
    table: AcceptedTable<'a>,
    areas: Areas,
    ghost of: { AreasOf table.words.now areas },
}

impl<'a> Spelling<'a> {
    // The chains of the productions' symbols. (`items` reads alike, and differs in all three numbers.)
    fn symbols(self) -> Region
        ensures { (result.first ≡ productions_at (meaning self.entry.table.words.now)) × ((result.past ≡ symbols_at (meaning self.entry.table.words.now)) × (result.k ≡ 1)) }
    {
        Region {
            first: self.areas.productions_at,
            past: self.areas.loose_at,
            k: 1,
        }
    }

    // The chains of the states' items.
    fn items(self) -> Region
        ensures { (result.first ≡ states_at (meaning self.entry.table.words.now)) × ((result.past ≡ productions_at (meaning self.entry.table.words.now)) × (result.k ≡ 0)) }
    {
        Region {
            first: self.areas.states_at,
            past: self.areas.productions_at,
            k: 0,
        }
    }

    // Those of their edges.
    fn edges(self) -> Region
        ensures { (result.first ≡ states_at (meaning self.entry.table.words.now)) × ((result.past ≡ productions_at (meaning self.entry.table.words.now)) × (result.k ≡ 1)) }
    {
        Region {
            k: 1,
            ..self.items()
        }
    }

    // Writes the chains of a region, one behind the other from record `begin` on, and returns the record behind them.
    fn write_chains(self, region: Region, out: &mut [u16], begin: usize) -> usize
        requires heads { Heads self.table.words.now region.first region.past region.k }
        requires stands { Stands (quads (meaning self.table.words.now)) begin (chains_from (same_quad self.table.words.now) begin (chains_of self.table.words.now region.first region.past region.k)) }
        requires room { Room (meaning self.table.words.now) out.old }
        ensures { (result ≡ begin + size_of (chains_of self.entry.table.words.now region.first region.past region.k)) × Grown (meaning self.entry.table.words.now) out.old out.new begin result }
    {
        let mut at = begin;
        for holder in region.first..region.past {
            let head = word(self.table.words, holder, region.k);
            at = write_chain(self.table, out, head, at);
        }
        at
    }

    // How many records they have, counted up to `most`: shared chains can be reached two million times over.
    fn count_chains(self, region: Region, most: usize) -> usize
        requires heads { Heads self.table.words.now region.first region.past region.k }
        requires most { most ≤ suc record_limit }
        ensures { result ≡ min (size_of (chains_of self.entry.table.words.now region.first region.past region.k)) most }
    {
        let mut total: usize = 0;
        for holder in region.first..region.past {
            let head = word(self.table.words, holder, region.k);
            total += count_chain(self.table, head, most - total);
        }
        total
    }

    fn measure(self) -> Sizes
        ensures { SizesOf (meaning self.entry.table.words.now) self.entry.areas.loose_at result.items result.edges result.records }
    {
        let symbols = self.areas.loose_at;
        let items = symbols + self.count_chains(self.symbols(), COUNTED - symbols);
        let edges = items + self.count_chains(self.items(), COUNTED - items);
        let records = edges + self.count_chains(self.edges(), COUNTED - edges);
        Sizes {
            items,
            edges,
            records,
        }
    }

    // Writes the nonterminals: their heads are the table's, word for word. (`first_production` says which productions its answer leads to, not which word it is.)
    fn write_nonterminals(self, out: &mut [u16])
        requires room { Room (meaning self.table.words.now) out.old }
        ensures { Grown (meaning self.entry.table.words.now) out.old out.new 1 (states_at (meaning self.entry.table.words.now)) }
    {
        for n in 0..self.areas.counts.nonterminals {
            let head = word(self.table.words, 1 + n, 0);
            put(out, 1 + n, head, 0, 0, 0);
        }
    }

    // Writes the states. Where the next chains begin is counted by hand, here and below.
    fn write_states(self, at: Sizes, out: &mut [u16])
        requires items { at.items ≡ items_place (meaning self.table.words.now) }
        requires edges { at.edges ≡ edges_at (meaning self.table.words.now) }
        requires room { Room (meaning self.table.words.now) out.old }
        ensures { Grown (meaning self.entry.table.words.now) out.old out.new (states_at (meaning self.entry.table.words.now)) (productions_at (meaning self.entry.table.words.now)) }
    {
        let a = self.areas;
        let mut i = at.items;
        let mut d = at.edges;
        for s in 0..a.counts.states {
            let many_items = count_chain(self.table, self.table.first_item(s), RECORDS);
            let many_edges = count_chain(self.table, self.table.first_edge(s), RECORDS);
            let item_head = head_of(many_items, i);
            let edge_head = head_of(many_edges, d);
            put(out, a.states_at + s, item_head, edge_head, 0, 0);
            i += many_items;
            d += many_edges;
        }
    }

    // Writes the productions: their next indexes and spans are the table's.
    fn write_productions(self, out: &mut [u16])
        requires room { Room (meaning self.table.words.now) out.old }
        ensures { Grown (meaning self.entry.table.words.now) out.old out.new (productions_at (meaning self.entry.table.words.now)) (symbols_at (meaning self.entry.table.words.now)) }
    {
        let a = self.areas;
        let mut y = a.loose_at;
        for p in 0..a.counts.productions {
            let record = a.productions_at + p;
            let next = word(self.table.words, record, 0);
            let start = word(self.table.words, record, 2);
            let end = word(self.table.words, record, 3);
            let many = count_chain(self.table, word(self.table.words, record, 1), RECORDS);
            let head = head_of(many, y);
            put(out, record, next, head, start, end);
            y += many;
        }
    }

    // Writes all records.
    fn write_all(self, at: Sizes, out: &mut [u16])
        requires items { at.items ≡ items_place (meaning self.table.words.now) }
        requires edges { at.edges ≡ edges_at (meaning self.table.words.now) }
        requires room { Room (meaning self.table.words.now) out.old }
        ensures { Grown (meaning self.entry.table.words.now) out.old out.new 0 (records_of (meaning self.entry.table.words.now)) }
    {
        let a = self.areas;
        a.counts.put(out);
        self.write_nonterminals(out);
        self.write_states(at, out);
        self.write_productions(out);
        let _items = self.write_chains(self.symbols(), out, a.loose_at);
        let _edges = self.write_chains(self.items(), out, at.items);
        let _records = self.write_chains(self.edges(), out, at.edges);
    }
}

// Writes an accepted table afresh, if there is room.
fn respell_in(table: AcceptedTable, out: &mut [u16]) -> Result<u16, Refusal>
    ensures { record { answer = reply_of result; out = out.new } ≡ written_of (meaning table.entry.words.now) out.old }
{
    let spelling = Spelling {
        table,
        areas: survey(table.words),
    };
    let at = spelling.measure();
    if at.records > RECORDS || at.records > out.len() / RECORD_WORDS {
        return Err(Refusal::NoRoom);
    }
    spelling.write_all(at, out);
    Ok(at.records as u16)
}

// Writes an accepted table afresh at the front of `out`, and answers how many records that are. Refusals 1 to 8, then 17 without room or above 8,192 records; they change nothing.
pub fn respell(table: &[u16], out: &mut [u16]) -> Result<u16, Refusal>
    ensures { record { answer = reply_of result; out = out.new } ≡ respell_of table.now out.old }
{
    let accepted = table_check::check(table)?;
    respell_in(accepted, out)
}
