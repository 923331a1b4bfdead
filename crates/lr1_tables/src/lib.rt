// Building the states of a grammar (docs/RULES.md, "Building states"): all is found and measured before anything is written.

#![tactic(auto)]

pub mod conflict_list;
pub mod conflict_words;
pub mod sizes;
pub mod state_conflicts;
pub mod state_records;

ghost use Rattle.std.specs.Prelude.{◌≡◌, true, List, ℕ, ◌*◌, ◌/◌, ◌≤◌, length};
ghost use Rattle.lr1_base.specs.words.Lent.{in_front, zeroed};
ghost use Rattle.lr1_base.specs.repr.Sizes.{record_limit};
ghost use Rattle.lr1_base.specs.repr.Meaning.{Table};
ghost use Rattle.lr1_base.specs.repr.Packed.{productions_in};
ghost use Rattle.lr1_base.specs.repr.Reply.{reply_of};
ghost use Rattle.table.specs.Decoded.{meaning};
ghost use Rattle.table_rewrite.specs.spelling.Spelled.{spell};
ghost use Rattle.lr1_states.specs.canonical.Outcome.{outcome};
ghost use Rattle.lr1_tables.specs.Outcome.{build_scratch, start_is_fit, grammar_alone, built_of, built_in, build_of};
ghost use Rattle.lr1_tables.specs.Ended.{SizesOf, Ended, Laid};

use crate::conflict_list::write_conflicts;
use crate::sizes::{KeptStates, measure};
use crate::state_records::{write_edges, write_items, write_states};
use first::FirstSets;
use lr1_base::repr::{Grammar, ProductionIndex, Refusal};
use lr1_base::words::zero;
use lr1_states::collection::search_states;
use lr1_states::goto::{Sizes, Source};
use lr1_states::state_list::Begins;
use lr1_states::stored_item::StoredItem;
use lr1_states::transitions::Edges;
use table::{AcceptedTable, Counts, RECORDS};
use table_rewrite::grammar_records::{
    count_symbols, write_front, write_productions, write_symbols,
};

// How many records of the table and how many conflicts are written.
#[derive(Clone, Copy)]
pub struct Built {
    pub records: u16,
    pub conflicts: u32,
}

impl Built {
    // The words of scratch that are asked for, and left zero.
    pub const SCRATCH: usize = 64000;
}

// The states found with their edges, and what of the search the table is written of.
#[derive(Clone, Copy)]
struct FoundStates<'a> {
    kept: KeptStates<'a>,
    sizes: Sizes,
    terminals: u16,
    edges: &'a Edges,
}

// Whether the table is a grammar alone: one state, without items and edges.
fn is_grammar_alone(table: AcceptedTable) -> bool
    ensures { result ≡ grammar_alone (meaning table.entry.words.now) }
{
    table.counts().states == 1 && table.first_item(0) == 0 && table.first_edge(0) == 0
}

// Refusal 18.
fn start_fits(table: AcceptedTable, start: usize) -> bool
    ensures { result ≡ start_is_fit (meaning table.entry.words.now) start }
{
    start < table.counts().productions && is_grammar_alone(table)
}

// The table of what was found, region by region.
fn write_table(found: FoundStates, out: &mut [u16])
    requires { (U : Table) × Laid U found out.old }
    ensures { (U : Table) → Laid U found.entry out.old → out.new ≡ in_front (spell U) out.old }
{
    let kept = found.kept;
    let grammar = kept.grammar;
    let sizes = found.sizes;
    let begins = kept.begins;
    let edges = found.edges;
    let states = begins.states;
    let counts = Counts {
        nonterminals: sizes.nonterminals,
        terminals: found.terminals as usize,
        states,
        productions: grammar.productions,
    };
    let items = sizes.fixed + states;
    let ends = items + begins.items[states];
    write_front(grammar, counts, out);
    write_states(begins, &edges.rows, counts.states_at(), items, ends, out);
    write_productions(grammar, counts, out);
    write_symbols(grammar, counts.loose_at(), out);
    write_items(kept.words, begins, items, out);
    write_edges(edges, states, ends, out);
}

// Refusal 17 at the end of the search, else the table and its conflicts. Here and below the lent lists stand one by one, as C hands them over.
fn write_found(found: FoundStates, out: &mut [u16], conflicts: &mut [u16]) -> Result<Built, Refusal>
    requires { (T : Table) × Ended T (length out.old / 4) found }
    ensures { (T : Table) (s : Ended T (length out.old / 4) found.entry) (S : List ℕ) → record { answer = reply_of result; scratch = zeroed build_scratch S; out = out.new; conflicts = conflicts.new } ≡ built_of T S out.old conflicts.old (outcome T s.start (length out.old / 4) (length conflicts.old)) }
{
    let measured = measure(found.kept, found.sizes, &found.edges.rows, conflicts.len())?;
    write_table(found, out);
    write_conflicts(found.kept, conflicts);
    Ok(Built {
        records: measured.records as u16,
        conflicts: measured.conflicts as u32,
    })
}

// How many records there are beside states, items and edges, and how many there may be.
fn sizes_of(table: AcceptedTable, grammar: Grammar, room: usize) -> Sizes
    requires same { (grammar.productions ≡ length (meaning table.words.now).productions) × (productions_in grammar.words.now grammar.productions ≡ (meaning table.words.now).productions) }
    ensures { SizesOf (meaning table.entry.words.now) room result }
{
    let counts = table.counts();
    let nonterminals = counts.nonterminals;
    let symbols = count_symbols(grammar);
    Sizes {
        nonterminals,
        fixed: 1 + nonterminals + grammar.productions + symbols,
        limit: room.min(RECORDS),
    }
}

// The states found in `words`, and written.
fn build_found(
    table: AcceptedTable,
    start: usize,
    words: &mut [u16],
    out: &mut [u16],
    conflicts: &mut [u16],
) -> Result<Built, Refusal>
    requires start_value { (start_is_fit (meaning table.words.now) start ≡ true) × (record_limit * 5 ≤ length words.old) }
    ensures { (S : List ℕ) → record { answer = reply_of result; scratch = zeroed build_scratch S; out = out.new; conflicts = conflicts.new } ≡ built_of (meaning table.entry.words.now) S out.old conflicts.old (outcome (meaning table.entry.words.now) start (length out.old / 4) (length conflicts.old)) }
{
    let mut packed = [0u16; ProductionIndex::ALL_WORDS];
    let grammar = table.read_grammar(&mut packed);
    let sets = FirstSets::new(grammar, table.counts().terminals as u16);
    let sizes = sizes_of(table, grammar, out.len() / 4);
    let source = Source {
        grammar,
        sets: &sets,
        sizes,
    };
    let mut begins = Begins::new();
    let mut kernel = [0u16; StoredItem::KERNEL_WORDS];
    let mut edges = Edges::new();
    search_states(source, start, words, &mut begins, &mut kernel, &mut edges)?;
    let kept = KeptStates {
        grammar,
        words,
        begins: &begins,
    };
    let found = FoundStates {
        kept,
        sizes,
        terminals: sets.terminals,
        edges: &edges,
    };
    write_found(found, out, conflicts)
}

// Refusals 11 and 18, then what is found; scratch is left zero from 18 on.
fn build_in(
    table: AcceptedTable,
    start: usize,
    scratch: &mut [u16],
    out: &mut [u16],
    conflicts: &mut [u16],
) -> Result<Built, Refusal>
    ensures { record { answer = reply_of result; scratch = scratch.new; out = out.new; conflicts = conflicts.new } ≡ built_in (meaning table.entry.words.now) start scratch.old out.old conflicts.old }
{
    if scratch.len() < Built::SCRATCH {
        return Err(Refusal::TooShort);
    }
    let answer = if start_fits(table, start) {
        build_found(table, start, &mut scratch[..Built::SCRATCH], out, conflicts)
    } else {
        Err(Refusal::NoGrammar)
    };
    zero(scratch, Built::SCRATCH);
    answer
}

// The states of a grammar: its table with them at the front of `out`, its conflicts at the front of `conflicts`, five words each. Refusals 1 to 8, 11, 18, then 16 or 17 as states are found.
pub fn build_states(
    table: &[u16],
    start: ProductionIndex,
    scratch: &mut [u16],
    out: &mut [u16],
    conflicts: &mut [u16],
) -> Result<Built, Refusal>
    ensures { record { answer = reply_of result; scratch = scratch.new; out = out.new; conflicts = conflicts.new } ≡ build_of table.now start.0 scratch.old out.old conflicts.old }
{
    let accepted = table_check::check(table)?;
    build_in(accepted, start.0 as usize, scratch, out, conflicts)
}
