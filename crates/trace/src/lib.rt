// Backward tracing (lr1/trace/mod.rs): its definitions, what is proved of them, and which items have a nullable suffix.
// Whole traces (`Tracer` of lr1/trace/mod.rs) over an accepted table: edges of one word, and at the end a graph's words.

#![tactic(auto)]

pub mod edge_codes;
pub mod edges;
pub mod nullable_suffixes;
pub mod reduce;
pub mod shift;
pub mod stamps;
pub mod tails;

ghost use Rattle.std.specs.Prelude.{OnOk, OnErr, MatchOption, ◌≡◌, ℕ, ◌+◌, ◌*◌, ◌<◌, ◌≤◌, true, false, eqb, List, [], length};
ghost use Rattle.lr1_base.specs.repr.Sizes.{nonterminal_limit, state_limit, edge_limit, graph_room, scratch_words};
ghost use Rattle.lr1_base.specs.repr.Listed.{listed};
ghost use Rattle.lr1_base.specs.repr.Packed.{symbol_words};
ghost use Rattle.lr1_base.specs.repr.Reply.{reply_of};
ghost use Rattle.lr1_base.specs.item.Items.{shifts_nonterminal};
ghost use Rattle.lr1_base.specs.words.Lent.{in_front};
ghost use Rattle.table.specs.Decoded.{meaning};
ghost use Rattle.trace_graph.specs.Words.{graph_words};
ghost use Rattle.trace.specs.Ends.{Ends};
ghost use Rattle.lr1_base.specs.bits.Bits.{bit_at, bit_put};
ghost use Rattle.trace.specs.edge_codes.Coded.{codes_room, Coded};
ghost use Rattle.trace.specs.Held.{pair_words, Working};
ghost use Rattle.trace.specs.Outcome.{outcome, edges_outcome, traced_in};
ghost use Rattle.trace.specs.Built.{Asked, edges_by};
ghost use Rattle.trace.specs.declared.Action.TheVariants.{Reduce};
ghost use Rattle.lr1_base.specs.repr.Meaning as meaning-of;

use crate::edge_codes::{EdgeCodes, least_productions, write_codes};
use crate::nullable_suffixes::suffix_ends;
use crate::reduce::{Reduction, reduce_codes};
use crate::shift::shift_codes;
use first::FirstSets;
use lr1_base::bits::{is_set, put};
use lr1_base::item::Item;
use lr1_base::repr::{Grammar, NonterminalString, ProductionIndex, Refusal, Symbol, word};
use state_graph::StateIndex;
use table::AcceptedTable;
use trace_graph::{Full, TraceGraph, item_fits};

// What a trace works over: an accepted table, its productions packed, and of each production the least equal one.
#[derive(Clone, Copy)]
pub struct Tracer<'a> {
    pub table: AcceptedTable<'a>,
    pub grammar: Grammar<'a>,
    pub least: &'a [u8],
    pub ghost working: { Working table.words.now grammar.words.now grammar.productions least.now },
}

// The nonterminal at an item's cursor, if there is one.
fn nonterminal_at(grammar: Grammar, item: Item) -> Option<usize>
    requires { item.production < grammar.productions }
    ensures { MatchOption result ((n : ℕ) → shifts_nonterminal (listed (symbol_words grammar.entry.words.now item.production)) item.index n ≡ false) (λ m. (m < nonterminal_limit) × ((n : ℕ) → shifts_nonterminal (listed (symbol_words grammar.entry.words.now item.production)) item.index n ≡ eqb m n)) }
{
    match item.cursor(grammar) {
        Some(Symbol::Nonterminal(nonterminal)) => Some(nonterminal.0 as usize),
        Some(Symbol::Terminal(_)) => None,
        None => None,
    }
}

// Words for a bit for each pair of a state and a nonterminal, which tracing enters once. They are lent beside a trace's edges: of a struct within a struct over words lent, nothing is known once it is let go, and one of these bits alone would have each function say that it stays over them, as of `EdgeCodes`.
pub const PAIR_WORDS: usize = StateIndex::LIMIT * NonterminalString::LIMIT / 64;

// Whether a pair is entered.
fn is_entered(entered: &[u64], state: usize, nonterminal: usize) -> bool
    requires room { length entered.now ≡ pair_words }
    requires within { (state < state_limit) × (nonterminal < nonterminal_limit) }
    ensures { result ≡ bit_at entered.now (state * nonterminal_limit + nonterminal) }
{
    is_set(entered, state * NonterminalString::LIMIT + nonterminal)
}

// Enters a pair: whether it is new (`visited_set.insert`).
fn enter(entered: &mut [u64], state: usize, nonterminal: usize) -> bool
    requires room { length entered.old ≡ pair_words }
    requires within { (state < state_limit) × (nonterminal < nonterminal_limit) }
    ensures new { result ≡ true → (bit_at entered.old (state * nonterminal_limit + nonterminal) ≡ false) × (entered.new ≡ bit_put entered.old (state * nonterminal_limit + nonterminal)) }
    ensures known { result ≡ false → (bit_at entered.old (state * nonterminal_limit + nonterminal) ≡ true) × (entered.new ≡ entered.old) }
{
    if is_entered(entered, state, nonterminal) {
        return false;
    }
    put(entered, state * NonterminalString::LIMIT + nonterminal);
    true
}

// Which trace: back from a shift of an item's cursor, or from a reduction by it.
#[derive(Clone, Copy, PartialEq, Eq)]
pub enum Action {
    Shift,
    Reduce,
}

// What is traced: an item that stands in a state, by the one action or the other.
#[derive(Clone, Copy)]
pub struct TracedItem {
    pub state: usize,
    pub item: Item,
    pub action: Action,
}

// The one trace or the other, its edges' words in those lent, which may hold anything before; a reduction goes by the flags of the items whose suffixes are nullable.
pub fn trace_codes<'a>(
    tracer: Tracer<'a>,
    ends: &'a [u64],
    traced: TracedItem,
    words: &mut [u16],
) -> Result<(), Full>
    requires room { length words.old ≡ codes_room }
    requires within { (traced.state < length (meaning tracer.table.words.now).states) × meaning-of.ItemFits (meaning tracer.table.words.now) (record { production = traced.item.production; index = traced.item.index }) }
    requires suffixes { traced.action ≡ Reduce → Ends (meaning tracer.table.words.now) ends.now }
    ensures coded { OnOk result ((fs : List ℕ) × Coded (meaning tracer.entry.table.words.now) words.new fs (edges_by traced.action (meaning tracer.entry.table.words.now) traced.state (record { production = traced.item.production; index = traced.item.index }))) }
    ensures full { OnErr result (edge_limit < length (edges_by traced.action (meaning tracer.entry.table.words.now) traced.state (record { production = traced.item.production; index = traced.item.index }))) }
{
    let state = traced.state;
    let item = traced.item;
    match traced.action {
        Action::Shift => shift_codes(tracer, state, item, words),
        Action::Reduce => reduce_codes(Reduction { tracer, ends }, state, item, words),
    }
}

// The flags that a reduction asks for; a shift asks for none.
fn ends_for(tracer: Tracer, action: Action) -> [u64; Item::FLAG_WORDS]
    ensures { action ≡ Reduce → Ends (meaning tracer.entry.table.words.now) result }
{
    match action {
        Action::Shift => [0u64; Item::FLAG_WORDS],
        Action::Reduce => {
            let terminals = tracer.table.counts().terminals as u16;
            let sets = FirstSets::new(tracer.grammar, terminals);
            suffix_ends(tracer.grammar, &sets)
        }
    }
}

// The trace, its graph at the front of the words lent; one of too many edges leaves them as they were.
pub fn build(
    table: AcceptedTable,
    grammar: Grammar,
    traced: TracedItem,
    graph: &mut [u16],
) -> Result<(), Full>
    requires asked { Asked table.words.now grammar.words.now grammar.productions traced.state traced.item.production traced.item.index }
    requires room { graph_room ≤ length graph.old }
    ensures built { OnOk result ((length (edges_by traced.action (meaning table.entry.words.now) traced.state (record { production = traced.item.production; index = traced.item.index })) ≤ edge_limit) × (graph.new ≡ in_front (graph_words (edges_by traced.action (meaning table.entry.words.now) traced.state (record { production = traced.item.production; index = traced.item.index }))) graph.old)) }
    ensures full { OnErr result ((edge_limit < length (edges_by traced.action (meaning table.entry.words.now) traced.state (record { production = traced.item.production; index = traced.item.index }))) × (graph.new ≡ graph.old)) }
{
    let least = least_productions(grammar);
    let tracer = Tracer {
        table,
        grammar,
        least: &least,
    };
    let mut words = [0u16; EdgeCodes::WORDS];
    let ends = ends_for(tracer, traced.action);
    trace_codes(tracer, &ends, traced, &mut words)?;
    write_codes(grammar.words, &words, graph);
    Ok(())
}

// A refusal of too many edges leaves the graph as it was; scratch is zero at the end.
fn work(
    table: AcceptedTable,
    grammar: Grammar,
    traced: TracedItem,
    graph: &mut [u16],
    scratch: &mut [u16],
) -> Result<u16, Refusal>
    requires asked { Asked table.words.now grammar.words.now grammar.productions traced.state traced.item.production traced.item.index }
    requires room { (graph_room ≤ length graph.old) × (scratch_words ≤ length scratch.old) }
    ensures { outcome (reply_of result) graph.new scratch.new ≡ edges_outcome graph.old scratch.old (edges_by traced.action (meaning table.entry.words.now) traced.state (record { production = traced.item.production; index = traced.item.index })) }
{
    scratch[..TraceGraph::SCRATCH].fill(0);
    build(table, grammar, traced, graph)?;
    Ok(word(graph, 0) as u16)
}

// `backtrace_shift` or `backtrace_reduce` over an accepted table: the number of edges, which are in the graph. Refusals 9 and 11 change nothing.
pub fn trace_in(
    table: AcceptedTable,
    traced: TracedItem,
    graph: &mut [u16],
    scratch: &mut [u16],
) -> Result<u16, Refusal>
    ensures { outcome (reply_of result) graph.new scratch.new ≡ traced_in (edges_by traced.action) traced.state (record { production = traced.item.production; index = traced.item.index }) graph.old scratch.old (meaning table.entry.words.now) }
{
    let item = traced.item;
    if traced.state >= table.counts().states {
        return Err(Refusal::OutOfRange);
    }
    let mut words = [0u16; ProductionIndex::ALL_WORDS];
    let grammar = table.read_grammar(&mut words);
    if !item_fits(grammar, item) {
        return Err(Refusal::OutOfRange);
    }
    if graph.len() < TraceGraph::WORDS || scratch.len() < TraceGraph::SCRATCH {
        return Err(Refusal::TooShort);
    }
    work(table, grammar, traced, graph, scratch)
}
