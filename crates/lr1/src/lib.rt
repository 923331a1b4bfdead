// The public surface. Every entry is total, refuses by docs/RULES.md, "Refusals", and is equated with a definition of specs/Entries, specs/Edges or the specs/Outcome of trace, of spelling, of compaction, of builder, of yacc_read and of yacc_write.
// Parameters: table, then numbers, then lent lists.

#![tactic(auto)]

ghost use Rattle.std.specs.Prelude.{◌≡◌, ◌++◌, IfOk};
ghost use Rattle.first.specs.First.{sets_of_first};
ghost use Rattle.table.specs.Decoded.{meaning};
ghost use Rattle.lr1_base.specs.repr.Reply.{reply_of};
ghost use Rattle.table.specs.Checked.{checked_of};
ghost use Rattle.table.specs.Refusals.{check_of};
ghost use Rattle.table_rewrite.specs.spelling.Outcome.{respell_of};
ghost use Rattle.table_rewrite.specs.compaction.Outcome.{compact_of};
ghost use Rattle.lr1_tables.specs.Outcome.{build_of};
ghost use Rattle.yacc_reader.specs.parsed_file.Outcome.{read_of};
ghost use Rattle.yacc_writer.specs.text.Outcome.{write_of};
ghost use Rattle.trace_graph.specs.Nodes.{node_value};
ghost use Rattle.trace.specs.Outcome.{outcome, trace_by, shift_of, reduce_of};
ghost use Rattle.trace.specs.Built.{edges_by};
ghost use Rattle.lr1.specs.Edges.{edge_outcome, added_edge_in, add_edge_of};
ghost use Rattle.lr1.specs.Entries.{first0_answer, first0_of, first1_answer, first1_of, walk_of, trace_back_answer, trace_back_of};

use first::{Answer, FirstSets};
use lr1_base::item::Item;
use lr1_base::lookahead::TokenSet;
use lr1_base::repr::{ProductionIndex, Refusal, joined_fits, list_fits};
use lr1_tables::Built;
use state_graph::{StateIndex, StateSet};
use table::AcceptedTable;
use trace::{Action, TracedItem};
use trace_graph::{TraceEdge, TraceGraph, TraceGraphNode, check_graph, edge_fits, insert};
use yacc_reader::parsed_file::Reading;

// Whether a table is accepted; else the refusal, 1 to 8, and its place.
pub fn check(table: &[u16]) -> Result<AcceptedTable, Refusal>
    ensures answer { checked_of result ≡ check_of table.now }
    ensures same { IfOk result (λ t. t.words.now ≡ table.now) }
{
    table_check::check(table)
}

// Writes an accepted table afresh in the single spelling of its meaning, at the front of `out` (docs/RULES.md, "One spelling"), and answers how many records that are. Refusals 1 to 8, then 17 where they
// pass 8,192 or the room of `out`; no refusal changes a word.
pub fn respell(table: &[u16], out: &mut [u16]) -> Result<u16, Refusal>
    ensures { record { answer = reply_of result; out = out.new } ≡ respell_of table.now out.old }
{
    table_rewrite::spelling::respell(table, out)
}

// Takes back the records of an accepted table that no chain reaches, in place (docs/RULES.md, "Unused records"): the reached ones move down, the freed end is 0; answers how many are left.
// Refusals 1 to 8 alone; they change no word.
pub fn compact(table: &mut [u16]) -> Result<u16, Refusal>
    ensures { record { answer = reply_of result; table = table.new } ≡ compact_of table.old }
{
    table_rewrite::compaction::compact(table)
}

// Builds the canonical LR(1) states of a grammar, a table of one state without items and edges (docs/RULES.md, "Building states"), from a start production: the full table at the front of `out`, its conflicts, five words
// each, at the front of `conflicts`; answers how many records and how many conflicts. Refusals 1 to 8, 11, 18, then 16 or 17 as states are found; from 16 on scratch is zeroed, as with success.
pub fn build_states(
    table: &[u16],
    start: ProductionIndex,
    scratch: &mut [u16],
    out: &mut [u16],
    conflicts: &mut [u16],
) -> Result<Built, Refusal>
    ensures { record { answer = reply_of result; scratch = scratch.new; out = out.new; conflicts = conflicts.new } ≡ build_of table.now start.0 scratch.old out.old conflicts.old }
{
    lr1_tables::build_states(table, start, scratch, out, conflicts)
}

// Reads the rules of a yacc text (docs/YACC.md) into a grammar, a table of one state without items and edges, at the front of `table`, and where each nonterminal and each terminal got its number
// to the front of `places`; answers how many records, how many places, and the start nonterminal. Refusals 20, 21, 2, 5, 17 in this order; they change no word.
pub fn read_yacc(text: &[u8], table: &mut [u16], places: &mut [u16]) -> Result<Reading, Refusal>
    ensures { record { answer = reply_of result; table = table.new; places = places.new } ≡ read_of text.now table.old places.old }
{
    yacc_reader::read_yacc(text, table, places)
}

// Writes the grammar of a table as a yacc text at the front of `text` (docs/YACC.md), and answers how many bytes that are. Refusals 1 to 8, then 23 where a nonterminal has no production or the first ones do
// not ascend, then 17; they change no byte.
pub fn write_yacc(table: &[u16], text: &mut [u8]) -> Result<u16, Refusal>
    ensures { record { answer = reply_of result; text = text.new } ≡ write_of table.now text.old }
{
    yacc_writer::write_yacc(table, text)
}

// FIRST of a list of symbols, kind and number each: the terminals that begin what it derives, and whether it derives the empty list.
pub fn first0(table: &[u16], symbols: &[u16]) -> Result<Answer, Refusal>
    ensures { reply_of result ≡ first0_of table.now symbols.now }
{
    first0_joined(table, &symbols[..0], symbols)
}

// FIRST of two lists joined, which may break a symbol between them (docs/RULES.md, "Joined lists").
pub fn first0_joined(table: &[u16], xs: &[u16], ys: &[u16]) -> Result<Answer, Refusal>
    ensures { reply_of result ≡ first0_of table.now (xs.now ++ ys.now) }
{
    let accepted = table_check::check(table)?;
    first0_in(accepted, xs, ys)
}

// FIRST of every nonterminal.
fn first_sets(table: AcceptedTable) -> FirstSets
    ensures is { result.map ≡ sets_of_first (meaning table.entry.words.now).terminals (meaning table.entry.words.now).productions }
    ensures terminals { result.terminals ≡ (meaning table.entry.words.now).terminals }
{
    let mut words = [0u16; ProductionIndex::ALL_WORDS];
    let grammar = table.read_grammar(&mut words);
    FirstSets::new(grammar, table.counts().terminals as u16)
}

fn first0_in(table: AcceptedTable, xs: &[u16], ys: &[u16]) -> Result<Answer, Refusal>
    ensures { reply_of result ≡ first0_answer (xs.now ++ ys.now) (meaning table.entry.words.now) }
{
    let counts = table.counts();
    if joined_fits(counts.nonterminals, counts.terminals, xs, ys) {
        Ok(first_sets(table).first0_joined(xs, ys))
    } else {
        Err(Refusal::OutOfRange)
    }
}

// FIRST of a list that a token of the lookahead follows.
pub fn first1(table: &[u16], lookahead: TokenSet, symbols: &[u16]) -> Result<TokenSet, Refusal>
    ensures { reply_of result ≡ first1_of table.now symbols.now lookahead.0 }
{
    let accepted = table_check::check(table)?;
    first1_in(accepted, lookahead, symbols)
}

fn first1_in(
    table: AcceptedTable,
    lookahead: TokenSet,
    symbols: &[u16],
) -> Result<TokenSet, Refusal>
    ensures { reply_of result ≡ first1_answer symbols.now lookahead.0 (meaning table.entry.words.now) }
{
    let counts = table.counts();
    if list_fits(counts.nonterminals, counts.terminals, symbols)
        && lookahead.fits(counts.terminals)
    {
        Ok(first_sets(table).first1(symbols, lookahead))
    } else {
        Err(Refusal::OutOfRange)
    }
}

// The states from which a path of edges spells the symbols and ends at the given state.
pub fn trace_back(table: &[u16], state: StateIndex, symbols: &[u16]) -> Result<StateSet, Refusal>
    ensures { walk_of result ≡ trace_back_of table.now state.0 symbols.now }
{
    trace_back_joined(table, state, &symbols[..0], symbols)
}

// The same over two lists joined, which may break a symbol between them (docs/RULES.md, "Joined lists").
pub fn trace_back_joined(
    table: &[u16],
    state: StateIndex,
    xs: &[u16],
    ys: &[u16],
) -> Result<StateSet, Refusal>
    ensures { walk_of result ≡ trace_back_of table.now state.0 (xs.now ++ ys.now) }
{
    let states = table_check::check(table)?;
    trace_back_in(states, state, xs, ys)
}

fn trace_back_in(
    table: AcceptedTable,
    state: StateIndex,
    xs: &[u16],
    ys: &[u16],
) -> Result<StateSet, Refusal>
    ensures { walk_of result ≡ trace_back_answer state.0 (xs.now ++ ys.now) (meaning table.entry.words.now) }
{
    let counts = table.counts();
    let number = state.0 as usize;
    if number < counts.states && joined_fits(counts.nonterminals, counts.terminals, xs, ys) {
        Ok(state_graph::trace_back_joined(table, number, xs, ys))
    } else {
        Err(Refusal::OutOfRange)
    }
}

// Puts an edge, whose label is the item at `index` of `production`, into a graph that the caller lends, unless an equal one is there (docs/RULES.md, "The trace graph").
pub fn add_edge(
    table: &[u16],
    source: TraceGraphNode,
    target: TraceGraphNode,
    production: ProductionIndex,
    index: u16,
    graph: &mut [u16],
) -> Result<u16, Refusal>
    ensures { edge_outcome (reply_of result) graph.new ≡ add_edge_of table.now (record { source = node_value source; target = node_value target; label = record { production = production.0; index = index } }) graph.old }
{
    let accepted = table_check::check(table)?;
    let edge = TraceEdge {
        source: source.words(),
        target: target.words(),
        label: Item::of(production, index),
    };
    add_edge_in(accepted, edge, graph)
}

// The lowest refusal first: 9 for the edge itself comes before 11; only a graph that is long enough is looked into. No refusal changes a word.
fn add_edge_in(table: AcceptedTable, edge: TraceEdge, graph: &mut [u16]) -> Result<u16, Refusal>
    ensures { edge_outcome (reply_of result) graph.new ≡ added_edge_in edge graph.old (meaning table.entry.words.now) }
{
    let n = table.counts().nonterminals;
    let mut words = [0u16; ProductionIndex::ALL_WORDS];
    let grammar = table.read_grammar(&mut words);
    if !edge_fits(grammar, n, edge) {
        return Err(Refusal::OutOfRange);
    }
    if graph.len() < TraceGraph::WORDS {
        return Err(Refusal::TooShort);
    }
    let mut ix = [0u16; TraceGraph::INDEX_WORDS];
    if !check_graph(grammar, n, graph, &mut ix) {
        return Err(Refusal::OutOfRange);
    }
    insert(grammar, n, graph, &mut ix, edge)?;
    Ok(graph[0])
}

// The one trace or the other, of a table as it is lent.
fn backtrace(
    table: &[u16],
    traced: TracedItem,
    graph: &mut [u16],
    scratch: &mut [u16],
) -> Result<u16, Refusal>
    ensures { outcome (reply_of result) graph.new scratch.new ≡ trace_by (edges_by traced.action) table.now traced.state (record { production = traced.item.production; index = traced.item.index }) graph.old scratch.old (check_of table.now) }
{
    let accepted = table_check::check(table)?;
    trace::trace_in(accepted, traced, graph, scratch)
}

// The trace of a shift, back from an item in a state (docs/RULES.md, "Tracing"): its edges at the front of the graph, whose old words are not looked at. The answer is their number.
pub fn backtrace_shift(
    table: &[u16],
    state: StateIndex,
    production: ProductionIndex,
    index: u16,
    graph: &mut [u16],
    scratch: &mut [u16],
) -> Result<u16, Refusal>
    ensures { outcome (reply_of result) graph.new scratch.new ≡ shift_of table.now state.0 (record { production = production.0; index = index }) graph.old scratch.old }
{
    let shift = TracedItem {
        state: state.0 as usize,
        item: Item::of(production, index),
        action: Action::Shift,
    };
    backtrace(table, shift, graph, scratch)
}

// The trace of a reduction, in the same way. (Two functions of one form: they are the Rust's, and the C interface has both.)
pub fn backtrace_reduce(
    table: &[u16],
    state: StateIndex,
    production: ProductionIndex,
    index: u16,
    graph: &mut [u16],
    scratch: &mut [u16],
) -> Result<u16, Refusal>
    ensures { outcome (reply_of result) graph.new scratch.new ≡ reduce_of table.now state.0 (record { production = production.0; index = index }) graph.old scratch.old }
{
    let reduction = TracedItem {
        state: state.0 as usize,
        item: Item::of(production, index),
        action: Action::Reduce,
    };
    backtrace(table, reduction, graph, scratch)
}
