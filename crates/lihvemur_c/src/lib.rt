// The public surface in numbers, a static library for C (include/lihvemur.h). Each function answers 0, or the refusal, whose place it
// writes behind `place`; a number behind another reference is written only with answer 0 (count and openness of a listing always). Lent graph and scratch words are left as the entry leaves them.

#![tactic(auto)]

pub mod classes;
pub mod listings;

ghost use Rattle.std.specs.Prelude.{◌≡◌, ◌++◌};
ghost use Rattle.lr1_base.specs.repr.Reply.{number_of, place_of};
ghost use Rattle.table.specs.Refusals.{check_of};
ghost use Rattle.table_rewrite.specs.spelling.Outcome.{respell_of};
ghost use Rattle.table_rewrite.specs.compaction.Outcome.{compact_of};
ghost use Rattle.lr1_tables.specs.Outcome.{build_of};
ghost use Rattle.yacc_reader.specs.parsed_file.Outcome.{read_of};
ghost use Rattle.yacc_writer.specs.text.Outcome.{write_of};
ghost use Rattle.state_graph.specs.States.{states_in};
ghost use Rattle.lr1.specs.Entries.{first0_of, first1_of, trace_back_of};
ghost use Rattle.lr1.specs.Edges.{add_edge_of};
ghost use Rattle.trace.specs.Outcome.{shift_of, reduce_of};
ghost use Rattle.lihvemur_c.specs.Exported.{Told, HandedOut, numbers, check_numbers, spell_numbers, respell_numbers, compact_numbers, build_numbers, built_numbers, read_numbers, reading_numbers, write_numbers, writing_numbers, set_numbers, followed_numbers, answer_numbers, first_numbers, state_numbers, walk_numbers, add_numbers, edge_numbers, trace_numbers, backtrace_numbers};

use lr1_base::lookahead::TokenSet;
use lr1_base::repr::{ProductionIndex, Refusal};
use state_graph::StateIndex;
use trace_graph::TraceGraphNode;

// A refusal in numbers.
fn refuse(refusal: Refusal, place: &mut u16) -> u16
    ensures number { result ≡ number_of refusal }
    ensures place { place.new ≡ place_of refusal }
{
    *place = refusal.place();
    refusal.number()
}

// 0 and what is answered, to be written behind its references; or a refusal in numbers and nothing.
fn told<T>(answer: Result<T, Refusal>, place: &mut u16) -> (u16, Option<T>)
    ensures { Told answer result.0 place.new result.1 }
{
    match answer {
        Ok(found) => {
            *place = 0;
            (0, Some(found))
        }
        Err(refusal) => (refuse(refusal, place), None),
    }
}

// A count behind its reference, or a refusal in numbers.
fn hand_out(answer: Result<u16, Refusal>, count: &mut u16, place: &mut u16) -> u16
    ensures { HandedOut answer result place.new count.old count.new }
{
    let (number, found) = told(answer, place);
    if let Some(found) = found {
        *count = found;
    }
    number
}

#[unsafe(no_mangle)]
pub extern "C" fn lihvemur_check(table: &[u16], place: &mut u16) -> u16
    ensures { numbers result place.new ≡ check_numbers (check_of table.now) }
{
    told(lr1::check(table), place).0
}

#[unsafe(no_mangle)]
pub extern "C" fn lihvemur_respell(
    table: &[u16],
    out: &mut [u16],
    records: &mut u16,
    place: &mut u16,
) -> u16
    ensures { spell_numbers result place.new records.new out.new ≡ respell_numbers records.old (respell_of table.now out.old) }
{
    hand_out(lr1::respell(table, out), records, place)
}

#[unsafe(no_mangle)]
pub extern "C" fn lihvemur_compact(table: &mut [u16], records: &mut u16, place: &mut u16) -> u16
    ensures { spell_numbers result place.new records.new table.new ≡ compact_numbers records.old (compact_of table.old) }
{
    hand_out(lr1::compact(table), records, place)
}

// The number of conflicts may pass 65,535, so it has 32 bits.
#[unsafe(no_mangle)]
pub extern "C" fn lihvemur_build_states(
    table: &[u16],
    start: u16,
    scratch: &mut [u16],
    out: &mut [u16],
    conflicts: &mut [u16],
    records: &mut u16,
    count: &mut u32,
    place: &mut u16,
) -> u16
    ensures { build_numbers result place.new records.new count.new scratch.new out.new conflicts.new ≡ built_numbers records.old count.old (build_of table.now start scratch.old out.old conflicts.old) }
{
    let answer = lr1::build_states(table, ProductionIndex(start), scratch, out, conflicts);
    let (number, built) = told(answer, place);
    if let Some(built) = built {
        *records = built.records;
        *count = built.conflicts;
    }
    number
}

#[unsafe(no_mangle)]
pub extern "C" fn lihvemur_read_yacc(
    text: &[u8],
    table: &mut [u16],
    places: &mut [u16],
    records: &mut u16,
    count: &mut u16,
    start: &mut u16,
    place: &mut u16,
) -> u16
    ensures { read_numbers result place.new records.new count.new start.new table.new places.new ≡ reading_numbers records.old count.old start.old (read_of text.now table.old places.old) }
{
    let (number, read) = told(lr1::read_yacc(text, table, places), place);
    if let Some(read) = read {
        *records = read.records;
        *count = read.places;
        *start = read.start.0;
    }
    number
}

#[unsafe(no_mangle)]
pub extern "C" fn lihvemur_write_yacc(
    table: &[u16],
    text: &mut [u8],
    bytes: &mut u16,
    place: &mut u16,
) -> u16
    ensures { write_numbers result place.new bytes.new text.new ≡ writing_numbers bytes.old (write_of table.now text.old) }
{
    hand_out(lr1::write_yacc(table, text), bytes, place)
}

#[unsafe(no_mangle)]
pub extern "C" fn lihvemur_first0(
    table: &[u16],
    symbols: &[u16],
    set: &mut u64,
    nullable: &mut bool,
    place: &mut u16,
) -> u16
    ensures { answer_numbers result place.new set.new nullable.new ≡ first_numbers set.old nullable.old (first0_of table.now symbols.now) }
{
    lihvemur_first0_joined(table, &symbols[..0], symbols, set, nullable, place)
}

#[unsafe(no_mangle)]
pub extern "C" fn lihvemur_first0_joined(
    table: &[u16],
    xs: &[u16],
    ys: &[u16],
    set: &mut u64,
    nullable: &mut bool,
    place: &mut u16,
) -> u16
    ensures { answer_numbers result place.new set.new nullable.new ≡ first_numbers set.old nullable.old (first0_of table.now (xs.now ++ ys.now)) }
{
    let (number, answer) = told(lr1::first0_joined(table, xs, ys), place);
    if let Some(answer) = answer {
        *set = answer.tokens.0;
        *nullable = answer.nullable;
    }
    number
}

#[unsafe(no_mangle)]
pub extern "C" fn lihvemur_first1(
    table: &[u16],
    lookahead: u64,
    symbols: &[u16],
    set: &mut u64,
    place: &mut u16,
) -> u16
    ensures { set_numbers result place.new set.new ≡ followed_numbers set.old (first1_of table.now symbols.now lookahead) }
{
    let (number, tokens) = told(lr1::first1(table, TokenSet(lookahead), symbols), place);
    if let Some(tokens) = tokens {
        *set = tokens.0;
    }
    number
}

#[unsafe(no_mangle)]
pub extern "C" fn lihvemur_trace_back(
    table: &[u16],
    state: u16,
    symbols: &[u16],
    low: &mut u64,
    high: &mut u64,
    place: &mut u16,
) -> u16
    ensures { state_numbers result place.new (states_in low.new high.new) ≡ walk_numbers (states_in low.old high.old) (trace_back_of table.now state symbols.now) }
{
    lihvemur_trace_back_joined(table, state, &symbols[..0], symbols, low, high, place)
}

#[unsafe(no_mangle)]
pub extern "C" fn lihvemur_trace_back_joined(
    table: &[u16],
    state: u16,
    xs: &[u16],
    ys: &[u16],
    low: &mut u64,
    high: &mut u64,
    place: &mut u16,
) -> u16
    ensures { state_numbers result place.new (states_in low.new high.new) ≡ walk_numbers (states_in low.old high.old) (trace_back_of table.now state (xs.now ++ ys.now)) }
{
    let (number, states) = told(
        lr1::trace_back_joined(table, StateIndex(state), xs, ys),
        place,
    );
    if let Some(states) = states {
        *low = states.low;
        *high = states.high;
    }
    number
}

// A node is kind (0 nonterminal, 1 item), its nonterminal or production, and 0 or the item's index; the label is the item at `index` of `production`.
#[unsafe(no_mangle)]
pub extern "C" fn lihvemur_add_edge(
    table: &[u16],
    source_kind: u16,
    source: u16,
    source_index: u16,
    target_kind: u16,
    target: u16,
    target_index: u16,
    production: u16,
    index: u16,
    graph: &mut [u16],
    edges: &mut u16,
    place: &mut u16,
) -> u16
    ensures { add_numbers result place.new edges.new graph.new ≡ edge_numbers edges.old (add_edge_of table.now (record { source = record { kind = source_kind; number = source; index = source_index }; target = record { kind = target_kind; number = target; index = target_index }; label = record { production = production; index = index } }) graph.old) }
{
    let from = TraceGraphNode::of(source_kind, source, source_index);
    let to = TraceGraphNode::of(target_kind, target, target_index);
    let answer = lr1::add_edge(table, from, to, ProductionIndex(production), index, graph);
    hand_out(answer, edges, place)
}

// Here and below two functions that read alike, as the Rust and C have two names.
#[unsafe(no_mangle)]
pub extern "C" fn lihvemur_backtrace_shift(
    table: &[u16],
    state: u16,
    production: u16,
    index: u16,
    graph: &mut [u16],
    scratch: &mut [u16],
    edges: &mut u16,
    place: &mut u16,
) -> u16
    ensures { trace_numbers result place.new edges.new graph.new scratch.new ≡ backtrace_numbers edges.old (shift_of table.now state (record { production = production; index = index }) graph.old scratch.old) }
{
    let p = ProductionIndex(production);
    let answer = lr1::backtrace_shift(table, StateIndex(state), p, index, graph, scratch);
    hand_out(answer, edges, place)
}

#[unsafe(no_mangle)]
pub extern "C" fn lihvemur_backtrace_reduce(
    table: &[u16],
    state: u16,
    production: u16,
    index: u16,
    graph: &mut [u16],
    scratch: &mut [u16],
    edges: &mut u16,
    place: &mut u16,
) -> u16
    ensures { trace_numbers result place.new edges.new graph.new scratch.new ≡ backtrace_numbers edges.old (reduce_of table.now state (record { production = production; index = index }) graph.old scratch.old) }
{
    let p = ProductionIndex(production);
    let answer = lr1::backtrace_reduce(table, StateIndex(state), p, index, graph, scratch);
    hand_out(answer, edges, place)
}
