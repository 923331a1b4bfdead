// `backtrace_reduce` (lr1/trace/reduce; docs/RULES.md, "Tracing"), over edges of one word: the item step and the state step, which call each other. Each pair of a state and a nonterminal is
// entered once, so the pairs that are left fall. A frame holds references and numbers alone: the calls may nest as deep as there are pairs.
ghost use Rattle.std.specs.Prelude.{OnOk, OnErr, ◌≡◌, ℕ, ◌<◌, ◌≤◌, List, length};
ghost use Rattle.lr1_base.specs.repr.Sizes.{edge_limit};
ghost use Rattle.lr1_base.specs.repr.Meaning.{ItemFits};
ghost use Rattle.table.specs.Decoded.{meaning};
ghost use Rattle.first.specs.First.{nullable};
ghost use Rattle.state_graph.specs.Walk.{traced_back};
ghost use Rattle.state_graph.specs.States.{states_in};
ghost use Rattle.trace.specs.Traced.{Trace, prefix_of, suffix_of};
ghost use Rattle.trace.specs.Reduce.{item_of_reduce, state_of_reduce, reduce_edges};
ghost use Rattle.trace.specs.Ends.{Ends};
ghost use Rattle.trace.specs.edge_codes.Coded.{codes_room, Coded};
ghost use Rattle.trace.specs.edge_codes.Lent.{SameWords};
ghost use Rattle.trace.specs.Held.{pair_words, unset};
ghost use Rattle.trace.specs.Stamps.{Reduces, ReduceExceeds};

use crate::edge_codes::EdgeCodes;
use crate::edges::{to_item, to_nonterminal};
use crate::stamps::Stamps;
use crate::{PAIR_WORDS, Tracer, enter};
use lr1_base::bits::is_set;
use lr1_base::item::Item;
use state_graph::{StateSet, StateWalk};
use trace_graph::Full;

// What a reduce trace works over: also whether each item's suffix may derive the empty string.
#[derive(Clone, Copy)]
pub struct Reduction<'a> {
    pub tracer: Tracer<'a>,
    pub ends: &'a [u64],
    pub ghost suffixes: { Ends (meaning tracer.table.words.now) ends.now },
}

// The states in which the item begins that stands in a state: back over its prefix.
fn begins(tracer: Tracer, walk: &mut StateWalk, state: usize, item: Item) -> StateSet
    requires table { meaning walk.old.table.words.now ≡ meaning tracer.table.words.now }
    requires within { (state < length (meaning tracer.table.words.now).states) × ItemFits (meaning tracer.table.words.now) (record { production = item.production; index = item.index }) }
    ensures found { states_in result.low result.high ≡ traced_back (meaning tracer.entry.table.words.now) state (prefix_of (meaning tracer.entry.table.words.now) (record { production = item.production; index = item.index })) }
    ensures table_after { walk.new.table.words.now ≡ walk.old.table.words.now }
{
    let symbols = item.prefix(tracer.grammar);
    walk.walk_back(StateSet::from(state), symbols)
}

// Whether an item's suffix may derive the empty string.
fn ends_at(over: Reduction, item: Item) -> bool
    requires { ItemFits (meaning over.tracer.table.words.now) (record { production = item.production; index = item.index }) }
    ensures { result ≡ nullable (meaning over.entry.tracer.table.words.now) (suffix_of (meaning over.entry.tracer.table.words.now) (record { production = item.production; index = item.index })) }
{
    is_set(over.ends, item.place())
}

// `trace_reduce_item`: an edge into the item, and on from each state in which the item begins.
// What the two are given travels together in this recursion alone: a struct of it would be made once, in `reduce_codes`, with the edges lent in it, and each clause would go through it.
// What the two work over is lent, so that a frame is small: 4,096 of them may nest.
#[cycle(trace_item_trace_from_state)]
fn trace_item(
    over: &Reduction,
    walk: &mut StateWalk,
    edges: &mut EdgeCodes,
    entered: &mut [u64],
    stamps: &mut Stamps,
    state: usize,
    item: Item,
) -> Result<(), Full>
    requires room { length entered.old ≡ pair_words }
    requires table { meaning walk.old.table.words.now ≡ meaning over.now.tracer.table.words.now }
    requires within { (state < length (meaning over.now.tracer.table.words.now).states) × ItemFits (meaning over.now.tracer.table.words.now) (record { production = item.production; index = item.index }) }
    ensures reduces { OnOk result ((f : ℕ) → unset entered.old ≤ f → Reduces (meaning over.now.tracer.table.words.now) (λ (st : Trace). item_of_reduce (meaning over.now.tracer.table.words.now) (λ (p m : ℕ) (u : Trace). state_of_reduce (meaning over.now.tracer.table.words.now) f p m u) state (record { production = item.production; index = item.index }) st) edges.old.words.now edges.old.flags.now entered.old stamps.old.words edges.new.words.now edges.new.flags.now entered.new stamps.new.words) }
    ensures reduce_exceeds { OnErr result ((f : ℕ) → unset entered.old ≤ f → ReduceExceeds (meaning over.now.tracer.table.words.now) (λ (st : Trace). item_of_reduce (meaning over.now.tracer.table.words.now) (λ (p m : ℕ) (u : Trace). state_of_reduce (meaning over.now.tracer.table.words.now) f p m u) state (record { production = item.production; index = item.index }) st) edges.old.words.now edges.old.flags.now entered.old stamps.old.words) }
    ensures entered_bound { (unset entered.new ≤ unset entered.old) × (walk.new.table.words.now ≡ walk.old.table.words.now) }
    ensures same { SameWords edges.old edges.new }
{
    to_item(over.tracer.least, edges, item)?;
    let owner = over.tracer.grammar.owner(item.production);
    let states = begins(over.tracer, walk, state, item);
    for from in states.iter() {
        trace_from_state(over, walk, edges, entered, stamps, from.0 as usize, owner)?;
    }
    Ok(())
}

// `trace_reduce_from_state`: the items of the state that can shift the nonterminal; where an item's suffix may derive the empty string, it is traced on,
// once from this state: an item that has its stamp was.
// An item is made of its record where it is read, here and below: two fields by their names, for which a function of crate trace would be no plainer.
#[cycle(trace_item_trace_from_state)]
fn trace_from_state(
    over: &Reduction,
    walk: &mut StateWalk,
    edges: &mut EdgeCodes,
    entered: &mut [u64],
    stamps: &mut Stamps,
    state: usize,
    nonterminal: usize,
) -> Result<(), Full>
    requires room { length entered.old ≡ pair_words }
    requires table { meaning walk.old.table.words.now ≡ meaning over.now.tracer.table.words.now }
    requires within { (state < length (meaning over.now.tracer.table.words.now).states) × (nonterminal < length (meaning over.now.tracer.table.words.now).nonterminals) }
    ensures reduces { OnOk result ((f : ℕ) → unset entered.old ≤ f → Reduces (meaning over.now.tracer.table.words.now) (λ (st : Trace). state_of_reduce (meaning over.now.tracer.table.words.now) f state nonterminal st) edges.old.words.now edges.old.flags.now entered.old stamps.old.words edges.new.words.now edges.new.flags.now entered.new stamps.new.words) }
    ensures reduce_exceeds { OnErr result ((f : ℕ) → unset entered.old ≤ f → ReduceExceeds (meaning over.now.tracer.table.words.now) (λ (st : Trace). state_of_reduce (meaning over.now.tracer.table.words.now) f state nonterminal st) edges.old.words.now edges.old.flags.now entered.old stamps.old.words) }
    ensures entered_bound { (unset entered.new ≤ unset entered.old) × (walk.new.table.words.now ≡ walk.old.table.words.now) }
    ensures same { SameWords edges.old edges.new }
{
    if !enter(entered, state, nonterminal) {
        return Ok(());
    }
    for read in over.tracer.table.items(state) {
        let item = Item {
            production: read.production,
            index: read.index,
        };
        if !item.can_shift_nonterminal(over.tracer.grammar, nonterminal) {
            continue;
        }
        let on = ends_at(*over, item);
        to_nonterminal(over.tracer.least, edges, on, item)?;
        if !on || stamps.at(item) == state + 1 {
            continue;
        }
        trace_item(over, walk, edges, entered, stamps, state, item)?;
        stamps.put(item, state + 1);
    }
    Ok(())
}

// The item step, over what its caller holds.
pub fn reduce_item(
    over: Reduction,
    walk: &mut StateWalk,
    edges: &mut EdgeCodes,
    entered: &mut [u64],
    stamps: &mut Stamps,
    state: usize,
    item: Item,
) -> Result<(), Full>
    requires room { length entered.old ≡ pair_words }
    requires table { meaning walk.old.table.words.now ≡ meaning over.tracer.table.words.now }
    requires within { (state < length (meaning over.tracer.table.words.now).states) × ItemFits (meaning over.tracer.table.words.now) (record { production = item.production; index = item.index }) }
    ensures reduces { OnOk result ((f : ℕ) → unset entered.old ≤ f → Reduces (meaning over.entry.tracer.table.words.now) (λ (st : Trace). item_of_reduce (meaning over.entry.tracer.table.words.now) (λ (p m : ℕ) (u : Trace). state_of_reduce (meaning over.entry.tracer.table.words.now) f p m u) state (record { production = item.production; index = item.index }) st) edges.old.words.now edges.old.flags.now entered.old stamps.old.words edges.new.words.now edges.new.flags.now entered.new stamps.new.words) }
    ensures reduce_exceeds { OnErr result ((f : ℕ) → unset entered.old ≤ f → ReduceExceeds (meaning over.entry.tracer.table.words.now) (λ (st : Trace). item_of_reduce (meaning over.entry.tracer.table.words.now) (λ (p m : ℕ) (u : Trace). state_of_reduce (meaning over.entry.tracer.table.words.now) f p m u) state (record { production = item.production; index = item.index }) st) edges.old.words.now edges.old.flags.now entered.old stamps.old.words) }
    ensures entered_bound { (unset entered.new ≤ unset entered.old) × (walk.new.table.words.now ≡ walk.old.table.words.now) }
    ensures same { SameWords edges.old edges.new }
{
    trace_item(&over, walk, edges, entered, stamps, state, item)
}

// The state step, over what its caller holds.
pub fn reduce_state(
    over: Reduction,
    walk: &mut StateWalk,
    edges: &mut EdgeCodes,
    entered: &mut [u64],
    stamps: &mut Stamps,
    state: usize,
    nonterminal: usize,
) -> Result<(), Full>
    requires room { length entered.old ≡ pair_words }
    requires table { meaning walk.old.table.words.now ≡ meaning over.tracer.table.words.now }
    requires within { (state < length (meaning over.tracer.table.words.now).states) × (nonterminal < length (meaning over.tracer.table.words.now).nonterminals) }
    ensures reduces { OnOk result ((f : ℕ) → unset entered.old ≤ f → Reduces (meaning over.entry.tracer.table.words.now) (λ (st : Trace). state_of_reduce (meaning over.entry.tracer.table.words.now) f state nonterminal st) edges.old.words.now edges.old.flags.now entered.old stamps.old.words edges.new.words.now edges.new.flags.now entered.new stamps.new.words) }
    ensures reduce_exceeds { OnErr result ((f : ℕ) → unset entered.old ≤ f → ReduceExceeds (meaning over.entry.tracer.table.words.now) (λ (st : Trace). state_of_reduce (meaning over.entry.tracer.table.words.now) f state nonterminal st) edges.old.words.now edges.old.flags.now entered.old stamps.old.words) }
    ensures entered_bound { (unset entered.new ≤ unset entered.old) × (walk.new.table.words.now ≡ walk.old.table.words.now) }
    ensures same { SameWords edges.old edges.new }
{
    trace_from_state(&over, walk, edges, entered, stamps, state, nonterminal)
}

// `backtrace_reduce`: the words may hold anything before. The traced item itself gets no stamp: where it is met again, not all of its pairs are entered yet.
pub fn reduce_codes(
    over: Reduction,
    state: usize,
    item: Item,
    words: &mut [u16],
) -> Result<(), Full>
    requires room { length words.old ≡ codes_room }
    requires within { (state < length (meaning over.tracer.table.words.now).states) × ItemFits (meaning over.tracer.table.words.now) (record { production = item.production; index = item.index }) }
    ensures coded { OnOk result ((fs : List ℕ) × Coded (meaning over.entry.tracer.table.words.now) words.new fs (reduce_edges (meaning over.entry.tracer.table.words.now) state (record { production = item.production; index = item.index }))) }
    ensures full { OnErr result (edge_limit < length (reduce_edges (meaning over.entry.tracer.table.words.now) state (record { production = item.production; index = item.index }))) }
{
    let mut flags = [0u64; EdgeCodes::KEY_WORDS];
    let mut entered = [0u64; PAIR_WORDS];
    let mut edges = EdgeCodes::of(words, &mut flags);
    edges.clear();
    let mut walk = StateWalk::new(over.tracer.table);
    let mut stamps = Stamps::new();
    reduce_item(
        over,
        &mut walk,
        &mut edges,
        &mut entered,
        &mut stamps,
        state,
        item,
    )
}
