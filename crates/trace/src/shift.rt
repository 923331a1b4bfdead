// `backtrace_shift` (lr1/trace/shift; docs/RULES.md, "Tracing"), over edges of one word: straight over the chain of a state's items.
ghost use Rattle.std.specs.Prelude.{OnOk, OnErr, ◌≡◌, ℕ, ◌+◌, ◌*◌, ◌<◌, ◌≤◌, true, List, [], length, replicate, ◌≢◌};
ghost use Rattle.lr1_base.specs.repr.Sizes.{state_limit, nonterminal_limit, edge_limit};
ghost use Rattle.lr1_base.specs.repr.Lists.{mem, some?};
ghost use Rattle.lr1_base.specs.repr.Meaning.{ItemFits, state_at};
ghost use Rattle.table.specs.Decoded.{meaning, items_from};
ghost use Rattle.state_graph.specs.States.{states_in};
ghost use Rattle.trace_graph.specs.Graph.{TraceEdge, is_same_edge, add, at_nonterminal, at_item};
ghost use Rattle.trace.specs.Traced.{can_shift, in_turn, pairs, owner_of, add_to};
ghost use Rattle.trace.specs.Shift.{epsilon, shift_edges};
ghost use Rattle.trace.specs.Edges.{epsilon_edge};
ghost use Rattle.trace.specs.Passed.{ItemPassed};
ghost use Rattle.lr1_base.specs.bits.Bits.{bit_at};
ghost use Rattle.trace.specs.edge_codes.Coded.{codes_room, Coded};
ghost use Rattle.trace.specs.edge_codes.Lent.{SameWords};
ghost use Rattle.trace.specs.Held.{pair_words, Steps, Exceeds, unset};
ghost use Rattle.trace.specs.Tails.{Usable, TwoTails};
ghost use Rattle.trace.specs.Clear.{Clear};

use crate::edge_codes::{EdgeCode, EdgeCodes};
use crate::edges::{kind_on, to_item, to_nonterminal};
use crate::tails::{
    LIST_WORDS, NO_LIST, SHORT_TABLE, TAIL_AHEAD, TailList, after, ahead, begin, list_tail,
};
use crate::{PAIR_WORDS, Tracer, enter, is_entered, nonterminal_at};
use lr1_base::item::Item;
use state_graph::{StateSet, trace_back};
use trace_graph::Full;

// The edge of an item that can shift a nonterminal: past its beginning from the item, else from its nonterminal.
fn epsilon_code(tracer: Tracer, edges: &mut EdgeCodes, item: Item) -> Result<(), Full>
    requires { ItemFits (meaning tracer.table.words.now) (record { production = item.production; index = item.index }) }
    ensures coded { OnOk result ((n : ℕ) → n < length (meaning tracer.entry.table.words.now).nonterminals → can_shift (meaning tracer.entry.table.words.now) n (record { production = item.production; index = item.index }) ≡ true → (es : List TraceEdge) → Coded (meaning tracer.entry.table.words.now) edges.old.words.now edges.old.flags.now es → Coded (meaning tracer.entry.table.words.now) edges.new.words.now edges.new.flags.now (add (meaning tracer.entry.table.words.now).productions (epsilon_edge (meaning tracer.entry.table.words.now).productions (record { production = item.production; index = item.index }) n) es)) }
    ensures full { OnErr result ((n : ℕ) → n < length (meaning tracer.entry.table.words.now).nonterminals → can_shift (meaning tracer.entry.table.words.now) n (record { production = item.production; index = item.index }) ≡ true → (es : List TraceEdge) → Coded (meaning tracer.entry.table.words.now) edges.old.words.now edges.old.flags.now es → edge_limit < length (add (meaning tracer.entry.table.words.now).productions (epsilon_edge (meaning tracer.entry.table.words.now).productions (record { production = item.production; index = item.index }) n) es)) }
    ensures same { SameWords edges.old edges.new }
{
    to_nonterminal(tracer.least, edges, item.index == 0, item)
}

// `trace_epsilon_edges`: enters the pair of the state and the nonterminal unless it is entered, and follows each item at its beginning to its own nonterminal, in the same state.
// The items are gone along by places: those of a listed tail stand in its list. An iterator of them would hold both lists and the nonterminal beside the place, for this one loop.
pub fn trace_epsilon(
    tracer: Tracer,
    edges: &mut EdgeCodes,
    entered: &mut [u64],
    records: &[u16],
    links: &[u16],
    state: usize,
    nonterminal: usize,
) -> Result<(), Full>
    requires room { length entered.old ≡ pair_words }
    requires within { (state < length (meaning tracer.table.words.now).states) × (nonterminal < length (meaning tracer.table.words.now).nonterminals) }
    requires usable { Usable tracer.table.words.now records.now links.now }
    ensures steps { OnOk result ((f : ℕ) → unset entered.old ≤ f → Steps (meaning tracer.entry.table.words.now) (epsilon (meaning tracer.entry.table.words.now) f state nonterminal) edges.old.words.now edges.old.flags.now entered.old edges.new.words.now edges.new.flags.now entered.new) }
    ensures exceeds { OnErr result ((f : ℕ) → unset entered.old ≤ f → Exceeds (meaning tracer.entry.table.words.now) (epsilon (meaning tracer.entry.table.words.now) f state nonterminal) edges.old.words.now edges.old.flags.now entered.old) }
    ensures entered_bound { unset entered.new ≤ unset entered.old }
    ensures same { SameWords edges.old edges.new }
{
    if !enter(entered, state, nonterminal) {
        return Ok(());
    }
    let mut place = begin(records, links, nonterminal, tracer.table.first_item(state));
    while place.at != 0 {
        let read = tracer.table.item(place.at);
        place = after(records, links, nonterminal, place.slot, read.next);
        let item = Item {
            production: read.production,
            index: read.index,
        };
        if !item.can_shift_nonterminal(tracer.grammar, nonterminal) {
            continue;
        }
        epsilon_code(tracer, edges, item)?;
        if item.index > 0 {
            continue;
        }
        let owner = tracer.grammar.owner(item.production);
        trace_epsilon(tracer, edges, entered, records, links, state, owner)?;
    }
    Ok(())
}

// Whether the edge of an item that can shift a nonterminal is there.
fn is_known(tracer: Tracer, edges: &EdgeCodes, item: Item) -> bool
    requires { ItemFits (meaning tracer.table.words.now) (record { production = item.production; index = item.index }) }
    ensures { (n : ℕ) → n < length (meaning tracer.entry.table.words.now).nonterminals → can_shift (meaning tracer.entry.table.words.now) n (record { production = item.production; index = item.index }) ≡ true → (ws : List ℕ) (es : List TraceEdge) → Coded (meaning tracer.entry.table.words.now) ws edges.now.flags.now es → result ≡ some? (is_same_edge (meaning tracer.entry.table.words.now).productions (epsilon_edge (meaning tracer.entry.table.words.now).productions (record { production = item.production; index = item.index }) n)) es }
{
    let kind = kind_on(item.index == 0);
    edges.contains(tracer.least, EdgeCode { kind, item })
}

// Whether an item leads to nothing new from the nonterminals that were entered from the state `before`: it can shift none of them, or its edge is there, and where it is at its beginning its own nonterminal is one of them.
fn is_passed(tracer: Tracer, edges: &EdgeCodes, entered: &[u64], before: usize, item: Item) -> bool
    requires room { length entered.now ≡ pair_words }
    requires within { ItemFits (meaning tracer.table.words.now) (record { production = item.production; index = item.index }) × (before < state_limit) }
    ensures { result ≡ true → (ws : List ℕ) (es : List TraceEdge) → Coded (meaning tracer.entry.table.words.now) ws edges.now.flags.now es → ItemPassed (meaning tracer.entry.table.words.now) (λ n. bit_at entered.now (before * nonterminal_limit + n)) es (record { production = item.production; index = item.index }) }
{
    match nonterminal_at(tracer.grammar, item) {
        Some(nonterminal) => {
            !is_entered(entered, before, nonterminal)
                || (is_known(tracer, edges, item)
                    && (item.index > 0
                        || is_entered(entered, before, tracer.grammar.owner(item.production))))
        }
        None => true,
    }
}

// The state that was traced last, and records from which on the items of a state that was passed over since may be those of others too (0: none): of the last such state, and of one before it with another.
// Records are numbers as the chain has them, which ends in 0: what is read is compared with them as it is.
#[derive(Clone, Copy)]
pub struct Known {
    pub state: usize,
    pub last: usize,
    pub earlier: usize,
}

impl Known {
    // A state that is traced: none was passed over since.
    fn of(state: usize) -> Known
        ensures { result ≡ record { state = state; last = 0; earlier = 0 } }
    {
        Known {
            state,
            last: 0,
            earlier: 0,
        }
    }

    // The record of one state more that is passed over.
    fn with(self, tail: usize) -> Known
        ensures { (result.state ≡ self.state) × (result.last ≡ tail) × ((result.earlier ≢ self.last) → result.earlier ≡ self.earlier) }
    {
        if tail == self.last {
            return self;
        }
        Known {
            last: tail,
            earlier: self.last,
            ..self
        }
    }
}

// Whether the items of a state lead to nothing new from the nonterminals that were entered from the known state, where those from a known record on do not. It ends in two ways with two answers: an `all` behind a `take_while` would say them in two closures, no plainer.
fn adds_nothing(
    tracer: Tracer,
    edges: &EdgeCodes,
    entered: &[u64],
    known: Known,
    state: usize,
) -> bool
    requires room { length entered.now ≡ pair_words }
    requires within { (known.state < state_limit) × (state < length (meaning tracer.table.words.now).states) }
    requires clear { Clear tracer.table.words.now edges.now.flags.now entered.now known.state (items_from tracer.table.words.now known.last) × Clear tracer.table.words.now edges.now.flags.now entered.now known.state (items_from tracer.table.words.now known.earlier) }
    ensures { result ≡ true → Clear tracer.entry.table.words.now edges.now.flags.now entered.now known.state (state_at (meaning tracer.entry.table.words.now) state).items }
{
    let last = known.last;
    let earlier = known.earlier;
    for read in tracer.table.items(state) {
        if read.at == last || read.at == earlier {
            return true;
        }
        let item = Item {
            production: read.production,
            index: read.index,
        };
        if !is_passed(tracer, edges, entered, known.state, item) {
            return false;
        }
    }
    true
}

// Whether a state can be passed over: the nonterminal was entered from the known state, and the items add nothing to what was entered there.
fn passes_over(
    tracer: Tracer,
    edges: &EdgeCodes,
    entered: &[u64],
    known: Known,
    state: usize,
    nonterminal: usize,
) -> bool
    requires room { length entered.now ≡ pair_words }
    requires within { (known.state < state_limit) × (state < length (meaning tracer.table.words.now).states) × (nonterminal < length (meaning tracer.table.words.now).nonterminals) }
    requires clear { Clear tracer.table.words.now edges.now.flags.now entered.now known.state (items_from tracer.table.words.now known.last) × Clear tracer.table.words.now edges.now.flags.now entered.now known.state (items_from tracer.table.words.now known.earlier) }
    ensures nonterminal_value { result ≡ true → bit_at entered.now (known.state * nonterminal_limit + nonterminal) ≡ true }
    ensures clear_2 { result ≡ true → Clear tracer.entry.table.words.now edges.now.flags.now entered.now known.state (state_at (meaning tracer.entry.table.words.now) state).items }
{
    is_entered(entered, known.state, nonterminal)
        && adds_nothing(tracer, edges, entered, known, state)
}

// Each state of the set in turn, ascending. A state whose items add nothing to the state traced last is passed over, and a record of it known, TAIL_AHEAD on from its first, since 128 states cannot have more records of their own each. The lists of two tails are kept from state to state.
// That no pair is entered is asked here and above up to `shift_codes`: the bits of pairs are words lent, before and at work.
fn trace_each<const N: usize>(
    tracer: Tracer,
    edges: &mut EdgeCodes,
    entered: &mut [u64],
    states: StateSet,
    nonterminal: usize,
    tail: &mut TailList<N>,
    other: &mut TailList<N>,
) -> Result<(), Full>
    requires entered { entered.old ≡ replicate pair_words 0 }
    requires within { ((s : ℕ) → mem s (states_in states.low states.high) ≡ true → s < length (meaning tracer.table.words.now).states) × (nonterminal < length (meaning tracer.table.words.now).nonterminals) }
    requires two_tails { TwoTails tracer.table.words.now tail.old.records tail.old.links other.old.records other.old.links }
    ensures coded { OnOk result ((es : List TraceEdge) → Coded (meaning tracer.entry.table.words.now) edges.old.words.now edges.old.flags.now es → Coded (meaning tracer.entry.table.words.now) edges.new.words.now edges.new.flags.now (in_turn (λ p u. epsilon (meaning tracer.entry.table.words.now) pairs p nonterminal u) (states_in states.low states.high) (record { edges = es; seen = [] })).edges) }
    ensures full { OnErr result ((es : List TraceEdge) → Coded (meaning tracer.entry.table.words.now) edges.old.words.now edges.old.flags.now es → edge_limit < length (in_turn (λ p u. epsilon (meaning tracer.entry.table.words.now) pairs p nonterminal u) (states_in states.low states.high) (record { edges = es; seen = [] })).edges) }
    ensures same { SameWords edges.old edges.new }
{
    let mut traced: Option<Known> = None;
    for state in states.iter() {
        let from = state.0 as usize;
        let first = tracer.table.first_item(from);
        if let Some(known) = traced {
            if passes_over(tracer, edges, entered, known, from, nonterminal) {
                traced = Some(known.with(ahead(tracer.table, first, TAIL_AHEAD)));
                continue;
            }
        }
        list_tail(
            tracer.table,
            tracer.grammar,
            first,
            &mut tail.records,
            &mut tail.links,
            &mut other.records,
            &mut other.links,
        );
        trace_epsilon(
            tracer,
            edges,
            entered,
            &tail.records,
            &tail.links,
            from,
            nonterminal,
        )?;
        traced = Some(Known::of(from));
    }
    Ok(())
}

// The states of the set in turn. Only a table that is not short has tails that are worth a list.
pub fn trace_states(
    tracer: Tracer,
    edges: &mut EdgeCodes,
    entered: &mut [u64],
    states: StateSet,
    nonterminal: usize,
) -> Result<(), Full>
    requires entered { entered.old ≡ replicate pair_words 0 }
    requires within { ((s : ℕ) → mem s (states_in states.low states.high) ≡ true → s < length (meaning tracer.table.words.now).states) × (nonterminal < length (meaning tracer.table.words.now).nonterminals) }
    ensures coded { OnOk result ((es : List TraceEdge) → Coded (meaning tracer.entry.table.words.now) edges.old.words.now edges.old.flags.now es → Coded (meaning tracer.entry.table.words.now) edges.new.words.now edges.new.flags.now (in_turn (λ p u. epsilon (meaning tracer.entry.table.words.now) pairs p nonterminal u) (states_in states.low states.high) (record { edges = es; seen = [] })).edges) }
    ensures full { OnErr result ((es : List TraceEdge) → Coded (meaning tracer.entry.table.words.now) edges.old.words.now edges.old.flags.now es → edge_limit < length (in_turn (λ p u. epsilon (meaning tracer.entry.table.words.now) pairs p nonterminal u) (states_in states.low states.high) (record { edges = es; seen = [] })).edges) }
    ensures same { SameWords edges.old edges.new }
{
    let table = tracer.table;
    if table.words.len() < SHORT_TABLE {
        let mut tail = TailList::<NO_LIST>::new();
        let mut other = TailList::<NO_LIST>::new();
        return trace_each(
            tracer,
            edges,
            entered,
            states,
            nonterminal,
            &mut tail,
            &mut other,
        );
    }
    let mut tail = TailList::<LIST_WORDS>::new();
    let mut other = TailList::<LIST_WORDS>::new();
    trace_each(
        tracer,
        edges,
        entered,
        states,
        nonterminal,
        &mut tail,
        &mut other,
    )
}

// `trace_shift`: the edge from the item's nonterminal to the item, and then from each state that the walk over its prefix found.
pub fn shift_over(
    tracer: Tracer,
    edges: &mut EdgeCodes,
    entered: &mut [u64],
    states: StateSet,
    item: Item,
) -> Result<(), Full>
    requires entered { entered.old ≡ replicate pair_words 0 }
    requires within { ((s : ℕ) → mem s (states_in states.low states.high) ≡ true → s < length (meaning tracer.table.words.now).states) × ItemFits (meaning tracer.table.words.now) (record { production = item.production; index = item.index }) }
    ensures coded { OnOk result ((es : List TraceEdge) → Coded (meaning tracer.entry.table.words.now) edges.old.words.now edges.old.flags.now es → Coded (meaning tracer.entry.table.words.now) edges.new.words.now edges.new.flags.now (in_turn (λ p u. epsilon (meaning tracer.entry.table.words.now) pairs p (owner_of (meaning tracer.entry.table.words.now) (record { production = item.production; index = item.index })) u) (states_in states.low states.high) (add_to (meaning tracer.entry.table.words.now) (at_nonterminal (owner_of (meaning tracer.entry.table.words.now) (record { production = item.production; index = item.index }))) (at_item (record { production = item.production; index = item.index })) (record { production = item.production; index = item.index }) (record { edges = es; seen = [] }))).edges) }
    ensures full { OnErr result ((es : List TraceEdge) → Coded (meaning tracer.entry.table.words.now) edges.old.words.now edges.old.flags.now es → edge_limit < length (in_turn (λ p u. epsilon (meaning tracer.entry.table.words.now) pairs p (owner_of (meaning tracer.entry.table.words.now) (record { production = item.production; index = item.index })) u) (states_in states.low states.high) (add_to (meaning tracer.entry.table.words.now) (at_nonterminal (owner_of (meaning tracer.entry.table.words.now) (record { production = item.production; index = item.index }))) (at_item (record { production = item.production; index = item.index })) (record { production = item.production; index = item.index }) (record { edges = es; seen = [] }))).edges) }
    ensures same { SameWords edges.old edges.new }
{
    to_item(tracer.least, edges, item)?;
    let owner = tracer.grammar.owner(item.production);
    trace_states(tracer, edges, entered, states, owner)
}

// `backtrace_shift`: the words may hold anything before. (How many they are is asked here, in src/reduce.rt and in module examples of conflict_sides: they are a slice as they are lent.)
pub fn shift_codes(tracer: Tracer, state: usize, item: Item, words: &mut [u16]) -> Result<(), Full>
    requires room { length words.old ≡ codes_room }
    requires within { (state < length (meaning tracer.table.words.now).states) × ItemFits (meaning tracer.table.words.now) (record { production = item.production; index = item.index }) }
    ensures coded { OnOk result ((fs : List ℕ) × Coded (meaning tracer.entry.table.words.now) words.new fs (shift_edges (meaning tracer.entry.table.words.now) state (record { production = item.production; index = item.index }))) }
    ensures full { OnErr result (edge_limit < length (shift_edges (meaning tracer.entry.table.words.now) state (record { production = item.production; index = item.index }))) }
{
    let mut flags = [0u64; EdgeCodes::KEY_WORDS];
    let mut entered = [0u64; PAIR_WORDS];
    let mut edges = EdgeCodes::of(words, &mut flags);
    edges.clear();
    let states = trace_back(tracer.table, state, item.prefix(tracer.grammar));
    shift_over(tracer, &mut edges, &mut entered, states, item)
}
