// Opening and stepping a listing, over an accepted table (`lr0_examples`, `lr1_examples` and the iteration of lr1/trace/trace_graph/mod.rs; docs/RULES.md, "Listing").

ghost use Rattle.std.specs.Prelude.{◌≡◌, true, false, ◌&&◌, ℕ, ◌-◌, ◌≤◌, ◌<◌, length, slice_index};
ghost use Rattle.lr1_base.specs.repr.Sizes.{scratch_words, trial_limit, example_room};
ghost use Rattle.lr1_base.specs.repr.Reply.{reply_of};
ghost use Rattle.lr1_base.specs.repr.Meaning.{Table};
ghost use Rattle.lr1_base.specs.repr.Packed.{productions_in};
ghost use Rattle.table.specs.Decoded.{meaning};
ghost use Rattle.trace_graph.specs.Graph.{at_item, is_same_node, is_node_of};
ghost use Rattle.trace_graph.specs.Fits.{item_is_fit};
ghost use Rattle.trace_graph.specs.Words.{edge_at, edges_in};
ghost use Rattle.trace_graph.specs.Values.{node_is};
ghost use Rattle.enumerator.specs.trials.Trials.{ends_of, trials};
ghost use Rattle.enumerator.specs.trials.Lister.{hands, search};
ghost use Rattle.enumerator.specs.trials.Advance.{outcome, set_of, start_of, asked, found_outcome, rest_of, lost, advance_in, open_in};
ghost use Rattle.enumerator.specs.trials.Stacks.{Started};
ghost use Rattle.enumerator.specs.graph_view.View.{View as Viewing, Labelled};
ghost use Rattle.enumerator.specs.advance.Context.{Read, Listable, ends_at, ahead_by, sets_for, begun};

use crate::example::Example;
use crate::filter::{Filter, Searched, search, write_trial};
use crate::graph_view::View;
use crate::graph_view::making::{ViewLists, check_view};
use crate::trials::machine::{Graph, clear};
use crate::trials::{Advanced, Listing};
use first::FirstSets;
use lr1_base::item::Item;
use lr1_base::lookahead::TokenSet;
use lr1_base::repr::{Grammar, NonterminalString, ProductionIndex, Refusal, word};
use table::AcceptedTable;
use trace_graph::{Node, TraceGraph, check_graph, item_fits};

// Whether any lookahead holds tokens of the table alone. That there are at most 63 is asked here and below: what a table's counts are is known of numbers.
#[tactic(auto, unfolding(crate::specs::advance::Context::ahead_by, crate::specs::trials::Advance::set_of))]
fn lookahead_fits(terminals: usize, lookahead: Option<TokenSet>) -> bool
    requires { terminals ≤ 63 }
    ensures { result ≡ ahead_by terminals (set_of lookahead) }
{
    lookahead.is_none_or(|set| set.fits(terminals))
}

// Whether the start item is one of the table, and any lookahead holds tokens of it alone.
fn fits(grammar: Grammar, terminals: usize, start: Item, lookahead: Option<TokenSet>) -> bool
    requires { terminals ≤ 63 }
    ensures { result ≡ (item_is_fit (productions_in grammar.entry.words.now grammar.entry.productions) start.production start.index && ahead_by terminals (set_of lookahead)) }
{
    item_fits(grammar, start) && lookahead_fits(terminals, lookahead)
}

// Whether a node is an item. By its parts, as no kind but 0 is known here: `==` with the item's node would ask that any other is 1.
fn is_item(node: Node, item: Item) -> bool
    ensures { result ≡ is_same_node (at_item (record { production = item.production; index = item.index })) (node_is node) }
{
    node.kind != 0 && (item.production == node.number && item.index == node.index)
}

// Whether an item is an end of edge k.
fn is_end(graph: Graph, k: usize, item: Item) -> bool
    requires { k < slice_index graph.words.now 0 }
    ensures { result ≡ ends_at (at_item (record { production = item.production; index = item.index })) (edge_at graph.entry.words.now k) }
{
    is_item(graph.source(k), item) || is_item(graph.entered(k), item)
}

// Whether an item is a node of the graph: an end of one of its edges (refusal 15).
fn is_node(graph: Graph, item: Item) -> bool
    ensures { result ≡ is_node_of (at_item (record { production = item.production; index = item.index })) (edges_in graph.entry.words.now) }
{
    (0..word(graph.words, 0)).any(|k| is_end(graph, k, item))
}

// `lr0_examples` and `lr1_examples`: a fresh listing, or refusal 9, 11 or 15. A listing keeps its start item as C hands it over, in two numbers.
pub fn open_in(
    table: AcceptedTable,
    production: ProductionIndex,
    index: u16,
    lookahead: Option<TokenSet>,
    graph: &[u16],
) -> Result<Listing, Refusal>
    ensures { reply_of result ≡ open_in (record { production = production.0; index = index }) lookahead graph.now (meaning table.entry.words.now) }
{
    let counts = table.counts();
    let mut words = [0u16; ProductionIndex::ALL_WORDS];
    let grammar = table.read_grammar(&mut words);
    let listing = Listing {
        production,
        index,
        lookahead,
        count: 0,
        is_open: true,
    };
    let start = listing.start();
    if !fits(grammar, counts.terminals, start, lookahead) {
        return Err(Refusal::OutOfRange);
    }
    if graph.len() < TraceGraph::WORDS {
        return Err(Refusal::TooShort);
    }
    let mut ix = [0u16; TraceGraph::INDEX_WORDS];
    if !check_graph(grammar, counts.nonterminals, graph, &mut ix) {
        return Err(Refusal::OutOfRange);
    }
    if !is_node(Graph { words: graph }, start) {
        return Err(Refusal::NoNode);
    }
    Ok(listing)
}

// What the search of a listing goes over: the productions and the terminals of a table, a graph, and its view from the start item.
// What is known of these is asked beside them (`Listable`), as it is of the listing's start item too.
#[derive(Clone, Copy)]
struct Over<'a> {
    grammar: Grammar<'a>,
    terminals: u16,
    graph: Graph<'a>,
    view: View<'a>,
    ghost few: { terminals ≤ 63 },
}

impl<'a> Over<'a> {
    // Of all four, by a call: a literal's would all have to be lent for one time, and the graph is lent for longer than the rest.
    fn of(grammar: Grammar<'a>, terminals: u16, graph: Graph<'a>, view: View<'a>) -> Over<'a>
        requires { terminals ≤ 63 }
        ensures table { (result.grammar.words.now ≡ grammar.entry.words.now) × (result.grammar.productions ≡ grammar.entry.productions) × (result.terminals ≡ terminals) }
        ensures graph { (result.graph.words.now ≡ graph.entry.words.now) × (result.view.sources.bytes.now ≡ view.entry.sources.bytes.now) × (result.view.older.now ≡ view.entry.older.now) × (result.view.latest.now ≡ view.entry.latest.now) × (result.view.labels.owners.now ≡ view.entry.labels.owners.now) × (result.view.labels.codes.now ≡ view.entry.labels.codes.now) }
    {
        Over {
            grammar,
            terminals,
            graph,
            view,
        }
    }

    // The FIRST sets, where a lookahead is set.
    fn first_sets(self, lookahead: Option<TokenSet>) -> FirstSets
        ensures { (result.map ≡ sets_for (set_of lookahead) self.entry.terminals (productions_in self.entry.grammar.words.now self.entry.grammar.productions)) × (result.terminals ≡ self.entry.terminals) }
    {
        let Some(_) = lookahead else {
            return FirstSets {
                map: [0u64; NonterminalString::LIMIT],
                terminals: self.terminals,
            };
        };
        FirstSets::new(self.grammar, self.terminals)
    }
}

// A fresh listing starts from the words of no edge, whatever the words hold. (How long the words are is asked here and below: they are the scratch that C lends, and may be longer.)
fn begin(words: &mut [u16], count: u32)
    requires { scratch_words ≤ length words.old }
    ensures { words.new ≡ begun count words.old }
{
    if count == 0 {
        clear(words);
    }
}

// Whether an open listing past count 0 is lent words that hold no example's trial (refusal 9).
fn lost(listing: Listing, graph: Graph, words: &[u16]) -> bool
    requires started { Started graph.words.now listing.production.0 listing.index }
    requires scratch_words_in_bounds { scratch_words ≤ length words.now }
    ensures { result ≡ lost (edges_in graph.entry.words.now) listing words.now }
{
    listing.is_open && (listing.count != 0 && !graph.holds_trial(words, listing.start()))
}

// The search of an open listing, over the view of its graph: the next example, the end, or refusal 13.
fn find_next(
    listing: &mut Listing,
    over: Over,
    scratch: &mut [u16],
    buffer: &mut [u16],
) -> Result<Advanced, Refusal>
    requires viewing { Viewing (edges_in over.graph.words.now) (record { production = listing.old.production.0; index = listing.old.index }) over.view.sources.bytes.now over.view.older.now over.view.latest.now × Labelled (productions_in over.grammar.words.now over.grammar.productions) (edges_in over.graph.words.now) over.view.labels.owners.now over.view.labels.codes.now }
    requires scratch_words_in_bounds { (scratch_words ≤ length scratch.old) × (example_room ≤ length buffer.old) }
    requires is_open_value { (listing.old.is_open ≡ true) × (lost (edges_in over.graph.words.now) listing.old scratch.old ≡ false) }
    ensures { (n : ℕ) (T : Table) → Read T n over.entry.terminals (productions_in over.entry.grammar.words.now over.entry.grammar.productions) → outcome (reply_of result) listing.new scratch.new buffer.new ≡ found_outcome T (edges_in over.entry.graph.words.now) listing.old scratch.old buffer.old (search (hands T (edges_in over.entry.graph.words.now) (set_of listing.old.lookahead)) (trial_limit - listing.old.count) listing.old.count (rest_of listing.old.count scratch.old (trials (ends_of (edges_in over.entry.graph.words.now)) (at_item (start_of listing.old))))) }
{
    let lookahead = listing.lookahead;
    let count = listing.count;
    let sets = over.first_sets(lookahead);
    let filter = Filter {
        grammar: over.grammar,
        sets: &sets,
        lookahead,
    };
    begin(scratch, count);
    match search(filter, over.view, scratch, count) {
        Searched::Hit(number) => {
            write_trial(over.grammar, over.view.labels, scratch, buffer);
            listing.count = number;
            Ok(Advanced::Example)
        }
        Searched::Out(trials) => {
            listing.count = trials;
            listing.is_open = false;
            Ok(Advanced::End)
        }
        Searched::Over => {
            listing.count = Searched::TRIALS;
            listing.is_open = false;
            Err(Refusal::TooManyTrials)
        }
    }
}

// A call that is lent what refusal 11 asks: 9 for the words, 15, the end of an ended listing, the search.
fn go_on(
    listing: &mut Listing,
    over: Over,
    scratch: &mut [u16],
    buffer: &mut [u16],
) -> Result<Advanced, Refusal>
    requires listable { Listable (productions_in over.grammar.words.now over.grammar.productions) over.graph.words.now listing.old.production.0 listing.old.index over.view.labels.owners.now over.view.labels.codes.now over.view.sources.bytes.now over.view.older.now over.view.latest.now }
    requires scratch_words_in_bounds { (scratch_words ≤ length scratch.old) × (example_room ≤ length buffer.old) }
    ensures { (n : ℕ) (T : Table) → Read T n over.entry.terminals (productions_in over.entry.grammar.words.now over.entry.grammar.productions) → asked T (start_of listing.old) (set_of listing.old.lookahead) over.entry.graph.words.now ≡ true → outcome (reply_of result) listing.new scratch.new buffer.new ≡ advance_in over.entry.graph.words.now listing.old scratch.old buffer.old T }
{
    if lost(*listing, over.graph, scratch) {
        return Err(Refusal::OutOfRange);
    }
    if !is_node(over.graph, listing.start()) {
        return Err(Refusal::NoNode);
    }
    if !listing.is_open {
        return Ok(Advanced::End);
    }
    find_next(listing, over, scratch, buffer)
}

// `advance` over an accepted table: refusals 9, 11 and 15, the end, the next example, refusal 13.
pub fn step_in(
    listing: &mut Listing,
    table: AcceptedTable,
    graph: &[u16],
    scratch: &mut [u16],
    buffer: &mut [u16],
) -> Result<Advanced, Refusal>
    ensures { outcome (reply_of result) listing.new scratch.new buffer.new ≡ advance_in graph.now listing.old scratch.old buffer.old (meaning table.entry.words.now) }
{
    let counts = table.counts();
    let mut words = [0u16; ProductionIndex::ALL_WORDS];
    let grammar = table.read_grammar(&mut words);
    let start = listing.start();
    if !fits(grammar, counts.terminals, start, listing.lookahead) {
        return Err(Refusal::OutOfRange);
    }
    if graph.len() < TraceGraph::WORDS {
        return Err(Refusal::TooShort);
    }
    let mut lists = ViewLists::new();
    let mut codes = [0u16; View::EDGES];
    if !check_view(
        grammar,
        counts.nonterminals,
        graph,
        start,
        &mut lists,
        &mut codes,
    ) {
        return Err(Refusal::OutOfRange);
    }
    if scratch.len() < TraceGraph::SCRATCH || buffer.len() < Example::WORDS {
        return Err(Refusal::TooShort);
    }
    let over = Over::of(
        grammar,
        counts.terminals as u16,
        Graph { words: graph },
        lists.view(&codes),
    );
    go_on(listing, over, scratch, buffer)
}
