// Making a view: of a graph in words, edge by edge, while the graph is checked.
ghost use Rattle.std.specs.Prelude.{◌≡◌, true, ℕ, ◌+◌, ◌*◌, ◌≤◌, ◌<◌, length, get_or, set};
ghost use Rattle.lr1_base.specs.repr.Sizes.{nonterminal_limit, index_limit, edge_limit, graph_room};
ghost use Rattle.lr1_base.specs.repr.Packed.{productions_in};
ghost use Rattle.trace_graph.specs.Words.{edge_at, edges_in};
ghost use Rattle.trace_graph.specs.Fits.{graph_fits};
ghost use Rattle.trace_graph.specs.Values.{node_is, node_value_fits};
ghost use Rattle.enumerator.specs.trials.Lister.{owner_of_node};
ghost use Rattle.enumerator.specs.graph_view.Blank.{Blank};
ghost use Rattle.enumerator.specs.graph_view.View.{latest_room, slot_of, source_of, Tidy, Labelled, EdgeRanged, View as Viewing};

use crate::graph_view::{EdgeLabels, Sources, View};
use lr1_base::item::Item;
use lr1_base::repr::{Grammar, word};
use trace_graph::{Node, TraceGraph, check_edge, read_edge};

// The lists of a view while it is made, and by edge the nonterminal that it comes from: View's fields but the labels' items.
// Fixed words, since there is no heap; a list each, as the elements differ in size.
#[derive(Drop)]
pub struct ViewLists {
    pub sources: [u8; View::EDGES],
    pub older: [u16; View::EDGES],
    pub latest: [u16; View::NODES],
    pub owners: [u8; View::EDGES],
}

impl ViewLists {
    // Of no edge.
    pub fn new() -> ViewLists
        ensures { Blank result }
    {
        ViewLists {
            sources: [0u8; View::EDGES],
            older: [0u16; View::EDGES],
            latest: [0u16; View::NODES],
            owners: [0u8; View::EDGES],
        }
    }

    // Edge k put in, where it comes from as its byte has it, to a node by its number: the latest edge into that becomes the next older one. Its owner is the caller's to write: a view needs none.
    pub fn put(&mut self, k: usize, source: usize, slot: usize)
        requires { (k < edge_limit) × (source ≤ nonterminal_limit) × (slot < latest_room) }
        ensures sources { self.new.sources ≡ set self.old.sources k source }
        ensures older { self.new.older ≡ set self.old.older k (get_or self.old.latest slot 0) }
        ensures latest { self.new.latest ≡ set self.old.latest slot (k + 1) }
        ensures owners { self.new.owners ≡ self.old.owners }
    {
        self.sources[k] = source as u8;
        self.older[k] = self.latest[slot];
        self.latest[slot] = (k + 1) as u16;
    }

    // The view that they make, with the labels' items.
    pub fn view<'a>(&'a self, codes: &'a [u16]) -> View<'a>
        requires { Tidy self.now.sources self.now.older self.now.latest }
        ensures lists { (result.sources.bytes.now ≡ self.now.sources) × (result.older.now ≡ self.now.older) × (result.latest.now ≡ self.now.latest) × (result.labels.owners.now ≡ self.now.owners) }
        ensures codes { result.labels.codes.now ≡ codes.now }
    {
        let sources = Sources {
            bytes: &self.sources,
        };
        let labels = EdgeLabels {
            owners: &self.owners,
            codes,
        };
        View {
            sources,
            older: &self.older,
            latest: &self.latest,
            labels,
        }
    }
}

// The number of a node among those of the view from an item. By its parts, as no kind but 0 is known here: `==` with the start item's node would ask that any other is 1.
pub fn slot(node: Node, start: Item) -> usize
    requires { node.kind ≡ 0 → node.number < nonterminal_limit }
    ensures { (result ≡ slot_of (record { production = start.production; index = start.index }) (node_is node)) × (result < latest_room) }
{
    if node.kind == 0 {
        node.number
    } else if node.number == start.production && node.index == start.index {
        View::START
    } else {
        View::OTHERS
    }
}

// Where an edge comes from, as a byte of a view has it: one more than the nonterminal, or 0. It is put as it stands: an Option would be made for that alone.
pub fn source(node: Node) -> usize
    requires { node.kind ≡ 0 → node.number < nonterminal_limit }
    ensures { (result ≡ source_of (node_is node)) × (result ≤ nonterminal_limit) }
{
    if node.kind == 0 { node.number + 1 } else { 0 }
}

// The nonterminal of a node: an item's is its production's.
fn node_owner(grammar: Grammar, node: Node) -> usize
    requires by_index { (n : ℕ) × (n ≤ 32) × (node_value_fits n (productions_in grammar.words.now grammar.productions) node ≡ true) }
    ensures { (result ≡ owner_of_node (productions_in grammar.entry.words.now grammar.entry.productions) (node_is node)) × (result < 32) }
{
    let number = node.number;
    if node.kind == 0 {
        number
    } else {
        grammar.owner(number)
    }
}

// Edge k of a graph, which is in range, with the lists as `check_view` is lent them: its label, as the nonterminal that the edge comes from and the item in one word, and itself put into the view from an item.
fn view_edge(
    grammar: Grammar,
    graph: &[u16],
    k: usize,
    start: Item,
    lists: &mut ViewLists,
    codes: &mut [u16],
)
    requires room { (k < edge_limit) × (graph_room ≤ length graph.now) × (length codes.old ≡ edge_limit) }
    requires edge_ranged { EdgeRanged (productions_in grammar.words.now grammar.productions) graph.now k }
    ensures owners { lists.new.owners ≡ set lists.old.owners k (owner_of_node (productions_in grammar.entry.words.now grammar.entry.productions) (edge_at graph.now k).source) }
    ensures codes { codes.new ≡ set codes.old k ((edge_at graph.now k).label.production * index_limit + (edge_at graph.now k).label.index) }
    ensures sources { lists.new.sources ≡ set lists.old.sources k (source_of (edge_at graph.now k).source) }
    ensures older { lists.new.older ≡ set lists.old.older k (get_or lists.old.latest (slot_of (record { production = start.production; index = start.index }) (edge_at graph.now k).target) 0) }
    ensures latest { lists.new.latest ≡ set lists.old.latest (slot_of (record { production = start.production; index = start.index }) (edge_at graph.now k).target) (k + 1) }
{
    let edge = read_edge(graph, k);
    let from = edge.source;
    let to = edge.target;
    codes[k] = edge.label.place() as u16;
    lists.owners[k] = node_owner(grammar, from) as u8;
    lists.put(k, source(from), slot(to, start));
}

// Whether a lent graph is one (refusal 9), as `check_graph` asks; in the same pass its view for a listing from an item is made in new lists, and the label of every edge. The lists
// and the codes are lent beside each other, as module examples of conflict_sides has its codes in the traced edges and makes the lists alone; a grammar and a number of nonterminals stand beside each other as in crate trace_graph.
// One walk for this and `check_graph` would be given what is done with an edge as a closure that writes, and its contract would say from edge to edge what holds of the lists: no plainer.
pub fn check_view(
    grammar: Grammar,
    n: usize,
    graph: &[u16],
    start: Item,
    lists: &mut ViewLists,
    codes: &mut [u16],
) -> bool
    requires n_bound { (n ≤ 32) × (graph_room ≤ length graph.now) × (length codes.old ≡ edge_limit) }
    requires blank { Blank lists.old }
    ensures value { result ≡ graph_fits n (productions_in grammar.entry.words.now grammar.entry.productions) graph.now }
    ensures viewing { result ≡ true → Viewing (edges_in graph.now) (record { production = start.production; index = start.index }) lists.new.sources lists.new.older lists.new.latest × Labelled (productions_in grammar.entry.words.now grammar.entry.productions) (edges_in graph.now) lists.new.owners codes.new }
{
    let count = word(graph, 0);
    if count > View::EDGES {
        return false;
    }
    let mut ix = [0u16; TraceGraph::INDEX_WORDS];
    for k in 0..count {
        if !check_edge(grammar, n, graph, &mut ix, k) {
            return false;
        }
        view_edge(grammar, graph, k, start, lists, codes);
    }
    true
}
