// The trace graph (lr1/trace/trace_graph/mod.rs) in words (docs/RULES.md, "The trace graph").
// An index (specs/Index) of the edges in each bucket is kept beside it, so that an equal edge is looked for in one bucket alone.

#![tactic(auto)]

ghost use Rattle.std.specs.Prelude.{OnOk, OnErr, ◌≡◌, ◌+◌, ◌<◌, ◌≤◌, true, ◌&&◌, length, replicate, slice_index};
ghost use Rattle.lr1_base.specs.repr.Sizes.{nonterminal_limit, terminal_limit, edge_limit, graph_room};
ghost use Rattle.lr1_base.specs.repr.Lists.{some?};
ghost use Rattle.lr1_base.specs.repr.Listed.{listed, list_is_fit};
ghost use Rattle.lr1_base.specs.repr.Packed.{productions_in};
ghost use Rattle.trace_graph.specs.Graph.{empty_graph, label_of, same_sets, is_same_edge};
ghost use Rattle.trace_graph.specs.Words.{node_at, edge_at};
ghost use Rattle.trace_graph.specs.Fits.{item_is_fit, edge_is_fit, graph_fits};
ghost use Rattle.trace_graph.specs.Index.{number_of_node, mixed, bucket_number, node_limit, bucket_limit, index_room};
ghost use Rattle.trace_graph.specs.Values.{node_is, edge_is, node_value_fits, value_fits, SmallNode, SmallEdge, node_read, edge_read, value_words, written, first_edges};
ghost use Rattle.trace_graph.specs.Nodes.{graph_node, node_value};
ghost use Rattle.lr1_base.specs.hash_index.Chains.{chained};
ghost use Rattle.trace_graph.specs.Insert.{Graphed, Added, Overfull, fresh};

use lr1_base::item::Item;
use lr1_base::repr::{Grammar, NonterminalString, ProductionIndex, Refusal, Symbol, word};

#[derive(Clone, Copy)]
pub struct TraceGraph {
    pub edges: usize,
}

impl TraceGraph {
    // Edges of a graph, words of an edge, words of a graph.
    pub const EDGES: usize = 1024;

    pub const EDGE_WORDS: usize = 8;

    pub const WORDS: usize = 1 + TraceGraph::EDGES * TraceGraph::EDGE_WORDS;

    // Words of scratch for tracing and listing.
    pub const SCRATCH: usize = 32000;

    // Buckets, and words of a graph's index: those of the buckets, then the links within buckets.
    pub const BUCKETS: usize = 1024;

    pub const INDEX_WORDS: usize = TraceGraph::BUCKETS + TraceGraph::EDGES;

    // Factors by which the buckets of edges are spread: by source, target, and the label's index and symbols; sums are kept below `MIXED`.
    const SOURCE_FACTOR: usize = 3001;

    const TARGET_FACTOR: usize = 613;

    const INDEX_FACTOR: usize = 89;

    const SYMBOL_FACTOR: usize = 211;

    const MIXED: usize = 65536;

    // The empty graph (`new` as in the Rust).
    pub fn new() -> TraceGraph
        ensures { result.edges ≡ length empty_graph }
    {
        TraceGraph { edges: 0 }
    }
}

// `TraceGraphNode`, and three words that are no node.
#[derive(Clone, Copy)]
pub enum TraceGraphNode {
    Nonterminal(NonterminalString),
    Item(ProductionIndex, u16),
    Other(u16, u16, u16),
}

// Methods and no `From`, here and in `Node`: three words come one by one, and a nonterminal as a bare number.
impl TraceGraphNode {
    // The node of three words.
    pub fn of(kind: u16, number: u16, index: u16) -> TraceGraphNode
        ensures { result ≡ graph_node kind number index }
    {
        match (kind, index) {
            (0, 0) => TraceGraphNode::Nonterminal(NonterminalString(number)),
            (1, _) => TraceGraphNode::Item(ProductionIndex(number), index),
            _ => TraceGraphNode::Other(kind, number, index),
        }
    }

    // Its three words.
    pub fn words(self) -> Node
        ensures { result ≡ node_value self }
    {
        match self {
            TraceGraphNode::Nonterminal(n) => Node::nonterminal(n.0 as usize),
            TraceGraphNode::Item(p, index) => Node {
                kind: 1,
                number: p.0 as usize,
                index: index as usize,
            },
            TraceGraphNode::Other(kind, number, index) => Node {
                kind: kind as usize,
                number: number as usize,
                index: index as usize,
            },
        }
    }
}

// A node in words while the code works: of kind 0 the nonterminal `number`, of kind 1 the item at `index` of production `number`.
// A lent graph is read before it is checked, so an enum would have a third variant in every match, as `TraceGraphNode` has at the entry.
#[derive(Clone, Copy, PartialEq, Eq)]
pub struct Node {
    pub kind: usize,
    pub number: usize,
    pub index: usize,
}

impl Node {
    // The node of a nonterminal.
    pub fn nonterminal(number: usize) -> Node
        ensures { result ≡ record { kind = 0; number = number; index = 0 } }
    {
        Node {
            kind: 0,
            number,
            index: 0,
        }
    }

    // The node of an item.
    pub fn item(item: Item) -> Node
        ensures { result ≡ record { kind = 1; number = item.production; index = item.index } }
    {
        Node {
            kind: 1,
            number: item.production,
            index: item.index,
        }
    }
}

// An edge; its label is the symbol sets of an item.
#[derive(Clone, Copy)]
pub struct TraceEdge {
    pub source: Node,
    pub target: Node,
    pub label: Item,
}

// The edges are as many as there may be: refusal 12.
#[derive(Clone, Copy, PartialEq, Eq)]
pub struct Full;

impl From<Full> for Refusal {
    ghost use Rattle.lr1_base.specs.declared.repr.Refusal.TheVariants.{TooManyEdges};

    ghost from_gives = { λ _ refusal. refusal ≡ TooManyEdges };

    fn from(_full: Full) -> Refusal {
        Refusal::TooManyEdges
    }
}

// The number of a node, by which buckets are made.
pub fn node_number(node: Node) -> usize
    requires { SmallNode node }
    ensures { (result ≡ number_of_node (node_is node)) × (result < node_limit) }
{
    if node.kind == 0 {
        node.number
    } else {
        let item = Item {
            production: node.number,
            index: node.index,
        };
        NonterminalString::LIMIT + item.place()
    }
}

// The node whose words begin at a place.
pub fn read_node(graph: &[u16], at: usize) -> Node
    requires { at + 2 < length graph.now }
    ensures { (node_is result ≡ node_at graph.now at) × (result ≡ node_read graph.now at) }
{
    Node {
        kind: word(graph, at),
        number: word(graph, at + 1),
        index: word(graph, at + 2),
    }
}

// Edge k. (Which edge is a number, in range at each call: a type for it would have to hold the graph.)
pub fn read_edge(graph: &[u16], k: usize) -> TraceEdge
    requires { (k < edge_limit) × (graph_room ≤ length graph.now) }
    ensures { (edge_is result ≡ edge_at graph.now k) × (result ≡ edge_read graph.now k) }
{
    let at = k * TraceGraph::EDGE_WORDS + 1;
    TraceEdge {
        source: read_node(graph, at),
        target: read_node(graph, at + 3),
        label: Item {
            production: word(graph, at + 6),
            index: word(graph, at + 7),
        },
    }
}

// Writes edge k, word by word: an array of the same eight words that is copied here would be no shorter, nor a slice pattern of them in `read_edge`.
pub fn write_edge(graph: &mut [u16], k: usize, edge: TraceEdge)
    requires k_lt_edge_limit { (k < edge_limit) × (graph_room ≤ length graph.old) }
    requires small_edge { SmallEdge edge }
    ensures { graph.new ≡ written graph.old k (value_words edge) }
{
    let at = k * TraceGraph::EDGE_WORDS + 1;
    graph[at] = edge.source.kind as u16;
    graph[at + 1] = edge.source.number as u16;
    graph[at + 2] = edge.source.index as u16;
    graph[at + 3] = edge.target.kind as u16;
    graph[at + 4] = edge.target.number as u16;
    graph[at + 5] = edge.target.index as u16;
    graph[at + 6] = edge.label.production as u16;
    graph[at + 7] = edge.label.index as u16;
}

// Whether the labels of two items are equal: by their symbols, and not by production.
pub fn same_label(grammar: Grammar, a: Item, b: Item) -> bool
    requires { (item_is_fit (productions_in grammar.words.now grammar.productions) a.production a.index ≡ true) × (item_is_fit (productions_in grammar.words.now grammar.productions) b.production b.index ≡ true) }
    ensures { result ≡ same_sets (label_of (productions_in grammar.entry.words.now grammar.entry.productions) (record { production = a.production; index = a.index })) (label_of (productions_in grammar.entry.words.now grammar.entry.productions) (record { production = b.production; index = b.index })) }
{
    a.index == b.index
        && (a.production == b.production
            || grammar.symbols(a.production) == grammar.symbols(b.production))
}

// Whether edge k is equal to the edge.
fn same_edge(grammar: Grammar, n: usize, graph: &[u16], k: usize, edge: TraceEdge) -> bool
    requires k_lt_edge_limit { (k < edge_limit) × (graph_room ≤ length graph.now) }
    requires k_value { (edge_is_fit n (productions_in grammar.words.now grammar.productions) graph.now k ≡ true) × (value_fits n (productions_in grammar.words.now grammar.productions) edge ≡ true) }
    ensures { result ≡ is_same_edge (productions_in grammar.entry.words.now grammar.entry.productions) (edge_is edge) (edge_at graph.now k) }
{
    let other = read_edge(graph, k);
    edge.source == other.source
        && edge.target == other.target
        && same_label(grammar, edge.label, other.label)
}

// A list of symbols mixed into a number. Crate yacc_names mixes bytes by the same rule; what they have in common is one line. A loop and no `fold` as there: its closure would be these two lines, with the sum made `u16` and back.
fn mix(list: &[u16], start: usize) -> usize
    requires { (start < 65536) × (list_is_fit nonterminal_limit terminal_limit list.now ≡ true) }
    ensures { (result ≡ mixed start (listed list.now)) × (result < 65536) }
{
    let mut sum = start;
    for symbol in list.chunks_exact(Symbol::WORDS) {
        let number = word(symbol, 0) * NonterminalString::LIMIT + word(symbol, 1);
        sum = (sum * TraceGraph::SYMBOL_FACTOR + number) % TraceGraph::MIXED;
    }
    sum
}

// The bucket of an edge.
fn bucket_of(grammar: Grammar, edge: TraceEdge) -> usize
    requires small_edge { SmallEdge edge × (edge.label.production < grammar.productions) }
    ensures { (result ≡ bucket_number (productions_in grammar.entry.words.now grammar.entry.productions) (edge_is edge)) × (result < bucket_limit) }
{
    let from = node_number(edge.source);
    let to = node_number(edge.target);
    let start = (from * TraceGraph::SOURCE_FACTOR
        + (to * TraceGraph::TARGET_FACTOR + edge.label.index * TraceGraph::INDEX_FACTOR))
        % TraceGraph::MIXED;
    mix(grammar.symbols(edge.label.production), start) % TraceGraph::BUCKETS
}

// Whether an equal edge is among the first k edges: only those in the edge's bucket are looked at.
// Its links are words, 0 at the end, since there is no heap. For the two loops over such links, here and in yacc_names, there is no one iterator: what is promised of the links differs.
// Here and below a grammar and a number of nonterminals, a graph and its index are given beside each other: callers (adding an edge, opening a listing, its view) have them so from lent words, and would make a struct for the one call. `n` in `find`, `insert` and `same_edge` is for their clauses: a bound number there would stand in four of them.
pub fn find(
    grammar: Grammar,
    n: usize,
    graph: &[u16],
    ix: &[u16],
    k: usize,
    edge: TraceEdge,
    bucket: usize,
) -> bool
    requires graphed { Graphed n (productions_in grammar.words.now grammar.productions) graph.now ix.now k }
    requires edge_value { value_fits n (productions_in grammar.words.now grammar.productions) edge ≡ true }
    requires bucket_value { (bucket ≡ bucket_number (productions_in grammar.words.now grammar.productions) (edge_is edge)) × (bucket < bucket_limit) }
    ensures { result ≡ some? (is_same_edge (productions_in grammar.entry.words.now grammar.entry.productions) (edge_is edge)) (first_edges graph.now k) }
{
    let mut next = word(ix, bucket);
    while next != 0 {
        if same_edge(grammar, n, graph, next - 1, edge) {
            return true;
        }
        next = word(ix, TraceGraph::BUCKETS + (next - 1));
    }
    false
}

// Puts edge k in front of the chain of its bucket.
pub fn link(ix: &mut [u16], k: usize, bucket: usize)
    requires { (length ix.old ≡ index_room) × ((k < edge_limit) × (bucket < bucket_limit)) }
    ensures { ix.new ≡ chained ix.old bucket_limit bucket k }
{
    let older = ix[bucket];
    ix[TraceGraph::BUCKETS + k] = older;
    ix[bucket] = (k + 1) as u16;
}

// `add_edge`: puts the edge into the graph unless an equal one is there.
pub fn insert(
    grammar: Grammar,
    n: usize,
    graph: &mut [u16],
    ix: &mut [u16],
    edge: TraceEdge,
) -> Result<(), Full>
    requires graphed { Graphed n (productions_in grammar.words.now grammar.productions) graph.old ix.old (slice_index graph.old 0) }
    requires edge_value { value_fits n (productions_in grammar.words.now grammar.productions) edge ≡ true }
    ensures added { OnOk result (Added n (productions_in grammar.entry.words.now grammar.entry.productions) (edge_is edge) graph.old graph.new ix.new) }
    ensures overfull { OnErr result (Overfull (productions_in grammar.entry.words.now grammar.entry.productions) (edge_is edge) graph.old ix.old graph.new ix.new) }
{
    let count = word(graph, 0);
    let bucket = bucket_of(grammar, edge);
    if find(grammar, n, graph, ix, count, edge, bucket) {
        return Ok(());
    }
    if count == TraceGraph::EDGES {
        return Err(Full);
    }
    write_edge(graph, count, edge);
    graph[0] = (count + 1) as u16;
    link(ix, count, bucket);
    Ok(())
}

// Whether an item is one of the grammar.
#[tactic(auto, unfolding(crate::specs::Fits::item_is_fit))]
pub fn item_fits(grammar: Grammar, item: Item) -> bool
    ensures { result ≡ item_is_fit (productions_in grammar.entry.words.now grammar.entry.productions) item.production item.index }
{
    item.production < grammar.productions && item.index <= item.length(grammar)
}

// Whether a node is in range, of n nonterminals.
#[tactic(auto, unfolding(crate::specs::Values::node_value_fits, crate::specs::Fits::node_fits))]
pub fn node_fits(grammar: Grammar, n: usize, node: Node) -> bool
    ensures { result ≡ node_value_fits n (productions_in grammar.entry.words.now grammar.entry.productions) node }
{
    match node.kind {
        0 => node.number < n && node.index == 0,
        1 => {
            let item = Item {
                production: node.number,
                index: node.index,
            };
            item_fits(grammar, item)
        }
        _ => false,
    }
}

// Whether an edge is.
#[tactic(auto, unfolding(crate::specs::Values::value_fits))]
pub fn edge_fits(grammar: Grammar, n: usize, edge: TraceEdge) -> bool
    ensures { result ≡ value_fits n (productions_in grammar.entry.words.now grammar.entry.productions) edge }
{
    node_fits(grammar, n, edge.source)
        && node_fits(grammar, n, edge.target)
        && item_fits(grammar, edge.label)
}

// Whether edge k is in range and equals none before it; if so the index is brought up to it.
pub fn check_edge(grammar: Grammar, n: usize, graph: &[u16], ix: &mut [u16], k: usize) -> bool
    requires graphed { Graphed n (productions_in grammar.words.now grammar.productions) graph.now ix.old k }
    requires k_lt_edge_limit { k < edge_limit }
    ensures value { result ≡ edge_is_fit n (productions_in grammar.entry.words.now grammar.entry.productions) graph.now k && fresh (productions_in grammar.entry.words.now grammar.entry.productions) graph.now k }
    ensures graphed_2 { result ≡ true → Graphed n (productions_in grammar.entry.words.now grammar.entry.productions) graph.now ix.new (k + 1) }
{
    let edge = read_edge(graph, k);
    if !edge_fits(grammar, n, edge) {
        return false;
    }
    let bucket = bucket_of(grammar, edge);
    if find(grammar, n, graph, ix, k, edge, bucket) {
        return false;
    }
    link(ix, k, bucket);
    true
}

// Each edge that is found to fit goes into the index: no `all`, whose closure would write.
// Whether a lent graph is one (refusal 9): a count within the limit, every number in range, no edge twice. Makes its index in zeroed words.
pub fn check_graph(grammar: Grammar, n: usize, graph: &[u16], ix: &mut [u16]) -> bool
    requires n_bound { (n ≤ 32) × (graph_room ≤ length graph.now) }
    requires ix_value { ix.old ≡ replicate index_room 0 }
    ensures value { result ≡ graph_fits n (productions_in grammar.entry.words.now grammar.entry.productions) graph.now }
    ensures graphed { result ≡ true → Graphed n (productions_in grammar.entry.words.now grammar.entry.productions) graph.now ix.new (slice_index graph.now 0) }
{
    let count = word(graph, 0);
    if count > TraceGraph::EDGES {
        return false;
    }
    for k in 0..count {
        if !check_edge(grammar, n, graph, ix, k) {
            return false;
        }
    }
    true
}
