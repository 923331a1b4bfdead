// A view of a trace graph: what a listing from one item asks of it, in five small lists, two of them for the labels; the machine that steps from trial to trial over it, in 34 words of a trial.

ghost use Rattle.lr1_base.specs.repr.Sizes.{nonterminal_limit, edge_limit};
ghost use Rattle.enumerator.specs.graph_view.View.{Bounded, latest_room};

use crate::example::Example;
use lr1_base::repr::NonterminalString;
use trace_graph::TraceGraph;

pub mod machine;
pub mod making;

// By edge where it comes from: one more than the nonterminal, or 0 for an item. The bytes are in range, whatever graph they are of.
#[derive(Clone, Copy)]
pub struct Sources<'a> {
    pub bytes: &'a [u8],
    pub ghost bounded: { Bounded edge_limit nonterminal_limit bytes.now },
}

// By edge its label: the nonterminal that it comes from, and its item in one word.
#[derive(Clone, Copy)]
pub struct EdgeLabels<'a> {
    pub owners: &'a [u8],
    pub codes: &'a [u16],
}

// A view's lists. By edge: where it comes from, the next older edge into the same node, and its label; by node (the nonterminals, the start item, one word for all other items) the latest edge into it.
// Its numbers are in range, whatever graph it is of. 0 for none: of Options `older` would be more than 2,000 words (tests/arrays.py).
#[derive(Clone, Copy)]
pub struct View<'a> {
    pub sources: Sources<'a>,
    pub older: &'a [u16],
    pub latest: &'a [u16],
    pub labels: EdgeLabels<'a>,
    pub ghost linked: { Bounded edge_limit edge_limit older.now × Bounded latest_room edge_limit latest.now },
}

impl<'a> View<'a> {
    pub const EDGES: usize = TraceGraph::EDGES;

    // The nodes of the start item and of all other items, behind the nonterminals.
    pub const START: usize = NonterminalString::LIMIT;

    pub const OTHERS: usize = View::START + 1;

    pub const NODES: usize = View::OTHERS + 1;

    // Words of a trial: the number of its edges, and its edges; fixed words behind a count, since there is no heap.
    pub const TRIAL: usize = 1 + Example::REDUCTIONS;
}
