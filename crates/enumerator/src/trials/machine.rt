// Whether the words of a public listing hold a trial of a lent graph, and clearing them: the number of its edges, then its edges from the start item on, then zeros. Crate view has the steps from trial to trial.
ghost use Rattle.std.specs.Prelude.{◌≡◌, ℕ, ◌+◌, ◌-◌, ◌<◌, ◌≤◌, true, ◌&&◌, List, [], ◌++◌, reverse, length, take, drop, replicate, nat_lt, slice_index};
ghost use Rattle.lr1_base.specs.repr.Sizes.{scratch_words, edge_place};
ghost use Rattle.lr1_base.specs.words.Same.{same_words};
ghost use Rattle.lr1_base.specs.repr.Lists.{mem};
ghost use Rattle.trace_graph.specs.Graph.{at_nonterminal, at_item, is_same_node};
ghost use Rattle.trace_graph.specs.Words.{node_at, edges_in};
ghost use Rattle.trace_graph.specs.Values.{node_is, node_read, node_value_fits};
ghost use Rattle.enumerator.specs.trials.Trials.{ends_of, is_example_in};
ghost use Rattle.enumerator.specs.trials.Words.{words_of, has_trial};
ghost use Rattle.enumerator.specs.trials.Machine.{used_of, trial_from?};
ghost use Rattle.enumerator.specs.trials.Stacks.{Ground, Started, Roomy, Within, Stacked, stack_in};

use crate::example::Example;
use lr1_base::item::Item;
use lr1_base::repr::word;
use trace_graph::{Node, TraceGraph, read_edge};

// The words of no edge: all of a listing's, which C lends (`clear` of module graph_view is of a trial's 34).
pub fn clear(words: &mut [u16])
    requires { scratch_words ≤ length words.old }
    ensures { words.new ≡ words_of [] ++ drop scratch_words words.old }
{
    words[..TraceGraph::SCRATCH].fill(0);
}

// Whether the words from a place on, up to the end of the scratch, are zero. Every advance looks at them, so they are gathered without a way out, which lets many be read at once: by `all`, which was tried, the 32,000 words take 15.8 microseconds in place of 1.2, where a whole advance takes 5.4.
fn only_zeros(words: &[u16], from: usize) -> bool
    requires { (scratch_words ≤ length words.now) × (from ≤ scratch_words) }
    ensures { result ≡ same_words (drop from (take scratch_words words.now)) (replicate (scratch_words - from) 0) }
{
    let mut all: u16 = 0;
    for word in &words[from..TraceGraph::SCRATCH] {
        all |= *word;
    }
    all == 0
}

// The words of a trace graph: they have room for the edges that its count allows.
#[derive(Clone, Copy)]
pub struct Graph<'a> {
    pub words: &'a [u16],
    pub ghost roomy: { Roomy words.now },
}

impl<'a> Graph<'a> {
    // The node that an edge comes from. (That an edge is one of the graph's is asked here and below: a type for its number would have to hold the graph.)
    pub fn source(self, edge: usize) -> Node
        requires edge_bound { edge < slice_index self.words.now 0 }
        ensures { (node_is result ≡ node_at self.entry.words.now (edge_place edge)) × (result ≡ node_read self.entry.words.now (edge_place edge)) }
    {
        read_edge(self.words, edge).source
    }

    // The node that it enters.
    pub fn entered(self, edge: usize) -> Node
        requires edge_bound { edge < slice_index self.words.now 0 }
        ensures { (node_is result ≡ node_at self.entry.words.now (edge_place edge + 3)) × (result ≡ node_read self.entry.words.now (edge_place edge + 3)) }
    {
        read_edge(self.words, edge).target
    }

    // Whether an edge comes from a nonterminal. Nodes are compared by parts here and below: words in which nothing is known may have an index at a nonterminal, or another kind than 1 at an item, so `==` would ask for more.
    fn comes_from(self, edge: usize, nonterminal: usize) -> bool
        requires edge_bound { edge < slice_index self.words.now 0 }
        ensures { result ≡ is_same_node ((ends_of (edges_in self.entry.words.now)).source edge) (at_nonterminal nonterminal) }
    {
        let source = self.source(edge);
        source.kind == 0 && source.number == nonterminal
    }

    // Whether one of the first edges comes from a nonterminal. Here and below the words are given with how many edges are meant: the definitions are over the words as they are lent (`stack_in`), and of a part of them that would be said once more.
    fn uses(self, words: &[u16], depth: usize, nonterminal: usize) -> bool
        requires depth_in_bounds { depth < length words.now }
        requires within { Within (slice_index self.words.now 0) (stack_in words.now depth) }
        ensures { result ≡ mem nonterminal (used_of (ends_of (edges_in self.entry.words.now)) (stack_in words.now depth)) }
    {
        words[1..depth + 1]
            .iter()
            .any(|edge| self.comes_from(*edge as usize, nonterminal))
    }

    // Whether the trial is an example: its last edge comes from an item.
    pub fn is_example(self, words: &[u16]) -> bool
        requires stacked { Stacked (slice_index self.words.now 0) words.now }
        ensures { (st rest : List ℕ) → words.now ≡ words_of (reverse st) ++ rest → result ≡ is_example_in (ends_of (edges_in self.entry.words.now)) (reverse st) }
    {
        let depth = word(words, 0);
        depth != 0 && self.source(word(words, depth)).kind != 0
    }

    // Whether a number is an edge's, and the edge enters a node.
    fn enters(self, edge: usize, node: Node) -> bool
        requires { (G : Ground self.words.now) × (node_value_fits G.ranged.nonterminals G.productions node ≡ true) }
        ensures { result ≡ (nat_lt edge (ends_of (edges_in self.entry.words.now)).count && is_same_node ((ends_of (edges_in self.entry.words.now)).target edge) (node_is node)) }
    {
        edge < word(self.words, 0) && self.entered(edge) == node
    }

    // Whether the first edges are a trial from the start item: each enters the node that the one before it comes from, a nonterminal that none before comes from.
    fn is_trial(self, words: &[u16], depth: usize, start: Item) -> bool
        requires started { Started self.words.now start.production start.index }
        requires depth_nonzero { (0 < depth) × (depth < length words.now) }
        ensures { result ≡ trial_from? (ends_of (edges_in self.entry.words.now)) [] (at_item (record { production = start.production; index = start.index })) (take depth (drop 1 words.now)) }
    {
        let mut node = Node::item(start);
        // The node is carried from edge to edge, which a closure for `all` would have to change.
        for at in 0..depth - 1 {
            let edge = word(words, at + 1);
            if !self.enters(edge, node) {
                return false;
            }
            node = self.source(edge);
            if node.kind != 0 || self.uses(words, at, node.number) {
                return false;
            }
        }
        self.enters(word(words, depth), node)
    }

    // Whether the words are those of a trial that is an example (refusal 9): no trial has more than 33 edges.
    pub fn holds_trial(self, words: &[u16], start: Item) -> bool
        requires started { Started self.words.now start.production start.index }
        requires scratch_words_in_bounds { scratch_words ≤ length words.now }
        ensures { result ≡ has_trial (ends_of (edges_in self.entry.words.now)) (at_item (record { production = start.production; index = start.index })) words.now }
    {
        let depth = word(words, 0);
        // By the words alone there is none.
        if depth == 0 || depth > Example::REDUCTIONS || !only_zeros(words, depth + 1) {
            return false;
        }
        self.is_trial(words, depth, start) && self.is_example(words)
    }
}
