// A view and the labels of a trace, straight from its edges' words: no graph's words are made.
ghost use Rattle.std.specs.Prelude.{ℕ, List, drop};
ghost use Rattle.lr1_base.specs.repr.Meaning.{Table};
ghost use Rattle.trace_graph.specs.Graph.{TraceEdge};
ghost use Rattle.enumerator.specs.graph_view.Blank.{Blank};
ghost use Rattle.enumerator.specs.graph_view.View.{View, Labelled};
ghost use Rattle.trace.specs.edge_codes.Carried.{Carried};

use enumerator::graph_view::making::{ViewLists, slot, source};
use lr1_base::item::Item;
use lr1_base::repr::{Grammar, word};
use trace::edge_codes::edge_of;

// The view of a trace for a listing from an item, made in new lists, and by edge the nonterminal that it comes from: with the words behind the count the labels. By place, since the place is the edge's number.
// The productions are packed words, and how many stand in them the proof alone knows (as in `edge_of`).
pub fn view_codes(grammar: &[u16], words: &[u16], item: Item, lists: &mut ViewLists)
    requires carried { (n : ℕ) × ((T : Table) × ((es : List TraceEdge) × Carried grammar.now n words.now T es)) }
    requires blank { Blank lists.old }
    ensures { (n : ℕ) (T : Table) (es : List TraceEdge) → Carried grammar.now n words.now T es → View es (record { production = item.production; index = item.index }) lists.new.sources lists.new.older lists.new.latest × Labelled T.productions es lists.new.owners (drop 1 words.now) }
{
    let count = word(words, 0);
    for k in 0..count {
        let edge = edge_of(grammar, word(words, 1 + k));
        let from = edge.source;
        let to = edge.target;
        let label = edge.label;
        let own = Grammar {
            words: grammar,
            productions: label.production + 1,
        };
        let owner = own.owner(label.production);
        lists.owners[k] = owner as u8;
        lists.put(k, source(from), slot(to, item));
    }
}
