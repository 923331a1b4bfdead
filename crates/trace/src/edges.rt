// The edges that tracing adds, each by its kind and the item at hand.
ghost use Rattle.std.specs.Prelude.{OnOk, OnErr, ◌≡◌, ℕ, ◌<◌, true, List, length};
ghost use Rattle.lr1_base.specs.repr.Sizes.{production_limit, index_limit, edge_limit};
ghost use Rattle.lr1_base.specs.repr.Meaning.{Table, TableFits, ItemFits};
ghost use Rattle.trace_graph.specs.Graph.{TraceEdge, add, at_nonterminal, at_item};
ghost use Rattle.trace.specs.Traced.{can_shift, owner_of};
ghost use Rattle.trace.specs.Edges.{edge_to_nonterminal};
ghost use Rattle.trace.specs.edge_codes.Coded.{Coded, Leasts, SmallLeasts};
ghost use Rattle.trace.specs.edge_codes.Lent.{SameWords};
ghost use Rattle.trace.specs.edge_codes.Kinds.{kind_from};

use crate::edge_codes::{EdgeCode, EdgeCodes, EdgeKind};
use lr1_base::item::Item;
use trace_graph::Full;

// The edge from an item's nonterminal into the item, whatever table both are of.
// That the item is the table's is asked by the callers too, as it is of states and nonterminals: a type for it would have to hold the table, and items are compared and stored without one.
pub fn to_item(least: &[u8], edges: &mut EdgeCodes, item: Item) -> Result<(), Full>
    requires { (item.production < production_limit) × (item.index < index_limit) × SmallLeasts least.now }
    ensures coded { OnOk result ((T : Table) → TableFits T → Leasts T.productions least.now → ItemFits T (record { production = item.production; index = item.index }) → (es : List TraceEdge) → Coded T edges.old.words.now edges.old.flags.now es → Coded T edges.new.words.now edges.new.flags.now (add T.productions (record { source = at_nonterminal (owner_of T (record { production = item.production; index = item.index })); target = at_item (record { production = item.production; index = item.index }); label = record { production = item.production; index = item.index } }) es)) }
    ensures full { OnErr result ((T : Table) → TableFits T → Leasts T.productions least.now → ItemFits T (record { production = item.production; index = item.index }) → (es : List TraceEdge) → Coded T edges.old.words.now edges.old.flags.now es → edge_limit < length (add T.productions (record { source = at_nonterminal (owner_of T (record { production = item.production; index = item.index })); target = at_item (record { production = item.production; index = item.index }); label = record { production = item.production; index = item.index } }) es)) }
    ensures same { SameWords edges.old edges.new }
{
    edges.insert(
        least,
        EdgeCode {
            kind: EdgeKind::IntoItem,
            item,
        },
    )
}

// The kind of an edge into a nonterminal that an item can shift: where tracing goes on from the item's nonterminal, else from the item. Whether it goes on is a yes or no, as the definitions have it (`edge_to_nonterminal`).
pub fn kind_on(on: bool) -> EdgeKind
    ensures { result ≡ kind_from on }
{
    if on {
        EdgeKind::Between
    } else {
        EdgeKind::FromItem
    }
}

// That edge.
pub fn to_nonterminal(least: &[u8], edges: &mut EdgeCodes, on: bool, item: Item) -> Result<(), Full>
    requires { (item.production < production_limit) × (item.index < index_limit) × SmallLeasts least.now }
    ensures coded { OnOk result ((T : Table) → TableFits T → Leasts T.productions least.now → (n : ℕ) → n < length T.nonterminals → ItemFits T (record { production = item.production; index = item.index }) → can_shift T n (record { production = item.production; index = item.index }) ≡ true → (es : List TraceEdge) → Coded T edges.old.words.now edges.old.flags.now es → Coded T edges.new.words.now edges.new.flags.now (add T.productions (edge_to_nonterminal on (owner_of T (record { production = item.production; index = item.index })) n (record { production = item.production; index = item.index })) es)) }
    ensures full { OnErr result ((T : Table) → TableFits T → Leasts T.productions least.now → (n : ℕ) → n < length T.nonterminals → ItemFits T (record { production = item.production; index = item.index }) → can_shift T n (record { production = item.production; index = item.index }) ≡ true → (es : List TraceEdge) → Coded T edges.old.words.now edges.old.flags.now es → edge_limit < length (add T.productions (edge_to_nonterminal on (owner_of T (record { production = item.production; index = item.index })) n (record { production = item.production; index = item.index })) es)) }
    ensures same { SameWords edges.old edges.new }
{
    let kind = kind_on(on);
    edges.insert(least, EdgeCode { kind, item })
}
