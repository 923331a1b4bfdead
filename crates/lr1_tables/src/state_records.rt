// The records of the states found (docs/RULES.md, "Building states"): states, items, edges.

ghost use Rattle.std.specs.Prelude.{◌≡◌, map, ◌+◌, ◌-◌, ◌*◌, ◌≤◌, ◌<◌, length};
ghost use Rattle.lr1_base.specs.repr.Sizes.{record_limit};
ghost use Rattle.lr1_base.specs.repr.Meaning.{Table};
ghost use Rattle.table_rewrite.specs.spelling.Spelled.{chain_from, item_quad, edge_quad, item_lists, edge_lists, states_at, productions_at, items_place, edges_at, records_of, quads};
ghost use Rattle.table_rewrite.specs.spelling.Grown.{Grown, Room, Stands};
ghost use Rattle.lr1_states.specs.stored_item.Stored.{entries};
ghost use Rattle.lr1_states.specs.transitions.Taking.{edges_in};
ghost use Rattle.lr1_tables.specs.state_records.Rows.{BeginsOf, item_of, ItemsIn, EdgesIn};

use lr1_base::item::Item;
use lr1_states::state_list::Begins;
use lr1_states::stored_item::read_item;
use lr1_states::transitions::{EdgeList, Edges, FoundEdge};
use table::put;
use table_rewrite::spelling::{head_of, next_of};

// The states, from record `at` on: their items begin at record `items`, their edges at record `ends`. That the words are room for the table U, and where its regions begin in it, is asked here and below: it chooses the table, and a ghost field's fact has one proof (module sizes).
pub fn write_states(
    begins: &Begins,
    rows: &[usize; Begins::ROWS],
    at: usize,
    items: usize,
    ends: usize,
    out: &mut [u16],
)
    requires { (U : Table) × ((begins.now.states ≡ length U.states) × ((at ≡ states_at U) × ((items ≡ items_place U) × ((ends ≡ edges_at U) × (BeginsOf (item_lists U) begins.now.items × (BeginsOf (edge_lists U) rows.now × Room U out.old)))))) }
    ensures { (U : Table) → begins.now.states ≡ length U.states → at ≡ states_at U → items ≡ items_place U → ends ≡ edges_at U → BeginsOf (item_lists U) begins.now.items → BeginsOf (edge_lists U) rows.now → Room U out.old → Grown U out.old out.new (states_at U) (productions_at U) }
{
    for s in 0..begins.states {
        let (item, item_past) = begins.span(s);
        let edge = rows[s];
        let item_head = head_of(item_past - item, items + item);
        let edge_head = head_of(rows[s + 1] - edge, ends + edge);
        put(out, at + s, item_head, edge_head, 0, 0);
    }
}

// The items of one state, by number: that is where their records stand too.
fn write_state_items(words: &[u16], from: usize, past: usize, items: usize, out: &mut [u16])
    requires from_le_past { (from ≤ past) × (record_limit * 5 ≤ length words.now) }
    requires stands { (U : Table) × (Stands (quads U) (items + from) (chain_from item_quad (items + from) (map item_of (entries words.now from (past - from)))) × Room U out.old) }
    ensures { (U : Table) → Stands (quads U) (items + from) (chain_from item_quad (items + from) (map item_of (entries words.now from (past - from)))) → Room U out.old → Grown U out.old out.new (items + from) (items + past) }
{
    for m in from..past {
        let item = Item::at(read_item(words, m).place);
        let next = next_of(past - m - 1, items + m);
        put(out, items + m, next, item.production, item.index, 0);
    }
}

// The items of all states, from record `items` on. (Edges below are written alike: one function of both would take as closures where a state's begin and what its records are made of, with all that these ask.)
pub fn write_items(words: &[u16], begins: &Begins, items: usize, out: &mut [u16])
    requires { (U : Table) × ((begins.now.states ≡ length U.states) × ((items ≡ items_place U) × (ItemsIn U words.now begins.now.items × Room U out.old))) }
    ensures { (U : Table) → begins.now.states ≡ length U.states → items ≡ items_place U → ItemsIn U words.now begins.now.items → Room U out.old → Grown U out.old out.new (items_place U) (edges_at U) }
{
    for k in 0..begins.states {
        let (from, past) = begins.span(k);
        write_state_items(words, from, past, items, out);
    }
}

// The edges of one state.
fn write_state_edges(
    edges: &[u16; EdgeList::LIMIT],
    from: usize,
    past: usize,
    at: usize,
    out: &mut [u16],
)
    requires from_le_past { from ≤ past }
    requires stands { (U : Table) × (Stands (quads U) (at + from) (chain_from edge_quad (at + from) (edges_in edges.now from (past - from))) × Room U out.old) }
    ensures { (U : Table) → Stands (quads U) (at + from) (chain_from edge_quad (at + from) (edges_in edges.now from (past - from))) → Room U out.old → Grown U out.old out.new (at + from) (at + past) }
{
    for m in from..past {
        let edge = FoundEdge::of(edges[m]);
        let (kind, number) = edge.symbol.words();
        let next = next_of(past - m - 1, at + m);
        put(
            out,
            at + m,
            next,
            kind as usize,
            number as usize,
            edge.target,
        );
    }
}

// The edges of all states, from record `at` on.
pub fn write_edges(edges: &Edges, states: usize, at: usize, out: &mut [u16])
    requires { (U : Table) × ((states ≡ length U.states) × ((at ≡ edges_at U) × (EdgesIn U edges.now.list.words edges.now.rows × Room U out.old))) }
    ensures { (U : Table) → states ≡ length U.states → at ≡ edges_at U → EdgesIn U edges.now.list.words edges.now.rows → Room U out.old → Grown U out.old out.new (edges_at U) (records_of U) }
{
    for k in 0..states {
        let (from, past) = edges.span(k);
        write_state_edges(&edges.list.words, from, past, at, out);
    }
}
