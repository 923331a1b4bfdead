// A trace's edges, one word each (specs/edge_codes/Codes), with a flag for each key: whether an equal edge is there is one bit. From the words a graph's, eight an edge.

ghost use Rattle.std.specs.Prelude.{OnOk, OnErr, ◌≡◌, ℕ, ◌+◌, ◌*◌, ◌/◌, ◌%◌, ◌<◌, ◌≤◌, true, List, [], ◌++◌, length, drop, get_or, slice_index};
ghost use Rattle.lr1_base.specs.repr.Sizes.{production_limit, index_limit, item_limit, edge_limit, edge_place, graph_room};
ghost use Rattle.lr1_base.specs.repr.Lists.{some?};
ghost use Rattle.lr1_base.specs.repr.Meaning as meaning-of;
ghost use Rattle.lr1_base.specs.repr.Listed.{listed};
ghost use Rattle.lr1_base.specs.repr.Packed.{productions_in, symbol_words};
ghost use Rattle.lr1_base.specs.item.Items.{shifts_nonterminal};
ghost use Rattle.trace_graph.specs.Graph as graph-of;
ghost use Rattle.trace_graph.specs.Words.{edge_words, graph_words};
ghost use Rattle.trace_graph.specs.Values.{SmallEdge, value_words};
ghost use Rattle.trace.specs.Sound.{EdgeSound};
ghost use Rattle.lr1_base.specs.bits.Bits.{bit_at};
ghost use Rattle.trace.specs.edge_codes.Codes.{code_limit, code_of, is_same_production, least_alike, key_by, key_of};
ghost use Rattle.trace.specs.edge_codes.Kinds.{kind_number, IsCodeOf};
ghost use Rattle.trace.specs.edge_codes.Coded.{codes_room, key_words, Coded, Leasts, SmallLeasts};
ghost use Rattle.trace.specs.edge_codes.Carried.{Decodes, Carried};
ghost use Rattle.lr1_base.specs.item.Places.{item_place};

use lr1_base::bits::{is_set, put};
use lr1_base::item::Item;
use lr1_base::repr::{Grammar, ProductionIndex, word};
use trace_graph::{Full, Node, TraceEdge, TraceGraph, same_label, write_edge};

// The kinds of a trace's edges, by their ends.
#[derive(Clone, Copy)]
pub enum EdgeKind {
    // From a nonterminal into an item.
    IntoItem,
    // From a nonterminal into a nonterminal.
    Between,
    // From an item into a nonterminal.
    FromItem,
}

impl EdgeKind {
    const COUNT: usize = 3;

    fn number(self) -> usize
        ensures { (result ≡ kind_number self) × (result < 3) }
    {
        self as usize
    }

    // The kind of a number. No `TryFrom`, here and at an edge's word: that the number is in range is asked, and its Result would be opened at once.
    fn of(number: usize) -> EdgeKind
        requires { number < 3 }
        ensures { kind_number result ≡ number }
    {
        match number {
            0 => EdgeKind::IntoItem,
            1 => EdgeKind::Between,
            _ => EdgeKind::FromItem,
        }
    }
}

// An edge of a trace, by its kind and the item of its label.
// That the item is in range is asked at each call: a ghost field would be proved at each of the five places that make an edge, for four that ask it.
#[derive(Clone, Copy)]
pub struct EdgeCode {
    pub kind: EdgeKind,
    pub item: Item,
}

impl EdgeCode {
    // Its word.
    pub fn word(self) -> usize
        requires { (self.item.production < production_limit) × (self.item.index < index_limit) }
        ensures { (result ≡ kind_number self.kind * item_limit + item_place (record { production = self.item.production; index = self.item.index })) × (result < code_limit) }
    {
        self.kind.number() * Item::LIMIT + self.item.place()
    }

    // The edge of a word.
    fn of(word: usize) -> EdgeCode
        requires { word < code_limit }
        ensures kind { kind_number result.kind ≡ word / item_limit }
        ensures item { (result.item.production ≡ word % item_limit / index_limit) × (result.item.index ≡ word % item_limit % index_limit) }
    {
        EdgeCode {
            kind: EdgeKind::of(word / Item::LIMIT),
            item: Item::at(word % Item::LIMIT),
        }
    }

    // Its key: of an edge between nonterminals the word with the least equal production.
    // That the least ones are small is asked here and by what calls this: who holds them (`Tracer`, `Given` of examples) has it with what they are of a table, which is not known here.
    pub fn key(self, least: &[u8]) -> usize
        requires { (self.item.production < production_limit) × (self.item.index < index_limit) × SmallLeasts least.now }
        ensures { (result < code_limit) × ((ps : List meaning-of.Production) → Leasts ps least.now → self.item.production < length ps → result ≡ key_by ps (kind_number self.kind) (record { production = self.item.production; index = self.item.index })) }
    {
        let item = self.item;
        match self.kind {
            EdgeKind::Between => {
                let same = Item {
                    production: least[item.production] as usize,
                    ..item
                };
                EdgeCode { item: same, ..self }.word()
            }
            EdgeKind::IntoItem | EdgeKind::FromItem => self.word(),
        }
    }
}

// A trace's edges, one word each behind their number, and a bit for each key that one of them has.
// Words that are lent, since there is no heap, and how many are used in front of them, as in a graph's words, so that definitions are over one list.
#[derive(Drop)]
pub struct EdgeCodes<'a> {
    pub words: &'a mut [u16],
    pub flags: &'a mut [u64],
    pub ghost room: { (length words.now ≡ codes_room) × (length flags.now ≡ key_words) },
}

impl<'a> EdgeCodes<'a> {
    ghost use Rattle.trace.specs.edge_codes.Lent.{SameWords};

    pub const WORDS: usize = 1 + TraceGraph::EDGES;

    pub const KEY_WORDS: usize = EdgeKind::COUNT * Item::FLAG_WORDS;

    // Over the words lent.
    pub fn of(words: &'a mut [u16], flags: &'a mut [u64]) -> EdgeCodes<'a>
        requires { (length words.old ≡ codes_room) × (length flags.old ≡ key_words) }
        ensures is { (result.words.now ≡ words.old) × (result.flags.now ≡ flags.old) }
        ensures same { (result.words.ghost_name ≡ words.entry.ghost_name) × (result.flags.ghost_name ≡ flags.entry.ghost_name) }
    {
        EdgeCodes { words, flags }
    }

    // Takes all edges away, whatever the words hold. (That it stays over the words lent is said here and by each function that adds edges: a struct lent for writing could be put over others.)
    pub fn clear(&mut self)
        ensures none { (T : meaning-of.Table) → Coded T self.new.words.now self.new.flags.now [] }
        ensures same { SameWords self.old self.new }
    {
        // As an empty graph is made.
        let empty = TraceGraph::new();
        self.words[0] = empty.edges as u16;
        self.flags.fill(0);
    }

    // Whether an edge has the key. (A method of `&self`, as the next: of a field lent for writing that is read in place the proof knows nothing.)
    fn has(&self, key: usize) -> bool
        requires { key < code_limit }
        ensures { result ≡ bit_at self.now.flags.now key }
    {
        is_set(self.flags, key)
    }

    // How many there are.
    fn count(&self) -> usize
        ensures { result ≡ get_or self.now.words.now 0 0 }
    {
        word(self.words, 0)
    }

    // Whether an equal edge is there.
    pub fn contains(&self, least: &[u8], edge: EdgeCode) -> bool
        requires { (edge.item.production < production_limit) × (edge.item.index < index_limit) × SmallLeasts least.now }
        ensures { (T : meaning-of.Table) → meaning-of.TableFits T → Leasts T.productions least.now → edge.item.production < length T.productions → (ws : List ℕ) (es : List graph-of.TraceEdge) (e : graph-of.TraceEdge) → Coded T ws self.now.flags.now es → EdgeSound T e → IsCodeOf edge e → result ≡ some? (graph-of.is_same_edge T.productions e) es }
    {
        self.has(edge.key(least))
    }

    // Adds an edge by its word and its key, unless an equal one is there; refusal 12 is one edge too many.
    pub fn insert_code(&mut self, code: usize, key: usize) -> Result<(), Full>
        requires { (code < code_limit) × (key < code_limit) }
        ensures coded { OnOk result ((T : meaning-of.Table) → meaning-of.TableFits T → (es : List graph-of.TraceEdge) (e : graph-of.TraceEdge) → Coded T self.old.words.now self.old.flags.now es → EdgeSound T e → code ≡ code_of e → key ≡ key_of T.productions (code_of e) → Coded T self.new.words.now self.new.flags.now (graph-of.add T.productions e es)) }
        ensures full { OnErr result ((T : meaning-of.Table) → meaning-of.TableFits T → (es : List graph-of.TraceEdge) (e : graph-of.TraceEdge) → Coded T self.old.words.now self.old.flags.now es → EdgeSound T e → code ≡ code_of e → key ≡ key_of T.productions (code_of e) → edge_limit < length (graph-of.add T.productions e es)) }
        ensures same { SameWords self.old self.new }
    {
        if self.has(key) {
            return Ok(());
        }
        let count = self.count();
        if count >= TraceGraph::EDGES {
            return Err(Full);
        }
        put(self.flags, key);
        self.words[1 + count] = code as u16;
        self.words[0] = (count + 1) as u16;
        Ok(())
    }

    // The same of an edge, by the least equal productions.
    pub fn insert(&mut self, least: &[u8], edge: EdgeCode) -> Result<(), Full>
        requires { (edge.item.production < production_limit) × (edge.item.index < index_limit) × SmallLeasts least.now }
        ensures coded { OnOk result ((T : meaning-of.Table) → meaning-of.TableFits T → Leasts T.productions least.now → edge.item.production < length T.productions → (es : List graph-of.TraceEdge) (e : graph-of.TraceEdge) → Coded T self.old.words.now self.old.flags.now es → EdgeSound T e → IsCodeOf edge e → Coded T self.new.words.now self.new.flags.now (graph-of.add T.productions e es)) }
        ensures full { OnErr result ((T : meaning-of.Table) → meaning-of.TableFits T → Leasts T.productions least.now → edge.item.production < length T.productions → (es : List graph-of.TraceEdge) (e : graph-of.TraceEdge) → Coded T self.old.words.now self.old.flags.now es → EdgeSound T e → IsCodeOf edge e → edge_limit < length (graph-of.add T.productions e es)) }
        ensures same { SameWords self.old self.new }
    {
        self.insert_code(edge.word(), edge.key(least))
    }
}

// Whether two productions have the same nonterminal and symbols.
fn same_production(grammar: Grammar, p: usize, q: usize) -> bool
    requires { (p < grammar.productions) × (q < grammar.productions) }
    ensures { result ≡ is_same_production (productions_in grammar.entry.words.now grammar.entry.productions) p q }
{
    let own = Item {
        production: p,
        index: 0,
    };
    let other = Item {
        production: q,
        index: 0,
    };
    grammar.owner(p) == grammar.owner(q) && same_label(grammar, own, other)
}

// The least production of the same nonterminal and symbols.
fn least_same(grammar: Grammar, p: usize) -> usize
    requires { p < grammar.productions }
    ensures { (result ≡ least_alike (productions_in grammar.entry.words.now grammar.entry.productions) p) × (result < production_limit) }
{
    (0..p)
        .find(|q| same_production(grammar, *q, p))
        .unwrap_or(p)
}

// That of every production.
pub fn least_productions(grammar: Grammar) -> [u8; ProductionIndex::LIMIT]
    ensures { Leasts (productions_in grammar.entry.words.now grammar.entry.productions) result × ((p : ℕ) → p < production_limit → slice_index result p < production_limit) }
{
    let mut least = [0u8; ProductionIndex::LIMIT];
    for p in 0..grammar.productions {
        least[p] = least_same(grammar, p) as u8;
    }
    least
}

// The node of the nonterminal at an item's cursor. (By the symbol's number: it is asked where that is a nonterminal, and a `match` would need a node for a terminal too.)
fn cursor_node(grammar: Grammar, item: Item) -> Node
    requires within { item.production < grammar.productions }
    requires index_in_bounds { item.index < length (listed (symbol_words grammar.words.now item.production)) }
    ensures { (n : ℕ) → shifts_nonterminal (listed (symbol_words grammar.entry.words.now item.production)) item.index n ≡ true → result ≡ record { kind = 0; number = n; index = 0 } }
{
    let (_, number) = grammar.symbol(item.production, item.index).words();
    Node::nonterminal(number as usize)
}

// The edge of a word. By the packed words, here and at all edges: how many productions stand in them the proof alone knows.
pub fn edge_of(grammar: &[u16], code: usize) -> TraceEdge
    requires { (n : ℕ) × ((T : meaning-of.Table) × ((e : graph-of.TraceEdge) × Decodes grammar.now n T e code)) }
    ensures { SmallEdge result × ((n : ℕ) (T : meaning-of.Table) (e : graph-of.TraceEdge) → Decodes grammar.now n T e code → value_words result ≡ edge_words e) }
{
    let coded = EdgeCode::of(code);
    let item = coded.item;
    // The productions up to that of the edge.
    let grammar = Grammar {
        words: grammar,
        productions: item.production + 1,
    };
    let owner = Node::nonterminal(grammar.owner(item.production));
    let (source, target) = match coded.kind {
        EdgeKind::IntoItem => (owner, Node::item(item)),
        EdgeKind::Between => (owner, cursor_node(grammar, item)),
        EdgeKind::FromItem => (Node::item(item), cursor_node(grammar, item)),
    };
    TraceEdge {
        source,
        target,
        label: item,
    }
}

// The words of all edges, in front of the graph; what stands behind them is as it was.
// By place, since the place is the edge's number in the graph; the count is set with each edge, so that the graph is whole after each.
pub fn write_codes(grammar: &[u16], words: &[u16], graph: &mut [u16])
    requires carried { (n : ℕ) × ((T : meaning-of.Table) × ((es : List graph-of.TraceEdge) × Carried grammar.now n words.now T es)) }
    requires room { graph_room ≤ length graph.old }
    ensures { (n : ℕ) (T : meaning-of.Table) (es : List graph-of.TraceEdge) → Carried grammar.now n words.now T es → graph.new ≡ graph_words es ++ drop (edge_place (length es)) graph.old }
{
    graph[0] = 0;
    let count = word(words, 0);
    for k in 0..count {
        let edge = edge_of(grammar, word(words, 1 + k));
        write_edge(graph, k, edge);
        graph[0] = (k + 1) as u16;
    }
}
