// What a conflict's two sides gather (`shift_examples`, `reduce_examples` of lr1/error/mod.rs; docs/RULES.md, "Classes"): of every example of each listing an outline, of the first the labels too (module outline), in one pass; and one example of a side made again.

pub mod viewing;

ghost use Rattle.std.specs.Prelude.{OnOk, OnErr, ◌≡◌, ℕ, ◌<◌, ◌≤◌, true, false, List, [], ◌++◌, length, drop};
ghost use Rattle.lr1_base.specs.repr.Sizes.{grammar_room, edge_limit, trial_limit, example_limit, example_room};
ghost use Rattle.lr1_base.specs.words.Lent.{in_front};
ghost use Rattle.lr1_base.specs.repr.Meaning.{Item as ItemOf};
ghost use Rattle.lr1_base.specs.repr.Packed.{productions_in};
ghost use Rattle.table.specs.Decoded.{meaning};
ghost use Rattle.trace_graph.specs.Graph.{TraceEdge};
ghost use Rattle.trace_graph.specs.Fits.{item_is_fit};
ghost use Rattle.trace.specs.edge_codes.Coded.{codes_room};
ghost use Rattle.trace.specs.Built.{edges_by};
ghost use Rattle.enumerator.specs.example.Example.{example_words};
ghost use Rattle.enumerator.specs.trials.Lister.{labels_of};
ghost use Rattle.enumerator.specs.trials.Advance.{set_of};
ghost use Rattle.enumerator.specs.graph_view.Blank.{Blank};
ghost use Rattle.enumerator.specs.graph_view.Trial.{trial_words};
ghost use Rattle.enumerator.specs.filter.Given.{Tried};
ghost use Rattle.conflict_sides.specs.conflict.Judge.{Example as ExampleOf};
ghost use Rattle.conflict_sides.specs.conflict.Sides.{shift_side, reduce_side, action_side_of};
ghost use Rattle.conflict_sides.specs.conflict.Outcome.{conflict_fits};
ghost use Rattle.conflict_sides.specs.outline.Inline.{CodeFits};
ghost use Rattle.conflict_sides.specs.outline.Lent.{SameWords};
ghost use Rattle.conflict_sides.specs.examples.Reads.{Reads};
ghost use Rattle.conflict_sides.specs.examples.Listing.{listed_by, Listable};
ghost use Rattle.conflict_sides.specs.examples.Gathers.{ListedOn, Sided, shifts, shift_made, reduce_made, action_made, is_shift, reduced, traced_side, TrialsIn, PutBehind};
ghost use Rattle.trace.specs.declared.Action.TheVariants.{Reduce};
ghost use Rattle.conflict_sides.specs.examples.Again.{Listed, Finds};

use crate::conflict::Conflict;
use crate::examples::viewing::view_codes;
use crate::outline::{Outline, Side, keep_labels, outline_of};
use crate::shift_items::conflicting_shift_items;
use enumerator::example::Example;
use enumerator::filter::{Filter, Searched, read_labels, search, write_trial};
use enumerator::graph_view::making::ViewLists;
use enumerator::graph_view::{EdgeLabels, View};
use first::FirstSets;
use lr1_base::item::Item;
use lr1_base::lookahead::TokenSet;
use lr1_base::repr::{Grammar, ProductionIndex, Refusal, StateIndex};
use table::AcceptedTable;
use trace::edge_codes::{EdgeCodes, least_productions};
use trace::nullable_suffixes::suffix_ends;
use trace::{Action, TracedItem, Tracer, trace_codes};
use trace_graph::Full;

// What tracing and listing read beside the table and its productions, made once for a table: FIRST sets, the least equal productions, which items have a nullable suffix.
#[derive(Clone, Copy)]
pub struct Prepared {
    pub sets: FirstSets,
    pub least: [u8; ProductionIndex::LIMIT],
    pub ends: [u64; Item::FLAG_WORDS],
}

// Packs the productions into the words lent, and makes the rest. The words are read again by `given`, so `read_grammar`, which keeps the loan, is not for them; they are a part of lent scratch, so a slice.
pub fn prepare(table: AcceptedTable, words: &mut [u16]) -> Prepared
    requires { length words.old ≡ grammar_room }
    ensures { Reads table.entry.words.now words.new (length (meaning table.entry.words.now).productions) result.sets.terminals result.sets.map result.least result.ends }
{
    table.read_productions(words);
    let counts = table.counts();
    let grammar = Grammar {
        words,
        productions: counts.productions,
    };
    let sets = FirstSets::new(grammar, counts.terminals as u16);
    Prepared {
        sets,
        least: least_productions(grammar),
        ends: suffix_ends(grammar, &sets),
    }
}

impl Prepared {
    // All of it, with the table and its packed productions.
    pub fn given<'a>(&'a self, table: AcceptedTable<'a>, words: &'a [u16]) -> Given<'a>
        requires { Reads table.words.now words.now (length (meaning table.words.now).productions) self.now.sets.terminals self.now.sets.map self.now.least self.now.ends }
        ensures table { result.table.words.now ≡ table.entry.words.now }
        ensures grammar { (result.grammar.words.now ≡ words.now) × (result.grammar.productions ≡ length (meaning table.entry.words.now).productions) }
        ensures sets { (result.sets.now ≡ self.now.sets) × (result.least.now ≡ self.now.least) × (result.ends.now ≡ self.now.ends) }
    {
        let grammar = Grammar {
            words,
            productions: table.counts().productions,
        };
        Given {
            table,
            grammar,
            sets: &self.sets,
            least: &self.least,
            ends: &self.ends,
        }
    }
}

// What gathering and judging are given of a table: the table, its packed productions, and what was prepared.
#[derive(Clone, Copy)]
pub struct Given<'a> {
    pub table: AcceptedTable<'a>,
    pub grammar: Grammar<'a>,
    pub sets: &'a FirstSets,
    pub least: &'a [u8],
    pub ends: &'a [u64],
    pub ghost reads: { Reads table.words.now grammar.words.now grammar.productions sets.now.terminals sets.now.map least.now ends.now },
}

impl<'a> Given<'a> {
    // The filter of a listing.
    fn filter(self, lookahead: Option<TokenSet>) -> Filter<'a>
        ensures grammar { (result.grammar.words.now ≡ self.entry.grammar.words.now) × (result.grammar.productions ≡ self.entry.grammar.productions) }
        ensures sets { (result.sets.now ≡ self.entry.sets.now) × (result.lookahead ≡ lookahead) }
    {
        Filter {
            grammar: self.grammar,
            sets: self.sets,
            lookahead,
        }
    }
}

// A conflict of the table, its parts in range.
#[derive(Clone, Copy)]
pub struct TableConflict<'a> {
    pub given: Given<'a>,
    pub conflict: Conflict,
    pub ghost fits: { conflict_fits (meaning given.table.words.now) conflict ≡ true },
}

impl<'a> TableConflict<'a> {
    // The conflict's reduce as the action of a conflict: what is said of an action's side is said of the other side so.
    pub fn reduced(self) -> TableConflict<'a>
        ensures table { result.given.table.words.now ≡ self.entry.given.table.words.now }
        ensures conflict { result.conflict ≡ reduced self.entry.conflict }
    {
        TableConflict {
            given: self.given,
            conflict: Conflict {
                action: 1,
                operand: self.conflict.production.0,
                ..self.conflict
            },
        }
    }

    // The reduction that its action is.
    fn reduction(self) -> TableReduction<'a>
        requires { is_shift self.conflict ≡ false }
        ensures table { result.given.table.words.now ≡ self.entry.given.table.words.now }
        ensures parts { (result.state ≡ self.entry.conflict.state) × (result.production ≡ self.entry.conflict.operand) × (result.token ≡ self.entry.conflict.token) }
    {
        TableReduction {
            given: self.given,
            state: self.conflict.state,
            production: self.conflict.operand as usize,
            token: self.conflict.token,
        }
    }
}

// A production of the table that a state reduces by a token, whatever the state's actions are.
#[derive(Clone, Copy)]
pub struct TableReduction<'a> {
    pub given: Given<'a>,
    pub state: StateIndex,
    pub production: usize,
    pub token: u16,
    pub ghost within: { (state.0 < length (meaning given.table.words.now).states) × (production < length (meaning given.table.words.now).productions) × (token ≤ (meaning given.table.words.now).terminals) },
}

impl<'a> TableReduction<'a> {
    // The production at its end, as a reduce traces it, by the token.
    fn item(self) -> TableItem<'a>
        ensures table { result.given.table.words.now ≡ self.entry.given.table.words.now }
        ensures action { result.traced.action ≡ Reduce }
        ensures side { traced_side (meaning self.entry.given.table.words.now) result.traced result.lookahead 0 ≡ reduce_side (meaning self.entry.given.table.words.now) self.entry.state.0 self.entry.production self.entry.token }
    {
        let production = self.production;
        TableItem {
            given: self.given,
            traced: TracedItem {
                state: self.state.0 as usize,
                item: Item {
                    production,
                    index: self.given.grammar.length(production),
                },
                action: Action::Reduce,
            },
            lookahead: Some(TokenSet::from(self.token)),
        }
    }
}

// An item of the table that is traced from a state of it, and what its examples are filtered by.
#[derive(Clone, Copy)]
struct TableItem<'a> {
    given: Given<'a>,
    traced: TracedItem,
    lookahead: Option<TokenSet>,
    ghost fits: { (traced.state < length (meaning given.table.words.now).states) × (item_is_fit (meaning given.table.words.now).productions traced.item.production traced.item.index ≡ true) },
}

// How many examples are kept of a side, and how many trials were made.
#[derive(Clone, Copy, Default)]
pub struct Gathered {
    pub examples: usize,
    pub trials: u32,
}

// Whether a shift is traced: a yes or no, as what is kept of an example is defined by (`label_of`).
fn traces_shift(action: Action) -> bool
    ensures { result ≡ shifts action }
{
    matches!(action, Action::Shift)
}

// The outline of the trial that the words hold, kept as example `count` of its side, number `turn` of its listing; and the labels of the side's first.
// That the words hold a trial of the view is asked here as in search, which goes on in the same words: a type for them would be taken apart at each step.
fn keep_trial(
    grammar: Grammar,
    shift: bool,
    edges: EdgeLabels,
    words: &[u16],
    side: &mut Side,
    count: usize,
    turn: usize,
)
    requires tried { (es : List TraceEdge) × Tried (productions_in grammar.words.now grammar.productions) es edges.owners.now edges.codes.now words.now }
    requires count_in_bounds { (count < example_limit) × (turn < example_limit) }
    ensures put_behind { (es : List TraceEdge) → Tried (productions_in grammar.entry.words.now grammar.entry.productions) es edges.entry.owners.now edges.entry.codes.now words.now → (p rest : List ℕ) → words.now ≡ trial_words p ++ rest → PutBehind (productions_in grammar.entry.words.now grammar.entry.productions) shift (labels_of (productions_in grammar.entry.words.now grammar.entry.productions) es p) turn count side.old.kept.now side.old.prints.now side.new.kept.now side.new.prints.now }
    ensures same { SameWords side.old side.new }
{
    let mut room = [0u16; Example::ALL_LABEL_WORDS];
    let labels = read_labels(grammar, edges, words, &mut room);
    side.keep(outline_of(labels, shift), turn, count);
    if count < Outline::LABELLED {
        keep_labels(labels.words, side.kept, count);
    }
}

// Every example of a listing, its outline put behind the `count` of its side; the search goes from one to the next. Example 193 of the side is refusal 14, trial 100,001 refusal 13. The view says from which item.
fn list_outlines(
    filter: Filter,
    shift: bool,
    view: View,
    side: &mut Side,
    count: usize,
) -> Result<Gathered, Refusal>
    requires listable { (es : List TraceEdge) × ((start : ItemOf) × Listable (productions_in filter.grammar.words.now filter.grammar.productions) es view.labels.owners.now view.labels.codes.now view.sources.bytes.now view.older.now view.latest.now start) }
    requires count_in_bounds { count ≤ example_limit }
    ensures listed_on { (es : List TraceEdge) (start : ItemOf) → Listable (productions_in filter.entry.grammar.words.now filter.entry.grammar.productions) es view.entry.labels.owners.now view.entry.labels.codes.now view.entry.sources.bytes.now view.entry.older.now view.entry.latest.now start → ListedOn (productions_in filter.entry.grammar.words.now filter.entry.grammar.productions) shift result count side.old.kept.now side.old.prints.now side.new.kept.now side.new.prints.now (listed_by filter.entry.sets.now.terminals filter.entry.sets.now.map (productions_in filter.entry.grammar.words.now filter.entry.grammar.productions) es (set_of filter.entry.lookahead) start count) }
    ensures same { SameWords side.old side.new }
    ensures trials_in { TrialsIn trial_limit result }
{
    let mut words = [0u16; View::TRIAL];
    let mut turn: usize = 0;
    let mut made: u32 = 0;
    // Each search tells by its answer whether there is another.
    loop {
        match search(filter, view, &mut words, made) {
            Searched::Hit(number) => {
                if count + turn >= Conflict::EXAMPLES {
                    return Err(Refusal::TooManyExamples);
                }
                keep_trial(
                    filter.grammar,
                    shift,
                    view.labels,
                    &words,
                    side,
                    count + turn,
                    turn,
                );
                turn += 1;
                made = number;
            }
            Searched::Out(number) => {
                return Ok(Gathered {
                    examples: count + turn,
                    trials: number,
                });
            }
            Searched::Over => {
                return Err(Refusal::TooManyTrials);
            }
        }
    }
}

// The item is traced from its state: its edges in the words lent, one each, and the lists of the view from the item, in new lists. More than 1,024 edges do not fit.
// The view itself is made by the caller: a view over both lent values at one lifetime has no proof.
fn open_view(item: TableItem, words: &mut [u16], lists: &mut ViewLists) -> Result<(), Full>
    requires room { length words.old ≡ codes_room }
    requires blank { Blank lists.old }
    ensures listable { OnOk result (Listable (meaning item.entry.given.table.words.now).productions (edges_by item.entry.traced.action (meaning item.entry.given.table.words.now) item.entry.traced.state (record { production = item.entry.traced.item.production; index = item.entry.traced.item.index })) lists.new.owners (drop 1 words.new) lists.new.sources lists.new.older lists.new.latest (record { production = item.entry.traced.item.production; index = item.entry.traced.item.index })) }
    ensures edge_limit_in_bounds { OnErr result (edge_limit < length (edges_by item.entry.traced.action (meaning item.entry.given.table.words.now) item.entry.traced.state (record { production = item.entry.traced.item.production; index = item.entry.traced.item.index }))) }
{
    let given = item.given;
    let tracer = Tracer {
        table: given.table,
        grammar: given.grammar,
        least: given.least,
    };
    trace_codes(tracer, given.ends, item.traced, words)?;
    view_codes(given.grammar.words, words, item.traced.item, lists);
    Ok(())
}

// One listing of a side: the item is traced from the state, and the examples of the trace are listed. More than 1,024 edges are refusal 12.
fn list_item(item: TableItem, side: &mut Side, count: usize) -> Result<Gathered, Refusal>
    requires { count ≤ example_limit }
    ensures listed_on { ListedOn (meaning item.entry.given.table.words.now).productions (shifts item.entry.traced.action) result count side.old.kept.now side.old.prints.now side.new.kept.now side.new.prints.now (traced_side (meaning item.entry.given.table.words.now) item.entry.traced item.entry.lookahead count) }
    ensures same { SameWords side.old side.new }
    ensures trials_in { TrialsIn trial_limit result }
{
    let mut words = [0u16; EdgeCodes::WORDS];
    let mut lists = ViewLists::new();
    open_view(item, &mut words, &mut lists)?;
    let view = lists.view(&words[1..]);
    let filter = item.given.filter(item.lookahead);
    let shift = traces_shift(item.traced.action);
    list_outlines(filter, shift, view, side, count)
}

// `shift_examples`: the items that shift the token in their order, each traced and listed before the next. (The traced item is made here and in `action_again`: a function of it would have a contract as long.)
fn shift_examples(case: TableConflict, side: &mut Side) -> Result<Gathered, Refusal>
    ensures sided { Sided (meaning case.entry.given.table.words.now) true (shift_made (meaning case.entry.given.table.words.now) case.entry.conflict.state.0) result side.new.kept.now side.new.prints.now (shift_side (meaning case.entry.given.table.words.now) case.entry.conflict.state.0 case.entry.conflict.token) }
    ensures same { SameWords side.old side.new }
{
    let given = case.given;
    let state = case.conflict.state.0 as usize;
    let mut order = [0u16; ProductionIndex::LIMIT];
    let mut marks = [0u64; Item::FLAG_WORDS];
    let items = conflicting_shift_items(
        given.table,
        given.grammar,
        state,
        case.conflict.token as usize,
        &mut order,
        &mut marks,
    );
    let mut gathered = Gathered::default();
    for item in items {
        let traced = TracedItem {
            state,
            item,
            action: Action::Shift,
        };
        let one = TableItem {
            given,
            traced,
            lookahead: None,
        };
        let listed = list_item(one, side, gathered.examples)?;
        gathered.examples = listed.examples;
        gathered.trials += listed.trials;
    }
    Ok(gathered)
}

// `reduce_examples`: the production at its end, filtered by the token.
pub fn reduce_examples(case: TableReduction, side: &mut Side) -> Result<Gathered, Refusal>
    ensures sided { Sided (meaning case.entry.given.table.words.now) false (reduce_made (meaning case.entry.given.table.words.now) case.entry.state.0 case.entry.production case.entry.token) result side.new.kept.now side.new.prints.now (reduce_side (meaning case.entry.given.table.words.now) case.entry.state.0 case.entry.production case.entry.token) }
    ensures same { SameWords side.old side.new }
{
    list_item(case.item(), side, 0)
}

// The side of the conflict's action.
pub fn action_examples(case: TableConflict, side: &mut Side) -> Result<Gathered, Refusal>
    ensures sided { Sided (meaning case.entry.given.table.words.now) (is_shift case.entry.conflict) (action_made (meaning case.entry.given.table.words.now) case.entry.conflict) result side.new.kept.now side.new.prints.now (action_side_of (meaning case.entry.given.table.words.now) case.entry.conflict.state.0 case.entry.conflict.action case.entry.conflict.operand case.entry.conflict.token) }
    ensures same { SameWords side.old side.new }
{
    if case.conflict.is_shift() {
        shift_examples(case, side)
    } else {
        reduce_examples(case.reduction(), side)
    }
}

// From no edge on, past `wanted` examples of a listing: whether the words hold the next.
fn find_example(filter: Filter, view: View, words: &mut [u16], wanted: usize) -> bool
    requires listable { (es : List TraceEdge) × ((start : ItemOf) × Listable (productions_in filter.grammar.words.now filter.grammar.productions) es view.labels.owners.now view.labels.codes.now view.sources.bytes.now view.older.now view.latest.now start) }
    requires by_index { (rest : List ℕ) × (words.old ≡ trial_words [] ++ rest) }
    ensures { (es : List TraceEdge) (start : ItemOf) → Listable (productions_in filter.entry.grammar.words.now filter.entry.grammar.productions) es view.entry.labels.owners.now view.entry.labels.codes.now view.entry.sources.bytes.now view.entry.older.now view.entry.latest.now start → Finds (productions_in filter.entry.grammar.words.now filter.entry.grammar.productions) es view.entry.labels.owners.now view.entry.labels.codes.now result (λ k. listed_by filter.entry.sets.now.terminals filter.entry.sets.now.map (productions_in filter.entry.grammar.words.now filter.entry.grammar.productions) es (set_of filter.entry.lookahead) start k) wanted words.new }
{
    // Counted beside the searches: with a range the last search would stand once more behind the loop.
    let mut left = wanted;
    let mut made: u32 = 0;
    loop {
        match search(filter, view, words, made) {
            Searched::Hit(number) => {
                if left == 0 {
                    return true;
                }
                left -= 1;
                made = number;
            }
            Searched::Out(_) => {
                return false;
            }
            Searched::Over => {
                return false;
            }
        }
    }
}

// One listing's example made again, `wanted` others before it: the item is traced from the state, and the listing goes on to the example. No trial of it is counted.
// The buffer is lent here and below, and may be longer than an example: its length is asked at the entry (refusal 11).
fn item_again(item: TableItem, wanted: usize, buffer: &mut [u16])
    requires { example_room ≤ length buffer.old }
    ensures { (k : ℕ) (x : ExampleOf) → k ≤ example_limit → Listed (traced_side (meaning item.entry.given.table.words.now) item.entry.traced item.entry.lookahead k) wanted x → buffer.new ≡ in_front (example_words (meaning item.entry.given.table.words.now).productions x) buffer.old }
{
    let grammar = item.given.grammar;
    let mut words = [0u16; EdgeCodes::WORDS];
    let mut lists = ViewLists::new();
    if let Ok(()) = open_view(item, &mut words, &mut lists) {
        let view = lists.view(&words[1..]);
        let mut trial = [0u16; View::TRIAL];
        let filter = item.given.filter(item.lookahead);
        if find_example(filter, view, &mut trial, wanted) {
            write_trial(grammar, view.labels, &trial, buffer);
        }
    }
}

// Example `wanted` of a reduce's side made again.
pub fn reduce_again(case: TableReduction, wanted: usize, buffer: &mut [u16])
    requires example_room_in_bounds { example_room ≤ length buffer.old }
    ensures { (label : ℕ) (x : ExampleOf) → reduce_made (meaning case.entry.given.table.words.now) case.entry.state.0 case.entry.production case.entry.token label wanted x → buffer.new ≡ in_front (example_words (meaning case.entry.given.table.words.now).productions x) buffer.old }
{
    item_again(case.item(), wanted, buffer);
}

// An example of the side of the conflict's action made again: of a shift the item is the label kept.
pub fn action_again(case: TableConflict, label: usize, wanted: usize, buffer: &mut [u16])
    requires code_fits { is_shift case.conflict ≡ true → CodeFits (meaning case.given.table.words.now).productions label }
    requires example_room_in_bounds { example_room ≤ length buffer.old }
    ensures { (x : ExampleOf) → action_made (meaning case.entry.given.table.words.now) case.entry.conflict label wanted x → buffer.new ≡ in_front (example_words (meaning case.entry.given.table.words.now).productions x) buffer.old }
{
    if case.conflict.is_shift() {
        let traced = TracedItem {
            state: case.conflict.state.0 as usize,
            item: Item::at(label),
            action: Action::Shift,
        };
        let item = TableItem {
            given: case.given,
            traced,
            lookahead: None,
        };
        item_again(item, wanted, buffer);
    } else {
        reduce_again(case.reduction(), wanted, buffer);
    }
}
