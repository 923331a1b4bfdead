// The search of a listing from one trial handed out to the next (docs/RULES.md, "Listing"; `FilteredPathEnumerator` of lr1/trace/trace_graph/mod.rs): the labels of a trial, the filter, the count of trials.

ghost use Rattle.std.specs.Prelude.{◌≡◌, ℕ, ◌-◌, ◌<◌, ◌≤◌, true, List, [], ◌++◌, length, take, drop};
ghost use Rattle.std.proofs.Math.Option.{some};
ghost use Rattle.lr1_base.specs.repr.Sizes.{trial_limit, example_room, labels_room};
ghost use Rattle.lr1_base.specs.words.Lent.{in_front};
ghost use Rattle.lr1_base.specs.repr.Meaning.{Production, Item as ItemOf};
ghost use Rattle.lr1_base.specs.repr.Packed.{productions_in};
ghost use Rattle.trace_graph.specs.Graph.{TraceEdge, at_item};
ghost use Rattle.enumerator.specs.example.Example.{example_words};
ghost use Rattle.enumerator.specs.example.Labels.{labels_in, LabelsFit};
ghost use Rattle.enumerator.specs.trials.Trials.{ends_of, trials};
ghost use Rattle.enumerator.specs.trials.Lister.{labels_of, search};
ghost use Rattle.enumerator.specs.trials.Advance.{set_of};
ghost use Rattle.enumerator.specs.graph_view.View.{Sourced};
ghost use Rattle.enumerator.specs.graph_view.Trial.{trial_room, trial_words};
ghost use Rattle.enumerator.specs.declared.filter.Searched.TheVariants.{Over};
ghost use Rattle.enumerator.specs.filter.Filter.{passes_by, hands_by};
ghost use Rattle.enumerator.specs.filter.Given.{Searching, Tried};
ghost use Rattle.enumerator.specs.filter.Found.{searched, searched_of, later_than};

use crate::example::{Example, Labels};
use crate::graph_view::machine::clear;
use crate::graph_view::{EdgeLabels, View};
use first::FirstSets;
use lr1_base::item::Item;
use lr1_base::lookahead::TokenSet;
use lr1_base::repr::{Grammar, NonterminalString, word};

// What a search finds: an example with its number, the end with the number of all trials, or a trial past the 100,000th (refusal 13).
// Three ends, and a count at the second too: as a Result of an Option it would be no plainer.
#[derive(Clone, Copy)]
pub enum Searched {
    Hit(u32),
    Out(u32),
    Over,
}

impl Searched {
    // Trials of one listing.
    pub const TRIALS: u32 = 100000;
}

// Writes the labels of a trial, three words each, by the places at which `Labels` reads them (a copy of an array is no plainer); answers how many words.
// `tried` here and below is of a graph that no argument has: a struct would hold it truncated, and the proof of each function would open it again, which is no plainer.
pub fn write_labels(edges: EdgeLabels, words: &[u16], labels: &mut [u16]) -> usize
    requires tried { (ps : List Production) × ((es : List TraceEdge) × Tried ps es edges.owners.now edges.codes.now words.now) }
    requires labels_room_in_bounds { labels_room ≤ length labels.old }
    ensures upper_bound { (result ≤ labels_room) × ((ps : List Production) (es : List TraceEdge) → Tried ps es edges.entry.owners.now edges.entry.codes.now words.now → LabelsFit ps (take result labels.new)) }
    ensures labels_after { (ps : List Production) (es : List TraceEdge) → Tried ps es edges.entry.owners.now edges.entry.codes.now words.now → (p rest : List ℕ) → words.now ≡ trial_words p ++ rest → labels_in (take result labels.new) ≡ labels_of ps es p }
{
    let count = word(words, 0);
    for at in 0..count {
        let edge = word(words, at + 1);
        let item = Item::at(word(edges.codes, edge) % Item::LIMIT);
        let place = Example::LABEL_WORDS * at;
        labels[place] = edges.owners[edge] as u16;
        labels[place + 1] = item.production as u16;
        labels[place + 2] = item.index as u16;
    }
    Example::LABEL_WORDS * count
}

// The labels of the trial that the words hold, written into the words lent for them: of each edge the nonterminal that it comes from and the item of its label; the edge into the start item first.
pub fn read_labels<'a>(
    grammar: Grammar<'a>,
    edges: EdgeLabels,
    words: &[u16],
    room: &'a mut [u16],
) -> Labels<'a>
    requires tried { (es : List TraceEdge) × Tried (productions_in grammar.words.now grammar.productions) es edges.owners.now edges.codes.now words.now }
    requires labels_room_in_bounds { labels_room ≤ length room.old }
    ensures grammar { (result.grammar.words.now ≡ grammar.entry.words.now) × (result.grammar.productions ≡ grammar.entry.productions) }
    ensures labels { (ps : List Production) (es : List TraceEdge) → Tried ps es edges.entry.owners.now edges.entry.codes.now words.now → (p rest : List ℕ) → words.now ≡ trial_words p ++ rest → labels_in result.words.now ≡ labels_of ps es p }
{
    let size = write_labels(edges, words, room);
    Labels {
        grammar,
        words: &room[..size],
    }
}

// The example of the trial that the words hold, at the front of the buffer.
pub fn write_trial(grammar: Grammar, edges: EdgeLabels, words: &[u16], buffer: &mut [u16])
    requires tried { (es : List TraceEdge) × Tried (productions_in grammar.words.now grammar.productions) es edges.owners.now edges.codes.now words.now }
    requires example_room_in_bounds { example_room ≤ length buffer.old }
    ensures { (es : List TraceEdge) → Tried (productions_in grammar.entry.words.now grammar.entry.productions) es edges.entry.owners.now edges.entry.codes.now words.now → (p rest : List ℕ) → words.now ≡ trial_words p ++ rest → buffer.new ≡ in_front (example_words (productions_in grammar.entry.words.now grammar.entry.productions) (labels_of (productions_in grammar.entry.words.now grammar.entry.productions) es p)) buffer.old }
{
    let mut room = [0u16; Example::ALL_LABEL_WORDS];
    let labels = read_labels(grammar, edges, words, &mut room);
    labels.write_example(buffer);
}

// The filter of a listing: the FIRST sets, of the productions, and any lookahead.
#[derive(Clone, Copy)]
pub struct Filter<'a> {
    pub grammar: Grammar<'a>,
    pub sets: &'a FirstSets,
    pub lookahead: Option<TokenSet>,
}

impl<'a> Filter<'a> {
    // Whether what the trial's example expects next meets a set.
    fn meets(self, set: TokenSet, edges: EdgeLabels, words: &[u16]) -> bool
        requires tried { (es : List TraceEdge) × Tried (productions_in self.grammar.words.now self.grammar.productions) es edges.owners.now edges.codes.now words.now }
        ensures { (es : List TraceEdge) → Tried (productions_in self.entry.grammar.words.now self.entry.grammar.productions) es edges.entry.owners.now edges.entry.codes.now words.now → (p rest : List ℕ) → words.now ≡ trial_words p ++ rest → result ≡ passes_by self.entry.sets.now.terminals self.entry.sets.now.map (productions_in self.entry.grammar.words.now self.entry.grammar.productions) es (some set.0) p }
    {
        let mut room = [0u16; Example::ALL_LABEL_WORDS];
        let labels = read_labels(self.grammar, edges, words, &mut room);
        let expected = labels.first0(self.sets);
        expected.answer.meets(self.sets.terminals, set)
    }

    // Without a lookahead every example passes. `is_none_or` was tried: the proof did not close over what its closure gives.
    pub fn passes(self, edges: EdgeLabels, words: &[u16]) -> bool
        requires tried { (es : List TraceEdge) × Tried (productions_in self.grammar.words.now self.grammar.productions) es edges.owners.now edges.codes.now words.now }
        ensures { (es : List TraceEdge) → Tried (productions_in self.entry.grammar.words.now self.entry.grammar.productions) es edges.entry.owners.now edges.entry.codes.now words.now → (p rest : List ℕ) → words.now ≡ trial_words p ++ rest → result ≡ passes_by self.entry.sets.now.terminals self.entry.sets.now.map (productions_in self.entry.grammar.words.now self.entry.grammar.productions) es (set_of self.entry.lookahead) p }
    {
        match self.lookahead {
            None => true,
            Some(set) => self.meets(set, edges, words),
        }
    }

    // Whether the trial is handed out: an example that passes.
    fn hands(self, view: View, words: &[u16]) -> bool
        requires tried { (es : List TraceEdge) × (Tried (productions_in self.grammar.words.now self.grammar.productions) es view.labels.owners.now view.labels.codes.now words.now × Sourced es view.sources.bytes.now) }
        ensures { (es : List TraceEdge) → Tried (productions_in self.entry.grammar.words.now self.entry.grammar.productions) es view.entry.labels.owners.now view.entry.labels.codes.now words.now → Sourced es view.entry.sources.bytes.now → (p rest : List ℕ) → words.now ≡ trial_words p ++ rest → result ≡ hands_by self.entry.sets.now.terminals self.entry.sets.now.map (productions_in self.entry.grammar.words.now self.entry.grammar.productions) es (set_of self.entry.lookahead) p }
    {
        view.sources.is_example(words) && self.passes(view.labels, words)
    }
}

// A trial past the limit: the words hold none.
fn overrun(words: &mut [u16]) -> Searched
    requires { trial_room ≤ length words.old }
    ensures { searched result words.new ≡ searched Over (trial_words [] ++ drop trial_room words.old) }
{
    clear(words);
    Searched::Over
}

// From the trial that the words hold on, past `count` trials made: the next that is handed out. The view says from which item.
pub fn search(filter: Filter, view: View, words: &mut [u16], count: u32) -> Searched
    requires searching { (es : List TraceEdge) × ((start : ItemOf) × Searching (productions_in filter.grammar.words.now filter.grammar.productions) es view.labels.owners.now view.labels.codes.now view.sources.bytes.now view.older.now view.latest.now words.old start) }
    ensures { (es : List TraceEdge) (start : ItemOf) → Searching (productions_in filter.entry.grammar.words.now filter.entry.grammar.productions) es view.entry.labels.owners.now view.entry.labels.codes.now view.entry.sources.bytes.now view.entry.older.now view.entry.latest.now words.old start → (p rest : List ℕ) → words.old ≡ trial_words p ++ rest → searched result words.new ≡ searched_of rest (search (hands_by filter.entry.sets.now.terminals filter.entry.sets.now.map (productions_in filter.entry.grammar.words.now filter.entry.grammar.productions) es (set_of filter.entry.lookahead)) (trial_limit - count) count (later_than p (trials (ends_of es) (at_item start)))) }
{
    let mut counts = [0u8; NonterminalString::LIMIT];
    view.sources.count_walk(words, &mut counts);
    let mut made = count;
    // The next trial is made in the words that are lent: an iterator would have to hold them.
    while view.next(words, &mut counts) {
        if made >= Searched::TRIALS {
            return overrun(words);
        }
        made += 1;
        if filter.hands(view, words) {
            return Searched::Hit(made);
        }
    }
    Searched::Out(made)
}
