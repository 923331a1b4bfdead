// The machine that steps from trial to trial (`find_next_trace` and what it calls), over a view and the words of a trial. Between two writes (an edge taken off, then it leaves the counts) the counts and the words do not agree, so that a struct of both would be taken apart at each step.
ghost use Rattle.std.specs.Prelude.{◌≡◌, List, [], ◌∷◌, ◌++◌, reverse, ℕ, suc, ◌≤◌, ◌<◌, length, get_or, drop, MatchOption};
ghost use Rattle.lr1_base.specs.repr.Sizes.{edge_limit, nonterminal_limit, reduction_limit};
ghost use Rattle.enumerator.specs.trials.Counts.{Counted};
ghost use Rattle.enumerator.specs.trials.Stacks.{stepped};
ghost use Rattle.enumerator.specs.graph_view.Trial.{trial_room, trial_words, Held, Fitting, step_words};
ghost use Rattle.enumerator.specs.graph_view.Steps.{joined_by, back_by, seek_by, next_by, example_by, CountedWalk, CountedEdges};

use crate::graph_view::{Sources, View};
use lr1_base::repr::word;

// One edge more. (That an edge's number is in range is asked here and below: a type for it would be made of each word that is read.)
fn push(words: &mut [u16], edge: usize)
    requires { (trial_room ≤ length words.old) × ((get_or words.old 0 0 < reduction_limit) × (edge < edge_limit)) }
    ensures { (p rest : List ℕ) → words.old ≡ trial_words p ++ rest → words.new ≡ trial_words (p ++ edge ∷ []) ++ rest }
{
    let depth = word(words, 0) + 1;
    words[depth] = edge as u16;
    words[0] = depth as u16;
}

// Another last edge.
fn replace(words: &mut [u16], edge: usize)
    requires { (trial_room ≤ length words.old) × ((get_or words.old 0 0 < trial_room) × (edge < edge_limit)) }
    ensures { (p : List ℕ) (e : ℕ) (rest : List ℕ) → words.old ≡ trial_words (p ++ e ∷ []) ++ rest → words.new ≡ trial_words (p ++ edge ∷ []) ++ rest }
{
    let depth = word(words, 0);
    words[depth] = edge as u16;
}

// The last edge taken off; its word becomes 0.
fn pop(words: &mut [u16])
    requires { (trial_room ≤ length words.old) × ((0 < get_or words.old 0 0) × (get_or words.old 0 0 < trial_room)) }
    ensures { (p : List ℕ) (e : ℕ) (rest : List ℕ) → words.old ≡ trial_words (p ++ e ∷ []) ++ rest → words.new ≡ trial_words p ++ rest }
{
    let depth = word(words, 0);
    words[depth] = 0;
    words[0] = (depth - 1) as u16;
}

// The words of no edge.
pub fn clear(words: &mut [u16])
    requires { trial_room ≤ length words.old }
    ensures { words.new ≡ trial_words [] ++ drop trial_room words.old }
{
    words[..View::TRIAL].fill(0);
}

// The last edge, or none. (That the words hold a trial is asked here and below: they stay the slice that C lends to a listing, of which a trial is the front.)
fn last(words: &[u16]) -> Option<usize>
    requires held { Held words.now }
    ensures { MatchOption result (get_or words.now 0 0 ≡ 0) (λ e. (get_or words.now 0 0 ≡ 0 → ⊥) × (e ≡ get_or words.now (get_or words.now 0 0) 0) × (e < edge_limit)) }
{
    let depth = word(words, 0);
    if depth == 0 {
        None
    } else {
        Some(word(words, depth))
    }
}

impl<'a> Sources<'a> {
    // The nonterminal that an edge comes from, or none where it comes from an item.
    fn source(self, edge: usize) -> Option<usize>
        requires edge_lt_edge_limit { edge < edge_limit }
        ensures { MatchOption result (get_or self.entry.bytes.now edge 0 ≡ 0) (λ n. (get_or self.entry.bytes.now edge 0 ≡ suc n) × (n < nonterminal_limit)) }
    {
        let bytes = self.bytes;
        let source = bytes[edge] as usize;
        // `checked_sub` makes a number for none as well, and each trial would wait for it.
        if source == 0 { None } else { Some(source - 1) }
    }

    // An edge joins the walk: the nonterminal that it comes from counts one more. A walk has at most 33 edges, so a byte holds a count.
    fn join(self, edge: usize, counts: &mut [u8])
        requires edge_lt_edge_limit { edge < edge_limit }
        requires by_index { (us : List ℕ) × (length us ≤ reduction_limit) × Counted us counts.old }
        ensures { (us : List ℕ) → Counted us counts.old → Counted (joined_by (get_or self.entry.bytes.now edge 0) us) counts.new }
    {
        if let Some(nonterminal) = self.source(edge) {
            counts[nonterminal] += 1;
        }
    }

    // The last edge leaves the walk: the nonterminal that it comes from counts one fewer.
    fn leave(self, words: &[u16], counts: &mut [u8])
        requires held { Held words.now }
        requires counted_edges { CountedEdges self.bytes.now words.now counts.old }
        ensures { CountedWalk self.entry.bytes.now words.now counts.new }
    {
        let Some(edge) = last(words) else {
            return;
        };
        if let Some(nonterminal) = self.source(edge) {
            counts[nonterminal] -= 1;
        }
    }

    // The counts of the walk that the words hold, from none counted. By place: where the words hold no edge, `words[1..0]` would be no slice.
    pub fn count_walk(self, words: &[u16], counts: &mut [u8])
        requires held { Held words.now }
        requires counted { Counted [] counts.old }
        ensures { CountedWalk self.entry.bytes.now words.now counts.new }
    {
        for at in 1..word(words, 0) {
            self.join(word(words, at), counts);
        }
    }

    // Whether the trial is an example: its last edge comes from an item.
    pub fn is_example(self, words: &[u16]) -> bool
        requires held { Held words.now }
        ensures { (st rest : List ℕ) → words.now ≡ trial_words (reverse st) ++ rest → result ≡ example_by self.entry.bytes.now st }
    {
        matches!(last(words), Some(edge) if self.source(edge).is_none())
    }
}

impl<'a> View<'a> {
    // The last edge gives way to the next older one into the same node; where there is none it is taken off, the edge before it leaves the walk, and gives way.
    fn back(self, words: &mut [u16], counts: &mut [u8]) -> bool
        requires held { Held words.old }
        requires counted_walk { CountedWalk self.sources.bytes.now words.old counts.old }
        ensures by_index { (st rest : List ℕ) → words.old ≡ trial_words (reverse st) ++ rest → stepped result words.new ≡ step_words (back_by self.entry.older.now st) rest }
        ensures counted_walk_2 { CountedWalk self.entry.sources.bytes.now words.new counts.new }
    {
        for depth in (1..=word(words, 0)).rev() {
            let edge = word(words, depth);
            if let Some(older) = word(self.older, edge).checked_sub(1) {
                replace(words, older);
                return true;
            }
            pop(words);
            self.sources.leave(words, counts);
        }
        false
    }

    // One edge more, that which a word links, where the edges before it are counted; where there is none, back.
    fn seek(self, words: &mut [u16], link: usize, counts: &mut [u8]) -> bool
        requires link_le_edge_limit { link ≤ edge_limit }
        requires held { Held words.old × ((link ≡ 0 → ⊥) → get_or words.old 0 0 < reduction_limit) }
        requires counted_edges { CountedEdges self.sources.bytes.now words.old counts.old }
        ensures by_index { (st rest : List ℕ) → words.old ≡ trial_words (reverse st) ++ rest → stepped result words.new ≡ step_words (seek_by self.entry.older.now link st) rest }
        ensures counted_walk { CountedWalk self.entry.sources.bytes.now words.new counts.new }
    {
        let Some(edge) = link.checked_sub(1) else {
            self.sources.leave(words, counts);
            return self.back(words, counts);
        };
        push(words, edge);
        true
    }

    // The trial after the one that the words hold; after the empty words, the first from the start item.
    pub fn next(self, words: &mut [u16], counts: &mut [u8]) -> bool
        requires held { Held words.old × Fitting (next_by self.sources.bytes.now self.older.now self.latest.now) words.old }
        requires counted_walk { CountedWalk self.sources.bytes.now words.old counts.old }
        ensures by_index { (st rest : List ℕ) → words.old ≡ trial_words (reverse st) ++ rest → stepped result words.new ≡ step_words (next_by self.entry.sources.bytes.now self.entry.older.now self.entry.latest.now st) rest }
        ensures counted_walk_2 { CountedWalk self.entry.sources.bytes.now words.new counts.new }
    {
        let Some(edge) = last(words) else {
            let first = word(self.latest, View::START);
            return self.seek(words, first, counts);
        };
        match self.sources.source(edge) {
            Some(nonterminal) if counts[nonterminal] == 0 => {
                // `join` would add to the count that was read, and the write would wait for that.
                counts[nonterminal] = 1;
                let link = word(self.latest, nonterminal);
                self.seek(words, link, counts)
            }
            _ => self.back(words, counts),
        }
    }
}
