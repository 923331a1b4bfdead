// Examples (lr1/example, and `example` and `first0` of lr1/trace/trace_graph/mod.rs), on a list of labels.

ghost use Rattle.std.specs.Prelude.{◌≡◌, ◌+◌, ◌*◌, ◌<◌, ◌≤◌, [], ◌∷◌, length, slice_index_or, MatchOption};
ghost use Rattle.lr1_base.specs.repr.Sizes.{example_symbols, reduction_room, example_room, label_room};
ghost use Rattle.lr1_base.specs.words.Lent.{in_front};
ghost use Rattle.lr1_base.specs.repr.Lists.{joined};
ghost use Rattle.lr1_base.specs.repr.Packed.{productions_in};
ghost use Rattle.first.specs.First.{first0};
ghost use Rattle.enumerator.specs.example.Example.{sets_of, prefixes, suffixes, middle, symbols, symbol_words, example_words, cursor_of, ahead, asked_parts, asked_of};
ghost use Rattle.enumerator.specs.example.Labels.{labels_in, LabelsFit};
ghost use Rattle.enumerator.specs.example.Props.{LabelsFit-prop};
ghost use Rattle.lr1_base.specs.words.Insert.{put_at};
ghost use Rattle.enumerator.specs.example.Written.{label_at, words_of, Part, around_words};

use first::{Answer, FirstSets};
use lr1_base::item::{Item, SymbolSets};
use lr1_base::lookahead::TokenSet;
use lr1_base::repr::{Grammar, NonterminalString, ProductionIndex, Symbol, word};

// An example in words: its limits.
#[derive(Clone, Copy)]
pub struct Example;

impl Example {
    // Reductions and symbols of an example; its counts (symbols, cursor, reductions); words of a symbol, of a reduction, of an example.
    pub const REDUCTIONS: usize = NonterminalString::LIMIT + 1;

    pub const SYMBOLS: usize = Example::REDUCTIONS * ProductionIndex::SYMBOLS;

    pub const COUNTS: usize = 3;

    pub const SYMBOL_WORDS: usize = Symbol::WORDS;

    pub const REDUCTION_WORDS: usize = 3;

    // The kind of the empty mark, behind those of symbols.
    pub const EMPTY_MARK: u16 = 2;

    pub const WORDS: usize = Example::COUNTS
        + Example::SYMBOL_WORDS * Example::SYMBOLS
        + Example::REDUCTION_WORDS * Example::REDUCTIONS;

    // Words of a label, and of an example's labels.
    pub const LABEL_WORDS: usize = 3;

    pub const ALL_LABEL_WORDS: usize = Example::LABEL_WORDS * Example::REDUCTIONS;
}

// Copies words into the buffer at a place. The writers below are given the buffer and a place, and the place behind what was written comes back: a struct of both would say the same behind a `&mut`.
// By place: of the library's copying the compiler makes a call of `memmove`, which no caller of the archive for C needs to have.
fn copy(from: &[u16], buffer: &mut [u16], at: usize)
    requires { at + length from.now ≤ length buffer.old }
    ensures { buffer.new ≡ put_at at from.now buffer.old }
{
    for i in 0..from.len() {
        buffer[at + i] = from[i];
    }
}

// Writes three words into the buffer at a place.
fn put_three(buffer: &mut [u16], at: usize, first: usize, second: usize, third: usize)
    requires { (at + 3 ≤ length buffer.old) × (first < 65536) × (second < 65536) × (third < 65536) }
    ensures { buffer.new ≡ put_at at (first ∷ second ∷ third ∷ []) buffer.old }
{
    copy(&[first as u16, second as u16, third as u16], buffer, at);
}

// FIRST of what the example expects next, and how many labels were asked for it: no program reads that, the contract of `first0` says by it that no more are asked than in the Rust.
#[derive(Clone, Copy)]
pub struct Expected {
    pub answer: Answer,
    pub asked: usize,
}

// How many labels the words hold, whatever they are.
pub fn label_count(labels: &[u16]) -> usize
    ensures { (result ≡ length (labels_in labels.now)) × (label_room * result ≤ length labels.now) }
{
    labels.len() / Example::LABEL_WORDS
}

// The item of a label, in labels that are lent by themselves.
fn label_item(labels: &[u16], label: usize) -> Item
    requires { label < length (labels_in labels.now) }
    ensures { (result.production ≡ (label_at labels.now label).production) × (result.index ≡ (label_at labels.now label).index) }
{
    Item {
        production: word(labels, Example::LABEL_WORDS * label + 1),
        index: word(labels, Example::LABEL_WORDS * label + 2),
    }
}

// The symbols before a label's cursor. Here and in the next two the answer is lent from the grammar alone, and outlives the labels: of a struct of both it would not.
pub fn prefix_part<'a>(grammar: Grammar<'a>, labels: &[u16], label: usize) -> &'a [u16]
    requires labels_fit { LabelsFit (productions_in grammar.words.now grammar.productions) labels.now }
    requires label_in_bounds { label < length (labels_in labels.now) }
    ensures { Part result.now (sets_of (productions_in grammar.entry.words.now grammar.entry.productions) (label_at labels.now label)).prefix }
{
    label_item(labels, label).prefix(grammar)
}

// The symbols after a label's cursor.
pub fn suffix_part<'a>(grammar: Grammar<'a>, labels: &[u16], label: usize) -> &'a [u16]
    requires labels_fit { LabelsFit (productions_in grammar.words.now grammar.productions) labels.now }
    requires label_in_bounds { label < length (labels_in labels.now) }
    ensures { Part result.now (sets_of (productions_in grammar.entry.words.now grammar.entry.productions) (label_at labels.now label)).suffix }
{
    label_item(labels, label).suffix(grammar)
}

// The symbol at the first label's cursor, or none: an empty part, as FIRST and the writers take a list, into which an Option would be opened.
pub fn cursor_part<'a>(grammar: Grammar<'a>, labels: &[u16]) -> &'a [u16]
    requires { LabelsFit (productions_in grammar.words.now grammar.productions) labels.now }
    ensures { Part result.now (cursor_of (productions_in grammar.entry.words.now grammar.entry.productions) (labels_in labels.now)) }
{
    let first = label_item(labels, 0);
    let symbols = grammar.symbols(first.production);
    if first.can_shift(grammar) {
        let from = Example::SYMBOL_WORDS * first.index;
        &symbols[from..from + Example::SYMBOL_WORDS]
    } else {
        &symbols[..0]
    }
}

// The labels of an example, innermost first, three words each: nonterminal, production, index. At least one and at most 33, in range of the grammar.
// In words, since a side keeps them so (module outline of conflict_sides): labels of three fields each would be converted at every keeping.
// Which one is asked is its number, in range at each call, as a type for it would have to hold the labels: prefixes are asked from the last label on, the cursor and the empty mark of the first alone, so that an iterator would be a second way to the same words.
#[derive(Clone, Copy)]
pub struct Labels<'a> {
    pub grammar: Grammar<'a>,
    pub words: &'a [u16],
    pub ghost fit: { LabelsFit (productions_in grammar.words.now grammar.productions) words.now } by { LabelsFit-prop (productions_in grammar.words.now grammar.productions) words.now },
}

impl<'a> Labels<'a> {
    // How many.
    pub fn count(self) -> usize
        ensures { (result ≡ length (labels_in self.entry.words.now)) × (label_room * result ≤ length self.entry.words.now) }
    {
        label_count(self.words)
    }

    // The nonterminal of a label.
    pub fn nonterminal(self, label: usize) -> usize
        requires { label < length (labels_in self.words.now) }
        ensures { (result ≡ (label_at self.entry.words.now label).nonterminal) × (result < 65536) }
    {
        word(self.words, Example::LABEL_WORDS * label)
    }

    // The item of a label.
    pub fn item(self, label: usize) -> Item
        requires { label < length (labels_in self.words.now) }
        ensures { (result.production ≡ (label_at self.entry.words.now label).production) × (result.index ≡ (label_at self.entry.words.now label).index) }
    {
        label_item(self.words, label)
    }

    // The symbols before a label's cursor.
    pub fn prefix(self, label: usize) -> &'a [u16]
        requires { label < length (labels_in self.words.now) }
        ensures { Part result.now (sets_of (productions_in self.entry.grammar.words.now self.entry.grammar.productions) (label_at self.entry.words.now label)).prefix }
    {
        prefix_part(self.grammar, self.words, label)
    }

    // The symbols after a label's cursor.
    pub fn suffix(self, label: usize) -> &'a [u16]
        requires { label < length (labels_in self.words.now) }
        ensures { Part result.now (sets_of (productions_in self.entry.grammar.words.now self.entry.grammar.productions) (label_at self.entry.words.now label)).suffix }
    {
        suffix_part(self.grammar, self.words, label)
    }

    // The symbol at the first label's cursor, or none.
    pub fn cursor(self) -> &'a [u16]
        ensures { Part result.now (cursor_of (productions_in self.entry.grammar.words.now self.entry.grammar.productions) (labels_in self.entry.words.now)) }
    {
        cursor_part(self.grammar, self.words)
    }

    // How many symbols stand before a label's cursor.
    fn prefix_length(self, label: usize) -> usize
        requires { label < length (labels_in self.words.now) }
        ensures { result ≡ length (sets_of (productions_in self.entry.grammar.words.now self.entry.grammar.productions) (label_at self.entry.words.now label)).prefix }
    {
        self.prefix(label).len() / Example::SYMBOL_WORDS
    }

    // How many stand after it.
    fn suffix_length(self, label: usize) -> usize
        requires { label < length (labels_in self.words.now) }
        ensures { result ≡ length (sets_of (productions_in self.entry.grammar.words.now self.entry.grammar.productions) (label_at self.entry.words.now label)).suffix }
    {
        self.suffix(label).len() / Example::SYMBOL_WORDS
    }

    // How many symbols stand before the cursors of all labels, and after them; the walk's first entry has the empty sets.
    fn totals(self) -> SymbolSets
        ensures { (result.prefix ≡ length (prefixes (productions_in self.entry.grammar.words.now self.entry.grammar.productions) (labels_in self.entry.words.now))) × (result.suffix ≡ length (suffixes (productions_in self.entry.grammar.words.now self.entry.grammar.productions) (labels_in self.entry.words.now))) }
    {
        let mut total = SymbolSets::new();
        for label in 0..self.count() {
            total.prefix += self.prefix_length(label);
            total.suffix += self.suffix_length(label);
        }
        total
    }

    // How many symbols stand before the cursor place of the example.
    pub fn prefix_total(self) -> usize
        ensures { result ≡ length (prefixes (productions_in self.entry.grammar.words.now self.entry.grammar.productions) (labels_in self.entry.words.now)) }
    {
        self.totals().prefix
    }

    // The words of the cursor place: the cursor's symbol, or the empty mark where the first label has no symbol; none after a prefix with nothing at the cursor.
    pub fn middle(self) -> Option<[u16; Example::SYMBOL_WORDS]>
        ensures { MatchOption result (middle (productions_in self.entry.grammar.words.now self.entry.grammar.productions) (labels_in self.entry.words.now) ≡ []) (λ w. (length (middle (productions_in self.entry.grammar.words.now self.entry.grammar.productions) (labels_in self.entry.words.now)) ≡ 1) × (joined symbol_words (middle (productions_in self.entry.grammar.words.now self.entry.grammar.productions) (labels_in self.entry.words.now)) ≡ w)) }
    {
        let symbol = self.cursor();
        if !symbol.is_empty() {
            Some([symbol[0], symbol[1]])
        } else if self.prefix(0).is_empty() {
            Some([Example::EMPTY_MARK, 0])
        } else {
            None
        }
    }

    // How many places the cursor place has.
    fn middle_count(self) -> usize
        ensures { result ≡ length (middle (productions_in self.entry.grammar.words.now self.entry.grammar.productions) (labels_in self.entry.words.now)) }
    {
        match self.middle() {
            Some(_) => 1,
            None => 0,
        }
    }

    // How many places the symbol list of the example has.
    pub fn symbol_count(self) -> usize
        ensures { (result ≡ length (symbols (productions_in self.entry.grammar.words.now self.entry.grammar.productions) (labels_in self.entry.words.now))) × (result ≤ example_symbols) }
    {
        let totals = self.totals();
        totals.prefix + self.middle_count() + totals.suffix
    }

    // Writes the prefixes, outermost first; returns the place after them. One function for these and the suffixes would take the direction and the part as closures, which is no plainer.
    fn write_prefixes(self, buffer: &mut [u16], at: usize) -> usize
        requires { at + length (words_of (prefixes (productions_in self.grammar.words.now self.grammar.productions) (labels_in self.words.now))) ≤ length buffer.old }
        ensures { (buffer.new ≡ put_at at (words_of (prefixes (productions_in self.entry.grammar.words.now self.entry.grammar.productions) (labels_in self.entry.words.now))) buffer.old) × (result ≡ at + length (words_of (prefixes (productions_in self.entry.grammar.words.now self.entry.grammar.productions) (labels_in self.entry.words.now)))) }
    {
        let mut place = at;
        for label in (0..self.count()).rev() {
            let part = self.prefix(label);
            copy(part, buffer, place);
            place += part.len();
        }
        place
    }

    // Writes the suffixes, innermost first; returns the place after them.
    fn write_suffixes(self, buffer: &mut [u16], at: usize) -> usize
        requires { at + length (words_of (suffixes (productions_in self.grammar.words.now self.grammar.productions) (labels_in self.words.now))) ≤ length buffer.old }
        ensures { (buffer.new ≡ put_at at (words_of (suffixes (productions_in self.entry.grammar.words.now self.entry.grammar.productions) (labels_in self.entry.words.now))) buffer.old) × (result ≡ at + length (words_of (suffixes (productions_in self.entry.grammar.words.now self.entry.grammar.productions) (labels_in self.entry.words.now)))) }
    {
        let mut place = at;
        for label in 0..self.count() {
            let part = self.suffix(label);
            copy(part, buffer, place);
            place += part.len();
        }
        place
    }

    // Writes the cursor place; returns the place after it.
    fn write_middle(self, buffer: &mut [u16], at: usize) -> usize
        requires { at + length (joined symbol_words (middle (productions_in self.grammar.words.now self.grammar.productions) (labels_in self.words.now))) ≤ length buffer.old }
        ensures { (buffer.new ≡ put_at at (joined symbol_words (middle (productions_in self.entry.grammar.words.now self.entry.grammar.productions) (labels_in self.entry.words.now))) buffer.old) × (result ≡ at + length (joined symbol_words (middle (productions_in self.entry.grammar.words.now self.entry.grammar.productions) (labels_in self.entry.words.now)))) }
    {
        match self.middle() {
            Some(words) => {
                copy(&words, buffer, at);
                at + Example::SYMBOL_WORDS
            }
            None => at,
        }
    }

    // Writes the reductions, innermost first: of `places` symbols, each starts after the prefixes of the labels around it and ends before their suffixes. (Three numbers go on from label to label; a place made of the label's number would be no plainer beside the two that cannot.)
    fn write_reductions(self, places: usize, buffer: &mut [u16], at: usize)
        requires places_value { places ≡ length (symbols (productions_in self.grammar.words.now self.grammar.productions) (labels_in self.words.now)) × (places ≤ example_symbols) }
        requires labels_in_bounds { at + reduction_room * length (labels_in self.words.now) ≤ length buffer.old }
        ensures { buffer.new ≡ put_at at (around_words (productions_in self.entry.grammar.words.now self.entry.grammar.productions) places (labels_in self.entry.words.now)) buffer.old }
    {
        let totals = self.totals();
        let mut start = totals.prefix;
        let mut end = places - totals.suffix;
        let mut place = at;
        for label in 0..self.count() {
            start -= self.prefix_length(label);
            end += self.suffix_length(label);
            put_three(buffer, place, start, end, self.nonterminal(label));
            place += Example::REDUCTION_WORDS;
        }
    }

    // Writes the example of the labels at the front of the buffer: a slice here and above, as it is lent. Its length is asked once at each entry (refusal 11), and a longer one may be lent.
    pub fn write_example(self, buffer: &mut [u16])
        requires { example_room ≤ length buffer.old }
        ensures { buffer.new ≡ in_front (example_words (productions_in self.entry.grammar.words.now self.entry.grammar.productions) (labels_in self.entry.words.now)) buffer.old }
    {
        let places = self.symbol_count();
        let cursor = self.prefix_total();
        put_three(buffer, 0, places, cursor, self.count());
        let middle = self.write_prefixes(buffer, Example::COUNTS);
        let after = self.write_middle(buffer, middle);
        let end = self.write_suffixes(buffer, after);
        self.write_reductions(places, buffer, end);
    }

    // FIRST of what is asked of a label: of the first its cursor symbol followed by its suffix, of any other its suffix.
    fn label_first0(self, sets: &FirstSets, label: usize) -> Answer
        requires { label < length (labels_in self.words.now) }
        ensures { result ≡ first0 sets.now.terminals sets.now.map (slice_index_or (asked_parts (productions_in self.entry.grammar.words.now self.entry.grammar.productions) (labels_in self.entry.words.now)) label []) }
    {
        if label > 0 {
            return sets.first0(self.suffix(label));
        }
        let own = sets.first0(self.cursor());
        if !own.nullable {
            return own;
        }
        let after = sets.first0(self.suffix(label));
        own.join(after)
    }

    // Asked label by label outward, up to the first whose symbols may not derive the empty string; no list of them is written.
    pub fn first0(self, sets: &FirstSets) -> Expected
        ensures { (result.answer ≡ first0 sets.now.terminals sets.now.map (ahead (productions_in self.entry.grammar.words.now self.entry.grammar.productions) (labels_in self.entry.words.now))) × (result.asked ≡ asked_of sets.now.terminals sets.now.map (productions_in self.entry.grammar.words.now self.entry.grammar.productions) (labels_in self.entry.words.now)) }
    {
        let count = self.count();
        let mut answer = Answer {
            tokens: TokenSet::new(),
            nullable: true,
        };
        for asked in 0..count {
            let next = self.label_first0(sets, asked);
            answer = answer.join(next);
            if !answer.nullable {
                return Expected {
                    answer,
                    asked: asked + 1,
                };
            }
        }
        Expected {
            answer,
            asked: count,
        }
    }
}
