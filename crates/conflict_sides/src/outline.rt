// What is kept of an example while a conflict is judged (docs/RULES.md, "Classes", "Lent words"): an outline, of a side's first examples the labels too, and the inline test on two kept labels.

ghost use Rattle.std.specs.Prelude.{◌≡◌, ◌+◌, ◌*◌, ◌/◌, ◌%◌, ◌<◌, ◌≤◌, true, IfSome, MatchOption, length, slice_set};
ghost use Rattle.lr1_base.specs.repr.Sizes.{nonterminal_limit, terminal_limit, production_limit, index_limit, item_limit, labels_room, example_limit, example_room};
ghost use Rattle.lr1_base.specs.repr.Lists.{joined};
ghost use Rattle.lr1_base.specs.repr.Listed.{listed, list_is_fit};
ghost use Rattle.lr1_base.specs.repr.Packed.{productions_in};
ghost use Rattle.lr1_base.specs.words.Lent.{in_front};
ghost use Rattle.enumerator.specs.example.Example.{prefixes, suffixes, middle, symbol_words, example_words};
ghost use Rattle.enumerator.specs.example.Labels.{labels_in};
ghost use Rattle.enumerator.specs.example.Written.{words_of};
ghost use Rattle.conflict_sides.specs.conflict.Judge.{Example as ExampleOf};
ghost use Rattle.conflict_sides.specs.outline.Outline.{print_limit, mix, symbol_code, print_of, print_words, label_word, label_of, outline_from, OutlineFits};
ghost use Rattle.conflict_sides.specs.outline.Kept.{outlines_room, labelled_limit, kept_room, KeptLabels, LabelsPut, Room, outline_in, turn_in, kept_with};
ghost use Rattle.conflict_sides.specs.outline.Inline.{diverge_by, items_inline};
ghost use Rattle.trace_graph.specs.Fits.{item_is_fit};

use crate::conflict::Conflict;
use enumerator::example::{Example, Labels};
use first::FirstSets;
use lr1_base::item::Item;
use lr1_base::repr::{Grammar, Symbol, word};

// Places, a print of cursor and symbols, the nonterminal of the first reduction, the item that the inline test reads as one word (`item`).
#[derive(Clone, Copy)]
pub struct Outline {
    pub places: usize,
    pub print: u64,
    pub first: usize,
    pub label: usize,
}

impl Outline {
    // Words of one that is kept, its turn with it, and of all outlines of a side.
    pub const WORDS: usize = 4;

    pub const OUTLINES: usize = Conflict::EXAMPLES * Outline::WORDS;

    // Of so many examples of a side the labels are kept too, behind the outlines: a length and the labels of one.
    pub const LABELLED: usize = 8;

    pub const LABELLED_WORDS: usize = 1 + Example::ALL_LABEL_WORDS;

    // Words of a side's.
    pub const ALL_WORDS: usize = Outline::OUTLINES + Outline::LABELLED * Outline::LABELLED_WORDS;

    // A print is below it; it and the base leave room for a symbol in 64 bits.
    pub const PRINTS: u64 = 0x1_0000_0000_0000;

    const BASE: u64 = 25173;

    // Numbers of symbols are below it, so that those of each kind have their own.
    const KIND: usize = 64;

    // The item that the inline test reads, if there is one.
    pub fn item(self) -> Option<Item>
        ensures { MatchOption result (item_limit ≤ self.label) (λ item. (self.label < item_limit) × ((item.production ≡ self.label / index_limit) × (item.index ≡ self.label % index_limit))) }
    {
        (self.label < Item::LIMIT).then_some(Item::at(self.label))
    }
}

// A print with a symbol more, its kind and its number: no `Symbol`, as the empty mark, kind 2, is none. Prints are numbers of 64 bits, which outlines keep and compare as such, so that each function says anew that its own is below the limit: a type for it would be taken off and put on at each step.
fn mix(print: u64, kind: usize, number: usize) -> u64
    requires { (print < print_limit) × (kind < 65536) × (number < 65536) }
    ensures { (result ≡ mix print (symbol_code kind number)) × (result < print_limit) }
{
    let code = (Outline::KIND * kind + number + 1) as u64;
    (print * Outline::BASE + code) % Outline::PRINTS
}

// A print with the symbols of a list more. (A loop and no `fold`, here and below: that a print is below its limit is known by the turn before, which a closure would have to ask.)
fn print_list(print: u64, symbols: &[u16]) -> u64
    requires { print < print_limit }
    ensures { (result ≡ print_words print symbols.now) × (result < print_limit) }
{
    let mut mixed = print;
    for symbol in symbols.chunks_exact(Symbol::WORDS) {
        mixed = mix(mixed, word(symbol, 0), word(symbol, 1));
    }
    mixed
}

// With the prefixes more, outermost first. As with the suffixes below: one function of both would take the order and the part as closures, which is no plainer.
fn print_prefixes(print: u64, labels: Labels) -> u64
    requires { print < print_limit }
    ensures { (result ≡ print_words print (words_of (prefixes (productions_in labels.entry.grammar.words.now labels.entry.grammar.productions) (labels_in labels.entry.words.now)))) × (result < print_limit) }
{
    let mut mixed = print;
    for label in (0..labels.count()).rev() {
        mixed = print_list(mixed, labels.prefix(label));
    }
    mixed
}

// With the cursor place more: the cursor's symbol, or the empty mark where the first label has no symbol.
fn print_middle(print: u64, labels: Labels) -> u64
    requires { print < print_limit }
    ensures { (result ≡ print_words print (joined symbol_words (middle (productions_in labels.entry.grammar.words.now labels.entry.grammar.productions) (labels_in labels.entry.words.now)))) × (result < print_limit) }
{
    match labels.middle() {
        Some(symbol) => print_list(print, &symbol),
        None => print,
    }
}

// With the suffixes more, innermost first.
fn print_suffixes(print: u64, labels: Labels) -> u64
    requires { print < print_limit }
    ensures { (result ≡ print_words print (words_of (suffixes (productions_in labels.entry.grammar.words.now labels.entry.grammar.productions) (labels_in labels.entry.words.now)))) × (result < print_limit) }
{
    let mut mixed = print;
    for label in 0..labels.count() {
        mixed = print_list(mixed, labels.suffix(label));
    }
    mixed
}

// The print of the example of the labels: of its cursor, then of its symbols.
fn print(labels: Labels) -> u64
    ensures { result ≡ print_of (productions_in labels.entry.grammar.words.now labels.entry.grammar.productions) (labels_in labels.entry.words.now) }
{
    let cursor = labels.prefix_total() as u64;
    let before = print_prefixes(cursor, labels);
    let passed = print_middle(before, labels);
    print_suffixes(passed, labels)
}

// The item that the inline test reads, if there is one: of an example of a shift its first item; of a reduce the second reduction's, where that shifts more and its nonterminal is another. Shift or reduce as a yes or no: `label_of` is by it, and the enum of tracer lies above.
fn kept_item(labels: Labels, shift: bool) -> Option<Item>
    ensures is { label_word result ≡ label_of (productions_in labels.entry.grammar.words.now labels.entry.grammar.productions) shift (labels_in labels.entry.words.now) }
    ensures small { IfSome result (λ item. (item.production < production_limit) × (item.index < index_limit)) }
{
    if shift {
        return Some(labels.item(0));
    }
    if labels.count() < 2 || labels.nonterminal(1) == labels.nonterminal(0) {
        return None;
    }
    let next = labels.item(1);
    if next.length(labels.grammar) <= next.index + 1 {
        return None;
    }
    Some(next)
}

// The word of an item or of none: outlines are kept in words and compared by it, and so it stays one in them.
fn word_of(item: Option<Item>) -> usize
    requires { IfSome item (λ some. (some.production < production_limit) × (some.index < index_limit)) }
    ensures { (result ≡ label_word item) × (result ≤ item_limit) }
{
    match item {
        Some(item) => item.place(),
        None => Item::LIMIT,
    }
}

// What is kept of the example of the labels.
pub fn outline_of(labels: Labels, shift: bool) -> Outline
    ensures { (result ≡ outline_from (productions_in labels.entry.grammar.words.now labels.entry.grammar.productions) shift (labels_in labels.entry.words.now)) × OutlineFits result }
{
    Outline {
        places: labels.symbol_count(),
        print: print(labels),
        first: labels.nonterminal(0),
        label: word_of(kept_item(labels, shift)),
    }
}

// What is kept of a side's examples, as it is written (each function that writes says that it stays over its words, as those of `EdgeCodes` do): outlines, behind them the labels of the first, and of each example its print.
// Words that are lent, since there is no heap, and u16 by place, with the prints beside them, since each definition of a side is over its words (specs/outline/Kept). How many are used is the count that a listing answers, which is refused before it is more: no field, as a refusal leaves what is kept behind it.
#[derive(Drop)]
pub struct Side<'a> {
    pub kept: &'a mut [u16],
    pub prints: &'a mut [u64],
    pub ghost room: { Room kept.now prints.now },
}

// Which example is asked is its number, in range at each call, here and below: a type for it would have to hold the side.
impl<'a> Side<'a> {
    ghost use Rattle.conflict_sides.specs.outline.Lent.{SameWords};

    // Over the words lent.
    pub fn of(kept: &'a mut [u16], prints: &'a mut [u64]) -> Side<'a>
        requires { Room kept.old prints.old }
        ensures is { (result.kept.now ≡ kept.old) × (result.prints.now ≡ prints.old) }
        ensures same { (result.kept.ghost_name ≡ kept.entry.ghost_name) × (result.prints.ghost_name ≡ prints.entry.ghost_name) }
    {
        Side { kept, prints }
    }

    // Keeps an outline as example k, and which of its listing's it is.
    pub fn keep(&mut self, outline: Outline, turn: usize, k: usize)
        requires { OutlineFits outline × (turn < example_limit) × (k < example_limit) }
        ensures kept_after { self.new.kept.now ≡ kept_with self.old.kept.now k outline turn }
        ensures prints_after { self.new.prints.now ≡ slice_set self.old.prints.now k outline.print }
        ensures same { SameWords self.old self.new }
    {
        let at = k * Outline::WORDS;
        self.kept[at] = outline.places as u16;
        self.kept[at + 1] = outline.first as u16;
        self.kept[at + 2] = outline.label as u16;
        self.kept[at + 3] = turn as u16;
        self.prints[k] = outline.print;
    }

    // As it is read.
    pub fn read(&self) -> KeptSide
        ensures { (result.kept.now ≡ self.now.kept.now) × (result.prints.now ≡ self.now.prints.now) }
    {
        KeptSide {
            kept: self.kept,
            prints: self.prints,
        }
    }
}

// What is kept of a side's examples, as it is read: a type beside `Side`, since what is lent for writing cannot be copied into `SortedSide` and handed on by value.
#[derive(Clone, Copy)]
pub struct KeptSide<'a> {
    pub kept: &'a [u16],
    pub prints: &'a [u64],
    pub ghost room: { Room kept.now prints.now },
}

impl<'a> KeptSide<'a> {
    // What is kept of example k.
    pub fn outline(self, k: usize) -> Outline
        requires { k < example_limit }
        ensures { result ≡ outline_in self.entry.kept.now self.entry.prints.now k }
    {
        let at = k * Outline::WORDS;
        Outline {
            places: word(self.kept, at),
            print: self.prints[k],
            first: word(self.kept, at + 1),
            label: word(self.kept, at + 2),
        }
    }
}

// Keeps the labels of example k of a side. The words alone are asked, here and below, as no print is written or read.
pub fn keep_labels(labels: &[u16], kept: &mut [u16], k: usize)
    requires { (length labels.now ≤ labels_room) × ((k < labelled_limit) × (kept_room ≤ length kept.old)) }
    ensures { LabelsPut labels.now k kept.old kept.new }
{
    let at = Outline::OUTLINES + k * Outline::LABELLED_WORDS;
    let from = at + 1;
    let to = from + labels.len();
    kept[from..to].copy_from_slice(labels);
    kept[at] = labels.len() as u16;
}

// Example k of a side, whose labels are kept, at the front of the buffer.
pub fn write_kept(grammar: Grammar, kept: &[u16], k: usize, buffer: &mut [u16])
    requires within { (k < labelled_limit) × (kept_room ≤ length kept.now) }
    requires example_room_in_bounds { ((x : ExampleOf) × KeptLabels (productions_in grammar.words.now grammar.productions) kept.now k x) × (example_room ≤ length buffer.old) }
    ensures { (x : ExampleOf) → KeptLabels (productions_in grammar.entry.words.now grammar.entry.productions) kept.now k x → buffer.new ≡ in_front (example_words (productions_in grammar.entry.words.now grammar.entry.productions) x) buffer.old }
{
    let at = Outline::OUTLINES + k * Outline::LABELLED_WORDS;
    let from = at + 1;
    let to = from + word(kept, at);
    let labels = Labels {
        grammar,
        words: &kept[from..to],
    };
    labels.write_example(buffer);
}

// Which of its listing's example k of a side is.
pub fn turn_at(kept: &[u16], k: usize) -> usize
    requires { (k < example_limit) × (outlines_room ≤ length kept.now) }
    ensures { result ≡ turn_in kept.now k }
{
    word(kept, k * Outline::WORDS + 3)
}

// Whether at the first difference of two lists the FIRST sets are disjoint. An exhausted list is a no. A `for` that is left there: behind `find` a `match` would take the pair apart again, which is no shorter.
fn diverge(sets: &FirstSets, first: &[u16], second: &[u16]) -> bool
    requires first_value { list_is_fit nonterminal_limit terminal_limit first.now ≡ true }
    requires second_value { list_is_fit nonterminal_limit terminal_limit second.now ≡ true }
    ensures { result ≡ diverge_by sets.now.terminals sets.now.map (listed first.now) (listed second.now) }
{
    for (own, other) in first
        .chunks_exact(Symbol::WORDS)
        .zip(second.chunks_exact(Symbol::WORDS))
    {
        if own != other {
            return sets.first0(own).is_disjoint(sets.first0(other));
        }
    }
    false
}

// The inline test on a shift item and the item that is kept of a reduce.
pub fn inlines(sets: &FirstSets, grammar: Grammar, own: Item, other: Option<Item>) -> bool
    requires own_fits { item_is_fit (productions_in grammar.words.now grammar.productions) own.production own.index ≡ true }
    requires other_fits { IfSome other (λ item. item_is_fit (productions_in grammar.words.now grammar.productions) item.production item.index ≡ true) }
    ensures { result ≡ items_inline sets.now.terminals sets.now.map (productions_in grammar.entry.words.now grammar.entry.productions) own other }
{
    match other {
        Some(other) => diverge(sets, own.suffix(grammar), other.suffix(grammar)),
        None => false,
    }
}
