// The lines that the explaining program prints (docs/RULES.md, "The explaining program"), from a conflict's outcome to bytes.
ghost use Rattle.std.specs.Prelude.{◌≡◌, ◌++◌, ◌∷◌, [], ◌+◌, ◌*◌, ◌≤◌, ◌<◌, length, get_or, take, drop};
ghost use Rattle.lr1_base.specs.repr.Sizes.{example_symbols, reduction_room};
ghost use Rattle.lr1_base.specs.numerals.Numeral.{numeral};
ghost use Rattle.conflict_sides.specs.conflict.Numbers.{number_of_class, values_of_class, reading_of};
ghost use Rattle.output_text.specs.conflict_lines.Lines.{Put, Whole, Shown, ReadingShown, symbol_text, reduction_text, symbol_texts, reduction_texts, total_of_symbols, printed_length, example_line, own_text, line_of_refusal, class_line, example_lines, lines_of, reading_in};

use conflict_sides::conflict::{Class, Classification};
use enumerator::example::Example;
use itoa::Buffer;
use lr1_base::repr::{Refusal, word};

// A byte; the place after it. Here and below `out` is written from `at` on and the place behind comes back: the contracts say which bytes are put between the two, and module conflict_words of lr1_tables why these are two values.
pub fn put(out: &mut [u8], at: usize, byte: u8) -> usize
    requires { at < length out.old }
    ensures { Put out.old at (byte ∷ []) out.new result }
{
    out[at] = byte;
    at + 1
}

// A text.
pub fn put_text(out: &mut [u8], at: usize, text: &[u8]) -> usize
    requires { at + length text.now ≤ length out.old }
    ensures { Put out.old at text.now out.new result }
{
    let end = at + text.len();
    out[at..end].copy_from_slice(text);
    end
}

// A number.
fn put_number(out: &mut [u8], at: usize, n: u64) -> usize
    requires { at + 20 ≤ length out.old }
    ensures { Put out.old at (numeral n) out.new result × (result ≤ at + 20) }
{
    let mut buffer = Buffer::new();
    put_text(out, at, buffer.format(n).as_bytes())
}

// A byte, then a number: at most 21 bytes.
pub fn put_after(out: &mut [u8], at: usize, byte: u8, n: u64) -> usize
    requires { at + 21 ≤ length out.old }
    ensures { Put out.old at (byte ∷ numeral n) out.new result × (result ≤ at + 21) }
{
    let next = put(out, at, byte);
    put_number(out, next, n)
}

// A symbol: kind/number. In numbers, since the empty mark, kind 2, is no symbol of a grammar.
pub fn put_symbol(out: &mut [u8], at: usize, kind: usize, number: usize) -> usize
    requires { at + 42 ≤ length out.old }
    ensures { Put out.old at (symbol_text kind number) out.new result × (result ≤ at + 42) }
{
    let next = put_after(out, at, b' ', kind as u64);
    put_after(out, next, b'/', number as u64)
}

// A reduction: start-end/nonterminal.
fn put_reduction(out: &mut [u8], at: usize, start: usize, end: usize, nonterminal: usize) -> usize
    requires { at + 63 ≤ length out.old }
    ensures { Put out.old at (reduction_text start end nonterminal) out.new result × (result ≤ at + 63) }
{
    let middle = put_after(out, at, b' ', start as u64);
    let next = put_after(out, middle, b'-', end as u64);
    put_after(out, next, b'/', nonterminal as u64)
}

// The symbols of an example.
pub fn put_symbols(out: &mut [u8], at: usize, words: &[u16]) -> usize
    requires { at + 21 * length words.now ≤ length out.old }
    ensures { Put out.old at (symbol_texts words.now) out.new result × (result ≤ at + 21 * length words.now) }
{
    let mut place = at;
    let (symbols, _) = words.as_chunks::<{ Example::SYMBOL_WORDS }>();
    for [kind, number] in symbols {
        place = put_symbol(out, place, *kind as usize, *number as usize);
    }
    place
}

// The reductions of an example.
fn put_reductions(out: &mut [u8], at: usize, words: &[u16]) -> usize
    requires { at + 21 * length words.now ≤ length out.old }
    ensures { Put out.old at (reduction_texts words.now) out.new result × (result ≤ at + 21 * length words.now) }
{
    let mut place = at;
    let (reductions, _) = words.as_chunks::<{ Example::REDUCTION_WORDS }>();
    for [start, end, nonterminal] in reductions {
        place = put_reduction(
            out,
            place,
            *start as usize,
            *end as usize,
            *nonterminal as usize,
        );
    }
    place
}

// How many symbols an example has, its empty mark left out.
fn symbol_total(words: &[u16]) -> usize
    requires { length words.now ≤ 2 * example_symbols }
    ensures { result ≡ total_of_symbols words.now }
{
    let (symbols, _) = words.as_chunks::<{ Example::SYMBOL_WORDS }>();
    symbols
        .iter()
        .filter(|[kind, _]| *kind != Example::EMPTY_MARK)
        .count()
}

// An example in words that is to be shown: its counts, then its symbols, then its reductions.
#[derive(Clone, Copy)]
struct ShownExample<'a> {
    words: &'a [u16],
    ghost whole: { Whole words.now },
}

impl<'a> ShownExample<'a> {
    // Its symbols, the empty mark among them.
    fn symbols(self) -> &'a [u16]
        ensures { result.now ≡ take (2 * get_or self.entry.words.now 0 0) (drop 3 self.entry.words.now) }
    {
        let past = Example::COUNTS + word(self.words, 0) * Example::SYMBOL_WORDS;
        &self.words[Example::COUNTS..past]
    }

    fn reductions(self) -> &'a [u16]
        ensures { result.now ≡ take (reduction_room * get_or self.entry.words.now 2 0) (drop (3 + 2 * get_or self.entry.words.now 0 0) self.entry.words.now) }
    {
        let from = Example::COUNTS + word(self.words, 0) * Example::SYMBOL_WORDS;
        let past = from + word(self.words, 2) * Example::REDUCTION_WORDS;
        &self.words[from..past]
    }

    // Its cursor, a place.
    fn cursor(self) -> usize
        ensures { result ≡ get_or self.entry.words.now 1 0 }
    {
        word(self.words, 1)
    }

    // Its length: its symbols, not its places.
    fn length(self) -> usize
        ensures { result ≡ printed_length self.entry.words.now }
    {
        symbol_total(self.symbols())
    }
}

// The line of an example, `a` or `r`.
fn put_example(out: &mut [u8], at: usize, letter: u8, example: &[u16]) -> usize
    requires whole { Whole example.now }
    requires at_in_bounds { at + 24299 ≤ length out.old }
    ensures { Put out.old at (example_line letter example.now) out.new result × (result ≤ at + 24299) }
{
    let example = ShownExample { words: example };
    let first = put(out, at, letter);
    let second = put_after(out, first, b' ', example.length() as u64);
    let third = put_after(out, second, b' ', example.cursor() as u64);
    let fourth = put_symbols(out, third, example.symbols());
    let fifth = put_reductions(out, fourth, example.reductions());
    put(out, fifth, b'\n')
}

// A class's own values.
fn put_own(out: &mut [u8], at: usize, class: Class) -> usize
    requires { at + 84 ≤ length out.old }
    ensures { Put out.old at (own_text (values_of_class class)) out.new result × (result ≤ at + 84) }
{
    match class {
        Class::Naive | Class::Ambiguity | Class::InsufficientLookahead => at,
        Class::Precedence(nonterminal) | Class::SuggestInline(nonterminal) => {
            put_after(out, at, b' ', nonterminal.0 as u64)
        }
        Class::SuggestQuestion(nonterminal, kind, number) => {
            let next = put_after(out, at, b' ', nonterminal.0 as u64);
            put_symbol(out, next, kind as usize, number as usize)
        }
        Class::AmbiguousReduction(start, end, other_start, other_end) => {
            let first = put_after(out, at, b' ', start as u64);
            let second = put_after(out, first, b' ', end as u64);
            let third = put_after(out, second, b' ', other_start as u64);
            put_after(out, third, b' ', other_end as u64)
        }
    }
}

// The first line of a class.
fn put_class(out: &mut [u8], number: u64, found: Classification) -> usize
    requires { 200 ≤ length out.old }
    ensures { Put out.old 0 (class_line number (number_of_class found.class) (values_of_class found.class) found.action_trials found.reduce_trials) out.new result × (result ≤ 168) }
{
    let first = put_number(out, 0, number);
    let second = put_after(out, first, b' ', found.class.number() as u64);
    let third = put_after(out, second, b' ', found.action_trials as u64);
    let fourth = put_after(out, third, b' ', found.reduce_trials as u64);
    let last = put_own(out, fourth, found.class);
    put(out, last, b'\n')
}

// The line of a refusal, in numbers: any may be said, and `Refusal` would ask more of callers.
pub fn refused_line(out: &mut [u8], number: u64, refusal: u16, place: u16) -> usize
    requires { 200 ≤ length out.old }
    ensures { Put out.old 0 (line_of_refusal number refusal place) out.new result }
{
    let first = put_number(out, 0, number);
    let second = put_text(out, first, b" refused");
    let third = put_after(out, second, b' ', refusal as u64);
    let fourth = put_after(out, third, b' ', place as u64);
    put(out, fourth, b'\n')
}

// The examples shown with a class: naive none, class 5 the action's.
fn put_examples(out: &mut [u8], at: usize, class: Class, action: &[u16], reduce: &[u16]) -> usize
    requires shown { Shown (number_of_class class) action.now reduce.now }
    requires at_in_bounds { at + 48598 ≤ length out.old }
    ensures { Put out.old at (example_lines (number_of_class class) action.now reduce.now) out.new result }
{
    match class {
        Class::Naive => at,
        Class::AmbiguousReduction(_, _, _, _) => put_example(out, at, b'a', action),
        _ => {
            let next = put_example(out, at, b'a', action);
            put_example(out, next, b'r', reduce)
        }
    }
}

// The lines of a conflict, at the front of the bytes; their number. A refusal is any number with any place.
pub fn lines_of_reading(
    out: &mut [u8],
    number: u64,
    classified: Result<Classification, (u16, u16)>,
    action: &[u16],
    reduce: &[u16],
) -> usize
    requires reading_shown { ReadingShown (reading_in classified) action.now reduce.now }
    requires in_bounds { 65536 ≤ length out.old }
    ensures { (take result out.new ≡ lines_of number (reading_in classified) action.now reduce.now) × (result ≤ length out.new) }
{
    match classified {
        Ok(found) => {
            let next = put_class(out, number, found);
            put_examples(out, next, found.class, action, reduce)
        }
        Err(refused) => refused_line(out, number, refused.0, refused.1),
    }
}

// A refusal as its two numbers.
fn in_numbers(classified: Result<Classification, Refusal>) -> Result<Classification, (u16, u16)>
    ensures { reading_in result ≡ reading_of classified }
{
    match classified {
        Ok(found) => Ok(found),
        Err(refusal) => Err((refusal.number(), refusal.place())),
    }
}

// The lines of a conflict, its refusal one that an entry answers.
pub fn lines(
    out: &mut [u8],
    number: u64,
    classified: Result<Classification, Refusal>,
    action: &[u16],
    reduce: &[u16],
) -> usize
    requires reading_shown { ReadingShown (reading_of classified) action.now reduce.now }
    requires in_bounds { 65536 ≤ length out.old }
    ensures { (take result out.new ≡ lines_of number (reading_of classified) action.now reduce.now) × (result ≤ length out.new) }
{
    lines_of_reading(out, number, in_numbers(classified), action, reduce)
}
