// A table typed as text, a line a record (specs/table_text/Typed): its four words, then a comment that says what it is. The program `words` reads the numbers back.

ghost use Rattle.std.specs.Prelude.{true, ◌≡◌, ◌+◌, ◌*◌, ◌≤◌, ◌<◌, length, take};
ghost use Rattle.lr1_base.specs.repr.Lists.{joined};
ghost use Rattle.table.specs.Words.{word_at};
ghost use Rattle.output_text.specs.conflict_lines.Lines.{Put, spaced};
ghost use Rattle.output_text.specs.table_text.Typed.{IsItem, named, symbol_part, rule_text, item_part, by_text, edge_part, unused_part, loose_text, area_text, record_text, line_of, line_of_record};

use crate::conflict_lines::{put, put_after, put_symbol, put_symbols, put_text};
use lr1_base::repr::Grammar;
use table::word;
pub use table_check::Roles;
use table_check::areas::Surveyed;

// A record of a table, reached by chains of these sorts: one that is reached as an item is one of the grammar's.
#[derive(Clone, Copy)]
pub struct Reached<'a> {
    pub table: Surveyed<'a>,
    pub grammar: Grammar<'a>,
    pub number: usize,
    pub roles: Roles,
    pub ghost inside: { number < table.areas.records },
    pub ghost item: { roles.item ≡ true → IsItem grammar.words.now grammar.productions (word_at table.words.now number 1) (word_at table.words.now number 2) },
}

impl<'a> Reached<'a> {
    // Its word k.
    fn word(self, k: usize) -> usize
        requires { k < 4 }
        ensures { result ≡ word_at self.entry.table.words.now self.entry.number k }
    {
        word(self.table.words, self.number, k)
    }
}

// Numbers, a space before each. Here and below `out` is written from `at` on and the place behind comes back, since the contracts say which bytes are put between the two (as in module conflict_lines). How many words and how long a text are put at most is asked at each call, here and in crate print_table: a struct for each would be made at every call.
pub fn put_words(out: &mut [u8], at: usize, words: &[u16]) -> usize
    requires { (length words.now ≤ 8) × (at + 21 * length words.now ≤ length out.old) }
    ensures { Put out.old at (joined spaced words.now) out.new result × (result ≤ at + 21 * length words.now) }
{
    let mut place = at;
    for number in words {
        place = put_after(out, place, b' ', *number as u64);
    }
    place
}

// A text of at most 64 bytes, then a number.
pub fn put_named(out: &mut [u8], at: usize, name: &[u8], n: usize) -> usize
    requires { (length name.now ≤ 64) × (at + 85 ≤ length out.old) }
    ensures { Put out.old at (named name.now n) out.new result × (result ≤ at + 85) }
{
    let next = put_text(out, at, name);
    put_after(out, next, b' ', n as u64)
}

// Here and below the words of any record are put as they stand, so that a symbol's kind is a number, and an item two: `IsItem` asks it of two words.
fn put_symbol_part(out: &mut [u8], at: usize, kind: usize, number: usize) -> usize
    requires { at + 50 ≤ length out.old }
    ensures { Put out.old at (symbol_part true kind number) out.new result × (result ≤ at + 50) }
{
    let next = put_text(out, at, b": symbol");
    put_symbol(out, next, kind, number)
}

// A production of these symbols with the cursor behind i of them.
fn put_rule(out: &mut [u8], at: usize, nonterminal: usize, words: &[u16], i: usize) -> usize
    requires i_in_bounds { (2 * i ≤ length words.now) × (length words.now ≤ 32) }
    requires at_in_bounds { at + 800 ≤ length out.old }
    ensures { Put out.old at (rule_text nonterminal words.now i) out.new result × (result ≤ at + 800) }
{
    let (before, behind) = words.split_at(2 * i);
    let first = put_named(out, at, b": item", nonterminal);
    let second = put_text(out, first, b" =");
    let third = put_symbols(out, second, before);
    let fourth = put_text(out, third, b" .");
    put_symbols(out, fourth, behind)
}

fn put_item_part(out: &mut [u8], at: usize, grammar: Grammar, p: usize, i: usize) -> usize
    requires item { IsItem grammar.words.now grammar.productions p i }
    requires at_in_bounds { at + 800 ≤ length out.old }
    ensures { Put out.old at (item_part true grammar.entry.words.now p i) out.new result × (result ≤ at + 800) }
{
    put_rule(out, at, grammar.owner(p), grammar.symbols(p), i)
}

fn put_by(out: &mut [u8], at: usize, kind: usize, number: usize) -> usize
    requires { at + 85 ≤ length out.old }
    ensures { Put out.old at (named (by_text kind) number) out.new result × (result ≤ at + 85) }
{
    match kind {
        0 => put_named(out, at, b": edge by nonterminal", number),
        _ => put_named(out, at, b": edge by terminal", number),
    }
}

fn put_edge_part(out: &mut [u8], at: usize, kind: usize, number: usize, target: usize) -> usize
    requires { at + 170 ≤ length out.old }
    ensures { Put out.old at (edge_part true kind number target) out.new result × (result ≤ at + 170) }
{
    let next = put_by(out, at, kind, number);
    put_named(out, next, b" to state", target)
}

fn put_unused_part(out: &mut [u8], at: usize, roles: Roles) -> usize
    requires { at + 8 ≤ length out.old }
    ensures { Put out.old at (unused_part roles) out.new result × (result ≤ at + 8) }
{
    if roles.any() {
        return at;
    }
    put_text(out, at, b": unused")
}

// What a loose record is. Here and below the room from `at` on is asked at each call, since `at` and `out` are two values.
fn put_loose(out: &mut [u8], at: usize, reached: Reached) -> usize
    requires { at + 1028 ≤ length out.old }
    ensures { Put out.old at (loose_text reached.entry.table.words.now reached.entry.grammar.words.now reached.entry.number reached.entry.roles) out.new result × (result ≤ at + 1028) }
{
    let one = reached.word(1);
    let two = reached.word(2);
    let three = reached.word(3);
    let roles = reached.roles;
    let mut place = at;
    if roles.symbol {
        place = put_symbol_part(out, place, one, two);
    }
    if roles.item {
        place = put_item_part(out, place, reached.grammar, one, two);
    }
    if roles.edge {
        place = put_edge_part(out, place, one, two, three);
    }
    put_unused_part(out, place, roles)
}

// What a record of the areas is.
fn put_area(out: &mut [u8], at: usize, s: Surveyed, r: usize) -> usize
    requires { at + 1028 ≤ length out.old }
    ensures { Put out.old at (area_text s.entry.words.now r) out.new result × (result ≤ at + 1028) }
{
    let a = s.areas;
    match r {
        0 => put_text(out, at, b": nonterminals, terminals, states, productions"),
        _ if r < a.states_at => put_named(out, at, b": nonterminal", r - 1),
        _ if r < a.productions_at => put_named(out, at, b": state", r - a.states_at),
        _ => put_named(out, at, b": production", r - a.productions_at),
    }
}

// What a record is.
fn put_record(out: &mut [u8], at: usize, reached: Reached) -> usize
    requires { at + 1028 ≤ length out.old }
    ensures { Put out.old at (record_text reached.entry.table.words.now reached.entry.grammar.words.now reached.entry.number reached.entry.roles) out.new result × (result ≤ at + 1028) }
{
    let table = reached.table;
    if reached.number < table.areas.loose_at {
        return put_area(out, at, table, reached.number);
    }
    put_loose(out, at, reached)
}

// The line of a record, at the front of the bytes; its length.
pub fn record_line(out: &mut [u8], reached: Reached) -> usize
    requires { 2048 ≤ length out.old }
    ensures { (take result out.new ≡ line_of_record reached.entry.table.words.now reached.entry.grammar.words.now reached.entry.number reached.entry.roles) × (result ≤ length out.new) }
{
    let from = reached.number * 4;
    let past = from + 4;
    let first = put_words(out, 0, &reached.table.words[from..past]);
    let second = put_named(out, first, b" #", reached.number);
    let third = put_record(out, second, reached);
    put(out, third, b'\n')
}

// Some numbers, then a comment of a text and a number; the length of the line, at the front of the bytes.
pub fn numbers_line(out: &mut [u8], words: &[u16], name: &[u8], n: usize) -> usize
    requires { (length words.now ≤ 8) × ((length name.now ≤ 64) × (2048 ≤ length out.old)) }
    ensures { (take result out.new ≡ line_of words.now (named name.now n)) × (result ≤ length out.new) }
{
    let first = put_words(out, 0, words);
    let second = put_named(out, first, name, n);
    put(out, second, b'\n')
}
