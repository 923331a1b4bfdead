// Ops 14 and 15: token sets, an item's symbols.
ghost use Rattle.std.specs.Prelude.{◌≡◌, ◌<◌, ◌≤◌, length};
ghost use Rattle.lr1_base.specs.repr.Packed.{symbol_words};
ghost use Rattle.lr1_base.specs.repr.Listed.{listed};

use crate::say::{say_answer, say_bool, say_halves, say_next, say_words};
use crate::words::Request;
use lr1_base::item::Item;
use lr1_base::lookahead::TokenSet;
use lr1_base::repr::{Grammar, NonterminalString, ProductionIndex, Refusal};
use table::AcceptedTable;
use trace_graph::item_fits;

fn say_set<R: Print>(rt: &R, set: TokenSet) {
    say_halves(rt, set.0);
}

fn say_changed<R: Print>(rt: &R, set: TokenSet, changed: bool) {
    say_set(rt, set);
    say_bool(rt, changed);
}

// What is asked of one set and a token.
fn say_one<R: Print>(rt: &R, a: TokenSet, terminals: u16, token: u16) {
    say_next(rt, a.len() as u64);
    say_bool(rt, a.contains(token));
    say_bool(rt, a.contains_eof(terminals));
    let mut set = a;
    let changed = set.insert(token);
    say_changed(rt, set, changed);
    let mut set = a;
    let changed = set.insert_eof(terminals);
    say_changed(rt, set, changed);
    let mut set = a;
    let changed = set.take_eof(terminals);
    say_changed(rt, set, changed);
}

fn say_two<R: Print>(rt: &R, a: TokenSet, b: TokenSet) {
    let mut united = a;
    let changed = united.union_with(b);
    say_changed(rt, united, changed);
    say_set(rt, a.intersection(b));
    say_bool(rt, a.is_disjoint(b));
    say_bool(rt, a.is_intersecting(b));
}

fn say_made<R: Print>(rt: &R, terminals: u16, token: u16) {
    say_set(rt, TokenSet::new());
    say_set(rt, TokenSet::from(token));
    say_set(rt, TokenSet::all(terminals));
    say_set(rt, TokenSet::eof(terminals));
}

// The members, as the iterator hands them out.
fn say_members<R: Print>(rt: &R, a: TokenSet) {
    for token in a.iter() {
        say_next(rt, token as u64);
    }
}

pub fn ask_sets<R: Print>(rt: &R, request: Request) {
    let terminals = request.at(0);
    let token = request.at(1);
    let a = TokenSet(request.set_at(2));
    let b = TokenSet(request.set_at(6));
    say_answer(rt, 0, 0);
    say_one(rt, a, terminals, token);
    say_two(rt, a, b);
    say_made(rt, terminals, token);
    say_members(rt, a);
}

// The nonterminal that an item can shift and one more, or 0.
fn shifted(item: Item, grammar: Grammar) -> u64
    requires { item.production < grammar.productions }
{
    (0..NonterminalString::LIMIT)
        .find(|n| item.can_shift_nonterminal(grammar, *n))
        .map_or(0, |n| n as u64 + 1)
}

fn say_item<R: Print>(rt: &R, item: Item, grammar: Grammar)
    requires production { item.production < grammar.productions }
    requires index_in_bounds { item.index ≤ length (listed (symbol_words grammar.words.now item.production)) }
{
    let sets = item.symbol_sets(grammar);
    say_answer(rt, 0, 0);
    say_next(rt, sets.prefix as u64);
    say_next(rt, sets.cursor as u64);
    say_next(rt, sets.suffix as u64);
    say_bool(rt, item.can_shift(grammar));
    say_bool(rt, item.can_reduce(grammar));
    say_next(rt, shifted(item, grammar));
    say_words(rt, item.prefix(grammar));
    say_words(rt, grammar.symbols(item.production));
    say_words(rt, item.suffix(grammar));
}

fn ask_item_in<R: Print>(rt: &R, table: AcceptedTable, item: Item) {
    let mut words = [0u16; ProductionIndex::ALL_WORDS];
    let grammar = table.read_grammar(&mut words);
    if item_fits(grammar, item) {
        say_item(rt, item, grammar);
    } else {
        say_answer(rt, Refusal::OutOfRange.number(), 0);
    }
}

pub fn ask_item<R: Print>(rt: &R, request: Request) {
    match table_check::check(request.table) {
        Err(refusal) => say_answer(rt, refusal.number(), refusal.place()),
        Ok(accepted) => {
            let item = Item {
                production: request.number(0),
                index: request.number(1),
            };
            ask_item_in(rt, accepted, item)
        }
    }
}
