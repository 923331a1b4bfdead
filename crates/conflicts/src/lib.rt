// Classifying, choosing and the observed symbols for callers (docs/RULES.md, "Classes", "Choosing", "Observed symbols"). Every entry is total, refuses by docs/RULES.md, "Refusals", and is equated with a definition of error/specs.

#![tactic(auto)]

pub mod choice;
pub mod class_words;
pub mod classification;
pub mod judgement;
pub mod pairs;

ghost use Rattle.std.specs.Prelude.{◌≡◌};
ghost use Rattle.conflict_sides.specs.conflict.Numbers.{reading_of};
ghost use Rattle.conflict_sides.specs.conflict.Outcome.{outcome as classification, classify_of};
ghost use Rattle.conflict_sides.specs.conflict.Choose.{outcome as choosing, choose_of};
ghost use Rattle.conflict_sides.specs.conflict.Observed.{is_whole_example, observed_of};
ghost use Rattle.conflicts.specs.choice.Choosing.{choice_in};
ghost use Rattle.conflicts.specs.Part.{part_observed, part_words};

use crate::choice::{Chosen, choose_in};
use crate::classification::classify_in;
use conflict_sides::conflict::{Classification, Conflict};
use enumerator::example::Example;
use lr1_base::lookahead::TokenSet;
use lr1_base::repr::{Refusal, word};
use table_check::check;

// The class of a conflict, its examples at the front of the two buffers.
pub fn classify(
    table: &[u16],
    conflict: Conflict,
    scratch: &mut [u16],
    action: &mut [u16],
    reduce: &mut [u16],
) -> Result<Classification, Refusal>
    ensures { classification (reading_of result) scratch.new action.new reduce.new ≡ classify_of table.now conflict scratch.old action.old reduce.old }
{
    classify_in(check(table)?, conflict, scratch, action, reduce)
}

// The tokens of a conflict that are reported, with their classes; the set stands for the conflict's token.
pub fn choose(
    table: &[u16],
    conflict: Conflict,
    tokens: TokenSet,
    scratch: &mut [u16],
) -> Result<Chosen, Refusal>
    ensures { choosing (choice_in result) scratch.new ≡ choose_of table.now conflict tokens.0 scratch.old }
{
    choose_in(check(table)?, conflict, tokens, scratch)
}

// Whether a buffer holds all that its three counts say, with the cursor within the symbols.
fn whole_example(buffer: &[u16]) -> bool
    ensures { result ≡ is_whole_example buffer.now }
{
    match buffer {
        [symbols, cursor, reductions, rest @ ..] => {
            let symbols = *symbols as usize;
            let reductions = *reductions as usize;
            let words = Example::SYMBOL_WORDS * symbols + Example::REDUCTION_WORDS * reductions;
            rest.len() >= words && *cursor as usize <= symbols
        }
        _ => false,
    }
}

// In which buffer the observed symbols lie, and how many words they have there from word 3 on.
#[derive(Clone, Copy)]
pub enum Part {
    Action(usize),
    Reduce(usize),
}

// The symbols before the cursor (`report_error_not_lr1_core`) are a part of the action's example if its cursor is at least the other's; where either is not whole, an empty part of the first.
pub fn observed_part(action: &[u16], reduce: &[u16]) -> Part
    ensures { result ≡ part_observed action.now reduce.now }
{
    if !whole_example(action) || !whole_example(reduce) {
        return Part::Action(0);
    }
    let a = word(action, 1);
    let b = word(reduce, 1);
    if a >= b {
        Part::Action(Example::SYMBOL_WORDS * a)
    } else {
        Part::Reduce(Example::SYMBOL_WORDS * b)
    }
}

// That part.
pub fn observed<'a>(action: &'a [u16], reduce: &'a [u16]) -> &'a [u16]
    ensures result_value { result.now ≡ part_words (part_observed action.now reduce.now) action.now reduce.now }
    ensures result_value_2 { result.now ≡ observed_of action.now reduce.now }
{
    match observed_part(action, reduce) {
        Part::Action(0) => &action[..0],
        Part::Action(words) => &action[3..3 + words],
        Part::Reduce(words) => &reduce[3..3 + words],
    }
}
