// Classifying, choosing and the observed symbols for C and Rust (docs/RULES.md, "Classes", "Choosing", "Observed symbols"). A conflict passes as its five numbers.
ghost use Rattle.std.specs.Prelude.{◌≡◌, [], ◌∷◌};
ghost use Rattle.conflict_sides.specs.conflict.Numbers.{values_of_class};
ghost use Rattle.conflict_sides.specs.conflict.Outcome.{classify_of};
ghost use Rattle.lihvemur_c.specs.Reports.{packed, class_numbers, classified_numbers, choice_numbers, choose_numbers, part_numbers, observed_numbers};
ghost use Rattle.conflicts.specs.Part.{part_observed};

use crate::{refuse, told};
use conflict_sides::conflict::{Class, Conflict};
use conflicts::class_words::copy_entries;
use conflicts::{Part, choose, classify, observed_part};
use lr1_base::lookahead::TokenSet;
use lr1_base::repr::{ProductionIndex, Refusal};
use state_graph::StateIndex;

// Four values in one word, the first lowest. (By name: a `fold` would have to know that four fit into 64 bits.)
fn pack(a: u16, b: u16, c: u16, d: u16) -> u64
    ensures { result ≡ packed (a ∷ b ∷ c ∷ d ∷ []) }
{
    a as u64 + 65536 * (b as u64 + 65536 * (c as u64 + 65536 * (d as u64)))
}

// A class's own values, absent ones 0.
fn class_values(class: Class) -> u64
    ensures { result ≡ packed (values_of_class class) }
{
    let [a, b, c, d] = class.values();
    pack(a, b, c, d)
}

// Class number, own values and trials are written only with answer 0.
#[unsafe(no_mangle)]
pub extern "C" fn lihvemur_classify(
    table: &[u16],
    state: u16,
    production: u16,
    action: u16,
    operand: u16,
    token: u16,
    scratch: &mut [u16],
    action_example: &mut [u16],
    reduce_example: &mut [u16],
    class: &mut u16,
    values: &mut u64,
    action_trials: &mut u32,
    reduce_trials: &mut u32,
    place: &mut u16,
) -> u16
    ensures { class_numbers result place.new class.new values.new action_trials.new reduce_trials.new scratch.new action_example.new reduce_example.new ≡ classified_numbers class.old values.old action_trials.old reduce_trials.old (classify_of table.now (record { state = record { 0 = state }; production = record { 0 = production }; action = action; operand = operand; token = token }) scratch.old action_example.old reduce_example.old) }
{
    let conflict = Conflict {
        state: StateIndex(state),
        production: ProductionIndex(production),
        action,
        operand,
        token,
    };
    let answer = classify(table, conflict, scratch, action_example, reduce_example);
    let (number, found) = told(answer, place);
    if let Some(found) = found {
        *class = found.class.number();
        *values = class_values(found.class);
        *action_trials = found.action_trials;
        *reduce_trials = found.reduce_trials;
    }
    number
}

// Six words an entry at the front of `entries`, no other word changed. It is lent at least 384 words: else the refusal that no scratch gets, 1 to 11.
#[unsafe(no_mangle)]
pub extern "C" fn lihvemur_choose(
    table: &[u16],
    state: u16,
    production: u16,
    action: u16,
    operand: u16,
    tokens: u64,
    scratch: &mut [u16],
    entries: &mut [u16],
    count: &mut usize,
    place: &mut u16,
) -> u16
    ensures { choice_numbers result place.new count.new entries.new scratch.new ≡ choose_numbers count.old entries.old table.now (record { state = record { 0 = state }; production = record { 0 = production }; action = action; operand = operand; token = 0 }) tokens scratch.old }
{
    let conflict = Conflict {
        state: StateIndex(state),
        production: ProductionIndex(production),
        action,
        operand,
        token: 0,
    };
    if entries.len() < Class::ALL_WORDS {
        return match choose(table, conflict, TokenSet(tokens), &mut scratch[..0]) {
            Ok(_) => refuse(Refusal::TooShort, place),
            Err(refusal) => refuse(refusal, place),
        };
    }
    let (number, chosen) = told(choose(table, conflict, TokenSet(tokens), scratch), place);
    if let Some(chosen) = chosen {
        copy_entries(&chosen.entries, entries, chosen.count);
        *count = chosen.count;
    }
    number
}

// In which buffer the observed symbols lie, 0 the action's, 1 the reduce's, and behind `words` how many words they have there from word 3 on.
#[unsafe(no_mangle)]
pub extern "C" fn lihvemur_observed(action: &[u16], reduce: &[u16], words: &mut usize) -> u16
    ensures { part_numbers result words.new ≡ observed_numbers (part_observed action.now reduce.now) }
{
    match observed_part(action, reduce) {
        Part::Action(n) => {
            *words = n;
            0
        }
        Part::Reduce(n) => {
            *words = n;
            1
        }
    }
}
