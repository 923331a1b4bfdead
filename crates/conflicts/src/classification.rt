// Classifying a conflict (`classify` of lr1/error/mod.rs) over an accepted table: docs/RULES.md, "Classes", from 8,000 words.

ghost use Rattle.std.specs.Prelude.{◌≡◌, true, ◌&&◌, List, ℕ, ◌≤◌, ◌<◌, length, eqb};
ghost use Rattle.lr1_base.specs.repr.Sizes.{classify_scratch, example_room};
ghost use Rattle.lr1_base.specs.words.Lent.{zeroed};
ghost use Rattle.table.specs.Decoded.{meaning};
ghost use Rattle.conflict_sides.specs.conflict.Numbers.{reading_of};
ghost use Rattle.conflict_sides.specs.conflict.Sides.{gather};
ghost use Rattle.conflict_sides.specs.conflict.Judge.{Example, judged};
ghost use Rattle.conflict_sides.specs.conflict.Outcome.{outcome, place_is_fit, conflict_fits, gathered_outcome, classified_in, shown as shown_words};
ghost use Rattle.conflict_sides.specs.examples.Gathers.{SideKept, is_shift, action_made};
ghost use Rattle.conflicts.specs.judgement.Judging.{Sides, ShownFits, shown_in};
ghost use Rattle.conflicts.specs.classification.Shown.{judged_words, shown_of};

use crate::judgement::{Judging, write_example};
use crate::pairs::{SortedSide, sort_side};
use conflict_sides::conflict::{Class, Classification, Conflict};
use conflict_sides::examples::{TableConflict, action_examples, prepare};
use conflict_sides::outline::{KeptSide, Outline, Side};
use enumerator::example::Example as ExampleBuffer;
use lr1_base::repr::{ProductionIndex, Refusal};
use lr1_base::words::zero;
use table::AcceptedTable;

// Refusal 9 for all of a conflict but its token.
pub fn place_fits(table: AcceptedTable, conflict: Conflict) -> bool
    ensures { result ≡ place_is_fit (meaning table.entry.words.now) conflict }
{
    let counts = table.counts();
    let state = conflict.state.0 as usize;
    let production = conflict.production.0 as usize;
    let operand = conflict.operand as usize;
    state < counts.states
        && (production < counts.productions
            && if conflict.is_shift() {
                operand < counts.terminals
            } else {
                conflict.action == 1 && operand < counts.productions
            })
}

// Refusal 10: a shift with the end token, at which the Rust panics.
fn shifts_end(conflict: Conflict, terminals: usize) -> bool
    ensures { result ≡ eqb conflict.action 0 && eqb conflict.token terminals }
{
    conflict.is_shift() && conflict.token as usize == terminals
}

// The example of the action's side that is shown, if there is one, at the front of its buffer. The buffers are lent here and below, and may be longer than an example: their length is asked at the entry (refusal 11).
fn show(case: TableConflict, side: KeptSide, shown: Option<usize>, buffer: &mut [u16])
    requires side_kept { (xs : List Example) × (SideKept (meaning case.given.table.words.now) (is_shift case.conflict) (action_made (meaning case.given.table.words.now) case.conflict) xs side.kept.now side.prints.now × ShownFits (length xs) «shown») }
    requires example_room_in_bounds { example_room ≤ length buffer.old }
    ensures { (xs : List Example) → SideKept (meaning case.entry.given.table.words.now) (is_shift case.entry.conflict) (action_made (meaning case.entry.given.table.words.now) case.entry.conflict) xs side.entry.kept.now side.entry.prints.now → ShownFits (length xs) «shown» → buffer.new ≡ shown_words (meaning case.entry.given.table.words.now).productions (shown_in xs «shown») buffer.old }
{
    if let Some(k) = shown {
        write_example(case, side, k, buffer);
    }
}

// The class from both sides: either empty is naive, and writes nothing; else both are put in order and judged, and the examples shown are made again. (Counts stand beside the sides: a refusal leaves what is kept behind its count, so that they are no field, as module outline of conflict_sides says.)
fn classify_kept(
    case: TableConflict,
    actions: KeptSide,
    action_count: usize,
    reduces: KeptSide,
    reduce_count: usize,
    action: &mut [u16],
    reduce: &mut [u16],
) -> Class
    requires sides { (xs : List Example) × ((ys : List Example) × (Sides (meaning case.given.table.words.now) case.conflict xs ys actions.kept.now actions.prints.now reduces.kept.now reduces.prints.now × ((length xs ≡ action_count) × (length ys ≡ reduce_count)))) }
    requires example_room_in_bounds { (example_room ≤ length action.old) × (example_room ≤ length reduce.old) }
    ensures { (xs ys : List Example) → Sides (meaning case.entry.given.table.words.now) case.entry.conflict xs ys actions.entry.kept.now actions.entry.prints.now reduces.entry.kept.now reduces.entry.prints.now → length xs ≡ action_count → length ys ≡ reduce_count → judged_words result action.new reduce.new ≡ shown_of (meaning case.entry.given.table.words.now).productions action.old reduce.old (judged (meaning case.entry.given.table.words.now) case.entry.conflict xs ys) }
{
    if action_count == 0 || reduce_count == 0 {
        return Class::Naive;
    }
    let mut rows = [0u16; Conflict::EXAMPLES];
    let mut columns = [0u16; Conflict::EXAMPLES];
    sort_side(actions.kept, action_count, &mut rows);
    sort_side(reduces.kept, reduce_count, &mut columns);
    let judging = Judging {
        case,
        actions: SortedSide {
            side: actions,
            order: &rows[..action_count],
        },
        reduces: SortedSide {
            side: reduces,
            order: &columns[..reduce_count],
        },
    };
    let judged = judging.judge();
    show(case, actions, judged.action, action);
    show(case.reduced(), reduces, judged.reduce, reduce);
    judged.class
}

// `classify`: the action's side is worked first, the reduce's even if the first is empty; 12 to 14 leave the example buffers. No scratch is used: what is written stands in small arrays.
pub fn classify(
    case: TableConflict,
    action: &mut [u16],
    reduce: &mut [u16],
) -> Result<Classification, Refusal>
    requires { (example_room ≤ length action.old) × (example_room ≤ length reduce.old) }
    ensures { (scratch : List ℕ) → outcome (reading_of result) (zeroed classify_scratch scratch) action.new reduce.new ≡ gathered_outcome (meaning case.entry.given.table.words.now) case.entry.conflict scratch action.old reduce.old (gather (meaning case.entry.given.table.words.now) case.entry.conflict) }
{
    let mut action_kept = [0u16; Outline::ALL_WORDS];
    let mut action_prints = [0u64; Conflict::EXAMPLES];
    let mut actions = Side::of(&mut action_kept, &mut action_prints);
    let mut reduce_kept = [0u16; Outline::ALL_WORDS];
    let mut reduce_prints = [0u64; Conflict::EXAMPLES];
    let mut reduces = Side::of(&mut reduce_kept, &mut reduce_prints);
    let own = action_examples(case, &mut actions)?;
    let found = action_examples(case.reduced(), &mut reduces)?;
    let class = classify_kept(
        case,
        actions.read(),
        own.examples,
        reduces.read(),
        found.examples,
        action,
        reduce,
    );
    Ok(Classification {
        class,
        action_trials: own.trials,
        reduce_trials: found.trials,
    })
}

// The table's productions are packed into the front of the scratch words, which are read only while sides are gathered and judged; all are zero at the end. One function of this and of chooser's `choose_read` would take what is done between as a closure, whose clauses would say again what `classify` says.
fn classify_read(
    table: AcceptedTable,
    conflict: Conflict,
    scratch: &mut [u16],
    action: &mut [u16],
    reduce: &mut [u16],
) -> Result<Classification, Refusal>
    requires conflict_value { conflict_fits (meaning table.words.now) conflict ≡ true }
    requires classify_scratch_in_bounds { (classify_scratch ≤ length scratch.old) × ((example_room ≤ length action.old) × (example_room ≤ length reduce.old)) }
    ensures { outcome (reading_of result) scratch.new action.new reduce.new ≡ gathered_outcome (meaning table.entry.words.now) conflict scratch.old action.old reduce.old (gather (meaning table.entry.words.now) conflict) }
{
    let past = ProductionIndex::ALL_WORDS;
    let prepared = prepare(table, &mut scratch[..past]);
    let given = prepared.given(table, &scratch[..past]);
    let classified = classify(TableConflict { given, conflict }, action, reduce);
    zero(scratch, Conflict::SCRATCH);
    classified
}

// `classify` over an accepted table: refusals 9 to 11 change nothing.
pub fn classify_in(
    table: AcceptedTable,
    conflict: Conflict,
    scratch: &mut [u16],
    action: &mut [u16],
    reduce: &mut [u16],
) -> Result<Classification, Refusal>
    ensures { outcome (reading_of result) scratch.new action.new reduce.new ≡ classified_in conflict scratch.old action.old reduce.old (meaning table.entry.words.now) }
{
    let terminals = table.counts().terminals;
    if !place_fits(table, conflict) || conflict.token as usize > terminals {
        return Err(Refusal::OutOfRange);
    }
    if shifts_end(conflict, terminals) {
        return Err(Refusal::EndShifted);
    }
    if scratch.len() < Conflict::SCRATCH
        || action.len() < ExampleBuffer::WORDS
        || reduce.len() < ExampleBuffer::WORDS
    {
        return Err(Refusal::TooShort);
    }
    classify_read(table, conflict, scratch, action, reduce)
}
