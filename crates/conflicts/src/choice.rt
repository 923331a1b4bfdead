// Choosing which tokens of a conflict to report (`report_errors` of lr1/error/mod.rs without messages) over an accepted table (docs/RULES.md, "Choosing").

mod chosen;

ghost use Rattle.std.specs.Prelude.{◌≡◌, true, ◌&&◌, [], ◌+◌, ◌≤◌, ◌<◌, length, eqb};
ghost use Rattle.lr1_base.specs.repr.Sizes.{classify_scratch, entry_limit};
ghost use Rattle.lr1_base.specs.words.Lent.{zeroed};
ghost use Rattle.lr1_base.specs.lookahead.Tokens.{has, members};
ghost use Rattle.table.specs.Decoded.{meaning};
ghost use Rattle.conflict_sides.specs.conflict.Sides.{gather};
ghost use Rattle.conflict_sides.specs.conflict.Choose.{outcome, set_fits, entries, then, at_token, classes_of, choice_of, chosen_in};
ghost use Rattle.conflicts.specs.class_words.Entries.{entries_in};
ghost use Rattle.conflicts.specs.choice.Choosing.{choice_in, sorted_in, CountsWithin, added_to, count_of_naive};

pub use self::chosen::Chosen;
use crate::class_words::{EntryList, copy_entries};
use crate::classification::{classify, place_fits};
use conflict_sides::conflict::{Class, Conflict};
use conflict_sides::examples::{Given, TableConflict, prepare};
use enumerator::example::Example;
use lr1_base::lookahead::TokenSet;
use lr1_base::repr::{ProductionIndex, Refusal};
use lr1_base::words::zero;
use table::AcceptedTable;

// A conflict of the table whose tokens are a set, all in range.
#[derive(Clone, Copy)]
struct TableChoice<'a> {
    given: Given<'a>,
    conflict: Conflict,
    tokens: TokenSet,
    ghost fits: { set_fits (meaning given.table.words.now) conflict tokens.0 ≡ true },
}

// One token of the set: its class goes behind the better ones or behind the naive ones.
fn choose_token(
    choice: TableChoice,
    token: u16,
    better: &mut EntryList,
    naive: &mut EntryList,
) -> Result<(), Refusal>
    requires member { has choice.tokens.0 token ≡ true }
    requires room { better.old.count + naive.old.count < entry_limit }
    ensures added { sorted_in result better.new naive.new ≡ added_to (entries_in better.old.words better.old.count) (entries_in naive.old.words naive.old.count) (then (meaning choice.entry.given.table.words.now) choice.entry.conflict token (gather (meaning choice.entry.given.table.words.now) (at_token choice.entry.conflict token)) (entries [])) }
    ensures counts { CountsWithin (better.old.count + naive.old.count + 1) result better.new naive.new }
{
    let mut action = [0u16; Example::WORDS];
    let mut reduce = [0u16; Example::WORDS];
    let case = TableConflict {
        given: choice.given,
        conflict: Conflict {
            token,
            ..choice.conflict
        },
    };
    let found = classify(case, &mut action, &mut reduce)?;
    if found.class.is_naive() {
        naive.push(token, found.class);
    } else {
        better.push(token, found.class);
    }
    Ok(())
}

// Every token of the set in order.
fn choose_tokens(
    choice: TableChoice,
    better: &mut EntryList,
    naive: &mut EntryList,
) -> Result<(), Refusal>
    requires { (better.old.count ≡ 0) × (naive.old.count ≡ 0) }
    ensures added { sorted_in result better.new naive.new ≡ added_to [] [] (classes_of (meaning choice.entry.given.table.words.now) choice.entry.conflict (members choice.entry.tokens.0)) }
    ensures counts { CountsWithin entry_limit result better.new naive.new }
{
    for token in choice.tokens.iter() {
        choose_token(choice, token, better, naive)?;
    }
    Ok(())
}

// How many naive ones are chosen: of a reduce/reduce only the first.
fn naive_chosen(conflict: Conflict, count: usize) -> usize
    ensures { result ≡ count_of_naive conflict.action count }
{
    if conflict.is_shift() {
        count
    } else {
        count.min(1)
    }
}

// So many entries chosen: no word of another stays behind them.
fn answer(entries: &EntryList, count: usize) -> Chosen
    requires { count ≤ entry_limit }
    ensures { entries_in result.entries result.count ≡ entries_in entries.now.words count }
{
    let mut words = [0u16; Class::ALL_WORDS];
    copy_entries(&entries.words, &mut words, count);
    Chosen {
        count,
        entries: words,
    }
}

// The better classes if there are any, else the naive ones.
fn choose_gathered(choice: TableChoice) -> Result<Chosen, Refusal>
    ensures { choice_in result ≡ choice_of choice.entry.conflict.action (classes_of (meaning choice.entry.given.table.words.now) choice.entry.conflict (members choice.entry.tokens.0)) }
{
    let mut better = EntryList::new();
    let mut naive = EntryList::new();
    choose_tokens(choice, &mut better, &mut naive)?;
    if better.count != 0 {
        return Ok(answer(&better, better.count));
    }
    let count = naive_chosen(choice.conflict, naive.count);
    Ok(answer(&naive, count))
}

// The table's productions are packed into the front of the scratch words, as classifying does; all are zero at the end.
fn choose_read(
    table: AcceptedTable,
    conflict: Conflict,
    tokens: TokenSet,
    scratch: &mut [u16],
) -> Result<Chosen, Refusal>
    requires tokens_value { set_fits (meaning table.words.now) conflict tokens.0 ≡ true }
    requires classify_scratch_in_bounds { classify_scratch ≤ length scratch.old }
    ensures { outcome (choice_in result) scratch.new ≡ outcome (choice_of conflict.action (classes_of (meaning table.entry.words.now) conflict (members tokens.0))) (zeroed classify_scratch scratch.old) }
{
    let past = ProductionIndex::ALL_WORDS;
    let prepared = prepare(table, &mut scratch[..past]);
    let given = prepared.given(table, &scratch[..past]);
    let choice = TableChoice {
        given,
        conflict,
        tokens,
    };
    let chosen = choose_gathered(choice);
    zero(scratch, Conflict::SCRATCH);
    chosen
}

// Refusal 10: a shift with the end token in the set.
fn set_shifts_end(conflict: Conflict, tokens: TokenSet, terminals: u16) -> bool
    ensures { result ≡ eqb conflict.action 0 && has tokens.0 terminals }
{
    conflict.is_shift() && tokens.contains(terminals)
}

// `choose` over an accepted table: refusals 9 to 11 change nothing.
pub fn choose_in(
    table: AcceptedTable,
    conflict: Conflict,
    tokens: TokenSet,
    scratch: &mut [u16],
) -> Result<Chosen, Refusal>
    ensures { outcome (choice_in result) scratch.new ≡ chosen_in conflict tokens.0 scratch.old (meaning table.entry.words.now) }
{
    let counts = table.counts();
    if !place_fits(table, conflict) || !tokens.fits(counts.terminals) {
        return Err(Refusal::OutOfRange);
    }
    if set_shifts_end(conflict, tokens, counts.terminals as u16) {
        return Err(Refusal::EndShifted);
    }
    if scratch.len() < Conflict::SCRATCH {
        return Err(Refusal::TooShort);
    }
    choose_read(table, conflict, tokens, scratch)
}
