// All states measured at the end of the search: the records of the table and the conflicts, or refusal 17 (specs/sizes/Complete).

ghost use Rattle.std.specs.Prelude.{◌≡◌, List, [], ℕ, ◌+◌, ◌*◌, ◌≤◌, ◌<◌, length, take, get_or};
ghost use Rattle.lr1_base.specs.repr.Sizes.{index_limit};
ghost use Rattle.lr1_base.specs.repr.Meaning.{Edge};
ghost use Rattle.lr1_states.specs.canonical.States.{clashes};
ghost use Rattle.lr1_states.specs.canonical.Outcome.{sum, records};
ghost use Rattle.lr1_states.specs.closure.Fed.{Flat};
ghost use Rattle.lr1_states.specs.collection.Rows.{rows_in};
ghost use Rattle.lr1_tables.specs.sizes.Complete.{Collection, Complete, MeasuredAs};

use crate::state_conflicts::{Actions, count_state};
use lr1_base::item::Item;
use lr1_base::repr::Grammar;
use lr1_states::goto::{Halt, Sizes};
use lr1_states::state_list::{Begins, unpack};

// How many records and conflicts there are, as they are counted. `Built` of the root module has them as C does, and stands there so that what is above names no crate of the search.
#[derive(Clone, Copy)]
pub struct Measured {
    pub records: usize,
    pub conflicts: usize,
}

// The states found, in words, and the grammar that they are of. That they are the states of a table's search (`Collection`, `Complete`) is asked at each call: it names the table, and a ghost field's fact has one proof.
#[derive(Clone, Copy)]
pub struct KeptStates<'a> {
    pub grammar: Grammar<'a>,
    pub words: &'a [u16],
    pub begins: &'a Begins,
}

impl<'a> KeptStates<'a> {
    // State k, flat.
    pub fn state(self, k: usize) -> [u64; Item::LIMIT]
        requires collection { Collection self }
        requires k_lt_states { k < self.begins.now.states }
        ensures flat { Flat result }
        ensures is { (s : Collection self.entry) → take (index_limit * self.entry.grammar.productions) result ≡ get_or s.Rs k [] }
    {
        let (from, past) = self.begins.span(k);
        unpack(self.words, from, past)
    }
}

// The conflicts of state k.
fn count_at(kept: KeptStates, k: usize) -> usize
    requires collection { Collection kept }
    requires k_lt_states { k < kept.begins.now.states }
    ensures { (result ≤ 1056768) × ((s : Collection kept.entry) → result ≡ length (clashes s.T (get_or s.Rs k []))) }
{
    count_state(kept.grammar, &kept.state(k))
}

// The conflicts of all.
pub fn count_conflicts(kept: KeptStates) -> usize
    requires { Collection kept }
    ensures { (result ≤ 135266304) × ((s : Collection kept.entry) → result ≡ sum (λ (S : List ℕ). length (clashes s.T S)) s.Rs) }
{
    (0..kept.begins.states).map(|k| count_at(kept, k)).sum()
}

// The records of the table, edges included.
fn table_records(kept: KeptStates, sizes: Sizes, rows: &[usize; Begins::ROWS]) -> usize
    requires { Complete kept sizes rows.now }
    ensures { (s : Complete kept.entry sizes rows.now) → result ≡ records s.T s.all.Rs + sum (λ (es : List Edge). length es) (rows_in s.E rows.now kept.entry.begins.now.states) }
{
    let states = kept.begins.states;
    sizes.fixed + states + kept.begins.items[states] + rows[states]
}

// Refusal 17 for the edges, then for the list of conflicts, which has room for so many words. Of the edges, only where each state's begin.
pub fn measure(
    kept: KeptStates,
    sizes: Sizes,
    rows: &[usize; Begins::ROWS],
    room: usize,
) -> Result<Measured, Halt>
    requires { Complete kept sizes rows.now }
    ensures { (s : Complete kept.entry sizes rows.now) → MeasuredAs s.T s.room room s.all.Rs (rows_in s.E rows.now kept.entry.begins.now.states) result }
{
    let records = table_records(kept, sizes, rows);
    if sizes.limit < records {
        return Err(Halt::Records);
    }
    let conflicts = count_conflicts(kept);
    if room < Actions::CONFLICT_WORDS * conflicts {
        return Err(Halt::Records);
    }
    Ok(Measured { records, conflicts })
}
