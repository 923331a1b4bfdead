// All states, taken by number (specs/collection/Rows).
// The search for states from the first to the last (`found_to` of specs/goto/Steps).

ghost use Rattle.std.specs.Prelude.{OnErr, ◌≡◌, [], ◌+◌, ◌*◌, ◌≤◌, ◌<◌, length, get_or};
ghost use Rattle.lr1_base.specs.repr.Sizes.{item_limit, record_limit};
ghost use Rattle.lr1_states.specs.goto.Steps.{collect_to, found_to};
ghost use Rattle.lr1_states.specs.goto.Search.{Search};
ghost use Rattle.lr1_states.specs.collection.Rows.{FoundAs};
ghost use Rattle.lr1_states.specs.collection.Ready.{Ready};

use crate::goto::{Halt, Source};
use crate::start_state::first_state;
use crate::state_list::Begins;
use crate::transitions::{Edges, take_state};

// Every state taken, those found on the way too.
fn take_states(
    source: Source,
    words: &mut [u16],
    begins: &mut Begins,
    kernel: &mut [u16],
    edges: &mut Edges,
) -> Result<(), Halt>
    requires search { Search source words.old begins.old.items begins.old.states }
    requires front { (item_limit * 5 ≤ length kernel.old) × (get_or edges.old.rows 0 0 ≡ 0) }
    ensures { (s : Search source.entry words.old begins.old.items begins.old.states) → FoundAs s.T s.start (collect_to 129 s.T s.room s.Rs []) words.new begins.new.items edges.new.list.words edges.new.rows begins.new.states result }
{
    edges.list.many = 0;
    let mut k = 0;
    // No range: taking one adds states.
    while k < begins.states {
        take_state(source, words, begins, k, kernel, &mut edges.list)?;
        k += 1;
        edges.rows[k] = edges.list.many;
    }
    Ok(())
}

// The states behind those found, and the edges of all. Where it halts, there are as many states as before.
pub fn find_states(
    source: Source,
    words: &mut [u16],
    begins: &mut Begins,
    kernel: &mut [u16],
    edges: &mut Edges,
) -> Result<(), Halt>
    requires search { Search source words.old begins.old.items begins.old.states }
    requires front { (item_limit * 5 ≤ length kernel.old) × (get_or edges.old.rows 0 0 ≡ 0) }
    ensures states { OnErr result (begins.new.states ≡ begins.old.states) }
    ensures found { (s : Search source.entry words.old begins.old.items begins.old.states) → FoundAs s.T s.start (collect_to 129 s.T s.room s.Rs []) words.new begins.new.items edges.new.list.words edges.new.rows begins.new.states result }
{
    let states = begins.states;
    match take_states(source, words, begins, kernel, edges) {
        Ok(()) => Ok(()),
        Err(halt) => {
            begins.states = states;
            Err(halt)
        }
    }
}

// All states and their edges.
pub fn search_states(
    source: Source,
    start: usize,
    words: &mut [u16],
    begins: &mut Begins,
    kernel: &mut [u16],
    edges: &mut Edges,
) -> Result<(), Halt>
    requires ready { Ready source start }
    requires front { (item_limit * 5 ≤ length kernel.old) × (record_limit * 5 ≤ length words.old) × (get_or begins.old.items 0 0 ≡ 0) × (get_or edges.old.rows 0 0 ≡ 0) }
    ensures { (s : Ready source.entry start) → FoundAs s.T start (found_to s.T start s.room) words.new begins.new.items edges.new.list.words edges.new.rows begins.new.states result }
{
    first_state(source, start, words, begins)?;
    find_states(source, words, begins, kernel, edges)
}
