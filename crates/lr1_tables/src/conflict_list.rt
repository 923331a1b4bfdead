// The list of conflicts: those of all states, five words each (`conflict_words` of specs/canonical/Built of lr1_states).

ghost use Rattle.std.specs.Prelude.{◌≡◌, ◌+◌, ◌≤◌, ◌<◌, length};
ghost use Rattle.lr1_base.specs.words.Lent.{in_front};
ghost use Rattle.lr1_base.specs.words.Insert.{put_at};
ghost use Rattle.lr1_states.specs.canonical.Built.{conflict_words};
ghost use Rattle.lr1_tables.specs.sizes.Complete.{Collection};
ghost use Rattle.lr1_tables.specs.conflict_list.Listed.{state_words};

use crate::conflict_words::write_state;
use crate::sizes::KeptStates;

// Those of state k from a place on; the place behind them.
fn write_at(kept: KeptStates, k: usize, list: &mut [u16], at: usize) -> usize
    requires k_in_bounds { (s : Collection kept) × (at + length (state_words s.T s.Rs k) ≤ length list.old) }
    requires k_lt_states { k < kept.begins.now.states }
    ensures { (s : Collection kept.entry) → (list.new ≡ put_at at (state_words s.T s.Rs k) list.old) × (result ≡ at + length (state_words s.T s.Rs k)) }
{
    write_state(kept.grammar, &kept.state(k), k, list, at)
}

// All, at the front of the list.
pub fn write_conflicts(kept: KeptStates, list: &mut [u16])
    requires { (s : Collection kept) × (length (conflict_words s.T s.Rs) ≤ length list.old) }
    ensures { (s : Collection kept.entry) → length (conflict_words s.T s.Rs) ≤ length list.old → list.new ≡ in_front (conflict_words s.T s.Rs) list.old }
{
    let mut place = 0;
    for k in 0..kept.begins.states {
        place = write_at(kept, k, list, place);
    }
}
