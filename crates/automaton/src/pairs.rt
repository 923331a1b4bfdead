//! The conflicts of a state and a token, pair by pair.

ghost use Rattle.std.specs.Prelude.{◌≡◌, ◌++◌, IfOk, OnOk};
ghost use Rattle.automaton.specs.Conflicts.{pairs_of, conflicts_of};

use crate::{Clash, Conflict, Other};
use std::alloc::{AllocError, Global};

// Lists the conflicts of one production: with the shift, if there is one, and with each production
// of a higher number.
fn list_pairs(clash: &Clash, production: usize, list: &mut Vec<Conflict>) -> Result<(), AllocError>
    ensures { OnOk result (list.new.items ≡ list.old.items ++ pairs_of clash.now production) }
{
    let state = clash.state;
    let token = clash.token;
    if clash.shifts {
        list.push(Conflict {
            state,
            token,
            production,
            other: Other::Shift,
        })?;
    }
    for q in &clash.reductions {
        if production < *q {
            list.push(Conflict {
                state,
                token,
                production,
                other: Other::Reduce(*q),
            })?;
        }
    }
    Ok(())
}

/// The conflicts of a clash.
pub fn conflicts(alloc: Global, clash: &Clash) -> Result<Vec<Conflict>, AllocError>
    ensures { IfOk result (λ v. v.items ≡ conflicts_of clash.now) }
{
    let mut list = Vec::new(alloc);
    for production in &clash.reductions {
        list_pairs(clash, *production, &mut list)?;
    }
    Ok(list)
}
