use crate::Spot;
use crate::group::start_of;
use automaton::{Conflict, Other, Resolution, Resolved};
use grammar::Grammar;
use std::alloc::{AllocError, Global};
use std::collections::HashMap;

/// What a parser of yacc, byacc or bison does where there is a conflict: it shifts, or else it
/// reduces by the rule that stands first in the file.
#[derive(Clone, Copy, Debug, PartialEq, Eq, PartialOrd, Ord)]
pub enum Decision {
    Shift,
    Reduce(usize),
}

// Which of two productions stands first in the file.
fn first_of(grammar: &Grammar, production: usize, later: usize) -> usize {
    if start_of(grammar, later) < start_of(grammar, production) {
        later
    } else {
        production
    }
}

// What the two of a conflict come to.
fn own(grammar: &Grammar, conflict: Conflict) -> Decision {
    match conflict.other {
        Other::Shift => Decision::Shift,
        Other::Reduce(later) => Decision::Reduce(first_of(grammar, conflict.production, later)),
    }
}

// What two decisions for one state and token come to.
fn joined(grammar: &Grammar, one: Decision, other: Decision) -> Decision {
    match (one, other) {
        (Decision::Reduce(p), Decision::Reduce(q)) => Decision::Reduce(first_of(grammar, p, q)),
        _ => Decision::Shift,
    }
}

/// What the parser does in each state and before each token where a conflict is left.
#[derive(Drop)]
pub struct Decisions {
    known: HashMap<Spot, Decision>,
}

impl Decisions {
    /// The decisions for the conflicts that are left.
    pub fn new(
        alloc: Global,
        grammar: &Grammar,
        conflicts: &[Resolved],
    ) -> Result<Decisions, AllocError> {
        let mut known = HashMap::new(alloc);
        for resolved in conflicts {
            if resolved.resolution != Resolution::Open {
                continue;
            }
            let conflict = resolved.conflict;
            let spot = Spot {
                state: conflict.state,
                token: conflict.token,
            };
            let decision = own(grammar, conflict);
            let decision = match known.get(&spot).copied() {
                Some(other) => joined(grammar, decision, other),
                None => decision,
            };
            let _ = known.insert(spot, decision)?;
        }
        Ok(Decisions { known })
    }

    /// The decision in a state before a token, if a conflict is left there.
    pub fn at(&self, spot: Spot) -> Option<Decision> {
        self.known.get(&spot).copied()
    }
}
