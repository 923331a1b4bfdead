//! What may be said of a conflict, and who says it: two readings of a form that part at the conflict are judged by the
//! grammar alone, whoever made them. The brackets in which a reading is shown are those of the reading.
#![tactic(auto)]

mod brackets;
mod judging;
mod reading;
mod set;
mod useful;

pub use brackets::{Bracket, brackets_of};
pub use judging::{Certificate, Fork, Verdict, judge};
pub use reading::{Action, is_reading};
pub use set::NonterminalSet;
pub use useful::UsefulSets;
