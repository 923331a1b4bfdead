// The canonical LR(1) collection of a grammar (lr1/build): closure, goto, the states in the order in which they are found.

#![tactic(auto)]

pub mod closure;
pub mod collection;
pub mod goto;
pub mod start_state;
pub mod state_list;
pub mod stored_item;
pub mod transitions;
