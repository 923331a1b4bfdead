// The two sides of a conflict (lr1/error): what is shifted, the examples of each side, what is kept of them.

#![tactic(auto)]

pub mod conflict;
pub mod examples;
pub mod outline;
pub mod shift_items;
