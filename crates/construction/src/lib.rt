//! LR automata of grammars, and the conflicts of a grammar by them. Of what the makers make nothing
//! is proved but that they are safe and end: the validator of `automaton` judges it.
#![tactic(auto)]

mod analysis;
mod canonical;
mod lalr;
mod lr0;
mod symbols;

pub use analysis::{Analysis, Failure, Kind, conflicts_of_grammar};
