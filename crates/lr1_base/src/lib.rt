// What every layer speaks of: lists of words, numbers of the grammar, symbols and productions, items, sets of tokens, flags.

#![tactic(auto)]

pub mod bits;
pub mod item;
pub mod le_words;
pub mod lookahead;
pub mod repr;
pub mod words;
