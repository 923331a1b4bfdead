// The yacc texts that are read: their grammar, their tokens, and the first byte that no such text has.

#![tactic(auto)]

pub mod error_position;
pub mod lexer;
pub mod recognizer;
pub mod text;
