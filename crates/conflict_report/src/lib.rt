//! What a reader is told of a grammar's conflicts, as a value: by pairs of rules, with all tokens
//! and states, and what a parser of yacc does there. How it looks is for the crates that write it.
#![tactic(auto)]

mod decision;
mod entry;
mod group;
mod only;
mod report;
mod subject;

pub use decision::Decision;
pub use entry::{Decided, Entry, Shifting};
pub use group::{Group, Spot};
pub use only::Only;
pub use report::{Counts, Detail, Findings, Report, Summary};
pub use subject::Subject;
