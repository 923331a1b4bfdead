//! The report of a grammar's conflicts as JSON, for programs. docs/JSON.md says what each field is.
#![tactic(auto)]

mod entry;
mod object;
mod rule;

pub use object::{Expected, Facts, json_of, summary_of};
