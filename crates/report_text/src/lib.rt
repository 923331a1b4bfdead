//! The report of a grammar's conflicts as text for a reader: each conflict with both rules, their
//! lines and carets.
#![tactic(auto)]

mod entry;
mod marks;
mod note;
mod settled;
mod summary;
mod title;
mod words;

pub use entry::push_entry;
pub use settled::push_settled;
pub use summary::{push_counts, push_entry_count, push_settled_count};
