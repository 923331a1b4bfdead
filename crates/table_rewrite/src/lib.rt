// A table written afresh: one spelling for each grammar, without unused records, with a start production.

#![tactic(auto)]

pub mod compaction;
pub mod grammar_records;
pub mod spelling;
pub mod start_production;
