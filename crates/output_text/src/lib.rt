// Lines of text: a conflict's class and examples, a table that can be typed again.

#![tactic(auto)]

pub mod conflict_lines;
pub mod table_text;
