// Reading and writing as the programs do it: standard streams, tables in words.

#![tactic(auto)]

pub mod streams;
pub mod table_stream;
