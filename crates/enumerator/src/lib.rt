// Listing the examples of a trace: trials in order, the lookahead's filter, an example in words (lr1/example, lr1/trace/trace_graph).

#![tactic(auto)]

pub mod advance;
pub mod example;
pub mod filter;
pub mod graph_view;
pub mod trials;
