//! A reading as a picture: the symbols of its form in a line, and below them a line for each bracket. What is drawn are
//! the brackets that `certificate::brackets_of` gives; nothing is proved of where they stand on the page.
#![tactic(auto)]

mod columns;
mod picture;

pub use picture::{Line, draw};
