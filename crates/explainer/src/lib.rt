//! From options to what is written and the status: reads each file, finds its conflicts and tells
//! them.
#![tactic(auto)]

mod expectation;
mod finding;
mod lines;
mod options;
mod running;
mod status;
mod telling;
mod useless;

pub use expectation::{expected_by, status_by};
pub use finding::{Found, find};
pub use options::{Expectation, Format, Mode, Options, Table};
pub use running::run;
pub use status::Status;
pub use telling::{Outcome, explain};

/// The version of the command.
pub const VERSION: &str = "1.0.0-dev";
