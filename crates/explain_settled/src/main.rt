// Explains what precedence settles in a file.
#![tactic(auto)]

use explainer::{Options, run};
use std::alloc::AllocError;
use std::process::ExitCode;

fn main(rt: HostRuntime) -> Result<ExitCode, AllocError> {
    let alloc = rt.alloc();
    let mut options = Options::new(alloc);
    options.shows_settled = true;
    options
        .files
        .push(String::from_str(alloc, "expression.y")?)?;
    Ok(run(&rt, &options))
}
