// Explains two files as text.
#![tactic(auto)]

use explainer::{Options, run};
use std::alloc::AllocError;
use std::process::ExitCode;

fn main(rt: HostRuntime) -> Result<ExitCode, AllocError> {
    let alloc = rt.alloc();
    let mut options = Options::new(alloc);
    for file in ["dangling_else.y", "expression.y"] {
        options.files.push(String::from_str(alloc, file)?)?;
    }
    Ok(run(&rt, &options))
}
