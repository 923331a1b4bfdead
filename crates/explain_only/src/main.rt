// Explains the conflicts of the rules of one name, without precedence, one by one.
#![tactic(auto)]

use conflict_report::{Detail, Only};
use explainer::{Options, run};
use std::alloc::AllocError;
use std::process::ExitCode;

fn main(rt: HostRuntime) -> Result<ExitCode, AllocError> {
    let alloc = rt.alloc();
    let mut options = Options::new(alloc);
    options.uses_precedence = false;
    options.detail = Detail::ByState;
    options.only = Some(Only::Name(String::from_str(alloc, "variable")?));
    options
        .files
        .push(String::from_str(alloc, "expression.y")?)?;
    Ok(run(&rt, &options))
}
