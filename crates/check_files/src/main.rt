// Counts the conflicts of several files, of which one has mistakes.
#![tactic(auto)]

use explainer::{Mode, Options, run};
use std::alloc::AllocError;
use std::process::ExitCode;

fn main(rt: HostRuntime) -> Result<ExitCode, AllocError> {
    let alloc = rt.alloc();
    let mut options = Options::new(alloc);
    options.mode = Mode::Check;
    for file in ["dangling_else.y", "mistakes.y", "expected.y", "clean.y"] {
        options.files.push(String::from_str(alloc, file)?)?;
    }
    Ok(run(&rt, &options))
}

#[cfg(test)]
mod tests {
    use super::*;
    use explainer::{Status, explain};
    use std::test::Fail;

    const MISTAKEN: &str = "%%\nsum : part ;\n";

    const SUM: &str = "%token N\n%%\nsum : N ;\n";

    // A file with mistakes: these on standard error, and nothing else.
    #[test]
    fn says_mistakes(rt: HostRuntime) -> Result<(), Fail> {
        let alloc = rt.alloc();
        let options = Options::new(alloc);
        let outcome = explain(alloc, &options, "f.y", MISTAKEN.as_bytes())?;
        assert_eq!(rt; outcome.status, Status::Unread);
        assert_eq!(rt; outcome.out.as_str(), "");
        assert_eq!(rt;
            outcome.errors.as_str(),
            "\
f.y:2:7: error: `part` is neither a token nor the name of a rule
 2 | sum : part ;
   |       ^^^^
help: declare it by `%token`, or write a rule for it
"
        );
        Ok(())
    }

    // A start that no rule has is a mistake of the command line.
    #[test]
    fn says_unknown_start(rt: HostRuntime) -> Result<(), Fail> {
        let alloc = rt.alloc();
        let mut options = Options::new(alloc);
        options.start = Some(String::from_str(alloc, "sun")?);
        let outcome = explain(alloc, &options, "f.y", SUM.as_bytes())?;
        assert_eq!(rt; outcome.status, Status::Failed);
        assert_eq!(rt; outcome.out.as_str(), "");
        assert_eq!(rt;
            outcome.errors.as_str(),
            "\
lihvemur: f.y: --start sun: no rule has this name; did you mean `sum`?
"
        );
        Ok(())
    }
}
