use crate::{Options, Outcome, Status, explain};
use std::io::{ErrorKind, Read, Write};
use std::process::ExitCode;
use std::rt::Files;
use std::{fs, io};

/// How the standard input is called.
const STDIN: &str = "<stdin>";

// All bytes of a file, or of the standard input.
fn read<R: Files + Input + AllocGlobal>(rt: &R, file: &str) -> io::Result<Vec<u8>> {
    if file == "-" {
        let mut bytes = Vec::new(rt.alloc());
        rt.reader().read_to_end(&mut bytes)?;
        return Ok(bytes);
    }
    fs::read(rt, file)
}

// What cannot be written to the standard error can be said nowhere.
fn complain<R: Eprint + AllocGlobal>(rt: &R, text: &str) {
    if !text.is_empty() {
        let _ = rt.eprint(text);
    }
}

// What one file comes to. What is written to the standard output is added to `out`.
fn run_file<R: Files + Input + Eprint + AllocGlobal>(
    rt: &R,
    options: &Options,
    file: &str,
    out: &mut String,
) -> io::Result<Status> {
    let text = match read(rt, file) {
        Ok(text) => text,
        Err(error) => {
            let _ = eprintln!(rt; "lihvemur: {file}: {error}");
            return Ok(Status::Failed);
        }
    };
    let name = if file == "-" { STDIN } else { file };
    let outcome = explain(rt.alloc(), options, name, text.as_slice())?;
    complain(rt, outcome.errors.as_str());
    if !out.is_empty() && !outcome.out.is_empty() && options.parts_reports() {
        out.push('\n')?;
    }
    out.push_str(outcome.out.as_str())?;
    Ok(outcome.status)
}

// Writes all at once. A reader that has gone away is no mistake.
fn write<R: Print + Eprint>(rt: &R, out: &str) -> Status {
    if out.is_empty() {
        return Status::Expected;
    }
    match io::writer(rt).write_all(out.as_bytes()) {
        Ok(()) => Status::Expected,
        Err(error) => {
            if error.kind() != ErrorKind::BrokenPipe {
                let _ = eprintln!(rt; "lihvemur: standard output: {error}");
                return Status::Failed;
            }
            Status::Expected
        }
    }
}

/// Does what the options say, and returns the gravest status of all files.
pub fn run<R: Files + Input + Print + Eprint + AllocGlobal>(rt: &R, options: &Options) -> ExitCode {
    let mut out = String::new(rt.alloc());
    let mut status = Status::Expected;
    for file in &options.files {
        let one = match run_file(rt, options, file.as_str(), &mut out) {
            Ok(one) => one,
            Err(error) => {
                let _ = eprintln!(rt; "lihvemur: {file}: {error}");
                Status::Limited
            }
        };
        status = status.graver(one);
    }
    ExitCode::from(status.graver(write(rt, out.as_str())).code())
}
