//! Reads yacc files with mistakes, and prints what is said of each. The first word says whether in
//! colours.
#![tactic(auto)]

use diagnostics::Renderer;
use source::Lines;
use std::alloc::{AllocError, Global};
use std::rt::Files;
use std::{env, fs, io};
use yacc_grammar::read_grammar;

const COLORED: &str = "--color";

// All that is said of a text, and how many productions its grammar has.
fn messages(
    alloc: Global,
    name: &str,
    text: &[u8],
    is_colored: bool,
) -> Result<String, AllocError> {
    let reading = read_grammar(alloc, text, None)?;
    let lines = Lines::new(alloc, text)?;
    let renderer = Renderer {
        alloc,
        name,
        lines: &lines,
        is_colored,
    };
    let mut out = String::new(alloc);
    for diagnostic in &reading.diagnostics {
        renderer.push_diagnostic(&mut out, diagnostic)?;
    }
    let summary = match &reading.grammar {
        Some(grammar) => {
            let productions = grammar.productions.len();
            format!(in alloc; "{name}: {productions} productions\n\n")?
        }
        None => format!(in alloc; "{name}: no grammar\n\n")?,
    };
    out.push_str(summary.as_str())?;
    Ok(out)
}

fn run<R: Files + Print + AllocGlobal>(rt: &R, name: &str, is_colored: bool) -> io::Result<()> {
    let text = fs::read(rt, name)?;
    let out = messages(rt.alloc(), name, text.as_slice(), is_colored)?;
    print!(rt; "{out}")
}

fn main(rt: HostRuntime) -> anyhow::Result<()> {
    let alloc = rt.alloc();
    let words: Vec<String> = env::args(&rt)?.collect(alloc)?;
    let mut is_colored = false;
    for word in words.iter().skip(1) {
        if word.as_str() == COLORED {
            is_colored = true;
        } else {
            run(&rt, word.as_str(), is_colored)?;
        }
    }
    Ok(())
}
