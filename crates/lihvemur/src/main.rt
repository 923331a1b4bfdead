//! The command `lihvemur`: its command line, and what the words of that mean.
#![tactic(auto)]

use clap::error::ErrorKind;
use clap::{Arg, ArgAction, ArgMatches, Command};
use conflict_report::{Detail, Only};
use explainer::{Expectation, Format, Mode, Options, Table, VERSION, run};
use std::alloc::{AllocError, Global};
use std::env;
use std::io::IsTerminal;
use std::process::ExitCode;

/// The kit that the command is proved with.
const KIT: &str = "rattle-kit-13f logic dac8208d650f15bf";

/// The status of a mistake in the command line.
const USAGE: u8 = 4;

const ABOUT: &str =
    "Explains the conflicts of yacc and bison grammars: which two rules, before which tokens, and where";

const USAGES: &str = "lihvemur [OPTIONS] FILE...\n       lihvemur check [OPTIONS] FILE...";

const CHECK_ABOUT: &str = "Count the conflicts alone, one line for each FILE";

const CHECK_USAGE: &str = "lihvemur check [OPTIONS] FILE...";

const AFTER: &str = "\
Status:
  0  no conflicts but the expected ones
  1  conflicts
  2  a FILE is no grammar that is read; each mistake is on standard error
  3  a limit was met
  4  a mistake in the command line, or a file that cannot be read or written
With several FILEs it is the highest of theirs. A FILE called `check` is written ./check.

Examples:
  lihvemur parse.y                 explain all conflicts of parse.y
  lihvemur --only ELSE parse.y     only those before ELSE
  lihvemur check *.y               one line for each grammar; status 1 if one has conflicts";

const ONLY: &str = "Only conflicts before this token, or of a rule of this name or on this line";

const ALL: &str = "One entry for each state and token, not for each pair of rules";

const SETTLED: &str = "What precedence settles, and how, in place of the conflicts";

const NO_PRECEDENCE: &str = "Also the conflicts that precedence settles";

const TABLE: &str = "The kind of parser: as yacc and bison make it, or LR(1)";

const START: &str = "Begin with the rule NAME in place of the file's";

const EXPECT: &str = "Expect N shift/reduce and M reduce/reduce conflicts";

const COLOR: &str = "Whether the text has colours";

const QUIET: &str = "No text and no warnings: the status tells";

static FORMATS: [&str; 2] = ["text", "json"];

static TABLES: [&str; 2] = ["lalr", "lr1"];

static COLORS: [&str; 3] = ["auto", "always", "never"];

fn flag<'a>(alloc: Global, name: &'a str, help: &'a str) -> Arg<'a> {
    Arg::new(alloc, name)
        .long(name)
        .action(ArgAction::SetTrue)
        .global(true)
        .help(help)
}

fn value<'a>(alloc: Global, name: &'a str, value_name: &'a str, help: &'a str) -> Arg<'a> {
    Arg::new(alloc, name)
        .long(name)
        .value_name(value_name)
        .action(ArgAction::Set)
        .global(true)
        .help(help)
}

fn files<'a>(alloc: Global) -> Arg<'a> {
    Arg::new(alloc, "file")
        .value_name("FILE")
        .required(true)
        .action(ArgAction::Append)
        .num_args(1..)
        .help("The grammars; - is the standard input")
}

// How the conflicts are written.
fn with_format<'a>(alloc: Global, command: Command<'a>) -> Result<Command<'a>, AllocError> {
    let format = value(alloc, "format", "FORMAT", "How the conflicts are written")
        .short('f')
        .value_parser(FORMATS.as_slice())
        .default_value("text");
    command.arg(format)
}

// Which of the conflicts are told, and how much in one entry.
fn with_choices<'a>(alloc: Global, command: Command<'a>) -> Result<Command<'a>, AllocError> {
    let only = value(alloc, "only", "WHAT", ONLY);
    let all = flag(alloc, "all", ALL);
    let settled = flag(alloc, "settled", SETTLED);
    command.arg(only)?.arg(all)?.arg(settled)
}

// What the parser is.
fn with_parser<'a>(alloc: Global, command: Command<'a>) -> Result<Command<'a>, AllocError> {
    let no_precedence = flag(alloc, "no-precedence", NO_PRECEDENCE);
    let table = value(alloc, "table", "TABLE", TABLE)
        .value_parser(TABLES.as_slice())
        .default_value("lalr");
    let start = value(alloc, "start", "NAME", START);
    command.arg(no_precedence)?.arg(table)?.arg(start)
}

// What is expected of the file, and how that is said.
fn with_manners<'a>(alloc: Global, command: Command<'a>) -> Result<Command<'a>, AllocError> {
    let expect = value(alloc, "expect", "N[,M]", EXPECT);
    let color = value(alloc, "color", "WHEN", COLOR)
        .value_parser(COLORS.as_slice())
        .default_value("auto");
    let quiet = flag(alloc, "quiet", QUIET).short('q');
    command.arg(expect)?.arg(color)?.arg(quiet)
}

fn check_command<'a>(alloc: Global) -> Result<Command<'a>, AllocError> {
    Command::new(alloc, "check")
        .about(CHECK_ABOUT)
        .override_usage(CHECK_USAGE)
        .arg(files(alloc))
}

fn bare_command<'a>(alloc: Global, version: &'a str) -> Command<'a> {
    Command::new(alloc, "lihvemur")
        .about(ABOUT)
        .version(version)
        .override_usage(USAGES)
        .after_help(AFTER)
        .disable_help_subcommand(true)
        .subcommand_negates_reqs(true)
}

fn command<'a>(alloc: Global, version: &'a str) -> Result<Command<'a>, AllocError> {
    let command = bare_command(alloc, version).arg(files(alloc))?;
    let command = with_format(alloc, command)?;
    let command = with_choices(alloc, command)?;
    let command = with_parser(alloc, command)?;
    let command = with_manners(alloc, command)?;
    command.subcommand(check_command(alloc)?)
}

// `N` or `N,M`.
fn expectation_in(text: &str) -> Option<Expectation> {
    match text.split_once(',') {
        Some((shifts, reductions)) => Some(Expectation {
            shift_reduce: shifts.parse::<usize>().ok()?,
            reduce_reduce: Some(reductions.parse::<usize>().ok()?),
        }),
        None => Some(Expectation {
            shift_reduce: text.parse::<usize>().ok()?,
            reduce_reduce: None,
        }),
    }
}

// A number is a line, and all else a name.
fn only_in(alloc: Global, text: &str) -> Result<Only, AllocError> {
    match text.parse::<usize>() {
        Ok(line) => Ok(Only::Line(line)),
        Err(_) => Ok(Only::Name(String::from_str(alloc, text)?)),
    }
}

fn text_of(alloc: Global, text: Option<&str>) -> Result<Option<String>, AllocError> {
    match text {
        Some(text) => Ok(Some(String::from_str(alloc, text)?)),
        None => Ok(None),
    }
}

// What the words of the command line ask for, but for colours and how many conflicts are expected.
fn options_of(alloc: Global, mode: Mode, matches: &ArgMatches<'_>) -> Result<Options, AllocError> {
    let mut options = Options::new(alloc);
    options.mode = mode;
    if let Some(files) = matches.get_strs("file") {
        for file in files {
            options.files.push(String::from_str(alloc, file)?)?;
        }
    }
    if matches.get_str("format") == Some("json") {
        options.format = Format::Json;
    }
    if matches.get_str("table") == Some("lr1") {
        options.table = Table::Lr1;
    }
    if matches.get_flag("all") {
        options.detail = Detail::ByState;
    }
    if let Some(only) = matches.get_str("only") {
        options.only = Some(only_in(alloc, only)?);
    }
    options.start = text_of(alloc, matches.get_str("start"))?;
    options.shows_settled = matches.get_flag("settled");
    options.uses_precedence = !matches.get_flag("no-precedence");
    options.is_quiet = matches.get_flag("quiet");
    Ok(options)
}

// Whether colours go to a place that is a terminal or none.
fn is_colored(choice: Option<&str>, is_terminal: bool, has_no_color: bool) -> bool {
    match choice {
        Some("always") => true,
        Some("never") => false,
        _ => is_terminal && !has_no_color,
    }
}

fn perform(
    rt: &HostRuntime,
    mode: Mode,
    matches: &ArgMatches<'_>,
    version: &str,
) -> anyhow::Result<ExitCode> {
    let alloc = rt.alloc();
    let mut options = options_of(alloc, mode, matches)?;
    if let Some(text) = matches.get_str("expect") {
        let Some(expected) = expectation_in(text) else {
            let message = format!(in alloc;
                "invalid value '{text}' for '--expect <N[,M]>': one number or two, as 3 or 3,1"
            )?;
            let mut command = command(alloc, version)?;
            let error = command.error(ErrorKind::ValueValidation, message.as_str())?;
            error.print(rt)?;
            return Ok(ExitCode::from(USAGE));
        };
        options.expected = Some(expected);
    }
    let has_no_color = match env::var(rt, "NO_COLOR") {
        Ok(value) => !value.is_empty(),
        Err(_) => false,
    };
    let choice = matches.get_str("color");
    options.is_colored = is_colored(choice, rt.stdout().is_terminal(), has_no_color);
    options.has_colored_errors = is_colored(choice, rt.stderr().is_terminal(), has_no_color);
    Ok(run(rt, &options))
}

fn start(rt: &HostRuntime) -> anyhow::Result<ExitCode> {
    let alloc = rt.alloc();
    let words: Vec<String> = env::args(rt)?.collect(alloc)?;
    let version = format!(in alloc; "{VERSION}\nproved with {KIT}")?;
    let command = command(alloc, version.as_str())?;
    match command.try_get_matches_from(words.as_slice()) {
        Ok(matches) => match matches.subcommand() {
            Some((_, found)) => perform(rt, Mode::Check, found, version.as_str()),
            None => perform(rt, Mode::Explain, &matches, version.as_str()),
        },
        Err(error) => {
            error.print(rt)?;
            let code = if error.use_stderr() {
                ExitCode::from(USAGE)
            } else {
                ExitCode::SUCCESS
            };
            Ok(code)
        }
    }
}

fn main(rt: HostRuntime) -> ExitCode {
    match start(&rt) {
        Ok(code) => code,
        Err(error) => {
            let _ = eprintln!(rt; "lihvemur: {error}");
            ExitCode::from(USAGE)
        }
    }
}
