// Checks that every state that a part had in a main line was run, and was good.
#![tactic(auto)]

use audits::{Unread, UnreadLine};
use std::alloc::AllocError;
use std::process::ExitCode;
use std::{env, fmt, fs, io};

const HELP: &str = "Usage: audit RESULTS MAINLINE

Checks a main line against a log of results: accepts it if every state that each part had in it
was reported good, and none of them bad.

RESULTS has a line for each result: a part, a colon, the changes in it parted by a plus, a blank,
and good or bad. MAINLINE has a line for each landed change, in order: its number, then the parts
that it touches, each behind a blank. Numbers have no zeros in front.

Prints `every state was run and good`, or the first state that was never run or was bad.
Ends with status 0 if it accepts, else with status 1.

Example: audit tests/audit/worked.results tests/audit/worked.mainline";

// Why nothing was audited.
#[derive(Drop)]
enum Problem {
    Arguments,
    NoResults,
    NoMainLine,
    MoreArguments,
    File {
        path: String,
        error: io::Error,
    },
    Text {
        text: &'static str,
        unread: UnreadLine,
    },
    Memory,
}

impl fmt::Display for Problem {
    fn fmt<W: fmt::Write>(&self, f: &mut fmt::Formatter<W>) -> fmt::Result {
        match self {
            Problem::Arguments => f.write_str("cannot read the arguments"),
            Problem::NoResults => f.write_str("expected RESULTS and MAINLINE; see --help"),
            Problem::NoMainLine => f.write_str("expected MAINLINE behind RESULTS; see --help"),
            Problem::MoreArguments => f.write_str("more than two arguments; see --help"),
            Problem::File { path, error } => write!(f, "cannot read {path}: {error}"),
            Problem::Text { text, unread } => match unread.why {
                Unread::Memory => write!(f, "no memory for the {text}"),
                Unread::Line(malformed) => {
                    // Lines are counted from 1.
                    let number = unread.line.saturating_add(1);
                    write!(f, "{text} line {number}: {malformed}")
                }
            },
            Problem::Memory => f.write_str("no memory for the audit"),
        }
    }
}

impl From<AllocError> for Problem {
    fn from(_e: AllocError) -> Problem {
        Problem::Memory
    }
}

// It answers a status: the runtime would print an error in another form.
fn main(rt: HostRuntime) -> ExitCode {
    match run(&rt) {
        Ok(code) => code,
        Err(problem) => {
            let _ = eprintln!(rt; "audit: {problem}");
            ExitCode::FAILURE
        }
    }
}

fn run(rt: &HostRuntime) -> Result<ExitCode, Problem> {
    let mut args = env::args(rt).map_err(|_e| Problem::Arguments)?.skip(1);
    let results = args.next().ok_or(Problem::NoResults)?;
    if results.as_str() == "--help" {
        let _ = rt.println(HELP);
        return Ok(ExitCode::SUCCESS);
    }
    let main_line = args.next().ok_or(Problem::NoMainLine)?;
    if args.next().is_some() {
        return Err(Problem::MoreArguments);
    }
    audit_files(rt, results, main_line)
}

// Audits, and prints what was found. The texts are read alike, but not by one function that is handed the reading:
// another crate's function cannot be handed on by name, and a closure for each is longer.
fn audit_files(rt: &HostRuntime, results: String, main_line: String) -> Result<ExitCode, Problem> {
    let text = read_text(rt, results)?;
    let verdicts = audits::read_log(rt.alloc(), text.as_str()).map_err(|unread| Problem::Text {
        text: "results",
        unread,
    })?;
    let text = read_text(rt, main_line)?;
    let main = audits::read_main_line(rt.alloc(), text.as_str()).map_err(|unread| Problem::Text {
        text: "mainline",
        unread,
    })?;
    if let Some(fault) = audits::audit(rt.alloc(), verdicts.as_slice(), main.as_slice())? {
        let _ = println!(rt; "{fault}");
        return Ok(ExitCode::FAILURE);
    }
    let count = audits::count_states(main.as_slice());
    let _ = println!(rt; "every state was run and good: {count} states");
    Ok(ExitCode::SUCCESS)
}

fn read_text(rt: &HostRuntime, path: String) -> Result<String, Problem> {
    fs::read_to_string(rt, path.as_str()).map_err(|error| Problem::File { path, error })
}
