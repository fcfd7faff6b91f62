// Plays a day from a file or from standard input, and prints a line for each of its events.
#![tactic(auto)]

mod printer;
mod problem;

use day::{NotPlayed, UNLIMITED_CHANGES, USUAL_CHANGES};
use printer::Printer;
use problem::Problem;
use std::io::Read;
use std::process::ExitCode;
use std::{env, fmt, fs};

const HELP: &str = "Usage: replay [--long] [FILE]

Plays the day in FILE, or on standard input if there is none, on an empty merge queue.
Prints a line for each event: the state after it, or why it was refused.

The day is bytes: benches, depth, and then events. 0, number (four bytes, low byte first), count,
and so many parts submit a change; 1, number withdraws it; 2, place, value report a run, 1 for good.

A day holds at most 64 changes that landed, wait or were rejected; one more is refused. With --long
it holds as many as the queue does: 4096 landed, 64 waiting and 1024 rejected.

Example: replay tests/days/worked.day";

// The option that lifts a day's limit.
const LONG: &str = "--long";

// It answers a status: the runtime would print an error in another form.
fn main(rt: HostRuntime) -> ExitCode {
    match run(&rt) {
        Ok(()) => ExitCode::SUCCESS,
        Err(problem) => {
            let _ = eprintln!(rt; "replay: {problem}");
            ExitCode::FAILURE
        }
    }
}

fn run(rt: &HostRuntime) -> Result<(), Problem> {
    let mut args = env::args(rt).map_err(|_| Problem::Arguments)?.skip(1);
    let Some(first) = args.next() else {
        return play_input(rt, USUAL_CHANGES);
    };
    let second = args.next();
    let more = args.next().is_some();
    let long = first.as_str() == LONG;
    if more || !long && second.is_some() {
        return Err(Problem::ManyFiles);
    }
    if !long {
        return play_file(rt, USUAL_CHANGES, first);
    }
    match second {
        Some(file) => play_file(rt, UNLIMITED_CHANGES, file),
        None => play_input(rt, UNLIMITED_CHANGES),
    }
}

fn play_input(rt: &HostRuntime, most: u64) -> Result<(), Problem> {
    let mut bytes = Vec::new(rt.alloc());
    rt.stdin()
        .read_to_end(&mut bytes)
        .map_err(Problem::InputUnread)?;
    play(rt, most, &bytes)
}

fn play_file(rt: &HostRuntime, most: u64, file: String) -> Result<(), Problem> {
    if file.as_str() == "--help" {
        let _ = rt.println(HELP);
        return Ok(());
    }
    if file.as_str().starts_with("-") {
        return Err(Problem::UnknownOption(file));
    }
    let bytes = fs::read(rt, file.as_str()).map_err(|e| Problem::FileUnread(file, e))?;
    play(rt, most, &bytes)
}

// What was printed before a problem stays printed.
fn play(rt: &HostRuntime, most: u64, bytes: &[u8]) -> Result<(), Problem> {
    let printer = Printer::new(rt).map_err(|_| Problem::NoBuffer)?;
    let mut f = fmt::Formatter::new(printer);
    let played = day::play(&mut f, rt.alloc(), most, bytes);
    f.into_inner().finish().map_err(Problem::Unwritten)?;
    match played {
        Err(NotPlayed::Memory) => Err(Problem::NoMemory),
        // What the formatter could not write, the printer has kept the error of.
        Ok(()) | Err(NotPlayed::Output) => Ok(()),
    }
}
