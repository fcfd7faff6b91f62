// Plays random days through the merge queue and through serial testing, side by side.
#![tactic(auto)]

mod bench;
mod compare;
mod playing;
mod problem;
mod random;
mod shape;
mod state;
mod tally;

use compare::Difference;
use playing::play;
use problem::Problem;
use random::Random;
use run::QUEUE_LENGTH;
use std::env;
use std::process::ExitCode;
use tally::Tally;

const HELP: &str = "Usage: trial [SEED [DAYS]]

Plays random days through the merge queue and through serial testing, and compares the line of
every part, the rejected changes and the runs that are running. The same SEED plays the same days.

Prints how many days and events were played and `all agree`, or what first differs and the day
until then as a day file in hexadecimal digits, and ends with status 1. To play such a day again:
xxd -r -p | replay --long

Example: trial 7 1000";

const SEED: u64 = 1;

const DAYS: u64 = 2000;

// It answers a status: the runtime would print an error in another form.
fn main(rt: HostRuntime) -> ExitCode {
    match run(&rt) {
        Ok(status) => status,
        Err(problem) => {
            let _ = eprintln!(rt; "trial: {problem}");
            ExitCode::FAILURE
        }
    }
}

fn run(rt: &HostRuntime) -> Result<ExitCode, Problem> {
    let mut args = env::args(rt).map_err(|_| Problem::Arguments)?.skip(1);
    let first = args.next();
    if first.as_ref().is_some_and(|arg| arg.as_str() == "--help") {
        let _ = rt.println(HELP);
        return Ok(ExitCode::SUCCESS);
    }
    let seed = number_or(first, SEED)?;
    let days = number_or(args.next(), DAYS)?;
    if args.next().is_some() {
        return Err(Problem::ManyArguments);
    }
    play_days(rt, seed, days)
}

fn number_or(arg: Option<String>, default: u64) -> Result<u64, Problem> {
    let Some(text) = arg else {
        return Ok(default);
    };
    text.as_str()
        .parse::<u64>()
        .map_err(|_| Problem::NoNumber(text))
}

fn play_days(rt: &HostRuntime, seed: u64, days: u64) -> Result<ExitCode, Problem> {
    let mut queue = vec![in rt.alloc(); 0; QUEUE_LENGTH].map_err(|_| Problem::NoQueue)?;
    let mut random = Random::new(seed);
    let mut tally = Tally::default();
    for number in 0..days {
        let day = play(rt.alloc(), &mut queue, random.draw()).map_err(|_| Problem::NoDay)?;
        if let Some(difference) = day.difference {
            show(rt, number, difference, day.file.as_slice());
            return Ok(ExitCode::FAILURE);
        }
        tally.add(day.counts);
    }
    let _ = println!(rt; "{tally}");
    let _ = println!(rt; "all agree");
    Ok(ExitCode::SUCCESS)
}

// The day that differs, so that it can be played again by replay.
fn show(rt: &HostRuntime, number: u64, difference: Difference, file: &[u8]) {
    let _ = println!(rt; "day {number}: {difference}");
    for byte in file {
        let _ = print!(rt; "{byte:02x}");
    }
    let _ = println!(rt; "");
}
