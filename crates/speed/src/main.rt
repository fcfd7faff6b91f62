// Measures what an event costs on an empty and on a full queue, in sweeps of the queue's numbers.
#![tactic(auto)]

mod queues;

use queues::*;
use run::{LANDED_COUNT, QUEUE_LENGTH, RUNNING_COUNT, VERDICTS_COUNT, WAITING_COUNT};
use std::time::{Duration, Instant};
use std::{env, io};

const HELP: &str = "Usage: speed --run

Measures events on an empty queue and on a full one (4,000 landed over 9 parts, 60 waiting of 8 parts,
16 benches, depth 16), and prints each in microseconds and in sweeps: the time in which all 54,712
numbers of a queue are added up, measured in the same run.";

const TURNS: usize = 1000;

fn main(rt: HostRuntime) -> io::Result<()> {
    let mut args = env::args(&rt)?.skip(1);
    if args.next().is_some_and(|arg| arg.as_str() == "--run") {
        measure(&rt)
    } else {
        rt.println(HELP)
    }
}

// Where what is measured is printed, and what it is measured in: the nanoseconds of all the sweeps together.
#[derive(Clone, Copy)]
struct Scale<'a> {
    rt: &'a HostRuntime,
    sweeps: u64,
}

fn measure(rt: &HostRuntime) -> io::Result<()> {
    let mut queue = vec![in rt.alloc(); 0; QUEUE_LENGTH]?;
    let mut saved = vec![in rt.alloc(); 0; QUEUE_LENGTH]?;
    fill(&mut queue);
    let (total, sweeps) = timed(rt, || sweeps(&queue, TURNS))?;
    println!(rt;
        "a sweep: {} us (sum {total})",
        sweeps / 1000 / TURNS as u64
    )?;
    let scale = Scale { rt, sweeps };
    empty(&mut saved);
    scale.pairs("empty queue", &mut saved)?;
    println!(rt;
        "the full queue: {} landed, {} waiting, {} verdicts, {} running",
        queue[LANDED_COUNT], queue[WAITING_COUNT], queue[VERDICTS_COUNT], queue[RUNNING_COUNT]
    )?;
    scale.pairs("full queue", &mut queue)?;
    scale.reports(&mut queue, &mut saved)
}

// What the function gives, and how many nanoseconds it takes.
fn timed<T: Drop, F: FnOnce() -> T>(rt: &HostRuntime, f: F) -> io::Result<(T, u64)>
    requires { F.IsAlwaysCallable f }
{
    let start = Instant::now(rt)?;
    let done = f();
    Ok((done, nanos(start.elapsed(rt)?)))
}

impl Scale<'_> {
    // Submissions and withdrawals in turn, so that the queue stays as it is.
    fn pairs(self, name: &str, queue: &mut [u64]) -> io::Result<()> {
        let (taken, spent) = timed(self.rt, || pairs(queue, TURNS))?;
        self.line(name, "submit or withdraw", taken, spent)
    }

    // Reports, each on the queue as it was; what copying it back costs is taken off.
    fn reports(self, queue: &mut [u64], saved: &mut [u64]) -> io::Result<()> {
        keep(saved, queue);
        let ((), copying) = timed(self.rt, || copies(queue, saved, TURNS))?;
        for (name, place) in [("report on the first", 0), ("report on the last", 7)] {
            let (taken, spent) = timed(self.rt, || reports(queue, saved, TURNS, place))?;
            self.line("full queue", name, taken, spent.saturating_sub(copying))?;
        }
        Ok(())
    }

    fn line(self, name: &str, what: &str, taken: u64, spent: u64) -> io::Result<()> {
        let each = spent / taken.max(1);
        let tenths = each.saturating_mul(10 * TURNS as u64) / self.sweeps.max(1);
        println!(self.rt;
            "{name}, {what}: {taken} taken, {} us each, {}.{} sweeps",
            each / 1000,
            tenths / 10,
            tenths % 10
        )
    }
}

// `as_nanos` counts in 128 bits; a span that does not fit in 64 is never measured.
fn nanos(d: Duration) -> u64 {
    u64::try_from(d.as_nanos()).unwrap_or(u64::MAX)
}
