// Holds the queue's state against serial testing, and against what it promises of the runs that are running.
ghost use Rattle.std.specs.Prelude.{◌≡◌, ◌<◌, length};
ghost use Rattle.std.specs.Iterator.{IsFinite};
ghost use Rattle.change.specs.Change.{line};
ghost use Rattle.run.specs.Limits.{most_following};
ghost use Rattle.trial.specs.Held.{landed_held};

use super::bench::HashBench;
use super::state::State;
use change::{Change, Changes, PART_LIMIT, Record};
use run::{
    BENCHES_AT, Known, LANDED_COUNT, MOST_LANDED, MOST_VERDICTS, RUN_WIDTH, Run, VERDICTS_COUNT,
    WAITING_AT, WAITING_COUNT,
};
use serial::{decide_serially, line_of};
use std::alloc::{AllocError, Global};
use std::fmt;

#[derive(Clone, Copy, PartialEq, Eq)]
pub enum Difference {
    // A change waits, and no run is running.
    Idle,
    // More runs are running than there are benches.
    Crowded,
    // A run is running twice.
    Twice,
    // A run is running that is not useful.
    Useless,
    // A bench is free, and a useful run is neither running nor known.
    Unbooked,
    // The part's line is not that of serial testing.
    Line(u64),
    // Others are rejected than by serial testing.
    Rejected,
    // All runs were reported, and a change still waits.
    Undecided,
}

impl fmt::Display for Difference {
    fn fmt<W: fmt::Write>(&self, f: &mut fmt::Formatter<W>) -> fmt::Result {
        match self {
            Difference::Idle => write!(f, "a change waits and no run is running"),
            Difference::Crowded => write!(f, "more runs are running than there are benches"),
            Difference::Twice => write!(f, "a run is running twice"),
            Difference::Useless => write!(f, "a run is running that is not useful"),
            Difference::Unbooked => write!(
                f,
                "a bench is free and a useful run is neither running nor known"
            ),
            Difference::Line(part) => write!(
                f,
                "the line of part {part} is not that of serial testing"
            ),
            Difference::Rejected => write!(f, "others are rejected than by serial testing"),
            Difference::Undecided => write!(f, "every run was reported and a change still waits"),
        }
    }
}

// Never idle, only useful runs, and fully booked.
pub fn check_running(state: State) -> Option<Difference> {
    let running = state.running();
    if running.is_empty() && state.queue[WAITING_COUNT] > 0 {
        return Some(Difference::Idle);
    }
    let benches = state.queue[BENCHES_AT];
    if running.len() as u64 > benches {
        return Some(Difference::Crowded);
    }
    for (place, row) in running.iter().enumerate() {
        // All begin with their part's whole line, so equal runs have equal numbers.
        if running[..place].contains(row) {
            return Some(Difference::Twice);
        }
        if !is_useful(state, run::read_run(row)) {
            return Some(Difference::Useless);
        }
    }
    if (running.len() as u64) < benches && !all_booked(state) {
        return Some(Difference::Unbooked);
    }
    None
}

// Whether every useful run is running or known.
fn all_booked(state: State) -> bool {
    for (i, c) in state.looked_at().enumerate() {
        for part in c.touched() {
            if !is_booked(state, useful_run(state, i, *part, c.number)) {
                return false;
            }
        }
    }
    true
}

// The run of the part with all that has landed, the first n that wait, and then the change of this number.
// Put together here anew, and not by the queue's own function for it: a check must not use what it checks.
fn useful_run(state: State, n: usize, part: u64, number: u64) -> Run
    requires { n < most_following }
    ensures { result.begins ≡ length (line result.part (landed_held state.entry.queue.now)) }
{
    let mut run = Run::of_landed(part, state.landed().count_touching(part));
    for c in Changes::at(state.queue, WAITING_AT, n) {
        if c.touches(part) {
            run.push(c.number);
        }
    }
    run.push(number);
    run
}

// Whether the run, which begins with its part's whole line, is running or known.
fn is_booked(state: State, run: Run) -> bool
    requires { run.begins ≡ length (line run.part (landed_held state.queue.now)) }
{
    let mut row = [0u64; RUN_WIDTH];
    run.write(&mut row);
    if state.running().contains(&row) {
        return true;
    }
    let landed = state.count(LANDED_COUNT, MOST_LANDED);
    let verdicts = state.count(VERDICTS_COUNT, MOST_VERDICTS);
    run.known(state.queue, landed, verdicts) != Known::Nothing
}

// Whether the run is its part's whole landed line, and then the first of those that wait and touch the part,
// the last of them among the changes looked at.
fn is_useful(state: State, run: Run) -> bool {
    run.begins == state.landed().count_touching(run.part) && follows_waiting(state, run)
}

// Whether the changes that follow in the run are the first of those looked at that touch its part.
fn follows_waiting(state: State, run: Run) -> bool {
    let follows = run.following();
    let touching = state
        .looked_at()
        .filter(|c| c.touches(run.part))
        .map(|c| c.number);
    !follows.is_empty() && touching.take(follows.len()).eq(follows.iter().copied())
}

// The lines on every part and the rejected changes, against serial testing of the arrivals that do not wait.
pub fn check_decided(
    heap: Global,
    state: State,
    bench: &HashBench,
    arrivals: &[Change],
) -> Result<Option<Difference>, AllocError> {
    let taken = without(heap, arrivals, state.waiting())?;
    let serial = decide_serially(heap, bench, taken.as_slice())?;
    let landed: Vec<Change> = state.landed().collect(heap)?;
    for part in 0..PART_LIMIT {
        let line = line_of(heap, landed.as_slice(), part)?;
        let expected = line_of(heap, serial.landed.as_slice(), part)?;
        if line.as_slice() != expected.as_slice() {
            return Ok(Some(Difference::Line(part)));
        }
    }
    // The queue may reject a later change first.
    let rejected = sorted(heap, state.rejected().map(|c| c.number))?;
    let expected = sorted(heap, serial.rejected.iter().map(|c| c.number))?;
    Ok(if rejected.as_slice() == expected.as_slice() {
        None
    } else {
        Some(Difference::Rejected)
    })
}

// The changes that are not among the others.
fn without(heap: Global, changes: &[Change], others: Changes) -> Result<Vec<Change>, AllocError> {
    changes
        .iter()
        .filter(|c| !others.number_used(c.number))
        .copied()
        .collect(heap)
}

fn sorted<I: Iterator<Item = u64>>(heap: Global, numbers: I) -> Result<Vec<u64>, AllocError>
    requires can { I.can_next numbers }
    requires ends { IsFinite (I.remaining numbers) }
{
    let mut numbers: Vec<u64> = numbers.collect(heap)?;
    numbers.sort()?;
    Ok(numbers)
}
