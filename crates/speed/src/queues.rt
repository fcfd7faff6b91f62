// The queues that are measured, and the events on them.
use change::Change;
use queue::Reply;
use run::*;

// An empty queue of the largest config.
pub fn empty(queue: &mut [u64]) {
    let _ = queue::open(queue, MOST_BENCHES, MOST_DEPTH);
}

// 4,000 landed over 9 parts, 60 waiting of 8 parts, and as many verdicts as the depth allows.
pub fn fill(queue: &mut [u64]) {
    empty(queue);
    for i in 0..4000u64 {
        let mut parts = [0u64; 8];
        parts[0] = i % 9;
        let _ = queue::submit(
            queue,
            Change {
                number: i,
                count: 1,
                parts,
            },
        );
        let _ = queue::report(queue, 0, true);
    }
    for i in 4000..4060u64 {
        let _ = queue::submit(queue, broad(i));
    }
    for _ in 0..112 {
        let _ = queue::report(queue, 8, true);
    }
}

// A change of eight parts.
fn broad(number: u64) -> Change {
    Change {
        number,
        count: 8,
        parts: [0, 1, 2, 3, 4, 5, 6, 7],
    }
}

// All its numbers added up, so many times. This and the next three have each a loop of their own, and not one that
// is handed a closure: one hands its sum on, one counts nothing, and two lines each are no longer than a call.
pub fn sweeps(queue: &[u64], turns: usize) -> u64 {
    let mut total = 0u64;
    for turn in 0..turns {
        total = sweep(queue, total ^ turn as u64);
    }
    total
}

fn sweep(queue: &[u64], from: u64) -> u64 {
    let mut total = from;
    for x in queue {
        total = total.wrapping_add(*x);
    }
    total
}

// A change is submitted and withdrawn again; how many of these events were taken.
pub fn pairs(queue: &mut [u64], turns: usize) -> u64 {
    let mut taken = 0u64;
    for _ in 0..turns {
        taken = taken.saturating_add(done(queue::submit(queue, broad(5000))));
        taken = taken.saturating_add(done(queue::withdraw(queue, 5000)));
    }
    taken
}

// The queue is as it was saved, and then a report on the run at this place; how many were taken.
pub fn reports(queue: &mut [u64], saved: &[u64], turns: usize, place: u64) -> u64 {
    let mut taken = 0u64;
    for _ in 0..turns {
        keep(queue, saved);
        taken = taken.saturating_add(done(queue::report(queue, place, true)));
    }
    taken
}

pub fn copies(queue: &mut [u64], saved: &[u64], turns: usize) {
    for _ in 0..turns {
        keep(queue, saved);
    }
}

pub fn keep(into: &mut [u64], from: &[u64]) {
    if into.len() == from.len() {
        into.copy_from_slice(from);
    }
}

fn done(reply: Reply) -> u64 {
    u64::from(reply.is_ok())
}
