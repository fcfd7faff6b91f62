// What a lent queue says: its changes, and the runs that are running.
ghost use Rattle.std.specs.Prelude.{◌≡◌, ◌+◌, ◌*◌, ◌<◌, ◌≤◌, min, map, length, IfOk, slice_index};
ghost use Rattle.change.specs.Listed.{changes_of as listed};
ghost use Rattle.change.specs.Records.{change_of, change_width};
ghost use Rattle.run.specs.Layout.{most_depth, most_running, queue_length, running_count};
ghost use Rattle.run.specs.Records.{run_of};
ghost use Rattle.trial.specs.Held.{held, landed_held, looked_at_held, rejected_held, waiting_held};

use change::{Change, Changes};
use run::{
    DEPTH_AT, LANDED_AT, LANDED_COUNT, MOST_DEPTH, MOST_LANDED, MOST_REJECTED, MOST_RUNNING,
    MOST_WAITING, QUEUE_LENGTH, REJECTED_AT, REJECTED_COUNT, RUN_WIDTH, RUNNING_AT, RUNNING_COUNT,
    Run, WAITING_AT, WAITING_COUNT,
};
use serial::line_of;
use std::alloc::{AllocError, Global};

// A queue of full length that is lent to be read.
#[derive(Clone, Copy)]
pub struct State<'a> {
    pub queue: &'a [u64],
    ghost long: { queue_length ≤ length queue.now },
}

impl<'a> State<'a> {
    // The count at this index, and at most so many.
    pub fn count(self, at: usize, most: usize) -> usize
        requires { at < queue_length }
        ensures { result ≡ min (slice_index self.entry.queue.now at) most }
    {
        self.queue[at].min(most as u64) as usize
    }

    // The changes of the section that begins at `at`: as many as its count says, and at most so many.
    fn section(self, count: usize, at: usize, most: usize) -> Changes<'a>
        requires counted { count < queue_length }
        requires within { at + change_width * most ≤ queue_length }
        ensures { listed result ≡ held count at most self.entry.queue.now }
    {
        Changes::at(self.queue, at, self.count(count, most))
    }

    pub fn landed(self) -> Changes<'a>
        ensures { listed result ≡ landed_held self.entry.queue.now }
    {
        self.section(LANDED_COUNT, LANDED_AT, MOST_LANDED)
    }

    pub fn waiting(self) -> Changes<'a>
        ensures { listed result ≡ waiting_held self.entry.queue.now }
    {
        self.section(WAITING_COUNT, WAITING_AT, MOST_WAITING)
    }

    // Those that wait and are looked at.
    pub fn looked_at(self) -> Changes<'a>
        ensures few { length (listed result) ≤ most_depth }
        ensures value { listed result ≡ looked_at_held self.entry.queue.now }
    {
        let depth = self.queue[DEPTH_AT];
        let n = self.queue[WAITING_COUNT].min(depth).min(MOST_DEPTH);
        Changes::at(self.queue, WAITING_AT, n as usize)
    }

    pub fn rejected(self) -> Changes<'a>
        ensures { listed result ≡ rejected_held self.entry.queue.now }
    {
        self.section(REJECTED_COUNT, REJECTED_AT, MOST_REJECTED)
    }

    // The numbers of the runs that are running.
    pub fn running(self) -> &'a [[u64; RUN_WIDTH]]
        ensures { length result.now ≡ min (slice_index self.entry.queue.now running_count) most_running }
    {
        let (rows, _) = self.queue[RUNNING_AT..QUEUE_LENGTH].as_chunks();
        &rows[..self.count(RUNNING_COUNT, MOST_RUNNING)]
    }
}

// The changes of a run, written out: those that landed in its part, and those that follow.
pub fn changes_of(heap: Global, landed: &[Change], r: Run) -> Result<Vec<u64>, AllocError>
    ensures { IfOk result (λ ns. ns.items ≡ (run_of (map change_of landed.now) r).changes) }
{
    let mut numbers = line_of(heap, landed, r.part)?;
    numbers.truncate(r.begins as usize);
    numbers.extend_from_slice(r.following())?;
    Ok(numbers)
}
