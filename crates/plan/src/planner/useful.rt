// Useful runs: the run of a waiting change, and the useful run that a stored one is.
ghost use Rattle.std.specs.Prelude.{◌≡◌, ◌<◌, ◌≤◌, min, length, slice_index};
ghost use Rattle.change.specs.Change.{line};
ghost use Rattle.change.specs.Listed.{changes_of};
ghost use Rattle.run.specs.Layout.{depth_at, waiting_count};
ghost use Rattle.run.specs.Limits.{most_following};
ghost use Rattle.run.specs.Numbers.{landed_in};
ghost use Rattle.run.specs.Records.{run_of};
ghost use Rattle.plan.specs.Numbers.{Found, first_waiting, run_behind};

use super::Planner;
use change::Changes;
use run::{DEPTH_AT, LANDED_AT, LANDED_COUNT, Run, WAITING_AT, WAITING_COUNT};

impl<'a> Planner<'a> {
    // The changes that have landed.
    fn landed(self) -> Changes<'a>
        ensures { changes_of result ≡ landed_in self.entry.queue.now }
    {
        Changes::at(self.queue, LANDED_AT, self.queue[LANDED_COUNT] as usize)
    }

    // The changes that wait and are looked at.
    pub fn looked_at(self) -> Changes<'a>
        ensures { changes_of result ≡ first_waiting (min (slice_index self.entry.queue.now depth_at) (slice_index self.entry.queue.now waiting_count)) self.entry.queue.now }
    {
        let n = self.queue[DEPTH_AT].min(self.queue[WAITING_COUNT]);
        Changes::at(self.queue, WAITING_AT, n as usize)
    }

    // The useful run that the stored one is, if it is one: only a change with its last number can have it.
    pub fn find_useful(self, stored: &Run) -> Option<Run>
        requires { stored.now.begins ≤ length (line stored.now.part (landed_in self.queue.now)) }
        ensures { Found self.entry.queue.now (run_of (landed_in self.entry.queue.now) stored.now) result }
    {
        let Some(last) = stored.following().last() else {
            return None;
        };
        for (i, c) in self.looked_at().enumerate() {
            if c.number == *last && c.touches(stored.part) {
                let u = self.useful_run(i, stored.part, *last);
                if stored.is_same(&u, self.landed()) {
                    return Some(u);
                }
            }
        }
        None
    }

    // The run of the part with all that has landed, the first n that wait, and then the change of this number.
    #[inline(always)]
    pub fn useful_run(self, n: usize, part: u64, number: u64) -> Run
        requires { n < most_following }
        ensures part { result.part ≡ part }
        ensures begins { result.begins ≡ length (line part (landed_in self.entry.queue.now)) }
        ensures value { run_of (landed_in self.entry.queue.now) result ≡ run_behind self.entry.queue.now n number part }
    {
        let mut run = Run::of_landed(part, self.landed().count_of(self.tally, part));
        for c in Changes::at(self.queue, WAITING_AT, n) {
            if c.touches(part) {
                run.push(c.number);
            }
        }
        run.push(number);
        run
    }
}
