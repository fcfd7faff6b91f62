// What a run by value can be asked, and the run of a change on top of what has landed.
ghost use Rattle.std.specs.Prelude.{◌≡◌, ◌+◌, ◌-◌, ◌<◌, ◌≤◌, min, List, [], ◌∷◌, ◌++◌, length, take, drop};
ghost use Rattle.change.specs.Change.{line};
ghost use Rattle.change.specs.Change as spec;
ghost use Rattle.change.specs.Listed.{changes_of};
ghost use Rattle.change.specs.Records.{changes_in, fixed};
ghost use Rattle.run.specs.Layout.{landed_at, most_landed, most_verdicts, queue_length, verdicts_at};
ghost use Rattle.run.specs.Limits.{most_following};
ghost use Rattle.run.specs.Records.{run_of, verdicts_in};
ghost use Rattle.run.specs.Run.{heard, run_on, same_list, same_run};

use super::known::Known;
use super::layout::{LANDED_AT, VERDICTS_AT};
use super::records::{VERDICT_WIDTH, read_run, says_good};
use super::run::{MOST_FOLLOWING, Run};
use change::{Changes, padded, records_at};

// The run of the part with all its landed changes, of which there are `begins`, and then the change of this number.
pub fn run_on_top(part: u64, begins: u64, number: u64) -> Run
    ensures part { result.part ≡ part }
    ensures begins { result.begins ≡ begins }
    ensures value { (landed : List spec.Change) → begins ≡ length (line part landed) → run_of landed result ≡ run_on landed number part }
{
    let mut run = Run::of_landed(part, begins);
    run.push(number);
    run
}

impl Run {
    // The run of the part with so many of its landed changes, and no more.
    pub fn of_landed(part: u64, begins: u64) -> Run
        ensures part { result.part ≡ part }
        ensures begins { result.begins ≡ begins }
        ensures follows { result.follows ≡ 0 }
    {
        Run {
            part,
            begins,
            follows: 0,
            numbers: [0; MOST_FOLLOWING],
        }
    }

    // One change more follows.
    pub fn push(&mut self, number: u64)
        requires { self.old.follows < most_following }
        ensures part { self.new.part ≡ self.old.part }
        ensures begins { self.new.begins ≡ self.old.begins }
        ensures follows { self.new.follows ≡ self.old.follows + 1 }
        ensures numbers { take self.new.follows self.new.numbers ≡ take self.old.follows self.old.numbers ++ number ∷ [] }
    {
        self.numbers[self.follows as usize] = number;
        self.follows += 1;
    }

    // The changes that follow the landed ones.
    pub fn following(&self) -> &[u64]
        ensures { result.now ≡ take self.now.follows self.now.numbers }
    {
        &self.numbers[..self.follows as usize]
    }

    // Its numbers, 0 in what is not used.
    pub fn padded_numbers(self) -> [u64; MOST_FOLLOWING]
        ensures { result ≡ fixed most_following (take self.follows self.numbers) }
    {
        padded(self.following())
    }

    // Whether its first d numbers are the last d of the part's landed changes: looks at these from their end.
    fn repeats_last(&self, landed: Changes<'_>, part: u64, d: usize) -> bool
        requires short { d ≤ most_following }
        requires there { d ≤ length (line part (changes_of landed)) }
        ensures { result ≡ same_list (drop (length (line part (changes_of landed.entry)) - d) (line part (changes_of landed.entry))) (take d self.now.numbers) }
    {
        let mut left = d;
        for c in landed.rev() {
            if left == 0 {
                return true;
            }
            if c.touches(part) {
                left -= 1;
                if c.number != self.numbers[left] {
                    return false;
                }
            }
        }
        true
    }

    // Whether the stored run is the run `top`, which begins with all landed changes of its part.
    pub fn same_as(self, top: Run, landed: Changes<'_>) -> bool
        requires fits { self.begins ≤ length (line self.part (changes_of landed)) }
        requires all { top.begins ≡ length (line top.part (changes_of landed)) }
        ensures { result ≡ same_run (run_of (changes_of landed.entry) self) (run_of (changes_of landed.entry) top) }
    {
        self.is_same(&top, landed)
    }

    // The same, of runs that are lent: a copy of both takes longer than to compare them.
    #[inline(always)]
    pub fn is_same(&self, top: &Run, landed: Changes<'_>) -> bool
        requires fits { self.now.begins ≤ length (line self.now.part (changes_of landed)) }
        requires all { top.now.begins ≡ length (line top.now.part (changes_of landed)) }
        ensures { result ≡ same_run (run_of (changes_of landed.entry) self.now) (run_of (changes_of landed.entry) top.now) }
    {
        if self.part != top.part {
            return false;
        }
        let d = top.begins - self.begins;
        if self.follows != d + top.follows {
            return false;
        }
        let next = &self.following()[d as usize..];
        next == top.following() && self.repeats_last(landed, top.part, d as usize)
    }

    // The same run, where its part has so many landed changes: it can begin with no more.
    fn within(mut self, landed: u64) -> Run
        ensures part { result.part ≡ self.part }
        ensures begins { result.begins ≡ min self.begins landed }
        ensures value { (cs : List spec.Change) → landed ≡ length (line self.part cs) → run_of cs result ≡ run_of cs self }
    {
        self.begins = self.begins.min(landed);
        self
    }

    // What is known of the run, which begins with all landed changes of its part: what the first verdict on it says.
    pub fn known(self, queue: &[u64], landed: usize, verdicts: usize) -> Known
        requires long { queue_length ≤ length queue.now }
        requires few { landed ≤ most_landed }
        requires held { verdicts ≤ most_verdicts }
        requires all { self.begins ≡ length (line self.part (changes_in landed (drop landed_at queue.now))) }
        ensures { result ≡ heard (run_of (changes_in landed (drop landed_at queue.now)) self) (verdicts_in (changes_in landed (drop landed_at queue.now)) verdicts (drop verdicts_at queue.now)) }
    {
        let landed = Changes::at(queue, LANDED_AT, landed);
        for verdict in records_at(queue, VERDICTS_AT, VERDICT_WIDTH, verdicts) {
            if verdict[0] != self.part {
                continue;
            }
            let stored = read_run(verdict).within(self.begins);
            if stored.same_as(self, landed) {
                // A `From<bool>` would serve this place alone.
                return if says_good(verdict) {
                    Known::Good
                } else {
                    Known::Bad
                };
            }
        }
        Known::Nothing
    }
}
