// Runs and verdicts as records of the lent queue.
ghost use Rattle.std.specs.Prelude.{◌≡◌, ◌≤◌, ◌==◌, List, length, slice_index};
ghost use Rattle.change.specs.Change as spec;
ghost use Rattle.run.specs.Records.{row_of, run_in, run_of, run_width, some_in_run, some_in_verdict, verdict_row_of, verdict_width};

use super::run::{MOST_FOLLOWING, Run};
use super::verdict::Verdict;
use change::Record;

// A run's record: its part, how many of the part's landed changes it begins with, how many follow, and room for these.
pub const RUN_WIDTH: usize = 19;

// A verdict's record: a run's, and then 1 for good.
pub const VERDICT_WIDTH: usize = 20;

// The run that a record says, be it a run's or a verdict's.
pub fn read_run(row: &[u64]) -> Run
    requires { run_width ≤ length row.now }
    ensures part { result.part ≡ slice_index row.now 0 }
    ensures begins { result.begins ≡ slice_index row.now 1 }
    ensures value { (landed : List spec.Change) → run_of landed result ≡ run_in landed row.now }
{
    let follows = row[2].min(MOST_FOLLOWING as u64);
    let mut numbers = [0u64; MOST_FOLLOWING];
    numbers.copy_from_slice(&row[3..RUN_WIDTH]);
    Run {
        part: row[0],
        begins: row[1],
        follows,
        numbers,
    }
}

// Whether a verdict's record says good; a record is numbers, and 1 is good.
pub fn says_good(row: &[u64]) -> bool
    requires { verdict_width ≤ length row.now }
    ensures { result ≡ (slice_index row.now run_width == 1) }
{
    row[RUN_WIDTH] == 1
}

impl Record for Run {
    ghost WIDTH = { run_width };

    ghost some = { some_in_run };

    ghost numbers = { row_of };

    const WIDTH: usize = RUN_WIDTH;

    fn write(self, over: &mut [u64]) {
        over[0] = self.part;
        over[1] = self.begins;
        over[2] = self.follows;
        over[3..].copy_from_slice(&self.padded_numbers());
    }
}

impl Record for Verdict {
    ghost WIDTH = { verdict_width };

    ghost some = { some_in_verdict };

    ghost numbers = { λ v. verdict_row_of v.run v.good };

    const WIDTH: usize = VERDICT_WIDTH;

    fn write(self, over: &mut [u64]) {
        self.run.write(&mut over[..RUN_WIDTH]);
        over[RUN_WIDTH] = u64::from(self.good);
    }
}
