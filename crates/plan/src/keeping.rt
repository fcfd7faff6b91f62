// What stays of verdicts and running runs: those that are still useful, written anew.
ghost use Rattle.std.specs.Prelude.{◌≡◌, ◌*◌, replicate};
ghost use Rattle.run.specs.Layout.{most_running, most_verdicts};
ghost use Rattle.run.specs.Records.{run_width, verdict_width};
ghost use Rattle.plan.specs.Numbers.{KeptRuns, KeptVerdicts};

use super::kept::Kept;
use super::planner::Planner;
use change::records_at;
use run::{
    MOST_RUNNING, MOST_VERDICTS, RUN_WIDTH, RUNNING_AT, RUNNING_COUNT, VERDICT_WIDTH, VERDICTS_AT,
    VERDICTS_COUNT, Verdict, read_run, says_good,
};

// Room for as many as a queue holds.
const VERDICT_NUMBERS: usize = VERDICT_WIDTH * MOST_VERDICTS;

const RUN_NUMBERS: usize = RUN_WIDTH * MOST_RUNNING;

pub type KeptVerdicts = Kept<VERDICT_NUMBERS>;

pub type KeptRuns = Kept<RUN_NUMBERS>;

// Two functions and not one over both kinds of record: it would take what to write and what that says as parameters.
// Each writes into a room that is lent: one that it gave back would be copied, 20 kB of it, and stand on the stack twice.
impl Planner<'_> {
    // Keeps the verdicts that are still useful, where none are kept yet.
    pub fn keep_verdicts(self, kept: &mut KeptVerdicts)
        requires none { kept.old.count ≡ 0 }
        requires room { kept.old.numbers ≡ replicate (verdict_width * most_verdicts) 0 }
        ensures { KeptVerdicts self.entry.queue.now kept.new.count kept.new.numbers }
    {
        let n = self.queue[VERDICTS_COUNT] as usize;
        for verdict in records_at(self.queue, VERDICTS_AT, VERDICT_WIDTH, n) {
            if let Some(run) = self.find_useful(&read_run(verdict)) {
                let good = says_good(verdict);
                kept.push(Verdict { run, good });
            }
        }
    }

    // Keeps the running runs that are still useful, where none are kept yet.
    pub fn keep_running(self, kept: &mut KeptRuns)
        requires none { kept.old.count ≡ 0 }
        requires room { kept.old.numbers ≡ replicate (run_width * most_running) 0 }
        ensures { KeptRuns self.entry.queue.now kept.new.count kept.new.numbers }
    {
        let n = self.queue[RUNNING_COUNT] as usize;
        for row in records_at(self.queue, RUNNING_AT, RUN_WIDTH, n) {
            if let Some(run) = self.find_useful(&read_run(row)) {
                kept.push(run);
            }
        }
    }
}
