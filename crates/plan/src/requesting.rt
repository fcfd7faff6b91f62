// Requesting useful runs one after another, while a bench is free.
ghost use Rattle.std.specs.Prelude.{◌≡◌, ◌*◌, ◌+◌, ◌<◌, ◌≤◌, if◌then◌else◌};
ghost use Rattle.change.specs.Records.{change_of, written};
ghost use Rattle.run.specs.Layout.{most_benches, most_running, most_verdicts};
ghost use Rattle.run.specs.Limits.{most_following};
ghost use Rattle.run.specs.Records.{row_of, run_width};
ghost use Rattle.plan.specs.Numbers.{Requested, StoredRuns, StoredVerdicts, runs_behind, useful_now};
ghost use Rattle.plan.specs.Rows.{lacks_row};

use super::keeping::{KeptRuns, KeptVerdicts};
use super::planner::Planner;
use change::{Change, Record};
use run::{BENCHES_AT, RUN_WIDTH, Run, VERDICT_WIDTH};

impl Planner<'_> {
    // Requests useful runs.
    pub fn request_useful(self, known: &KeptVerdicts, running: &mut KeptRuns)
        requires known { StoredVerdicts self.queue.now known.now.count known.now.numbers }
        requires running { StoredRuns self.queue.now running.old.count running.old.numbers }
        ensures { Requested self.entry.queue.now known.now.count known.now.numbers running.old.count running.old.numbers (useful_now self.entry.queue.now) running.new.count running.new.numbers }
    {
        for (i, c) in self.looked_at().enumerate() {
            self.request_change(i, c, known, running);
        }
    }

    // Requests the runs of the change behind the first w that wait.
    fn request_change(self, w: usize, c: Change, known: &KeptVerdicts, running: &mut KeptRuns)
        requires near { w < most_following }
        requires known { StoredVerdicts self.queue.now known.now.count known.now.numbers }
        requires running { StoredRuns self.queue.now running.old.count running.old.numbers }
        ensures { Requested self.entry.queue.now known.now.count known.now.numbers running.old.count running.old.numbers (runs_behind self.entry.queue.now w (change_of c)) running.new.count running.new.numbers }
    {
        let benches = self.queue[BENCHES_AT] as usize;
        for part in c.touched() {
            if running.count >= benches {
                return;
            }
            request_run(known, running, benches, self.useful_run(w, *part, c.number));
        }
    }
}

// Requests the run if a bench is free and it is neither known nor running.
fn request_run(known: &KeptVerdicts, running: &mut KeptRuns, benches: usize, run: Run)
    requires held { known.now.count ≤ most_verdicts }
    requires few { running.old.count ≤ most_running }
    requires benches { benches ≤ most_benches }
    ensures row { running.new.numbers ≡ (if lacks_row benches known.now.count known.now.numbers running.old.count running.old.numbers (row_of run) then written (run_width * running.old.count) (row_of run) running.old.numbers else running.old.numbers) }
    ensures count { running.new.count ≡ (if lacks_row benches known.now.count known.now.numbers running.old.count running.old.numbers (row_of run) then running.old.count + 1 else running.old.count) }
{
    let mut row = [0; RUN_WIDTH];
    run.write(&mut row);
    if running.count < benches && !known.has(VERDICT_WIDTH, &row) && !running.has(RUN_WIDTH, &row) {
        running.push(run);
    }
}
