// Planning on the lent queue: what is not useful is cancelled and dropped, then useful runs are requested.
ghost use Rattle.std.specs.Prelude.{◌≡◌, ◌<◌, ◌≤◌, length, drop, slice_index};
ghost use Rattle.run.specs.Layout.{number_limit, queue_length, requested_at, running_count};
ghost use Rattle.run.specs.Numbers.{Fits, config_in, encode, whole};
ghost use Rattle.plan.specs.Numbers.{Ready, planned_in, with_running};

use super::keeping::{KeptRuns, KeptVerdicts};
use super::planner::Planner;
use change::PARTS;
use run::{QUEUE_LENGTH, REQUESTED_AT, RUNNING_AT, RUNNING_COUNT, VERDICTS_AT, VERDICTS_COUNT};

// Drops the verdicts and cancels the runs that are not useful, then requests useful runs while a bench is free.
// The tally is that of the landed changes, so that one count of them serves a whole event.
pub fn plan_runs(queue: &mut [u64], tally: &[u64; PARTS])
    requires ready { Ready queue.old tally.now }
    requires few { slice_index queue.old requested_at < number_limit }
    ensures is { queue.new ≡ encode (config_in queue.old) (planned_in queue.old) (drop queue_length queue.old) }
    ensures fits { Fits (planned_in queue.old) }
    ensures running { slice_index queue.new running_count ≡ length (planned_in queue.old).running }
{
    let planner = Planner { queue, tally };
    let mut known = KeptVerdicts::none();
    planner.keep_verdicts(&mut known);
    let mut running = KeptRuns::none();
    planner.keep_running(&mut running);
    let still = running.count;
    planner.request_useful(&known, &mut running);
    let requested = queue[REQUESTED_AT] + (running.count - still) as u64;
    store(queue, &known, &running, requested);
}

// Writes verdicts and running runs over their sections, and their counters.
fn store(queue: &mut [u64], known: &KeptVerdicts, running: &KeptRuns, requested: u64)
    requires { queue_length ≤ length queue.old }
    ensures { queue.new ≡ whole (with_running queue.old known.now.numbers known.now.count running.now.numbers running.now.count requested) }
{
    queue[VERDICTS_COUNT] = known.count as u64;
    queue[RUNNING_COUNT] = running.count as u64;
    queue[REQUESTED_AT] = requested;
    queue[VERDICTS_AT..RUNNING_AT].copy_from_slice(&known.numbers);
    queue[RUNNING_AT..QUEUE_LENGTH].copy_from_slice(&running.numbers);
}
