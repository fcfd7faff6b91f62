// Recording an event in the lent queue, once every check has let it pass.
// The queue stays the plain numbers that the user lends, so what the checks found of it is said in each contract.
ghost use Rattle.std.specs.Prelude.{◌≡◌, ◌<◌, ◌≤◌, length, Some, slice_set};
ghost use Rattle.change.specs.Change.{place_of};
ghost use Rattle.change.specs.Records.{change_of};
ghost use Rattle.queue.specs.Queue.{recorded, submit, withdraw, report};
ghost use Rattle.queue.specs.Stages.{Roomy, Says, Sound};
ghost use Rattle.run.specs.Layout.{most_verdicts, queue_length, running_count, verdicts_count};
ghost use Rattle.run.specs.Numbers.{decode, waiting_in};

use super::counts::Counts;
use change::{Change, append, remove};
use run::*;

// Writes landed, waiting and rejected as a state is written; the slice says what it said.
fn tidy(queue: &mut [u64], counts: Counts)
    requires { Sound queue.old counts }
    ensures { Says queue.old (decode queue.old) queue.new × Sound queue.new counts }
{
    change::tidy_changes(&mut queue[LANDED_AT..WAITING_AT], counts.landed);
    change::tidy_changes(&mut queue[WAITING_AT..REJECTED_AT], counts.waiting);
    change::tidy_changes(&mut queue[REJECTED_AT..VERDICTS_AT], counts.rejected);
}

// The change joins those that wait.
pub fn record_submit(queue: &mut [u64], counts: Counts, c: Change)
    requires sound { Sound queue.old counts }
    requires roomy { Roomy counts }
    ensures { Says queue.old (recorded (decode queue.old) (submit (change_of c))) queue.new }
{
    tidy(queue, counts);
    append(&mut queue[WAITING_AT..REJECTED_AT], counts.waiting, c);
    queue[WAITING_COUNT] = counts.waiting as u64 + 1;
}

// The change of this number, which waits at this place, waits no more.
pub fn record_withdraw(queue: &mut [u64], counts: Counts, number: u64, place: usize)
    requires sound { Sound queue.old counts }
    requires there { place_of number (waiting_in queue.old) ≡ Some place }
    ensures { Says queue.old (recorded (decode queue.old) (withdraw number)) queue.new }
{
    tidy(queue, counts);
    remove::<Change>(&mut queue[WAITING_AT..REJECTED_AT], counts.waiting, place);
    queue[WAITING_COUNT] = counts.waiting as u64 - 1;
}

// The run at this place runs no more, and the verdict on it is held.
pub fn record_report(queue: &mut [u64], counts: Counts, place: usize, good: bool)
    requires sound { Sound queue.old counts }
    requires there { place < counts.running }
    requires few { counts.verdicts < most_verdicts }
    ensures { Says queue.old (recorded (decode queue.old) (report place good)) queue.new }
{
    tidy(queue, counts);
    let at = RUNNING_AT + RUN_WIDTH * place;
    let run = run::read_run(&queue[at..at + RUN_WIDTH]);
    append(
        &mut queue[VERDICTS_AT..RUNNING_AT],
        counts.verdicts,
        Verdict { run, good },
    );
    remove::<Run>(&mut queue[RUNNING_AT..QUEUE_LENGTH], counts.running, place);
    count_runs(queue, counts.verdicts as u64 + 1, counts.running as u64 - 1);
}

// So many verdicts are held, and so many runs run.
fn count_runs(queue: &mut [u64], verdicts: u64, running: u64)
    requires { queue_length ≤ length queue.old }
    ensures { queue.new ≡ slice_set (slice_set queue.old verdicts_count verdicts) running_count running }
{
    queue[VERDICTS_COUNT] = verdicts;
    queue[RUNNING_COUNT] = running;
}
