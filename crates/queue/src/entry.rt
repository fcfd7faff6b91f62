// Opening a lent queue, and applying an event to it.
// The user asked for this form of an entry: each check hands on its value, or the call leaves by `let .. else`.
// Queue and event stay the plain numbers that the user lends, so what is known of them is said in each contract.
ghost use Rattle.std.specs.Prelude.{◌≡◌, ◌<◌, ◌≤◌, length, drop, slice_index};
ghost use Rattle.plan.specs.Numbers.{Ready};
ghost use Rattle.plan.specs.Plan.{planned};
ghost use Rattle.queue.specs.Entry.{Replies, opened, stepped, stepped_kind, stepped_to};
ghost use Rattle.queue.specs.Queue.{decided};
ghost use Rattle.queue.specs.Refusals.{Hands, check_of, queue_check};
ghost use Rattle.queue.specs.Stages.{Configured, Found};
ghost use Rattle.run.specs.Layout.{event_length, number_limit, queue_length, requested_at};
ghost use Rattle.run.specs.Numbers.{config_in, decode};

use super::checked::Checked;
use super::checks::*;
use super::held::Held;
use super::kind::Kind;
use super::recording;
use super::reply::{Refusal, Reply};
use change::PARTS;
use run::*;

// Writes an empty queue of the config over the slice; what lies behind a queue stays as it was.
pub fn open(queue: &mut [u64], benches: u64, depth: u64) -> Reply
    ensures { (result, queue.new) ≡ opened queue.old benches depth }
{
    let long = check_length(queue);
    let Ok(_length) = long else {
        return refused(long);
    };
    let checked = check_benches(benches);
    let Ok(_benches) = checked else {
        return refused(checked);
    };
    let looked = check_depth(depth);
    let Ok(_depth) = looked else {
        return refused(looked);
    };
    let numbers = &mut queue[0..QUEUE_LENGTH];
    numbers.fill(0);
    queue[BENCHES_AT] = benches;
    queue[DEPTH_AT] = depth;
    Ok(0)
}

// Applies an event to a queue: it is recorded, what can be decided is decided, and runs are requested.
// The first refusal that applies leaves the queue as it was.
pub fn apply(queue: &mut [u64], event: &[u64]) -> Reply
    ensures { (result, queue.new) ≡ stepped queue.old event.now }
{
    let checked = check_queue(queue);
    let Ok(found) = checked else {
        return refused(checked);
    };
    let benches = check_benches(queue[BENCHES_AT]);
    let Ok(_benches) = benches else {
        return refused(benches);
    };
    let depth = check_depth(queue[DEPTH_AT]);
    let Ok(_depth) = depth else {
        return refused(depth);
    };
    let known = check_event(event);
    let Ok(kind) = known else {
        return refused(known);
    };
    match kind {
        Kind::Submit => submit(queue, found, event),
        Kind::Withdraw => withdraw(queue, found, event),
        Kind::Report => report(queue, found, event),
    }
}

// The slice is a queue, whoever wrote it.
fn check_queue(queue: &[u64]) -> Result<Checked, Refusal>
    ensures says { check_of result ≡ queue_check queue.now }
    ensures hands { Hands result (λ c. Found queue.now c.counts c.tally) }
{
    let _length = check_length(queue)?;
    let held = check_counts(queue)?;
    let _records = held.check_records()?;
    let counts = held.check_sums()?;
    let tally = held.check_runs()?;
    Ok(Checked { counts, tally })
}

// The refusal with which a check left.
fn refused<T: Drop>(checked: Result<T, Refusal>) -> Reply
    ensures { Replies checked result }
{
    checked.map(|_| 0)
}

// A change is submitted.
fn submit(queue: &mut [u64], found: Checked, event: &[u64]) -> Reply
    requires found { Found queue.old found.counts found.tally }
    requires config { Configured queue.old }
    requires whole { event_length ≤ length event.now }
    ensures { (result, queue.new) ≡ stepped_kind 0 queue.old event.now }
{
    let counts = found.counts;
    let held = Held { queue, counts };
    let number = held.check_number(event[1]);
    let Ok(_number) = number else {
        return refused(number);
    };
    let formed = check_parts(event);
    let Ok(change) = formed else {
        return refused(formed);
    };
    let room = held.check_room();
    let Ok(_place) = room else {
        return refused(room);
    };
    let requests = held.check_requests();
    let Ok(_requests) = requests else {
        return refused(requests);
    };
    recording::record_submit(queue, counts, change);
    advance(queue, found.tally)
}

// A change that waits is withdrawn.
fn withdraw(queue: &mut [u64], found: Checked, event: &[u64]) -> Reply
    requires found { Found queue.old found.counts found.tally }
    requires config { Configured queue.old }
    requires whole { event_length ≤ length event.now }
    ensures { (result, queue.new) ≡ stepped_kind 1 queue.old event.now }
{
    let counts = found.counts;
    let held = Held { queue, counts };
    let number = event[1];
    let waits = held.check_waits(number);
    let Ok(place) = waits else {
        return refused(waits);
    };
    let requests = held.check_requests();
    let Ok(_requests) = requests else {
        return refused(requests);
    };
    recording::record_withdraw(queue, counts, number, place);
    advance(queue, found.tally)
}

// A verdict on a run that is running comes in.
fn report(queue: &mut [u64], found: Checked, event: &[u64]) -> Reply
    requires found { Found queue.old found.counts found.tally }
    requires config { Configured queue.old }
    requires whole { event_length ≤ length event.now }
    ensures { (result, queue.new) ≡ stepped_kind 2 queue.old event.now }
{
    let counts = found.counts;
    let held = Held { queue, counts };
    let running = held.check_place(event[1]);
    let Ok(place) = running else {
        return refused(running);
    };
    let verdicts = held.check_verdicts();
    let Ok(_held) = verdicts else {
        return refused(verdicts);
    };
    let requests = held.check_requests();
    let Ok(_requests) = requests else {
        return refused(requests);
    };
    // The event is numbers: 1 says good.
    recording::record_report(queue, counts, place, event[2] == 1);
    advance(queue, found.tally)
}

// What can be decided is decided, and runs are requested.
fn advance(queue: &mut [u64], mut tally: [u64; PARTS]) -> Reply
    requires ready { Ready queue.old tally }
    requires few { slice_index queue.old requested_at < number_limit }
    ensures { (result, queue.new) ≡ stepped_to (config_in queue.old) (planned (config_in queue.old) (decided (decode queue.old))) (drop queue_length queue.old) }
{
    decide::pass(queue, &mut tally);
    plan::plan_runs(queue, &tally);
    Ok(queue[RUNNING_COUNT])
}
