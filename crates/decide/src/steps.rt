// Moving one change in the lent queue: out of those that wait, behind those that landed, behind those that were rejected.
// The queue stays the plain numbers that the user lends, here and in `pass`, so that it is settled is said in each contract.
ghost use Rattle.std.specs.Prelude.{◌≡◌, ◌<◌, [], ◌∷◌, ◌++◌, slice_index};
ghost use Rattle.change.specs.Change.{without};
ghost use Rattle.change.specs.Records.{change_of};
ghost use Rattle.run.specs.Layout.{landed_count, most_landed, most_rejected, rejected_count, waiting_count};
ghost use Rattle.run.specs.Numbers.{Settled, landed_in, rejected_in, waiting_in, whole, with_changes};

use change::{Change, append, remove};
use run::*;

// Takes the i-th out of those that wait.
pub fn take_out(queue: &mut [u64], i: usize)
    requires settled { Settled queue.old }
    requires there { i < slice_index queue.old waiting_count }
    ensures { queue.new ≡ whole (with_changes queue.old (landed_in queue.old) (without i (waiting_in queue.old)) (rejected_in queue.old)) }
{
    let waiting = queue[WAITING_COUNT] as usize;
    remove::<Change>(&mut queue[WAITING_AT..REJECTED_AT], waiting, i);
    queue[WAITING_COUNT] = waiting as u64 - 1;
}

// The change lands behind those that have landed. This is apart from `reject`: each promises which of the queue's lists grew, and one function over a section could say only that some list did.
pub fn land(queue: &mut [u64], c: Change)
    requires settled { Settled queue.old }
    requires few { slice_index queue.old landed_count < most_landed }
    ensures { queue.new ≡ whole (with_changes queue.old (landed_in queue.old ++ change_of c ∷ []) (waiting_in queue.old) (rejected_in queue.old)) }
{
    let landed = queue[LANDED_COUNT] as usize;
    append(&mut queue[LANDED_AT..WAITING_AT], landed, c);
    queue[LANDED_COUNT] = landed as u64 + 1;
}

// The change joins those that were rejected.
pub fn reject(queue: &mut [u64], c: Change)
    requires settled { Settled queue.old }
    requires few { slice_index queue.old rejected_count < most_rejected }
    ensures { queue.new ≡ whole (with_changes queue.old (landed_in queue.old) (waiting_in queue.old) (rejected_in queue.old ++ change_of c ∷ [])) }
{
    let rejected = queue[REJECTED_COUNT] as usize;
    append(&mut queue[REJECTED_AT..VERDICTS_AT], rejected, c);
    queue[REJECTED_COUNT] = rejected as u64 + 1;
}
