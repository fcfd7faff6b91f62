// The three kinds of event as calls of their own, for callers that do not want to build an event's numbers.
ghost use Rattle.std.specs.Prelude.{◌≡◌, ◌∷◌, replicate, if◌then◌else◌};
ghost use Rattle.change.specs.Records.{change_of, change_row};
ghost use Rattle.queue.specs.Entry.{stepped};

use super::entry::apply;
use super::kind::Kind;
use super::reply::Reply;
use change::{Change, Record};
use run::EVENT_LENGTH;

// A change is submitted.
pub fn submit(queue: &mut [u64], c: Change) -> Reply
    ensures { (result, queue.new) ≡ stepped queue.old (0 ∷ change_row (change_of c)) }
{
    let mut event = [0; EVENT_LENGTH];
    event[0] = u64::from(Kind::Submit);
    c.write(&mut event[1..]);
    apply(queue, &event)
}

// The change of this number is withdrawn.
pub fn withdraw(queue: &mut [u64], number: u64) -> Reply
    ensures { (result, queue.new) ≡ stepped queue.old (1 ∷ number ∷ replicate 9 0) }
{
    let mut event = [0; EVENT_LENGTH];
    event[0] = u64::from(Kind::Withdraw);
    event[1] = number;
    apply(queue, &event)
}

// The run at this place among those running was good, or bad.
pub fn report(queue: &mut [u64], place: u64, good: bool) -> Reply
    ensures { (result, queue.new) ≡ stepped queue.old (2 ∷ place ∷ (if good then 1 else 0) ∷ replicate 8 0) }
{
    let mut event = [0; EVENT_LENGTH];
    event[0] = u64::from(Kind::Report);
    event[1] = place;
    event[2] = u64::from(good);
    apply(queue, &event)
}
