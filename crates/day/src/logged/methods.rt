// Opening a day, and applying events to it.
ghost use Rattle.std.specs.Prelude.{◌≡◌, ◌&&◌, [], ◌∷◌, ◌++◌, IfOk, if◌then◌else◌, OnErr, ◌==◌, nat_le};
ghost use Rattle.queue.specs.Entry.{stepped};
ghost use Rattle.promises.specs.Lent.{is_done};
ghost use Rattle.day.specs.Day.{answered, changes_held, turned_away};
ghost use Rattle.day.specs.Logged.{Begins, Promised, SameTerms, log_of, numbers_of};

use super::super::slices::number_at;
use super::{Day, NotOpened};
use queue::{Kind, Refusal, Reply};
use run::{EVENT_LENGTH, LANDED_COUNT, QUEUE_LENGTH, REJECTED_COUNT, WAITING_COUNT};
use std::alloc::{AllocError, Global};

impl Day {
    // Begins a day with an empty queue of the config; it is to hold at most so many changes.
    pub fn open(heap: Global, benches: u64, depth: u64, most: u64) -> Result<Day, NotOpened>
        ensures { Begins benches depth most result }
    {
        let mut numbers = vec![in heap; 0; QUEUE_LENGTH]?;
        queue::open(&mut numbers, benches, depth)?;
        Ok(Day {
            benches,
            depth,
            most,
            numbers,
            log: Vec::new(heap),
        })
    }

    // The queue's numbers.
    pub fn numbers(&self) -> &[u64]
        ensures { result.now ≡ numbers_of self.now }
    {
        self.numbers.as_slice()
    }

    // The events that were taken.
    pub fn events(&self) -> &[[u64; EVENT_LENGTH]]
        ensures { result.now ≡ log_of self.now }
    {
        self.log.as_slice()
    }

    // Of every day, whatever was applied to it: the two promises hold. It says so and does nothing.
    pub fn keeps_promises(&self)
        ensures { Promised self.now }
    {}

    // Applies an event, which joins the log if it is taken; want of memory and a refusal leave all as it was.
    // What was promised of whole days holds of this day, before and after.
    pub fn apply(&mut self, event: [u64; EVENT_LENGTH]) -> Result<Reply, AllocError>
        ensures answers { IfOk result (λ reply. (reply, numbers_of self.new) ≡ answered self.old.most (numbers_of self.old) event) }
        ensures logs { IfOk result (λ reply. log_of self.new ≡ log_of self.old ++ (if is_done reply then event ∷ [] else [])) }
        ensures leaves { OnErr result ((numbers_of self.new ≡ numbers_of self.old) × (log_of self.new ≡ log_of self.old)) }
        ensures stays { SameTerms self.old self.new }
        ensures promised { Promised self.new }
    {
        if self.holds_back(event[0]) {
            self.turn_away(event)
        } else {
            self.step(event)
        }
    }

    // What the queue makes of an event. Memory for the log is taken first, so that an event which is taken can be logged.
    fn step(&mut self, event: [u64; EVENT_LENGTH]) -> Result<Reply, AllocError>
        ensures answers { IfOk result (λ reply. (reply, numbers_of self.new) ≡ stepped (numbers_of self.old) event) }
        ensures logs { IfOk result (λ reply. log_of self.new ≡ log_of self.old ++ (if is_done reply then event ∷ [] else [])) }
        ensures leaves { OnErr result ((numbers_of self.new ≡ numbers_of self.old) × (log_of self.new ≡ log_of self.old)) }
        ensures stays { SameTerms self.old self.new }
    {
        self.log.reserve(1)?;
        let reply = queue::apply(&mut self.numbers, &event);
        if reply.is_ok() {
            self.log.push_reserved(event);
        }
        Ok(reply)
    }

    // Whether an event of the kind is a submission, and as many changes are held as may be.
    fn holds_back(&self, kind: u64) -> bool
        ensures { result ≡ (kind == 0 && nat_le self.now.most (changes_held (numbers_of self.now))) }
    {
        let queue = self.numbers();
        let landed = u128::from(number_at(queue, LANDED_COUNT));
        let waiting = u128::from(number_at(queue, WAITING_COUNT));
        let rejected = u128::from(number_at(queue, REJECTED_COUNT));
        Kind::try_from(kind) == Ok(Kind::Submit)
            && u128::from(self.most) <= landed + waiting + rejected
    }

    // What a full day answers to a submission. A copy is asked, since the queue itself must not take the event.
    fn turn_away(&self, event: [u64; EVENT_LENGTH]) -> Result<Reply, AllocError>
        ensures { IfOk result (λ reply. reply ≡ turned_away (stepped (numbers_of self.now) event).0) }
    {
        let mut copy = Vec::from_slice(self.numbers.allocator(), self.numbers())?;
        let reply = queue::apply(&mut copy, &event);
        Ok(one_too_many(reply))
    }
}

// A refusal for another reason than want of a place stands; else the change is one too many.
fn one_too_many(reply: Reply) -> Reply
    ensures { result ≡ turned_away reply }
{
    match reply {
        Ok(_)
        | Err(
            Refusal::WaitingFull
            | Refusal::LandedFull
            | Refusal::RejectedFull
            | Refusal::VerdictsFull
            | Refusal::RequestsSpent,
        ) => Err(Refusal::WaitingFull),
        Err(refusal) => Err(refusal),
    }
}
