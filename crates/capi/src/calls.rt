// The exported calls.
ghost use Rattle.std.specs.Prelude.{◌≡◌};
ghost use Rattle.day.specs.DayFile.{next_event};
ghost use Rattle.queue.specs.Entry.{opened, stepped};
ghost use Rattle.capi.specs.Answers.{Answers, event_read};

use super::answer::Answer;
use run::EVENT_LENGTH;

// Writes an empty queue of the config over the slice.
#[unsafe(no_mangle)]
pub extern "C" fn giltzomer_open(queue: &mut [u64], benches: u64, depth: u64) -> Answer
    ensures { Answers (opened queue.old benches depth) result queue.new }
{
    Answer::from(queue::open(queue, benches, depth))
}

// Applies an event to the queue.
#[unsafe(no_mangle)]
pub extern "C" fn giltzomer_apply(queue: &mut [u64], event: &[u64]) -> Answer
    ensures { Answers (stepped queue.old event.now) result queue.new }
{
    Answer::from(queue::apply(queue, event))
}

// Reads the first event of a day file, behind its config, into the first numbers of `event`; says how many bytes it takes.
// Says 0, and leaves `event` as it was, if there is none or `event` is too short for one: an `Option` does not cross to C.
#[unsafe(no_mangle)]
pub extern "C" fn giltzomer_next_event(bytes: &[u8], event: &mut [u64]) -> usize
    ensures { (result, event.new) ≡ event_read (next_event bytes.now) event.old }
{
    if event.len() < EVENT_LENGTH {
        return 0;
    }
    let Some(next) = day::next_event(bytes) else {
        return 0;
    };
    let (taken, numbers) = next;
    event[..EVENT_LENGTH].copy_from_slice(&numbers);
    taken
}
