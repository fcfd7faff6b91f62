// A day: the queue's numbers, and the log of the events that were taken.
ghost use Rattle.std.specs.Prelude.{◌≡◌, true};
ghost use Rattle.promises.specs.Lent.{is_done, lent_day};
ghost use Rattle.day.specs.Played.{all_taken, started};
ghost use Rattle.day.specs.declared.logged.NotOpened.TheVariants.{Memory, Refused};

mod methods;

use queue::Refusal;
use run::EVENT_LENGTH;
use std::alloc::AllocError;

// The queue is what the log gives from an empty queue of the config: this holds of every value that there ever is.
#[derive(Drop)]
pub struct Day {
    benches: u64,
    depth: u64,
    // How many changes it holds at most.
    most: u64,
    numbers: Vec<u64>,
    log: Vec<[u64; EVENT_LENGTH]>,
    ghost began: { is_done (started benches depth).0 ≡ true },
    ghost follows: { numbers.items ≡ lent_day (started benches depth).1 log.items },
    ghost taken: { all_taken (started benches depth).1 log.items ≡ true },
}

// Why a day does not begin.
#[derive(Clone, Copy)]
pub enum NotOpened {
    // There is no memory for the queue.
    Memory,
    // The queue refuses the config.
    Refused(Refusal),
}

impl From<AllocError> for NotOpened {
    ghost from_gives = { λ _ why. why ≡ Memory };

    fn from(_none: AllocError) -> Self {
        Self::Memory
    }
}

impl From<Refusal> for NotOpened {
    ghost from_gives = { λ refusal why. why ≡ Refused refusal };

    fn from(refusal: Refusal) -> Self {
        Self::Refused(refusal)
    }
}
