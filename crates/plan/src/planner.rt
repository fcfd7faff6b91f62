// What planning looks at: the queue as it stands, and the tally of its landed changes.
ghost use Rattle.plan.specs.Numbers.{Ready};

mod useful;

use change::PARTS;

#[derive(Clone, Copy)]
pub struct Planner<'a> {
    pub queue: &'a [u64],
    pub tally: &'a [u64; PARTS],
    ghost ready: { Ready queue.now tally.now },
}
