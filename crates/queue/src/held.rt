// A lent queue, and how many records each of its sections holds.
ghost use Rattle.std.specs.Prelude.{◌≤◌, length};
ghost use Rattle.queue.specs.Stages.{Counted};
ghost use Rattle.run.specs.Layout.{queue_length};

use super::counts::Counts;

#[derive(Clone, Copy)]
pub struct Held<'a> {
    pub queue: &'a [u64],
    pub counts: Counts,
    ghost long: { queue_length ≤ length queue.now },
    ghost counted: { Counted queue.now counts },
}
