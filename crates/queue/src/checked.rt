// What the checks of a slice hand on: how much its sections hold, and how many landed changes each part has.
use super::counts::Counts;
use change::PARTS;

#[derive(Clone, Copy)]
pub struct Checked {
    pub counts: Counts,
    pub tally: [u64; PARTS],
}
