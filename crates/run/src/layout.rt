// Where everything stands in the lent queue, and how much of it there may be.
ghost use Rattle.std.specs.Prelude.{◌≡◌};
ghost use Rattle.run.specs.Layout.{layout_numbers};

use super::records::{RUN_WIDTH, VERDICT_WIDTH};
use super::run::MOST_FOLLOWING;
use change::{CHANGE_WIDTH, MOST_PARTS, PART_LIMIT};

// How many changes can land, wait and be rejected, how many verdicts can be held, how many runs can run.
pub const MOST_LANDED: usize = 4096;

pub const MOST_WAITING: usize = 64;

pub const MOST_REJECTED: usize = 1024;

pub const MOST_VERDICTS: usize = 128;

pub const MOST_RUNNING: usize = 16;

// At most so many benches, and at most so many waiting changes looked at.
pub const MOST_BENCHES: u64 = 16;

pub const MOST_DEPTH: u64 = 16;

// Numbers of changes, and the count of runs requested, stay below this.
pub const NUMBER_LIMIT: u64 = 0x1_0000_0000;

// The counters in front: the config, the counts of the five sections, and the runs requested in all.
pub const BENCHES_AT: usize = 0;

pub const DEPTH_AT: usize = 1;

pub const LANDED_COUNT: usize = 2;

pub const WAITING_COUNT: usize = 3;

pub const REJECTED_COUNT: usize = 4;

pub const VERDICTS_COUNT: usize = 5;

pub const RUNNING_COUNT: usize = 6;

pub const REQUESTED_AT: usize = 7;

// The five sections, one behind the other, and the length of the whole.
pub const LANDED_AT: usize = 8;

pub const WAITING_AT: usize = LANDED_AT + CHANGE_WIDTH * MOST_LANDED;

pub const REJECTED_AT: usize = WAITING_AT + CHANGE_WIDTH * MOST_WAITING;

pub const VERDICTS_AT: usize = REJECTED_AT + CHANGE_WIDTH * MOST_REJECTED;

pub const RUNNING_AT: usize = VERDICTS_AT + VERDICT_WIDTH * MOST_VERDICTS;

pub const QUEUE_LENGTH: usize = RUNNING_AT + RUN_WIDTH * MOST_RUNNING;

// An event: its kind, and then a change's record, a number, or a place and a verdict.
pub const EVENT_LENGTH: usize = 1 + CHANGE_WIDTH;

// The layout's numbers are those of the definitions.
pub fn numbers_of_layout() -> [u64; 28]
    ensures { result ≡ layout_numbers }
{
    [
        MOST_PARTS as u64,
        PART_LIMIT,
        MOST_FOLLOWING as u64,
        CHANGE_WIDTH as u64,
        VERDICT_WIDTH as u64,
        RUN_WIDTH as u64,
        EVENT_LENGTH as u64,
        MOST_LANDED as u64,
        MOST_WAITING as u64,
        MOST_REJECTED as u64,
        MOST_VERDICTS as u64,
        MOST_RUNNING as u64,
        MOST_BENCHES,
        MOST_DEPTH,
        NUMBER_LIMIT,
        BENCHES_AT as u64,
        DEPTH_AT as u64,
        LANDED_COUNT as u64,
        WAITING_COUNT as u64,
        REJECTED_COUNT as u64,
        VERDICTS_COUNT as u64,
        RUNNING_COUNT as u64,
        REQUESTED_AT as u64,
        LANDED_AT as u64,
        WAITING_AT as u64,
        REJECTED_AT as u64,
        VERDICTS_AT as u64,
        RUNNING_AT as u64,
    ]
}
