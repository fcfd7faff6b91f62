// Changes and the parts they touch, by value and as records of the lent queue.
#![tactic(auto)]

mod change;
mod changes;
mod methods;
mod record;
mod records;
mod tally;

pub use change::{Change, MOST_PARTS};
pub use changes::Changes;
pub use methods::PART_LIMIT;
pub use record::{Record, append, remove, remove_record};
pub use records::{
    CHANGE_WIDTH, change_at, change_round_trip, padded, read_change, records_at, tidy_changes,
};
pub use tally::{PARTS, count_parts};
