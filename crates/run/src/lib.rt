// Runs and verdicts, and what is known of a run.
#![tactic(auto)]

mod known;
mod layout;
mod methods;
mod records;
mod run;
mod text;
mod verdict;

pub use known::Known;
pub use layout::{
    BENCHES_AT, DEPTH_AT, EVENT_LENGTH, LANDED_AT, LANDED_COUNT, MOST_BENCHES, MOST_DEPTH,
    MOST_LANDED, MOST_REJECTED, MOST_RUNNING, MOST_VERDICTS, MOST_WAITING, NUMBER_LIMIT,
    QUEUE_LENGTH, REJECTED_AT, REJECTED_COUNT, REQUESTED_AT, RUNNING_AT, RUNNING_COUNT,
    VERDICTS_AT, VERDICTS_COUNT, WAITING_AT, WAITING_COUNT, numbers_of_layout,
};
pub use methods::run_on_top;
pub use records::{RUN_WIDTH, VERDICT_WIDTH, read_run, says_good};
pub use run::{MOST_FOLLOWING, Run};
pub use text::{ChangesText, write_changes, write_number};
pub use verdict::Verdict;
