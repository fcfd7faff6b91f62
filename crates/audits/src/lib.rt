// Audits a main line against a log of verdicts: was every state that a part had in it run, and good?
#![tactic(auto)]

mod auditing;
mod fault;
mod malformed;
mod reading;
mod text;
mod verdict;

pub use auditing::{accepts_exactly, audit, count_states, log_says};
pub use fault::{Fault, Why};
pub use malformed::{Malformed, Unread, UnreadLine};
pub use reading::{read_landed, read_log, read_main_line, read_verdict};
pub use text::Landed;
pub use verdict::Verdict;
