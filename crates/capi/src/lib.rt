// The queue for programs in C or Rust: numbers and slices cross, and nothing is asked of the caller.
#![tactic(auto)]

mod answer;
mod calls;

pub use answer::Answer;
pub use calls::{giltzomer_apply, giltzomer_next_event, giltzomer_open};
