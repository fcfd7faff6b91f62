// Benches, and serial testing: changes are taken one at a time, in arrival order.
#![tactic(auto)]

mod bench;
mod landing;

pub use bench::Bench;
pub use landing::{Decided, decide_serially, line_of, passes};
