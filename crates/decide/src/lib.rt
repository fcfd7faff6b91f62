// What becomes of a change that waits.
#![tactic(auto)]

mod decision;
mod passing;
mod steps;

pub use decision::Decision;
pub use passing::pass;
