// Which runs are useful, which are cancelled, and which are requested.
#![tactic(auto)]

mod keeping;
mod kept;
mod planner;
mod planning;
mod requesting;

pub use planning::plan_runs;
