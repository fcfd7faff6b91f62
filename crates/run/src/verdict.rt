// What a bench said of a run.
use super::run::Run;

#[derive(Clone, Copy)]
pub struct Verdict {
    pub run: Run,
    pub good: bool,
}
