// A verdict of the log: a part with these changes in it, and whether it was good.
#[derive(Drop)]
pub struct Verdict {
    pub part: u64,
    pub changes: Vec<u64>,
    pub good: bool,
}
