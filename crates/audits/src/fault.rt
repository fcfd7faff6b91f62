// A state of the main line that the log does not vouch for.
#[derive(Clone, Copy, PartialEq, Eq)]
pub enum Why {
    NeverRun,
    WasBad,
}

#[derive(Drop)]
pub struct Fault {
    pub why: Why,
    pub part: u64,
    pub changes: Vec<u64>,
}
