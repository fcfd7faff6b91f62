// What is known of a run.
#[derive(Clone, Copy, PartialEq, Eq)]
pub enum Known {
    Nothing,
    Good,
    Bad,
}
