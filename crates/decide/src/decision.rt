// What the pass decides of a change.
#[derive(Clone, Copy, PartialEq, Eq)]
pub enum Decision {
    Wait,
    Land,
    Reject,
}
