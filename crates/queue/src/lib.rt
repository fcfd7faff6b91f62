// The merge queue on lent numbers: opening one, and applying an event to it.
#![tactic(auto)]

mod calls;
mod checked;
mod checks;
mod counts;
mod entry;
mod held;
mod kind;
mod laws;
mod recording;
mod reply;

pub use calls::{report, submit, withdraw};
pub use entry::{apply, open};
pub use kind::Kind;
pub use laws::{decode_of_encode, encode_of_decode, worked_day};
pub use reply::{Refusal, Reply};
