// The day file, the day with the log of its events, and the line that is printed for an event.
#![tactic(auto)]

mod file;
mod line;
mod logged;
mod playing;
mod reply;
mod slices;
mod worked;

pub use file::{config_read, next_event};
pub use line::StateLine;
pub use logged::{Day, NotOpened};
pub use playing::{NotPlayed, UNLIMITED_CHANGES, USUAL_CHANGES, limits, play, play_events};
pub use reply::ReplyLine;
pub use worked::{worked_file, worked_lines};
