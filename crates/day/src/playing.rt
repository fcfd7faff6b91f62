// Plays a day: writes a line for each of its events.
ghost use Rattle.std.specs.Prelude.{◌≡◌, ◌+◌, ◌<◌, OnOk};
ghost use Rattle.run.specs.Layout.{most_landed, most_rejected, most_waiting};
ghost use Rattle.day.specs.Day.{Plays, day_text, ends, lines, printed, usual_changes};
ghost use Rattle.day.specs.DayFile.{events_of};
ghost use Rattle.day.specs.Logged.{Promised, numbers_of};
ghost use Rattle.day.specs.declared.playing.NotPlayed.TheVariants.{Memory, Output};

use super::file::{CONFIG_BYTES, Events, config_read};
use super::logged::{Day, NotOpened};
use super::reply::ReplyLine;
use super::slices::past;
use queue::Reply;
use std::alloc::{AllocError, Global};
use std::fmt;

// How many changes a day usually holds at most.
pub const USUAL_CHANGES: u64 = 64;

// More than the queue's sections have places for: a day with this limit is limited by them alone.
pub const UNLIMITED_CHANGES: u64 = u64::MAX;

// The usual limit is that of the definitions, and no queue holds as many changes as the other.
pub fn limits() -> (u64, u64)
    ensures usual { result.0 ≡ usual_changes }
    ensures unlimited { most_landed + most_waiting + most_rejected < result.1 }
{
    (USUAL_CHANGES, UNLIMITED_CHANGES)
}

// Why a day was not played to its end.
#[derive(Clone, Copy)]
pub enum NotPlayed {
    // There is no memory for the queue or its log.
    Memory,
    // A line could not be written.
    Output,
}

impl From<AllocError> for NotPlayed {
    ghost from_gives = { λ _ why. why ≡ Memory };

    fn from(_none: AllocError) -> Self {
        Self::Memory
    }
}

impl From<fmt::Error> for NotPlayed {
    ghost from_gives = { λ _ why. why ≡ Output };

    fn from(_failed: fmt::Error) -> Self {
        Self::Output
    }
}

// Plays the day that a file says, which holds at most so many changes, and writes its text.
pub fn play<W: fmt::Write>(
    f: &mut fmt::Formatter<W>,
    heap: Global,
    most: u64,
    bytes: &[u8],
) -> Result<(), NotPlayed>
    ensures { Plays W.write_str_gives f.old result (day_text most bytes.now) f.new }
{
    let Some((benches, depth)) = config_read(bytes) else {
        return Ok(());
    };
    match Day::open(heap, benches, depth, most) {
        Ok(mut day) => play_events(f, &mut day, past(bytes, CONFIG_BYTES)),
        Err(NotOpened::Refused(refusal)) => write_reply(f, Err(refusal), &[]),
        Err(NotOpened::Memory) => Err(NotPlayed::Memory),
    }
}

// Writes the line of a reply and the queue's numbers after it.
fn write_reply<W: fmt::Write>(
    f: &mut fmt::Formatter<W>,
    reply: Reply,
    queue: &[u64],
) -> Result<(), NotPlayed>
    ensures { Plays W.write_str_gives f.old result (printed (reply, queue.now)) f.new }
{
    let line = ReplyLine { reply, queue };
    writeln!(f, "{line}")?;
    Ok(())
}

// Applies one event after another, and writes the line of each. The promises hold of the day wherever it ends.
pub fn play_events<W: fmt::Write>(
    f: &mut fmt::Formatter<W>,
    day: &mut Day,
    bytes: &[u8],
) -> Result<(), NotPlayed>
    ensures text { Plays W.write_str_gives f.old result (lines day.old.most (numbers_of day.old) (events_of bytes.now)) f.new }
    ensures after { OnOk result (numbers_of day.new ≡ ends day.old.most (numbers_of day.old) (events_of bytes.now)) }
    ensures promised { Promised day.new }
{
    for event in (Events { rest: bytes }) {
        let reply = day.apply(event)?;
        write_reply(f, reply, day.numbers())?;
    }
    Ok(())
}
