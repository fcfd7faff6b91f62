// Reads a day file: its config, and one event behind the other.
ghost use Rattle.std.specs.Prelude.{◌≡◌, ◌≤◌, ◌∷◌, length, replicate};
ghost use Rattle.std.specs.Iterator.{YieldsFirst, item_count};
ghost use Rattle.change.specs.Change.{most_parts};
ghost use Rattle.change.specs.Records.{fixed};
ghost use Rattle.queue.specs.Stages.{kind_number};
ghost use Rattle.day.specs.DayFile.{config_read, events_of, next_event, number_read, submission, withdrawal, report};

use super::slices::past;
use change::MOST_PARTS;
use queue::Kind;
use run::EVENT_LENGTH;

// How many bytes the config takes, a submission in front of its parts, a withdrawal, and a report.
pub const CONFIG_BYTES: usize = 2;

const SUBMIT_BYTES: usize = 6;

const WITHDRAW_BYTES: usize = 5;

const REPORT_BYTES: usize = 3;

// Where the parts stand in the numbers of a submission: behind its kind, its number and its count.
const PARTS_AT: usize = 3;

// The benches and the depth.
pub fn config_read(bytes: &[u8]) -> Option<(u64, u64)>
    ensures { result ≡ config_read bytes.now }
{
    if bytes.len() < CONFIG_BYTES {
        return None;
    }
    Some((u64::from(bytes[0]), u64::from(bytes[1])))
}

// The events behind a config, up to the first that ends early or is of no known kind.
#[derive(Drop)]
pub struct Events<'a> {
    pub rest: &'a [u8],
}

impl Iterator for Events<'_> {
    type Item = [u64; EVENT_LENGTH];

    ghost next_gives = { YieldsFirst (λ events. events_of events.rest.now) };

    ghost remaining = { item_count (λ events. events_of events.rest.now) };

    fn next(&mut self) -> Option<[u64; EVENT_LENGTH]> {
        let next = next_event(self.rest)?;
        let (taken, event) = next;
        self.rest = past(self.rest, taken);
        Some(event)
    }
}

// The first event, and how many bytes it takes; none if it ends early or is of no known kind.
pub fn next_event(bytes: &[u8]) -> Option<(usize, [u64; EVENT_LENGTH])>
    ensures { result ≡ next_event bytes.now }
{
    match Kind::try_from(u64::from(*bytes.first()?)).ok()? {
        Kind::Submit => read_submission(bytes),
        Kind::Withdraw => read_withdrawal(bytes),
        Kind::Report => read_report(bytes),
    }
}

fn read_submission(bytes: &[u8]) -> Option<(usize, [u64; EVENT_LENGTH])>
    ensures { result ≡ submission bytes.now }
{
    if bytes.len() < SUBMIT_BYTES {
        return None;
    }
    let count = bytes[5];
    let taken = SUBMIT_BYTES + usize::from(count);
    if bytes.len() < taken {
        return None;
    }
    let mut event = event_of(Kind::Submit, number_read(bytes), u64::from(count));
    event[PARTS_AT..EVENT_LENGTH].copy_from_slice(&padded(&bytes[SUBMIT_BYTES..taken]));
    Some((taken, event))
}

fn read_withdrawal(bytes: &[u8]) -> Option<(usize, [u64; EVENT_LENGTH])>
    ensures { result ≡ withdrawal bytes.now }
{
    if bytes.len() < WITHDRAW_BYTES {
        return None;
    }
    Some((
        WITHDRAW_BYTES,
        event_of(Kind::Withdraw, number_read(bytes), 0),
    ))
}

fn read_report(bytes: &[u8]) -> Option<(usize, [u64; EVENT_LENGTH])>
    ensures { result ≡ report bytes.now }
{
    if bytes.len() < REPORT_BYTES {
        return None;
    }
    let place = u64::from(bytes[1]);
    let value = u64::from(bytes[2]);
    Some((REPORT_BYTES, event_of(Kind::Report, place, value)))
}

// The numbers of an event of this kind, 0 behind these. Not a struct: the queue takes an event as a row of numbers.
fn event_of(kind: Kind, number: u64, value: u64) -> [u64; EVENT_LENGTH]
    ensures { result ≡ kind_number kind ∷ number ∷ value ∷ replicate most_parts 0 }
{
    let mut event = [0; EVENT_LENGTH];
    event[0] = u64::from(kind);
    event[1] = number;
    event[2] = value;
    event
}

// A change's number: four bytes behind the kind, low byte first.
fn number_read(bytes: &[u8]) -> u64
    requires { 5 ≤ length bytes.now }
    ensures { result ≡ number_read bytes.now }
{
    u64::from(u32::from_le_bytes([bytes[1], bytes[2], bytes[3], bytes[4]]))
}

// As many parts as a change can have, 0 where there are no more. Not `change::padded`: each byte is widened.
fn padded(parts: &[u8]) -> [u64; MOST_PARTS]
    ensures { result ≡ fixed most_parts parts.now }
{
    let mut all = [0; MOST_PARTS];
    // Not a `zip` with `all.iter_mut()`: nothing is known of `all` after one.
    for (i, part) in parts[..parts.len().min(MOST_PARTS)].iter().enumerate() {
        all[i] = u64::from(*part);
    }
    all
}
