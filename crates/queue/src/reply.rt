// What the queue answers to an event.
ghost use Rattle.std.specs.Prelude.{◌≡◌, Some};
ghost use Rattle.queue.specs.Refusals.{refusal_code, refusal_text};

use std::fmt;

// Why an event is turned away. Its number and place are those of the definition `refusal_code`.
#[derive(Clone, Copy, PartialEq, Eq)]
pub enum Refusal {
    // The lent slice is no queue: its length, or the index at which it breaks a rule.
    Malformed(u64),
    // No benches, or more than 16.
    Benches,
    // A depth of 0, or above 16.
    Depth,
    // The event is too short, of no known kind, or its number is too large.
    Event,
    // A change of this number landed, waits or was rejected.
    NumberUsed(u64),
    // The change touches no or too many parts, or the part at this place is too large or stood earlier.
    Parts(u64),
    // No change of this number waits.
    NotWaiting(u64),
    // No run is running at this place.
    NotRunning(u64),
    // As many changes wait as may.
    WaitingFull,
    // Those that wait could not all land.
    LandedFull,
    // Those that wait could not all be rejected.
    RejectedFull,
    // As many verdicts are held as may be.
    VerdictsFull,
    // As many runs were requested as can be counted.
    RequestsSpent,
}

// The event was taken, and so many runs are running now; or it was turned away, and the queue is as it was.
pub type Reply = Result<u64, Refusal>;

impl Refusal {
    // The refusal's number and its place. Not a `From`: a conversion to two numbers would not say which.
    pub fn code(self) -> (u64, u64)
        ensures number { result.0 ≡ (refusal_code self).number }
        ensures place { result.1 ≡ (refusal_code self).place }
    {
        match self {
            Refusal::Malformed(place) => (1, place),
            Refusal::Benches => (2, 0),
            Refusal::Depth => (3, 1),
            Refusal::Event => (4, 0),
            Refusal::NumberUsed(number) => (5, number),
            Refusal::Parts(place) => (6, place),
            Refusal::NotWaiting(number) => (7, number),
            Refusal::NotRunning(place) => (8, place),
            Refusal::WaitingFull => (9, 0),
            Refusal::LandedFull => (9, 1),
            Refusal::RejectedFull => (9, 2),
            Refusal::VerdictsFull => (10, 0),
            Refusal::RequestsSpent => (10, 1),
        }
    }
}

// What `{}` writes of a refusal.
impl fmt::Display for Refusal {
    ghost output = { λ refusal. Some (refusal_text refusal) };

    fn fmt<W: fmt::Write>(&self, f: &mut fmt::Formatter<W>) -> fmt::Result {
        let (number, place) = self.code();
        write!(f, "refused {number} at {place}")
    }
}
