// The kinds of event that the entry takes, and their numbers.
ghost use Rattle.std.specs.Prelude.{◌≡◌};
ghost use Rattle.queue.specs.Stages.{KindOf, kind_number};

use super::reply::Refusal;

#[derive(Clone, Copy, PartialEq, Eq)]
pub enum Kind {
    Submit,
    Withdraw,
    Report,
}

impl TryFrom<u64> for Kind {
    type Error = Refusal;

    ghost try_from_gives = { KindOf };

    fn try_from(number: u64) -> Result<Kind, Refusal> {
        match number {
            0 => Ok(Kind::Submit),
            1 => Ok(Kind::Withdraw),
            2 => Ok(Kind::Report),
            _ => Err(Refusal::Event),
        }
    }
}

impl From<Kind> for u8 {
    ghost from_gives = { λ kind number. number ≡ kind_number kind };

    fn from(kind: Kind) -> u8 {
        match kind {
            Kind::Submit => 0,
            Kind::Withdraw => 1,
            Kind::Report => 2,
        }
    }
}

impl From<Kind> for u64 {
    ghost from_gives = { λ kind number. number ≡ kind_number kind };

    fn from(kind: Kind) -> u64 {
        u64::from(u8::from(kind))
    }
}
