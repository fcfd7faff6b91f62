// What is wrong with a line of an audit's two texts.
ghost use Rattle.std.specs.Prelude.{◌≡◌};
ghost use Rattle.audits.specs.declared.malformed.Unread.TheVariants.{Line, Memory};

use std::alloc::{AllocError, AllocFailed};
use std::fmt;

#[derive(Clone, Copy, PartialEq, Eq)]
pub enum Malformed {
    // No `good` or `bad` behind a blank.
    Verdict,
    // No part in front of a colon, or one that is too large.
    Part,
    // A change's number is none, or is too large.
    Number,
    // No or too many parts, one that is too large, or one that is named twice.
    Parts,
    // Zeros in front of a number.
    Zeros,
    // More than a blank between two numbers, or zeros in front of one.
    Blanks,
}

impl fmt::Display for Malformed {
    fn fmt<W: fmt::Write>(&self, f: &mut fmt::Formatter<W>) -> fmt::Result {
        f.write_str(match self {
            Malformed::Verdict => "expected a run, a blank, and good or bad, as in 0:1+2 good",
            Malformed::Part =>
                "expected a part below 64 and a colon in front of the changes, as in 0:1+2",
            Malformed::Number => "expected a change's number, below 4294967296",
            Malformed::Parts =>
                "expected 1 to 8 different parts, each below 64, behind the change's number",
            Malformed::Zeros => "expected numbers with no zeros in front",
            Malformed::Blanks =>
                "expected numbers with no zeros in front, and one blank between two of them",
        })
    }
}

// Why a line was not read.
#[derive(Clone, Copy)]
pub enum Unread {
    Memory,
    Line(Malformed),
}

impl From<Malformed> for Unread {
    ghost from_gives = { λ m u. u ≡ Line m };

    fn from(malformed: Malformed) -> Unread {
        Unread::Line(malformed)
    }
}

impl From<AllocError> for Unread {
    ghost from_gives = { λ _ u. u ≡ Memory };

    fn from(_e: AllocError) -> Unread {
        Unread::Memory
    }
}

impl<T: Drop> From<AllocFailed<T>> for Unread {
    ghost from_gives = { λ _ u. u ≡ Memory };

    fn from(_e: AllocFailed<T>) -> Unread {
        Unread::Memory
    }
}

// The first line of a text that was not read, counted from 0, and why.
#[derive(Clone, Copy)]
pub struct UnreadLine {
    pub line: usize,
    pub why: Unread,
}
