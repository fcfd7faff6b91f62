// What `{}` writes of verdicts, landed changes and faults.
ghost use Rattle.std.specs.Prelude.{Some};
ghost use Rattle.change.specs.Records.{change_of};
ghost use Rattle.run.specs.Text.{run_text};
ghost use Rattle.audits.specs.Audit.{fault_of, verdict_of};
ghost use Rattle.audits.specs.Text.{fault_text, landed_text, parts_text, verdict_text};

use super::fault::{Fault, Why};
use super::verdict::Verdict;
use change::Change;
use run::ChangesText;
use std::fmt;

// A part and the changes in it, as `0:1+2`.
#[derive(Clone, Copy)]
struct RunText<'a> {
    part: u64,
    changes: &'a [u64],
}

impl fmt::Display for RunText<'_> {
    ghost output = { λ r. Some (run_text (record { part = r.part; changes = r.changes.now })) };

    fn fmt<W: fmt::Write>(&self, f: &mut fmt::Formatter<W>) -> fmt::Result {
        let part = self.part;
        let changes = ChangesText(self.changes);
        write!(f, "{part}:{changes}")
    }
}

// A line of the log, as `0:1+2 good`.
impl fmt::Display for Verdict {
    ghost output = { λ v. Some (verdict_text (verdict_of v)) };

    fn fmt<W: fmt::Write>(&self, f: &mut fmt::Formatter<W>) -> fmt::Result {
        let run = RunText {
            part: self.part,
            changes: self.changes.as_slice(),
        };
        if self.good {
            write!(f, "{run} good")
        } else {
            write!(f, "{run} bad")
        }
    }
}

#[derive(Clone, Copy)]
struct Parts<'a>(&'a [u64]);

impl fmt::Display for Parts<'_> {
    ghost output = { λ p. Some (parts_text p.0.now) };

    fn fmt<W: fmt::Write>(&self, f: &mut fmt::Formatter<W>) -> fmt::Result {
        for part in self.0 {
            write!(f, " {part}")?;
        }
        Ok(())
    }
}

// A line of the main line, as `2 0 1`: a change's number, then its parts.
#[derive(Clone, Copy)]
pub struct Landed(pub Change);

impl fmt::Display for Landed {
    ghost output = { λ l. Some (landed_text (change_of l.0)) };

    fn fmt<W: fmt::Write>(&self, f: &mut fmt::Formatter<W>) -> fmt::Result {
        let c = self.0;
        let number = c.number;
        let parts = Parts(c.touched());
        write!(f, "{number}{parts}")
    }
}

// As `never run 1:2+3`.
impl fmt::Display for Fault {
    ghost output = { λ f. Some (fault_text (fault_of f)) };

    fn fmt<W: fmt::Write>(&self, f: &mut fmt::Formatter<W>) -> fmt::Result {
        let run = RunText {
            part: self.part,
            changes: self.changes.as_slice(),
        };
        match self.why {
            Why::NeverRun => write!(f, "never run {run}"),
            Why::WasBad => write!(f, "bad {run}"),
        }
    }
}
