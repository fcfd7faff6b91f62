// The audit: each state of the main line, in order, against all verdicts.
ghost use Rattle.std.specs.Prelude.{◌≡◌, [], ◌∷◌, map, length, IfOk};
ghost use Rattle.std.specs.Option.{option_map};
ghost use Rattle.change.specs.Records.{change_of};
ghost use Rattle.run.specs.Run.{same_run};
ghost use Rattle.audits.specs.Audit.{AcceptsExactly, audited, fault_of, first_fault, log_says, states, states_at, verdict_of};

use super::fault::{Fault, Why};
use super::verdict::Verdict;
use change::Change;
use run::Known;
use serial::line_of;
use std::alloc::{AllocError, Global};

impl Verdict {
    // Whether it is a verdict on the part with these changes.
    #[tactic(auto, using(run::proofs::Compared::same_list_by_eq))]
    pub fn is_of(&self, part: u64, changes: &[u64]) -> bool
        ensures { result ≡ same_run (record { part = part; changes = changes.now }) (verdict_of self.now).run }
    {
        part == self.part && changes == self.changes.as_slice()
    }
}

// What the log says of a run: bad if one of its verdicts is, else good if one is.
#[tactic(auto, using(crate::proofs::Log::reading_is))]
pub fn log_says(verdicts: &[Verdict], part: u64, changes: &[u64]) -> Known
    ensures { result ≡ log_says (record { part = part; changes = changes.now }) (map verdict_of verdicts.now) }
{
    let mut known = Known::Nothing;
    for v in verdicts {
        if v.is_of(part, changes) {
            if !v.good {
                return Known::Bad;
            }
            known = Known::Good;
        }
    }
    known
}

// Who audits: the verdicts that must vouch for a state, and the heap for its changes.
#[derive(Clone, Copy)]
struct Auditor<'a> {
    heap: Global,
    verdicts: &'a [Verdict],
}

impl Auditor<'_> {
    // What is wrong with the part's state in this main line.
    fn state_fault(self, main: &[Change], part: u64) -> Result<Option<Fault>, AllocError>
        ensures { IfOk result (λ f. option_map fault_of f ≡ first_fault (map verdict_of self.entry.verdicts.now) (states_at (map change_of main.now) (part ∷ []))) }
    {
        let changes = line_of(self.heap, main, part)?;
        let why = match log_says(self.verdicts, part, changes.as_slice()) {
            Known::Good => return Ok(None),
            Known::Nothing => Why::NeverRun,
            Known::Bad => Why::WasBad,
        };
        Ok(Some(Fault { why, part, changes }))
    }

    // The first of these parts' states in this main line that is at fault.
    fn first_fault(self, main: &[Change], parts: &[u64]) -> Result<Option<Fault>, AllocError>
        ensures { IfOk result (λ f. option_map fault_of f ≡ first_fault (map verdict_of self.entry.verdicts.now) (states_at (map change_of main.now) parts.now)) }
    {
        for part in parts {
            let fault = self.state_fault(main, *part)?;
            if fault.is_some() {
                return Ok(fault);
            }
        }
        Ok(None)
    }
}

// The first state of the main line that was never run, or was bad.
pub fn audit(
    heap: Global,
    verdicts: &[Verdict],
    main: &[Change],
) -> Result<Option<Fault>, AllocError>
    ensures { IfOk result (λ f. option_map fault_of f ≡ audited (map verdict_of verdicts.now) (map change_of main.now)) }
{
    let auditor = Auditor { heap, verdicts };
    for (i, c) in main.iter().enumerate() {
        let fault = auditor.first_fault(&main[..=i], c.touched())?;
        if fault.is_some() {
            return Ok(fault);
        }
    }
    Ok(None)
}

// How many states parts had in the main line.
pub fn count_states(main: &[Change]) -> u128
    ensures { result ≡ length (states (map change_of main.now)) }
{
    main.iter().map(|c| u128::from(c.count)).sum()
}

// The audit accepts exactly the main lines that the log vouches for.
pub fn accepts_exactly()
    ensures { AcceptsExactly }
{}
