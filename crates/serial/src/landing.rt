// Serial testing over any bench: what lands and what is rejected, one change at a time.
ghost use Rattle.std.specs.Prelude.{◌≡◌, [], map, IfOk};
ghost use Rattle.change.specs.Change.{line};
ghost use Rattle.change.specs.Records.{change_of};
ghost use Rattle.serial.specs.Serial.{passes as passes_over, serial_landed, serial_rejected};

use super::bench::Bench;
use change::Change;
use std::alloc::{AllocError, Global};

// The changes that were taken, by what became of them.
#[derive(Drop)]
pub struct Decided {
    pub landed: Vec<Change>,
    pub rejected: Vec<Change>,
}

// The part's line: the numbers of the changes that touch it, in order.
pub fn line_of(heap: Global, changes: &[Change], part: u64) -> Result<Vec<u64>, AllocError>
    ensures { IfOk result (λ v. v.items ≡ line part (map change_of changes.now)) }
{
    changes
        .iter()
        .copied()
        .filter(|c| c.touches(part))
        .map(|c| c.number)
        .collect(heap)
}

// Whether the change is good on each of its parts, on top of what has landed.
#[tactic(auto, unfolding(crate::specs::Serial::passes, crate::specs::Serial::passes_on))]
pub fn passes<B: Bench>(
    heap: Global,
    bench: &B,
    landed: &[Change],
    c: Change,
) -> Result<bool, AllocError>
    ensures { IfOk result (λ b. b ≡ passes_over (B.says bench.now) (map change_of landed.now) (change_of c)) }
{
    for part in c.touched() {
        let mut numbers = line_of(heap, landed, *part)?;
        numbers.push(c.number)?;
        if !bench.good(*part, numbers.as_slice()) {
            return Ok(false);
        }
    }
    Ok(true)
}

// Takes the changes one at a time: one that passes lands, another is rejected.
#[tactic(auto, unfolding(crate::specs::Serial::serial_landed, crate::specs::Serial::serial_rejected))]
pub fn decide_serially<B: Bench>(
    heap: Global,
    bench: &B,
    arrivals: &[Change],
) -> Result<Decided, AllocError>
    ensures landed { IfOk result (λ d. map change_of d.landed.items ≡ serial_landed (B.says bench.now) [] (map change_of arrivals.now)) }
    ensures rejected { IfOk result (λ d. map change_of d.rejected.items ≡ serial_rejected (B.says bench.now) [] (map change_of arrivals.now)) }
{
    let mut landed = Vec::new(heap);
    let mut rejected = Vec::new(heap);
    for c in arrivals {
        if passes(heap, bench, landed.as_slice(), *c)? {
            landed.push(*c)?;
        } else {
            rejected.push(*c)?;
        }
    }
    Ok(Decided { landed, rejected })
}
