// For each part, how many changes touch it: of one change more, of a section, and of a part that no tally has.
ghost use Rattle.std.specs.Prelude.{◌≡◌, ℕ, ◌+◌, ◌^◌, ◌<◌, ◌≤◌, length, if◌then◌else◌, slice_index};
ghost use Rattle.change.specs.Change.{has, line, part_limit};
ghost use Rattle.change.specs.Listed.{changes_of};
ghost use Rattle.change.specs.Records.{change_of, Tallies};

use super::change::Change;
use super::changes::Changes;
use super::methods::PART_LIMIT;

// A count for each part.
pub const PARTS: usize = PART_LIMIT as usize;

// Counts the change at each of its parts, once however often it names it; `stamp` is new to the stamps.
// By stamps: a search through the parts before takes the longer the more there are.
fn count_stamped(counts: &mut [u64; PARTS], stamps: &mut [u64; PARTS], stamp: u64, c: Change)
    requires few { (p : ℕ) → p < part_limit → slice_index counts.old p < 2 ^ 32 }
    requires new { (p : ℕ) → p < part_limit → slice_index stamps.old p < stamp }
    ensures counts { (p : ℕ) → p < part_limit → slice_index counts.new p ≡ slice_index counts.old p + (if has (change_of c).parts p then 1 else 0) }
    ensures stamps { (p : ℕ) → p < part_limit → slice_index stamps.new p ≤ stamp }
{
    for part in c.touched() {
        if *part < PART_LIMIT && stamps[*part as usize] != stamp {
            stamps[*part as usize] = stamp;
            counts[*part as usize] += 1;
        }
    }
}

// Counts the change at each of its parts, once however often it names it.
pub fn count_parts(counts: &mut [u64; PARTS], c: Change)
    requires { (p : ℕ) → p < part_limit → slice_index counts.old p < 2 ^ 32 }
    ensures { (p : ℕ) → p < part_limit → slice_index counts.new p ≡ slice_index counts.old p + (if has (change_of c).parts p then 1 else 0) }
{
    let mut stamps = [0; PARTS];
    count_stamped(counts, &mut stamps, 1, c);
}

impl Changes<'_> {
    // For each part, how many of them touch it.
    pub fn tally(self) -> [u64; PARTS]
        requires { length (changes_of self) < 2 ^ 32 }
        ensures { Tallies result (changes_of self.entry) }
    {
        let mut counts = [0; PARTS];
        let mut stamps = [0; PARTS];
        for (i, c) in self.enumerate() {
            count_stamped(&mut counts, &mut stamps, i as u64 + 1, c);
        }
        counts
    }

    // How many of them touch the part, by their tally; a part that no change may name is counted.
    pub fn count_of(self, tally: &[u64; PARTS], part: u64) -> u64
        requires { Tallies tally.now (changes_of self) }
        ensures { result ≡ length (line part (changes_of self.entry)) }
    {
        if part < PART_LIMIT {
            tally[part as usize]
        } else {
            self.count_touching(part)
        }
    }
}
