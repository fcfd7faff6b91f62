// What a change by value can be asked.
ghost use Rattle.std.specs.Prelude.{◌≡◌, ◌≤◌, take};
ghost use Rattle.change.specs.Change.{has, share, fault, most_parts};
ghost use Rattle.change.specs.Records.{change_of, fixed};

use super::change::{Change, MOST_PARTS};
use super::records::padded;

// Every part's number is below this.
pub const PART_LIMIT: u64 = 64;

impl Change {
    // The parts that it touches, in its order.
    pub fn touched(&self) -> &[u64]
        ensures { result.now ≡ (change_of self.now).parts }
    {
        &self.parts[..self.count as usize]
    }

    // Whether the part stands among the first n. By index, so that the compiler reads single parts where the change lies:
    // a search through a slice, or through an iterator of them, copies the change first, and takes twice as long.
    fn among_first(self, n: usize, part: u64) -> bool
        requires { n ≤ most_parts }
        ensures { result ≡ has (take n self.parts) part }
    {
        for i in 0..n {
            if self.parts[i] == part {
                return true;
            }
        }
        false
    }

    // Whether the change touches the part.
    pub fn touches(self, part: u64) -> bool
        ensures { result ≡ has (change_of self).parts part }
    {
        self.among_first(self.count as usize, part)
    }

    // Whether the two changes touch a part in common.
    pub fn shares(self, other: Change) -> bool
        ensures { result ≡ share (change_of self).parts (change_of other).parts }
    {
        self.touched().iter().any(|part| other.touches(*part))
    }

    // Where the change is malformed: past its parts if it has none, else at the first that is too large or stood earlier.
    pub fn first_fault(self) -> Option<u64>
        ensures { result ≡ fault (change_of self) }
    {
        if self.count == 0 {
            return Some(MOST_PARTS as u64);
        }
        let parts = self.touched();
        for (i, part) in parts.iter().enumerate() {
            if *part >= PART_LIMIT || parts[..i].contains(part) {
                return Some(i as u64);
            }
        }
        None
    }

    // Its parts, 0 in what is not used.
    pub fn padded_parts(self) -> [u64; MOST_PARTS]
        ensures { result ≡ fixed most_parts (change_of self).parts }
    {
        padded(self.touched())
    }
}
