// Going through the changes of a section, from the first or from the last.
ghost use Rattle.std.specs.Prelude.{◌≡◌, ◌+◌, ◌*◌, ◌≤◌, length, drop};
ghost use Rattle.std.specs.Iterator.{YieldsFirstBy, YieldsLastBy, item_count};
ghost use Rattle.change.specs.Listed.{changes_of};
ghost use Rattle.change.specs.Records.{change_of, change_width, changes_in};

use super::super::change::Change;
use super::super::records::{CHANGE_WIDTH, change_at, read_change};
use super::Changes;

impl<'a> Changes<'a> {
    // The n changes from `base` on.
    pub fn at(queue: &'a [u64], base: usize, n: usize) -> Changes<'a>
        requires { base + change_width * n ≤ length queue.now }
        ensures { changes_of result ≡ changes_in n (drop base queue.now) }
    {
        Changes {
            numbers: &queue[base..],
            count: n,
        }
    }
}

impl Iterator for Changes<'_> {
    type Item = Change;

    ghost next_gives = { YieldsFirstBy change_of changes_of };

    ghost remaining = { item_count changes_of };

    fn next(&mut self) -> Option<Change> {
        if self.count == 0 {
            return None;
        }
        let c = read_change(self.numbers);
        self.numbers = &self.numbers[CHANGE_WIDTH..];
        self.count -= 1;
        Some(c)
    }
}

impl DoubleEndedIterator for Changes<'_> {
    ghost next_back_gives = { YieldsLastBy change_of changes_of };

    fn next_back(&mut self) -> Option<Change> {
        if self.count == 0 {
            return None;
        }
        self.count -= 1;
        Some(change_at(self.numbers, CHANGE_WIDTH * self.count))
    }
}
