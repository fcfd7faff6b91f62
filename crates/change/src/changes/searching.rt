// What the changes of a section can be asked.
ghost use Rattle.std.specs.Prelude.{◌≡◌, length};
ghost use Rattle.change.specs.Change.{line, numbered, place_of};
ghost use Rattle.change.specs.Listed.{changes_of};

use super::Changes;

impl Changes<'_> {
    // How many of them touch the part.
    pub fn count_touching(self, part: u64) -> u64
        ensures { result ≡ length (line part (changes_of self.entry)) }
    {
        self.filter(|c| c.touches(part)).count() as u64
    }

    // The place of the first that has the number.
    pub fn find_number(mut self, number: u64) -> Option<usize>
        ensures { result ≡ place_of number (changes_of self.entry) }
    {
        self.position(|c| c.number == number)
    }

    // Whether one of them has the number.
    pub fn number_used(mut self, number: u64) -> bool
        ensures { result ≡ numbered number (changes_of self.entry) }
    {
        self.any(|c| c.number == number)
    }
}
