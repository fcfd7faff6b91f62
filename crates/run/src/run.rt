// A run by value, written short: its part, how many of the part's landed changes it begins with, and the numbers that follow.
ghost use Rattle.std.specs.Prelude.{◌≡◌, ◌≤◌, length};
ghost use Rattle.run.specs.Limits.{most_following};

// A run goes on with at most so many changes behind the landed ones.
pub const MOST_FOLLOWING: usize = 16;

// By value with an array as well: deciding and planning take no memory.
#[derive(Clone, Copy)]
pub struct Run {
    pub part: u64,
    pub begins: u64,
    pub follows: u64,
    pub numbers: [u64; MOST_FOLLOWING],
    ghost few: { follows ≤ most_following },
    ghost long: { length numbers ≡ most_following },
}
