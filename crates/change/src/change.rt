// A change by value: its number, and the parts that it touches.
ghost use Rattle.std.specs.Prelude.{◌≡◌, ◌≤◌, length};
ghost use Rattle.change.specs.Change.{most_parts};

// A change touches at most so many parts.
pub const MOST_PARTS: usize = 8;

// The user asked for a change by value with an array of eight parts; so many of them count.
#[derive(Clone, Copy)]
pub struct Change {
    pub number: u64,
    pub count: u64,
    pub parts: [u64; MOST_PARTS],
    ghost few: { count ≤ most_parts },
    ghost long: { length parts ≡ most_parts },
}
