// The shape of a random day's changes: how many parts there are, and how many of them a change touches.
ghost use Rattle.std.specs.Prelude.{◌≡◌, ◌<◌, ◌≤◌};

use super::random::Random;
use change::{Change, MOST_PARTS, PART_LIMIT};

// Primes, so that steps of any size from any part go through all of them.
static PARTS: [u64; 8] = [1, 2, 3, 5, 7, 11, 17, 61];

#[derive(Clone, Copy)]
pub struct Shape {
    parts: u64,
    most: u64,
    ghost some: { 0 < parts },
    ghost few: { parts ≤ 61 },
    ghost touched: { 0 < most },
    ghost narrow: { most ≤ 8 },
}

impl Shape {
    pub fn draw(random: &mut Random) -> Shape {
        let parts = PARTS[random.below(8) as usize].clamp(1, 61);
        let most = 1 + random.below(parts.min(MOST_PARTS as u64));
        Shape { parts, most }
    }

    // A change of this number; now and then it names a part that there is not, a part twice, or no part.
    pub fn change(self, random: &mut Random, number: u64) -> Change {
        let mut parts = self.parts_in_order(random);
        let mut count = 1 + random.below(self.most);
        match random.below(32) {
            0 => parts[0] = PART_LIMIT,
            1 => parts[1] = parts[0],
            2 => count = 0,
            _ => {}
        }
        Change {
            number,
            count,
            parts,
        }
    }

    // Parts that follow each other in steps of one size.
    fn parts_in_order(self, random: &mut Random) -> [u64; MOST_PARTS] {
        let step = 1 + random.below(self.parts.max(2) - 1);
        let mut part = random.below(self.parts);
        let mut parts = [0; MOST_PARTS];
        for each in &mut parts {
            *each = part;
            part = (part + step) % self.parts;
        }
        parts
    }
}
