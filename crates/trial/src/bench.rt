// The bench of a trial: a hash of the part and the changes in it says good or bad.
ghost use Rattle.std.specs.Prelude.{◌≡◌};
ghost use Rattle.trial.specs.Hash.{hash_says, mixed};

use serial::Bench;

#[derive(Clone, Copy)]
pub struct HashBench {
    pub seed: u64,
    // Of 256 states about so many are bad.
    pub bad: u64,
}

impl Bench for HashBench {
    ghost says = { λ b. hash_says b.seed b.bad };

    fn good(&self, part: u64, changes: &[u64]) -> bool {
        let hash = changes
            .iter()
            .fold(mix(self.seed, part), |hash, number| mix(hash, *number));
        self.bad <= hash >> 56
    }
}

// The hash with one number more.
fn mix(hash: u64, number: u64) -> u64
    ensures { result ≡ mixed hash number }
{
    hash.wrapping_add(number)
        .wrapping_mul(0x9e37_79b9_7f4a_7c15)
}
