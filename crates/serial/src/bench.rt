// A deterministic bench: a function of a part and the changes in it.
ghost use Rattle.std.specs.Prelude.{◌≡◌, ℕ, Bool, List};

pub trait Bench {
    // What it says of a part with these changes in it, in this order.
    ghost says: { Self → ℕ → List ℕ → Bool };

    // Whether the part with these changes is good.
    fn good(&self, part: u64, changes: &[u64]) -> bool
        ensures { result ≡ says self.now part changes.now };
}
