// Records that planning keeps: one behind the other, and 0 where there is room for more. An array and a count, as planning takes no memory.
ghost use Rattle.std.specs.Prelude.{◌≡◌, ◌+◌, ◌*◌, ◌≤◌, length, replicate};
ghost use Rattle.change.specs.Records.{written};
ghost use Rattle.run.specs.Records.{run_width};
ghost use Rattle.plan.specs.Rows.{has_row, run_rows};

use change::{Record, append, records_at};
use run::RUN_WIDTH;

#[derive(Drop)]
pub struct Kept<const N: usize> {
    pub numbers: [u64; N],
    pub count: usize,
    ghost long: { length numbers ≡ N },
}

impl<const N: usize> Kept<N> {
    pub fn none() -> Kept<N>
        ensures numbers { result.numbers ≡ replicate N 0 }
        ensures count { result.count ≡ 0 }
    {
        Kept {
            numbers: [0; N],
            count: 0,
        }
    }

    // One more is kept.
    pub fn push<R: Record>(&mut self, value: R)
        requires { R.WIDTH * (self.old.count + 1) ≤ N }
        ensures numbers { self.new.numbers ≡ written (R.WIDTH * self.old.count) (R.numbers value) self.old.numbers }
        ensures count { self.new.count ≡ self.old.count + 1 }
    {
        append(&mut self.numbers, self.count, value);
        self.count += 1;
    }

    // Whether one of the records, which have this width, begins with the row of a run.
    pub fn has(&self, width: usize, row: &[u64]) -> bool
        requires within { width * self.now.count ≤ N }
        requires wide { run_width ≤ width }
        requires row { length row.now ≡ run_width }
        ensures { result ≡ has_row row.now (run_rows width self.now.count self.now.numbers) }
    {
        for record in records_at(&self.numbers, 0, width, self.count) {
            // Most are of other parts; these need not be compared.
            if record[0] == row[0] && row == &record[..RUN_WIDTH] {
                return true;
            }
        }
        false
    }
}
