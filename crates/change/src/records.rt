// Changes as records of the lent queue: one record, and a section of them.
ghost use Rattle.std.specs.Prelude.{◌≡◌, ◌+◌, ◌*◌, ◌<◌, ◌≤◌, length, take, drop};
ghost use Rattle.std.specs.Slice.Iter.{chunks_exact_rest, chunks_exact_size};
ghost use Rattle.change.specs.Records.{ChangeRoundTrip, change_in, change_of, change_row, change_width, changes_in, fixed, some_numbers, table, written};

use super::change::{Change, MOST_PARTS};
use super::record::Record;
use std::slice::ChunksExact;

// A change's record: its number, its count of parts, and room for MOST_PARTS.
pub const CHANGE_WIDTH: usize = 10;

// The numbers, as many as there is room for, and 0 behind them.
pub fn padded<const N: usize>(numbers: &[u64]) -> [u64; N]
    ensures { result ≡ fixed N numbers.now }
{
    let mut all = [0; N];
    let n = numbers.len().min(N);
    all[..n].copy_from_slice(&numbers[..n]);
    all
}

// The n records of this width from `base` on, one after another.
pub fn records_at(queue: &[u64], base: usize, width: usize, n: usize) -> ChunksExact<'_, u64>
    requires within { base + width * n ≤ length queue.now }
    requires wide { 0 < width }
    ensures rest { chunks_exact_rest result ≡ take (width * n) (drop base queue.now) }
    ensures size { chunks_exact_size result ≡ width }
{
    queue[base..base + width * n].chunks_exact(width)
}

// The change that a record says.
pub fn read_change(row: &[u64]) -> Change
    requires { change_width ≤ length row.now }
    ensures { change_of result ≡ change_in row.now }
{
    let count = row[1].min(MOST_PARTS as u64);
    let mut parts = [0u64; MOST_PARTS];
    parts.copy_from_slice(&row[2..CHANGE_WIDTH]);
    Change {
        number: row[0],
        count,
        parts,
    }
}

// The change whose record starts at this index.
pub fn change_at(queue: &[u64], at: usize) -> Change
    requires { at + change_width ≤ length queue.now }
    ensures { change_of result ≡ change_in (drop at queue.now) }
{
    read_change(&queue[at..at + CHANGE_WIDTH])
}

impl Record for Change {
    ghost WIDTH = { change_width };

    ghost some = { some_numbers };

    ghost numbers = { λ c. change_row (change_of c) };

    const WIDTH: usize = CHANGE_WIDTH;

    fn write(self, over: &mut [u64]) {
        over[0] = self.number;
        over[1] = self.count;
        over[2..].copy_from_slice(&self.padded_parts());
    }
}

// A change that is written and read again is the same.
pub fn change_round_trip()
    ensures { ChangeRoundTrip }
{}

// Writes a record as it reads: no more parts than it has room for, and 0 in those that it does not use.
fn tidy_change(row: &mut [u64])
    requires { length row.old ≡ change_width }
    ensures { row.new ≡ change_row (change_in row.old) }
{
    let count = row[1].min(MOST_PARTS as u64);
    row[1] = count;
    // Written in any case and by index, so that no branch is taken: to read and write the change takes twice as long.
    for j in 0..MOST_PARTS {
        row[2 + j] = if (j as u64) < count { row[2 + j] } else { 0 };
    }
}

// Writes the first n changes of a section as they read, and 0 behind them.
pub fn tidy_changes(section: &mut [u64], n: usize)
    requires { change_width * n ≤ length section.old }
    ensures { section.new ≡ table change_row (length section.old) (changes_in n section.old) }
{
    // By index: once a loop over `chunks_exact_mut` is over, a proof knows no more of the slice than its length.
    for i in 0..n {
        tidy_change(&mut section[CHANGE_WIDTH * i..CHANGE_WIDTH * i + CHANGE_WIDTH]);
    }
    section[CHANGE_WIDTH * n..].fill(0);
}
