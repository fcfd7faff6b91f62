// The line that is printed for a state, read from the queue's numbers.
ghost use Rattle.std.specs.Prelude.{◌≡◌, min, take, drop, IfOk, Some, slice_index, slice_index_or};
ghost use Rattle.std.specs.Iterator.{YieldsFirstRef, item_count};
ghost use Rattle.std.specs.List.{flat_map};
ghost use Rattle.change.specs.Change.{has, line};
ghost use Rattle.change.specs.Records.{change_in, changes_in, rows};
ghost use Rattle.run.specs.Records.{run_in, runs_in};
ghost use Rattle.run.specs.Numbers.{decode};
ghost use Rattle.day.specs.Text.{change_text, run_text, line_text, Begun};

use super::slices::{first, number_at, past};
use change::{CHANGE_WIDTH, MOST_PARTS};
use run::{
    LANDED_AT, LANDED_COUNT, MOST_FOLLOWING, REJECTED_AT, REJECTED_COUNT, REQUESTED_AT, RUN_WIDTH,
    RUNNING_AT, RUNNING_COUNT, WAITING_AT, WAITING_COUNT, write_changes, write_number,
};
use std::fmt;

// What `{}` writes of a queue's numbers: its state.
#[derive(Clone, Copy)]
pub struct StateLine<'a> {
    pub queue: &'a [u64],
}

impl fmt::Display for StateLine<'_> {
    ghost output = { λ l. Some (line_text (decode l.queue.now)) };

    fn fmt<W: fmt::Write>(&self, f: &mut fmt::Formatter<W>) -> fmt::Result {
        let records = Section::of(self.queue, LANDED_COUNT, LANDED_AT);
        let landed = Changes(records);
        let waiting = Changes(Section::of(self.queue, WAITING_COUNT, WAITING_AT));
        let rejected = Changes(Section::of(self.queue, REJECTED_COUNT, REJECTED_AT));
        let running = Runs {
            landed: records,
            running: Section::of(self.queue, RUNNING_COUNT, RUNNING_AT),
        };
        let requested = number_at(self.queue, REQUESTED_AT);
        write!(
            f,
            "landed{landed} waits{waiting} back{rejected} out{running} asked {requested}"
        )
    }
}

// So many records of a width, in numbers that begin with the first.
// Not `as_chunks`: any slice can be printed, and the count may be larger than what is there.
#[derive(Clone, Copy)]
struct Section<'a, const WIDTH: usize> {
    count: u64,
    numbers: &'a [u64],
}

impl<'a, const WIDTH: usize> Section<'a, WIDTH> {
    // The records from an index on, as many as the count at another index says.
    fn of(queue: &'a [u64], count_at: usize, at: usize) -> Self
        ensures count { result.count ≡ slice_index_or queue.now count_at 0 }
        ensures numbers { result.numbers.now ≡ drop at queue.now }
    {
        Self {
            count: number_at(queue, count_at),
            numbers: past(queue, at),
        }
    }
}

// For each record, the numbers that begin with it.
impl<'a, const WIDTH: usize> Iterator for Section<'a, WIDTH> {
    type Item = &'a [u64];

    ghost next_gives = { YieldsFirstRef (λ s. rows (λ xs. xs) WIDTH s.count s.numbers.now) };

    ghost remaining = { item_count (λ s. rows (λ xs. xs) WIDTH s.count s.numbers.now) };

    fn next(&mut self) -> Option<&'a [u64]> {
        if self.count == 0 {
            return None;
        }
        let row = self.numbers;
        self.numbers = past(row, WIDTH);
        self.count -= 1;
        Some(row)
    }
}

#[derive(Clone, Copy)]
struct Changes<'a>(Section<'a, CHANGE_WIDTH>);

impl fmt::Display for Changes<'_> {
    ghost output = { λ c. Some (flat_map change_text (changes_in c.0.count c.0.numbers.now)) };

    fn fmt<W: fmt::Write>(&self, f: &mut fmt::Formatter<W>) -> fmt::Result {
        for row in self.0 {
            let number = number_at(row, 0);
            write!(f, " {number}")?;
        }
        Ok(())
    }
}

// Whether the change that a record says touches the part. Not `Change::touches`: the record may be cut short.
fn touches(row: &[u64], part: u64) -> bool
    ensures { result ≡ has (change_in row.now).parts part }
{
    // Not `contains`: it looks at four at a time, and most changes touch fewer.
    let mut parts = counted(past(row, 1), MOST_PARTS).iter();
    parts.any(|touched| *touched == part)
}

// The numbers behind a count: as many as it says, and at most so many.
fn counted(numbers: &[u64], most: usize) -> &[u64]
    ensures { result.now ≡ take (min (slice_index numbers.now 0) most) (drop 1 numbers.now) }
{
    let count = number_at(numbers, 0).min(most as u64);
    first(past(numbers, 1), count as usize)
}

// Writes the landed changes that a run begins with, at most so many, and says whether there are any.
fn write_begun<W: fmt::Write>(
    f: &mut fmt::Formatter<W>,
    landed: Section<'_, CHANGE_WIDTH>,
    part: u64,
    most: u64,
) -> Result<bool, fmt::Error>
    ensures { IfOk result (λ led. Begun W.write_str_gives f.old (take most (line part (changes_in landed.entry.count landed.entry.numbers.now))) led f.new) }
{
    let mut led = false;
    let mut left = most;
    // Not `filter` and `take`: a `for` over a closure's chain is refused in a function with a type parameter.
    for row in landed {
        if left > 0 && touches(row, part) {
            write_number(f, led, number_at(row, 0))?;
            led = true;
            left -= 1;
        }
    }
    Ok(led)
}

#[derive(Clone, Copy)]
struct Run<'a> {
    landed: Section<'a, CHANGE_WIDTH>,
    row: &'a [u64],
}

impl fmt::Display for Run<'_> {
    ghost output = { λ r. Some (run_text (run_in (changes_in r.landed.count r.landed.numbers.now) r.row.now)) };

    fn fmt<W: fmt::Write>(&self, f: &mut fmt::Formatter<W>) -> fmt::Result {
        let part = number_at(self.row, 0);
        let most = number_at(self.row, 1);
        write!(f, " {part}:")?;
        let led = write_begun(f, self.landed, part, most)?;
        write_changes(f, led, counted(past(self.row, 2), MOST_FOLLOWING))
    }
}

#[derive(Clone, Copy)]
struct Runs<'a> {
    landed: Section<'a, CHANGE_WIDTH>,
    running: Section<'a, RUN_WIDTH>,
}

impl fmt::Display for Runs<'_> {
    ghost output = { λ r. Some (flat_map run_text (runs_in (changes_in r.landed.count r.landed.numbers.now) r.running.count r.running.numbers.now)) };

    fn fmt<W: fmt::Write>(&self, f: &mut fmt::Formatter<W>) -> fmt::Result {
        for row in self.running {
            let run = Run {
                landed: self.landed,
                row,
            };
            write!(f, "{run}")?;
        }
        Ok(())
    }
}
