// The changes of a section of the lent queue.
ghost use Rattle.std.specs.Prelude.{◌*◌, ◌≤◌, length};
ghost use Rattle.change.specs.Records.{change_width};

mod iterating;
mod searching;

// So many changes, in numbers that begin with the record of the first. The count stands beside them, so that what is left is said without a division.
#[derive(Clone, Copy)]
pub struct Changes<'a> {
    numbers: &'a [u64],
    count: usize,
    ghost within: { change_width * count ≤ length numbers.now },
}
