// What can stand in a section of the lent queue: values that are written as records of one width.
ghost use Rattle.std.specs.Prelude.{◌≡◌, ℕ, ◌+◌, ◌*◌, ◌<◌, ◌≤◌, List, length};
ghost use Rattle.change.specs.Records.{row_out, written};

pub trait Record {
    // How many numbers a record has; there are some.
    ghost WIDTH: { ℕ };

    ghost some: { 0 < WIDTH };

    // The numbers of a value's record.
    ghost numbers: { Self → List ℕ };

    const WIDTH: usize;

    // Writes the value over a record.
    fn write(self, over: &mut [u64])
        requires { length over.old ≡ WIDTH }
        ensures { over.new ≡ numbers self };
}

// Writes the value behind the first n records of a section.
pub fn append<R: Record>(section: &mut [u64], n: usize, value: R)
    requires { R.WIDTH * (n + 1) ≤ length section.old }
    ensures { section.new ≡ written (R.WIDTH * n) (R.numbers value) section.old }
{
    let width = R::WIDTH;
    value.write(&mut section[width * n..width * n + width]);
}

// Takes record i out of the first n, closes the gap, and leaves 0 in the place of the last.
pub fn remove<R: Record>(section: &mut [u64], n: usize, i: usize)
    requires there { i < n }
    requires within { R.WIDTH * n ≤ length section.old }
    ensures { section.new ≡ row_out R.WIDTH n i section.old }
{
    remove_record(section, R::WIDTH, n, i);
}

// The same of records of this width, whatever they say.
pub fn remove_record(section: &mut [u64], width: usize, n: usize, i: usize)
    requires there { i < n }
    requires within { width * n ≤ length section.old }
    ensures { section.new ≡ row_out width n i section.old }
{
    let end = width * n;
    section[width * i..end].rotate_left(width);
    section[end - width..end].fill(0);
}
