// How the changes of a run are written: their numbers, parted by a plus.
ghost use Rattle.std.specs.Prelude.{false, [], ◌++◌, if◌then◌else◌, Some, codes, decimal};
ghost use Rattle.std.specs.Fmt.{WritesOnOk};
ghost use Rattle.run.specs.Text.{changes_text};

use std::fmt;

// What `{}` writes of the changes of a run.
#[derive(Clone, Copy)]
pub struct ChangesText<'a>(pub &'a [u64]);

impl fmt::Display for ChangesText<'_> {
    ghost output = { λ c. Some (changes_text false c.0.now) };

    fn fmt<W: fmt::Write>(&self, f: &mut fmt::Formatter<W>) -> fmt::Result {
        write_changes(f, false, self.0)
    }
}

// Writes changes of a run; `led` if others stand before them.
pub fn write_changes<W: fmt::Write>(
    f: &mut fmt::Formatter<W>,
    led: bool,
    numbers: &[u64],
) -> fmt::Result
    ensures { WritesOnOk W.write_str_gives f.old result (changes_text led numbers.now) f.new }
{
    let mut led = led;
    for number in numbers {
        write_number(f, led, *number)?;
        led = true;
    }
    Ok(())
}

// Writes the number of a change in a run, behind a plus if others stand before it.
pub fn write_number<W: fmt::Write>(f: &mut fmt::Formatter<W>, led: bool, number: u64) -> fmt::Result
    ensures { WritesOnOk W.write_str_gives f.old result ((if led then codes "+" else []) ++ decimal number) f.new }
{
    if led {
        write!(f, "+{number}")
    } else {
        write!(f, "{number}")
    }
}
