// The definitions of this crate on the worked day.
ghost use Rattle.day.specs.WorkedDay.{WorkedFile, WorkedLines};

use queue::worked_day;

// Its file says its events.
pub fn worked_file()
    ensures { WorkedFile }
{}

// Its states are printed as these lines.
pub fn worked_lines()
    ensures { WorkedLines }
{
    worked_day()
}
