// How many records each section of a checked queue holds.
ghost use Rattle.std.specs.Prelude.{◌≤◌};
ghost use Rattle.run.specs.Layout.{most_landed, most_waiting, most_rejected, most_verdicts, most_running};

#[derive(Clone, Copy)]
pub struct Counts {
    pub landed: usize,
    pub waiting: usize,
    pub rejected: usize,
    pub verdicts: usize,
    pub running: usize,
    ghost few_landed: { landed ≤ most_landed },
    ghost few_waiting: { waiting ≤ most_waiting },
    ghost few_rejected: { rejected ≤ most_rejected },
    ghost few_verdicts: { verdicts ≤ most_verdicts },
    ghost few_running: { running ≤ most_running },
}
