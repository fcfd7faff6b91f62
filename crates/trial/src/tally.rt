// How much was played.
use std::fmt;
use std::ops::AddAssign;

// Of one day, or of all together; what there is too much of to count stays at the most that a count can be.
#[derive(Clone, Copy, Default)]
pub struct Counts {
    pub events: u64,
    pub refused: u64,
    pub landed: u64,
    pub rejected: u64,
}

impl AddAssign for Counts {
    fn add_assign(&mut self, more: Counts) {
        self.events = self.events.saturating_add(more.events);
        self.refused = self.refused.saturating_add(more.refused);
        self.landed = self.landed.saturating_add(more.landed);
        self.rejected = self.rejected.saturating_add(more.rejected);
    }
}

#[derive(Clone, Copy, Default)]
pub struct Tally {
    days: u64,
    counts: Counts,
}

impl Tally {
    pub fn add(&mut self, day: Counts) {
        self.days = self.days.saturating_add(1);
        self.counts += day;
    }
}

impl fmt::Display for Tally {
    fn fmt<W: fmt::Write>(&self, f: &mut fmt::Formatter<W>) -> fmt::Result {
        let Tally { days, counts } = *self;
        let Counts {
            events,
            refused,
            landed,
            rejected,
        } = counts;
        write!(
            f,
            "{days} days, {events} events ({refused} refused), {landed} changes landed, {rejected} rejected"
        )
    }
}
