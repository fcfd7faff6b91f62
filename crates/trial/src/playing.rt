// A random day, played on a lent queue.
ghost use Rattle.std.specs.Prelude.{◌≤◌, length};
ghost use Rattle.run.specs.Layout.{queue_length};

use super::bench::HashBench;
use super::compare::{Difference, check_decided, check_running};
use super::random::Random;
use super::shape::Shape;
use super::state::{State, changes_of};
use super::tally::Counts;
use change::Change;
use queue::{Kind, Reply};
use run::{LANDED_COUNT, MOST_BENCHES, MOST_DEPTH, REJECTED_COUNT, RUN_WIDTH, WAITING_COUNT};
use serial::Bench;
use std::alloc::{AllocError, Global};

// Of 256 states so many are bad.
static RATES: [u64; 5] = [0, 4, 16, 64, 160];

#[derive(Drop)]
pub struct Day<'a> {
    heap: Global,
    queue: &'a mut [u64],
    random: Random,
    bench: HashBench,
    shape: Shape,
    // Of 16 events so many submit a change.
    submissions: u64,
    next: u64,
    // The changes submitted and not withdrawn, in the order of arrival.
    arrivals: Vec<Change>,
    // The day so far, as a day file.
    pub file: Vec<u8>,
    pub counts: Counts,
    pub difference: Option<Difference>,
    ghost long: { queue_length ≤ length queue.now },
}

// Plays the day of this seed, up to where the queue first differs from what it should do.
pub fn play(heap: Global, queue: &mut [u64], seed: u64) -> Result<Day<'_>, AllocError>
    requires { queue_length ≤ length queue.old }
{
    let mut day = Day::open(heap, queue, seed)?;
    day.difference = day.first_difference()?;
    Ok(day)
}

// The number of one of the changes.
fn pick(random: &mut Random, changes: &[Change]) -> Option<u64> {
    if changes.is_empty() {
        return None;
    }
    Some(changes[random.below(changes.len() as u64) as usize].number)
}

impl<'a> Day<'a> {
    // Opens the queue for a day of a random config.
    fn open(heap: Global, queue: &'a mut [u64], seed: u64) -> Result<Day<'a>, AllocError>
        requires { queue_length ≤ length queue.old }
    {
        let mut random = Random::new(seed);
        let bench = HashBench {
            seed: random.draw(),
            bad: RATES[random.below(5) as usize],
        };
        let shape = Shape::draw(&mut random);
        let submissions = 2 + random.below(12);
        let benches = 1 + random.below(MOST_BENCHES);
        let depth = 1 + random.below(MOST_DEPTH);
        let _ = queue::open(queue, benches, depth);
        let mut file = Vec::new(heap);
        file.push((benches & 0xff) as u8)?;
        file.push((depth & 0xff) as u8)?;
        Ok(Day {
            heap,
            queue,
            random,
            bench,
            shape,
            submissions,
            next: 1,
            arrivals: Vec::new(heap),
            file,
            counts: Counts::default(),
            difference: None,
        })
    }

    fn state(&self) -> State<'_> {
        State { queue: self.queue }
    }

    // Plays it to where the queue first differs, or to its end.
    fn first_difference(&mut self) -> Result<Option<Difference>, AllocError> {
        let length = 20 + self.random.below(120);
        for i in 0..length {
            self.next_event()?;
            let difference = self.check(i % 8 == 0)?;
            if difference.is_some() {
                return Ok(difference);
            }
        }
        self.report_all()?;
        let mut difference = self.check(true)?;
        if difference.is_none() && self.queue[WAITING_COUNT] > 0 {
            difference = Some(Difference::Undecided);
        }
        self.counts.landed = self.queue[LANDED_COUNT];
        self.counts.rejected = self.queue[REJECTED_COUNT];
        Ok(difference)
    }

    // Some days are crowded, on others the queue runs empty; few changes are withdrawn.
    fn next_event(&mut self) -> Result<(), AllocError> {
        match self.random.below(17) {
            draw if draw < self.submissions => self.submit(),
            16 => self.withdraw(),
            _ => self.report(),
        }
    }

    // Counts the event, and says whether it was taken.
    fn took(&mut self, reply: Reply) -> bool {
        self.counts.events = self.counts.events.saturating_add(1);
        if reply.is_err() {
            self.counts.refused = self.counts.refused.saturating_add(1);
        }
        reply.is_ok()
    }

    // Mostly a change of a new number; one in twelve has an old one.
    fn submit(&mut self) -> Result<(), AllocError> {
        let mut number = self.next;
        if self.random.once_in(12) {
            number = self.random.below(self.next.max(1));
        } else {
            self.next = self.next.saturating_add(1);
        }
        let c = self.shape.change(&mut self.random, number);
        self.write_submission(c)?;
        let reply = queue::submit(self.queue, c);
        if self.took(reply) {
            self.arrivals.push(c)?;
        }
        Ok(())
    }

    // In a day file numbers of changes are four bytes, low byte first, and parts are a byte each.
    fn write_submission(&mut self, c: Change) -> Result<(), AllocError> {
        self.file.push(Kind::Submit.into())?;
        self.file.extend_from_slice(&c.number.to_le_bytes()[..4])?;
        self.file.push((c.count & 0xff) as u8)?;
        self.file
            .extend(c.touched().iter().map(|part| (part & 0xff) as u8))
    }

    // Mostly a change that waits; one in four is any.
    fn withdraw(&mut self) -> Result<(), AllocError> {
        let heap = self.heap;
        let waiting: Vec<Change> = self.state().waiting().collect(heap)?;
        let mut number = self.random.below(self.next.max(1));
        if !self.random.once_in(4) {
            number = pick(&mut self.random, waiting.as_slice()).unwrap_or(number);
        }
        self.file.push(Kind::Withdraw.into())?;
        self.file.extend_from_slice(&number.to_le_bytes()[..4])?;
        let reply = queue::withdraw(self.queue, number);
        if self.took(reply) {
            if let Some(i) = self.arrivals.iter().position(|c| c.number == number) {
                let _ = self.arrivals.remove(i);
            }
        }
        Ok(())
    }

    // Mostly a run that is running; one in sixteen is at no place.
    fn report(&mut self) -> Result<(), AllocError> {
        let running = self.state().running().len();
        let mut place = running;
        if running > 0 && !self.random.once_in(16) {
            place = self.random.below(running as u64) as usize;
        }
        let good = match self.state().running().get(place) {
            Some(row) => self.judge(row)?,
            None => true,
        };
        self.file.push(Kind::Report.into())?;
        self.file.push((place & 0xff) as u8)?;
        self.file.push(u8::from(good))?;
        let reply = queue::report(self.queue, place as u64, good);
        let _ = self.took(reply);
        Ok(())
    }

    // What the bench says of the run with these numbers.
    fn judge(&self, row: &[u64; RUN_WIDTH]) -> Result<bool, AllocError> {
        let heap = self.heap;
        let landed: Vec<Change> = self.state().landed().collect(heap)?;
        let run = run::read_run(row);
        let changes = changes_of(heap, landed.as_slice(), run)?;
        Ok(self.bench.good(run.part, changes.as_slice()))
    }

    // Reports until no run is running: after so many reports at most, everything is decided.
    fn report_all(&mut self) -> Result<(), AllocError> {
        for _ in 0..100_000 {
            if self.state().running().is_empty() {
                break;
            }
            self.report()?;
        }
        Ok(())
    }

    // What is running at every event; what was decided where asked for, since that tests all changes anew.
    fn check(&self, decided: bool) -> Result<Option<Difference>, AllocError> {
        let difference = check_running(self.state());
        if difference.is_some() || !decided {
            return Ok(difference);
        }
        check_decided(
            self.heap,
            self.state(),
            &self.bench,
            self.arrivals.as_slice(),
        )
    }
}
