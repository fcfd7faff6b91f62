// One check for each row of the refusals: each hands on its value, or leaves with the refusal. Those of `Held` ask a queue whose counts keep to their sections.
ghost use Rattle.std.specs.Prelude.{◌≡◌, ◌+◌, ◌*◌, ◌<◌, ◌≤◌, ◌&&◌, length, drop, nat_le, Some, slice_index};
ghost use Rattle.change.specs.Change.{place_of};
ghost use Rattle.change.specs.Listed.{changes_of};
ghost use Rattle.change.specs.Records.{Tallies, change_in, change_of};
ghost use Rattle.std.specs.Option.{option_map};
ghost use Rattle.queue.specs.Queue.{used};
ghost use Rattle.queue.specs.Stages.{Roomy, kind_number};
ghost use Rattle.run.specs.Layout.{event_length, most_landed, most_rejected, most_verdicts, number_limit, queue_length, requested_at};
ghost use Rattle.run.specs.Numbers.{RunsFit, landed_in, rejected_in, waiting_in};
ghost use Rattle.queue.specs.Refusals.{Hands, benches_check, check_of, count_check, counts_check, depth_check, event_check, length_check, number_check, over, overlong, parts_check, unless, records_check, requests_check, room_check, runs_check, sums_check, verdicts_check, waits_check, place_check, report_kind};
ghost use Rattle.queue.specs.declared.reply.Refusal.TheVariants.{Malformed};

use super::counts::Counts;
use super::held::Held;
use super::kind::Kind;
use super::reply::Refusal;
use change::{CHANGE_WIDTH, Change, Changes, MOST_PARTS, PARTS, records_at};
use run::*;

// The slice is long enough for a queue.
pub fn check_length(queue: &[u64]) -> Result<usize, Refusal>
    ensures says { check_of result ≡ length_check queue.now }
    ensures hands { Hands result (λ n. queue_length ≤ length queue.now) }
{
    let n = queue.len();
    if n < QUEUE_LENGTH {
        Err(Refusal::Malformed(n as u64))
    } else {
        Ok(n)
    }
}

// Each count keeps to its section.
pub fn check_counts(queue: &[u64]) -> Result<Held<'_>, Refusal>
    requires { queue_length ≤ length queue.now }
    ensures says { check_of result ≡ counts_check queue.now }
    ensures hands { Hands result (λ h. h.queue.now ≡ queue.now) }
{
    let landed = count_at(queue, LANDED_COUNT, MOST_LANDED)?;
    let waiting = count_at(queue, WAITING_COUNT, MOST_WAITING)?;
    let rejected = count_at(queue, REJECTED_COUNT, MOST_REJECTED)?;
    let verdicts = count_at(queue, VERDICTS_COUNT, MOST_VERDICTS)?;
    let running = count_at(queue, RUNNING_COUNT, MOST_RUNNING)?;
    let counts = Counts {
        landed,
        waiting,
        rejected,
        verdicts,
        running,
    };
    Ok(Held { queue, counts })
}

// The count at this index, if it is at most so much.
fn count_at(queue: &[u64], at: usize, most: usize) -> Result<usize, Refusal>
    requires { at < length queue.now }
    ensures says { check_of result ≡ count_check at most queue.now }
    ensures hands { Hands result (λ n. (n ≡ slice_index queue.now at) × (n ≤ most)) }
{
    let n = queue[at];
    if n > most as u64 {
        Err(Refusal::Malformed(at as u64))
    } else {
        Ok(n as usize)
    }
}

// None of n records from `base` on has, at this field, a count above the most.
fn check_field(
    queue: &[u64],
    base: usize,
    width: usize,
    field: usize,
    most: usize,
    n: usize,
) -> Result<usize, Refusal>
    requires fits { base + width * n ≤ length queue.now }
    requires inside { field < width }
    ensures says { check_of result ≡ option_map Malformed (over width field most n base queue.now) }
    ensures hands { Hands result (λ m. m ≡ n) }
{
    match records_at(queue, base, width, n).position(|row| row[field] > most as u64) {
        Some(i) => Err(Refusal::Malformed((base + width * i + field) as u64)),
        None => Ok(n),
    }
}

// None of n runs in records from `base` on begins with more landed changes than its part has.
fn check_begins(
    queue: &[u64],
    tally: &[u64; PARTS],
    landed: Changes<'_>,
    base: usize,
    width: usize,
    n: usize,
) -> Result<usize, Refusal>
    requires fits { base + width * n ≤ length queue.now }
    requires wide { 1 < width }
    requires tallied { Tallies tally.now (changes_of landed) }
    ensures says { check_of result ≡ option_map Malformed (overlong (changes_of landed.entry) width n base queue.now) }
    ensures hands { Hands result (λ m. m ≡ n) }
{
    let mut runs = records_at(queue, base, width, n);
    match runs.position(|run| run[1] > landed.count_of(tally, run[0])) {
        Some(i) => Err(Refusal::Malformed((base + width * i) as u64)),
        None => Ok(n),
    }
}

impl<'a> Held<'a> {
    // The changes that landed, that wait, and that were rejected.
    fn landed(self) -> Changes<'a>
        ensures { changes_of result ≡ landed_in self.entry.queue.now }
    {
        Changes::at(self.queue, LANDED_AT, self.counts.landed)
    }

    fn waiting(self) -> Changes<'a>
        ensures { changes_of result ≡ waiting_in self.entry.queue.now }
    {
        Changes::at(self.queue, WAITING_AT, self.counts.waiting)
    }

    fn rejected(self) -> Changes<'a>
        ensures { changes_of result ≡ rejected_in self.entry.queue.now }
    {
        Changes::at(self.queue, REJECTED_AT, self.counts.rejected)
    }

    // No change has too many parts, and no run too many changes that follow.
    pub fn check_records(self) -> Result<Counts, Refusal>
        ensures says { check_of result ≡ records_check self.entry.queue.now }
        ensures hands { Hands result (λ n. n ≡ self.entry.counts) }
    {
        let queue = self.queue;
        let counts = self.counts;
        let parts = MOST_PARTS;
        let _landed = check_field(queue, LANDED_AT, CHANGE_WIDTH, 1, parts, counts.landed)?;
        let _waiting = check_field(queue, WAITING_AT, CHANGE_WIDTH, 1, parts, counts.waiting)?;
        let _rejected = check_field(queue, REJECTED_AT, CHANGE_WIDTH, 1, parts, counts.rejected)?;
        let follow = MOST_FOLLOWING;
        let verdicts = counts.verdicts;
        let _verdicts = check_field(queue, VERDICTS_AT, VERDICT_WIDTH, 2, follow, verdicts)?;
        let _running = check_field(queue, RUNNING_AT, RUN_WIDTH, 2, follow, counts.running)?;
        Ok(counts)
    }

    // All that wait could land, and all could be rejected.
    pub fn check_sums(self) -> Result<Counts, Refusal>
        ensures says { check_of result ≡ sums_check self.entry.queue.now }
        ensures hands { Hands result (λ n. (n ≡ self.entry.counts) × (self.entry.counts.landed + self.entry.counts.waiting ≤ most_landed) × (self.entry.counts.rejected + self.entry.counts.waiting ≤ most_rejected)) }
    {
        if self.counts.landed + self.counts.waiting > MOST_LANDED {
            return Err(Refusal::Malformed(LANDED_COUNT as u64));
        }
        if self.counts.rejected + self.counts.waiting > MOST_REJECTED {
            return Err(Refusal::Malformed(REJECTED_COUNT as u64));
        }
        Ok(self.counts)
    }

    // No run begins with more landed changes than its part has; how many landed changes each part has.
    pub fn check_runs(self) -> Result<[u64; PARTS], Refusal>
        ensures says { check_of result ≡ runs_check self.entry.queue.now }
        ensures hands { Hands result (λ t. Tallies t (landed_in self.entry.queue.now) × RunsFit self.entry.queue.now) }
    {
        let landed = self.landed();
        let tally = landed.tally();
        let held = self.counts.verdicts;
        let _verdicts = check_begins(self.queue, &tally, landed, VERDICTS_AT, VERDICT_WIDTH, held)?;
        let running = self.counts.running;
        let _running = check_begins(self.queue, &tally, landed, RUNNING_AT, RUN_WIDTH, running)?;
        Ok(tally)
    }

    // Whether a change that landed, waits or was rejected has the number.
    fn used(self, number: u64) -> bool
        ensures { result ≡ used number (landed_in self.entry.queue.now) (waiting_in self.entry.queue.now) (rejected_in self.entry.queue.now) }
    {
        self.landed().number_used(number)
            || self.waiting().number_used(number)
            || self.rejected().number_used(number)
    }

    // No change that landed, waits or was rejected has the number.
    pub fn check_number(self, number: u64) -> Result<u64, Refusal>
        ensures says { check_of result ≡ number_check self.entry.queue.now number }
        ensures hands { Hands result (λ n. n ≡ number) }
    {
        if self.used(number) {
            Err(Refusal::NumberUsed(number))
        } else {
            Ok(number)
        }
    }

    // The place of the change of this number among those that wait.
    pub fn check_waits(self, number: u64) -> Result<usize, Refusal>
        ensures says { check_of result ≡ waits_check self.entry.queue.now number }
        ensures hands { Hands result (λ i. place_of number (waiting_in self.entry.queue.now) ≡ Some i) }
    {
        let Some(place) = self.waiting().find_number(number) else {
            return Err(Refusal::NotWaiting(number));
        };
        Ok(place)
    }

    // One more can wait; the place where it will.
    pub fn check_room(self) -> Result<usize, Refusal>
        ensures says { check_of result ≡ room_check self.entry.queue.now }
        ensures hands { Hands result (λ i. (i ≡ self.entry.counts.waiting) × Roomy self.entry.counts) }
    {
        if self.counts.waiting >= MOST_WAITING {
            return Err(Refusal::WaitingFull);
        }
        if self.counts.landed + self.counts.waiting >= MOST_LANDED {
            return Err(Refusal::LandedFull);
        }
        if self.counts.rejected + self.counts.waiting >= MOST_REJECTED {
            return Err(Refusal::RejectedFull);
        }
        Ok(self.counts.waiting)
    }

    // The place of a run that is running.
    pub fn check_place(self, place: u64) -> Result<usize, Refusal>
        ensures says { check_of result ≡ place_check self.entry.queue.now place }
        ensures hands { Hands result (λ i. (i ≡ place) × (i < self.entry.counts.running)) }
    {
        if place >= self.counts.running as u64 {
            return Err(Refusal::NotRunning(place));
        }
        Ok(place as usize)
    }

    // One more verdict can be held; the place where it will stand.
    pub fn check_verdicts(self) -> Result<usize, Refusal>
        ensures says { check_of result ≡ verdicts_check self.entry.queue.now }
        ensures hands { Hands result (λ i. (i ≡ self.entry.counts.verdicts) × (i < most_verdicts)) }
    {
        if self.counts.verdicts >= MOST_VERDICTS {
            return Err(Refusal::VerdictsFull);
        }
        Ok(self.counts.verdicts)
    }

    // How many runs were requested, if one more can be counted.
    pub fn check_requests(self) -> Result<u64, Refusal>
        ensures says { check_of result ≡ requests_check self.entry.queue.now }
        ensures hands { Hands result (λ n. (n ≡ slice_index self.entry.queue.now requested_at) × (n < number_limit)) }
    {
        let requested = self.queue[REQUESTED_AT];
        if requested >= NUMBER_LIMIT {
            Err(Refusal::RequestsSpent)
        } else {
            Ok(requested)
        }
    }
}

// The number, if it is 1 at least, and not above the most.
fn check_some(number: u64, most: u64, refusal: Refusal) -> Result<u64, Refusal>
    ensures says { check_of result ≡ unless (nat_le 1 number && nat_le number most) refusal }
    ensures hands { Hands result (λ n. n ≡ number) }
{
    if number < 1 || number > most {
        Err(refusal)
    } else {
        Ok(number)
    }
}

// There are benches, and not too many.
pub fn check_benches(benches: u64) -> Result<u64, Refusal>
    ensures says { check_of result ≡ benches_check benches }
    ensures hands { Hands result (λ n. n ≡ benches) }
{
    check_some(benches, MOST_BENCHES, Refusal::Benches)
}

// Some of those that wait are looked at, and not too many.
pub fn check_depth(depth: u64) -> Result<u64, Refusal>
    ensures says { check_of result ≡ depth_check depth }
    ensures hands { Hands result (λ n. n ≡ depth) }
{
    check_some(depth, MOST_DEPTH, Refusal::Depth)
}

// The event is long enough, of a known kind, and its number is small enough.
pub fn check_event(event: &[u64]) -> Result<Kind, Refusal>
    ensures says { check_of result ≡ event_check report_kind event.now }
    ensures hands { Hands result (λ k. (kind_number k ≡ slice_index event.now 0) × (event_length ≤ length event.now)) }
{
    if event.len() < EVENT_LENGTH || event[1] >= NUMBER_LIMIT {
        return Err(Refusal::Event);
    }
    Kind::try_from(event[0])
}

// The change that is submitted, if it is well formed.
pub fn check_parts(event: &[u64]) -> Result<Change, Refusal>
    requires { event_length ≤ length event.now }
    ensures says { check_of result ≡ parts_check event.now }
    ensures hands { Hands result (λ c. change_of c ≡ change_in (drop 1 event.now)) }
{
    if event[2] > MOST_PARTS as u64 {
        return Err(Refusal::Parts(MOST_PARTS as u64));
    }
    let c = change::change_at(event, 1);
    if let Some(place) = c.first_fault() {
        return Err(Refusal::Parts(place));
    }
    Ok(c)
}
