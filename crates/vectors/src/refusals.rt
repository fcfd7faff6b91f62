// Where two things are wrong at once, the first of the list answers; a refusal leaves every number as it was.
use change::CHANGE_WIDTH;
use run::{
    BENCHES_AT, DEPTH_AT, LANDED_AT, LANDED_COUNT, QUEUE_LENGTH, REJECTED_AT, REJECTED_COUNT,
    REQUESTED_AT, RUNNING_AT, RUNNING_COUNT, VERDICTS_AT, VERDICTS_COUNT, WAITING_AT,
    WAITING_COUNT,
};
use std::test::Fail;

// So many numbers of a queue are lent; these are written over it; the event; the refusal's number and place.
#[derive(Clone, Copy)]
struct Case(usize, [(usize, u64); 2], [u64; 11], (u64, u64));

const WHOLE: usize = QUEUE_LENGTH;

// An index past the queue, where nothing is written. Not an `Option`: the table of cases would be longer.
const SOUND: (usize, u64) = (QUEUE_LENGTH, 0);

// A submission of change 9 to parts 1 and 2, and others with something wrong.
// Events and refusals are numbers here, as they are lent and as C is answered.
const GOOD: [u64; 11] = [0, 9, 2, 1, 2, 0, 0, 0, 0, 0, 0];

const USED_LANDED: [u64; 11] = [0, 1, 2, 1, 2, 0, 0, 0, 0, 0, 0];

const USED_WAITING: [u64; 11] = [0, 2, 0, 1, 2, 0, 0, 0, 0, 0, 0];

const USED_REJECTED: [u64; 11] = [0, 3, 9, 1, 2, 0, 0, 0, 0, 0, 0];

const NO_PARTS: [u64; 11] = [0, 9, 0, 1, 2, 0, 0, 0, 0, 0, 0];

const NINE_PARTS: [u64; 11] = [0, 9, 9, 64, 2, 0, 0, 0, 0, 0, 0];

const PART_64: [u64; 11] = [0, 9, 3, 1, 64, 1, 0, 0, 0, 0, 0];

const PART_TWICE: [u64; 11] = [0, 9, 4, 5, 6, 5, 64, 0, 0, 0, 0];

const LAST_PART_TWICE: [u64; 11] = [0, 9, 8, 0, 1, 2, 3, 4, 5, 6, 0];

const WITHDRAW_2: [u64; 11] = [1, 2, 0, 0, 0, 0, 0, 0, 0, 0, 0];

const WITHDRAW_LANDED: [u64; 11] = [1, 1, 0, 0, 0, 0, 0, 0, 0, 0, 0];

const REPORT_0: [u64; 11] = [2, 0, 1, 0, 0, 0, 0, 0, 0, 0, 0];

const REPORT_1: [u64; 11] = [2, 1, 1, 0, 0, 0, 0, 0, 0, 0, 0];

const KIND_3: [u64; 11] = [3, 9, 2, 1, 2, 0, 0, 0, 0, 0, 0];

const NUMBER_TOO_LARGE: [u64; 11] = [0, 0x1_0000_0000, 0, 0, 0, 0, 0, 0, 0, 0, 0];

const CASES: [Case; 44] = [
    // 1: too short, before anything else
    Case(
        QUEUE_LENGTH - 1,
        [(LANDED_COUNT, 4097), SOUND],
        GOOD,
        (1, 54_711),
    ),
    Case(0, [SOUND, SOUND], KIND_3, (1, 0)),
    // 1: a count above its section, in memory order, before any record
    Case(
        WHOLE,
        [(LANDED_COUNT, 4097), (WAITING_COUNT, 65)],
        GOOD,
        (1, 2),
    ),
    Case(
        WHOLE,
        [(WAITING_COUNT, 65), (REJECTED_COUNT, 1025)],
        GOOD,
        (1, 3),
    ),
    Case(
        WHOLE,
        [(REJECTED_COUNT, 1025), (VERDICTS_COUNT, 129)],
        GOOD,
        (1, 4),
    ),
    Case(
        WHOLE,
        [(VERDICTS_COUNT, 129), (RUNNING_COUNT, 17)],
        GOOD,
        (1, 5),
    ),
    Case(
        WHOLE,
        [(RUNNING_COUNT, 17), (LANDED_AT + 1, 9)],
        GOOD,
        (1, 6),
    ),
    // 1: a record's count, in memory order, before the sums
    Case(
        WHOLE,
        [(LANDED_AT + 1, 9), (WAITING_AT + 1, 9)],
        GOOD,
        (1, 9),
    ),
    Case(
        WHOLE,
        [(WAITING_AT + 1, 9), (REJECTED_AT + 1, 9)],
        GOOD,
        (1, 40_969),
    ),
    Case(
        WHOLE,
        [(REJECTED_AT + 1, 9), (VERDICTS_AT + 2, 17)],
        GOOD,
        (1, 41_609),
    ),
    Case(
        WHOLE,
        [(VERDICTS_AT + 2, 17), (RUNNING_AT + 2, 17)],
        GOOD,
        (1, 51_850),
    ),
    Case(
        WHOLE,
        [(RUNNING_AT + 2, 17), (LANDED_COUNT, 4096)],
        GOOD,
        (1, 54_410),
    ),
    // a record that no count reaches is not looked at: the next row answers
    Case(
        WHOLE,
        [(LANDED_AT + CHANGE_WIDTH + 1, 9), (BENCHES_AT, 0)],
        GOOD,
        (2, 0),
    ),
    // 1: sums, before runs
    Case(
        WHOLE,
        [(LANDED_COUNT, 4096), (REJECTED_COUNT, 1024)],
        GOOD,
        (1, 2),
    ),
    Case(
        WHOLE,
        [(REJECTED_COUNT, 1024), (VERDICTS_AT + 1, 2)],
        GOOD,
        (1, 4),
    ),
    // 1: a run that begins with more landed changes than its part has, verdicts first, before the config
    Case(
        WHOLE,
        [(VERDICTS_AT + 1, 2), (RUNNING_AT + 1, 2)],
        GOOD,
        (1, 51_848),
    ),
    Case(
        WHOLE,
        [(RUNNING_AT + 1, 2), (BENCHES_AT, 0)],
        GOOD,
        (1, 54_408),
    ),
    Case(
        WHOLE,
        [(RUNNING_AT, 64), (BENCHES_AT, 0)],
        GOOD,
        (1, 54_408),
    ),
    // 2 and 3: the config, before the event
    Case(WHOLE, [(BENCHES_AT, 0), (DEPTH_AT, 0)], KIND_3, (2, 0)),
    Case(WHOLE, [(BENCHES_AT, 17), (DEPTH_AT, 17)], GOOD, (2, 0)),
    Case(WHOLE, [(DEPTH_AT, 0), SOUND], KIND_3, (3, 1)),
    Case(WHOLE, [(DEPTH_AT, 17), SOUND], GOOD, (3, 1)),
    // 4: the event's form, before what it says
    Case(WHOLE, [SOUND, SOUND], KIND_3, (4, 0)),
    Case(
        WHOLE,
        [(REQUESTED_AT, 0x1_0000_0000), SOUND],
        NUMBER_TOO_LARGE,
        (4, 0),
    ),
    // 5: a number that landed, waits or was rejected, before its parts
    Case(WHOLE, [SOUND, SOUND], USED_LANDED, (5, 1)),
    Case(WHOLE, [SOUND, SOUND], USED_WAITING, (5, 2)),
    Case(WHOLE, [SOUND, SOUND], USED_REJECTED, (5, 3)),
    // 6: parts, before room
    Case(WHOLE, [(WAITING_COUNT, 64), SOUND], NO_PARTS, (6, 8)),
    Case(WHOLE, [SOUND, SOUND], NINE_PARTS, (6, 8)),
    Case(WHOLE, [SOUND, SOUND], PART_64, (6, 1)),
    Case(WHOLE, [SOUND, SOUND], PART_TWICE, (6, 2)),
    Case(WHOLE, [SOUND, SOUND], LAST_PART_TWICE, (6, 7)),
    // 7: no such change waits, before the count of requests
    Case(
        WHOLE,
        [(REQUESTED_AT, 0x1_0000_0000), SOUND],
        WITHDRAW_LANDED,
        (7, 1),
    ),
    Case(WHOLE, [(WAITING_COUNT, 0), SOUND], WITHDRAW_2, (7, 2)),
    // 9: room, in this order, before the count of requests
    Case(
        WHOLE,
        [(WAITING_COUNT, 64), (LANDED_COUNT, 4032)],
        GOOD,
        (9, 0),
    ),
    Case(
        WHOLE,
        [(LANDED_COUNT, 4095), (REJECTED_COUNT, 1023)],
        GOOD,
        (9, 1),
    ),
    Case(
        WHOLE,
        [(REJECTED_COUNT, 1023), (REQUESTED_AT, 0x1_0000_0000)],
        GOOD,
        (9, 2),
    ),
    // 8: no run is running at the place, before room for a verdict
    Case(
        WHOLE,
        [(VERDICTS_COUNT, 128), (REQUESTED_AT, 0x1_0000_0000)],
        REPORT_1,
        (8, 1),
    ),
    // 10: room for a verdict, before the count of requests; then that count
    Case(
        WHOLE,
        [(VERDICTS_COUNT, 128), (REQUESTED_AT, 0x1_0000_0000)],
        REPORT_0,
        (10, 0),
    ),
    Case(
        WHOLE,
        [(REQUESTED_AT, 0x1_0000_0000), SOUND],
        REPORT_0,
        (10, 1),
    ),
    Case(WHOLE, [(REQUESTED_AT, 0x1_0000_0000), SOUND], GOOD, (10, 1)),
    Case(
        WHOLE,
        [(REQUESTED_AT, u64::MAX), SOUND],
        WITHDRAW_2,
        (10, 1),
    ),
    // what is just inside each bound: the next row answers
    Case(
        WHOLE,
        [(REQUESTED_AT, 0xffff_ffff), (BENCHES_AT, 17)],
        GOOD,
        (2, 0),
    ),
    Case(WHOLE, [(BENCHES_AT, 16), (DEPTH_AT, 17)], GOOD, (3, 1)),
];

// A small queue: change 1 of part 0 landed, 2 waits, 3 was rejected; a verdict and a run of part 0, each behind change 1.
fn small(queue: &mut [u64]) {
    let _ = queue::open(queue, 2, 3);
    for (count, at, number) in [
        (LANDED_COUNT, LANDED_AT, 1),
        (WAITING_COUNT, WAITING_AT, 2),
        (REJECTED_COUNT, REJECTED_AT, 3),
    ] {
        put(queue, (count, 1));
        put(queue, (at, number));
        put(queue, (at + 1, 1));
    }
    put(queue, (VERDICTS_COUNT, 1));
    put(queue, (VERDICTS_AT + 1, 1));
    put(queue, (RUNNING_COUNT, 1));
    put(queue, (RUNNING_AT + 1, 1));
}

fn put(queue: &mut [u64], what: (usize, u64)) {
    if what.0 < queue.len() {
        queue[what.0] = what.1;
    }
}

// The refusal's number and place, if the event is refused and every number stays as it was.
fn answer(queue: &mut [u64], before: &mut [u64], case: Case) -> Option<(u64, u64)> {
    let Case(length, faults, event, _) = case;
    small(queue);
    for fault in faults {
        put(queue, fault);
    }
    if length > queue.len() || before.len() != queue.len() {
        return None;
    }
    before.copy_from_slice(queue);
    let refusal = queue::apply(&mut queue[..length], &event).err()?;
    if &*queue != &*before {
        return None;
    }
    Some(refusal.code())
}

#[test]
fn each_case_is_refused_where_the_table_says(rt: HostRuntime) -> Result<(), Fail> {
    let mut queue = vec![in rt.alloc(); 0; QUEUE_LENGTH]?;
    let mut before = vec![in rt.alloc(); 0; QUEUE_LENGTH]?;
    for case in CASES {
        assert_eq!(rt; answer(&mut queue, &mut before, case), Some(case.3));
    }
    Ok(())
}
