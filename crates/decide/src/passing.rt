// The pass over those that wait.
ghost use Rattle.std.specs.Prelude.{◌≡◌, drop};
ghost use Rattle.change.specs.Records.{Tallies};
ghost use Rattle.decide.specs.Passing.{passed_sections, passed_state};
ghost use Rattle.run.specs.Layout.{queue_length};
ghost use Rattle.run.specs.Numbers.{Settled, decode, landed_in, whole};

use super::decision::Decision;
use super::steps::{land, reject, take_out};
use change::{CHANGE_WIDTH, Changes, PARTS, change_at, count_parts, records_at};
use run::*;

// Once through those that wait, in order: each waits, lands or is rejected by the verdicts on its runs on top of what has landed by then.
pub fn pass(queue: &mut [u64], tally: &mut [u64; PARTS])
    requires settled { Settled queue.old }
    requires tallied { Tallies tally.old (landed_in queue.old) }
    ensures passed { queue.new ≡ whole (passed_sections queue.old) }
    ensures state { decode queue.new ≡ passed_state queue.old }
    ensures behind { drop queue_length queue.new ≡ drop queue_length queue.old }
    ensures settled { Settled queue.new }
    ensures tallied { Tallies tally.new (landed_in queue.new) }
{
    let waiting = queue[WAITING_COUNT] as usize;
    let verdicts = queue[VERDICTS_COUNT] as usize;
    let mut decided = 0usize;
    // The user asked for these loops, left by a label. The innermost looks for a verdict as `Run::known` does, which takes no label.
    // The turns are counted, as a turn may take its change out from among those that wait.
    'changes: for turn in 0..waiting {
        // Until the change is decided, the queue is only read.
        let now: &[u64] = queue;
        let landed = Changes::at(now, LANDED_AT, now[LANDED_COUNT] as usize);
        // As many before it still wait, so that is its place.
        let held = turn - decided;
        let c = change_at(now, WAITING_AT + CHANGE_WIDTH * held);
        for earlier in Changes::at(now, WAITING_AT, held) {
            if c.shares(earlier) {
                continue 'changes;
            }
        }
        let number = c.number;
        let mut decision = Decision::Land;
        'parts: for part in c.touched() {
            let begins = landed.count_of(tally, *part);
            let top = run_on_top(*part, begins, number);
            for verdict in records_at(now, VERDICTS_AT, VERDICT_WIDTH, verdicts) {
                // Most are of other parts; these need not be read.
                if verdict[0] != *part {
                    continue;
                }
                if read_run(verdict).same_as(top, landed) {
                    if says_good(verdict) {
                        continue 'parts;
                    }
                    decision = Decision::Reject;
                    break 'parts;
                }
            }
            decision = Decision::Wait;
        }
        match decision {
            Decision::Wait => {}
            Decision::Land => {
                take_out(queue, held);
                land(queue, c);
                count_parts(tally, c);
                decided += 1;
            }
            Decision::Reject => {
                take_out(queue, held);
                reject(queue, c);
                decided += 1;
            }
        }
    }
}
