// Reads the two texts of an audit, line by line: a log of verdicts, and a main line.
ghost use Rattle.std.specs.Prelude.{◌≡◌, ℕ, ◌<◌, List, map, IfSome, IfOk, None};
ghost use Rattle.change.specs.Change.{fault};
ghost use Rattle.change.specs.Records.{change_of};
ghost use Rattle.audits.specs.Audit.{verdict_of};
ghost use Rattle.audits.specs.Text.{LinesAre, landed_text, verdict_text};

use super::malformed::{Malformed, Unread, UnreadLine};
use super::text::Landed;
use super::verdict::Verdict;
use change::{Change, MOST_PARTS, PART_LIMIT};
use run::NUMBER_LIMIT;
use std::alloc::Global;

// The number that the text says, in digits alone, if it is below the limit.
fn number_below(text: &str, limit: u64) -> Option<u64>
    ensures { IfSome result (λ n. n < limit) }
{
    if text.starts_with("+") {
        return None;
    }
    text.parse::<u64>().ok().filter(|n| *n < limit)
}

// The changes of a run: numbers parted by a plus.
fn read_changes(heap: Global, text: &str) -> Result<Vec<u64>, Unread> {
    text.split('+')
        .map(|piece| number_below(piece, NUMBER_LIMIT).ok_or(Malformed::Number.into()))
        .try_collect(heap)
}

// A line of the log, as `0:1+2 good`: what is read is what would be written so.
pub fn read_verdict(heap: Global, line: &str) -> Result<Verdict, Unread>
    ensures { IfOk result (λ v. verdict_text (verdict_of v) ≡ line.now) }
{
    let v = take_apart(heap, line)?;
    let text = format!(in heap; "{v}")?;
    if text.as_str() == line {
        Ok(v)
    } else {
        Err(Malformed::Zeros.into())
    }
}

// The verdict that the pieces of a line say; a number may have zeros in front.
fn take_apart(heap: Global, line: &str) -> Result<Verdict, Unread> {
    let (run, word) = line.split_once(' ').ok_or(Malformed::Verdict)?;
    let good = match word {
        "good" => true,
        "bad" => false,
        _ => return Err(Malformed::Verdict.into()),
    };
    let (part, changes) = run.split_once(':').ok_or(Malformed::Part)?;
    let part = number_below(part, PART_LIMIT).ok_or(Malformed::Part)?;
    Ok(Verdict {
        part,
        changes: read_changes(heap, changes)?,
        good,
    })
}

// A line of the main line, as `2 0 1`: what is read is what would be written so, and is a change that could land.
pub fn read_landed(heap: Global, line: &str) -> Result<Change, Unread>
    ensures text { IfOk result (λ c. landed_text (change_of c) ≡ line.now) }
    ensures sound { IfOk result (λ c. fault (change_of c) ≡ None) }
{
    let first = line
        .split_ascii_whitespace()
        .next()
        .ok_or(Malformed::Number)?;
    let number = number_below(first, NUMBER_LIMIT).ok_or(Malformed::Number)?;
    let c = with_parts(number, line)?;
    if c.first_fault().is_some() {
        return Err(Malformed::Parts.into());
    }
    let landed = Landed(c);
    let text = format!(in heap; "{landed}")?;
    if text.as_str() == line {
        Ok(c)
    } else {
        Err(Malformed::Blanks.into())
    }
}

// The change of this number with the parts that stand behind it in the line, which is gone through once.
fn with_parts(number: u64, line: &str) -> Result<Change, Unread> {
    let mut parts = [0u64; MOST_PARTS];
    let mut count = 0;
    for word in line.split_ascii_whitespace().skip(1) {
        let place = parts.get_mut(count).ok_or(Malformed::Parts)?;
        *place = number_below(word, PART_LIMIT).ok_or(Malformed::Parts)?;
        count += 1;
    }
    Ok(Change {
        number,
        count: count as u64,
        parts,
    })
}

// What `read` makes of the lines of a text, or the first line that it does not read, and why.
fn read_lines<T: Drop, F: Fn(Global, &str) -> Result<T, Unread>>(
    heap: Global,
    text: &str,
    read: F,
) -> Result<Vec<T>, UnreadLine>
    requires { F.IsAlwaysCallable read }
    ensures { (t : T → List ℕ) → ((h : _) (line : _) (x : T) → F.post read h line (Ok x) → t x ≡ line.now) → IfOk result (λ xs. LinesAre text.now (map t xs.items)) }
{
    let mut all = Vec::new(heap);
    for (line, words) in text.lines().enumerate() {
        let x = read(heap, words).map_err(|why| UnreadLine { line, why })?;
        all.push(x).map_err(|e| UnreadLine {
            line,
            why: Unread::from(e),
        })?;
    }
    Ok(all)
}

// All verdicts of a log, or its first line that is not one.
pub fn read_log(heap: Global, text: &str) -> Result<Vec<Verdict>, UnreadLine>
    ensures { IfOk result (λ vs. LinesAre text.now (map (λ v. verdict_text (verdict_of v)) vs.items)) }
{
    read_lines(heap, text, read_verdict)
}

// All changes of a main line, or its first line that is not one.
pub fn read_main_line(heap: Global, text: &str) -> Result<Vec<Change>, UnreadLine>
    ensures { IfOk result (λ cs. LinesAre text.now (map (λ c. landed_text (change_of c)) cs.items)) }
{
    read_lines(heap, text, read_landed)
}
