// The lines of a day's steps: what each says, and the fold over them. A count of steps goes as a number with its bound:
// it comes so from the file reader that C holds.
ghost use Rattle.std.specs.Prelude.{◌≡◌, [], ◌∷◌, ◌++◌, ◌+◌, ◌-◌, ◌<◌, ◌≤◌, length, drop, take};
ghost use Rattle.notification.specs.Forms.{places};
ghost use Rattle.reader.specs.Walking.{starts_with, line_power, whole_to};
ghost use Rattle.reader.specs.Folding.{take_step, take_steps, RunOn};
ghost use Rattle.notification.specs.Reading.{lines_in};

use crate::marks::{good_line, half_hours, room_in, run_end};
use crate::power::power_at;
use crate::tally::{Run, StepFault, Tally, count, is_over, note};
use calendar::labels_of;
use lists::bytes::byte_from;

// The line of the first step: the header is line 1.
const FIRST_LINE: u32 = 2;

// Whether the first n bytes of a text, and `;`, stand at a place of a line.
fn stands(line: &[u8], at: usize, text: &[u8], n: usize) -> bool
    requires { (n ≤ length text.now) × (n < 100) × (at < 100) }
    ensures { result ≡ starts_with (take n text.now ++ 59 ∷ []) (drop at line.now) }
{
    let end = at + n;
    if line.len() <= end {
        return false;
    }
    (line[at..end] == text[..n]) & (line[end] == b';')
}

// The power of a step's line, or what is wrong with it: the labels first.
fn line_power(steps: u32, k: u32, line: &[u8]) -> Result<u16, StepFault>
    requires { (k < steps) × (steps ≤ places) }
    ensures { result ≡ line_power steps k line.now }
{
    let labels = labels_of(steps, k);
    let m = labels.from.len as usize;
    let n = labels.until.len as usize;
    if !stands(line, 0, &labels.from.bytes, m) {
        return Err(StepFault::NoLabels);
    }
    if !stands(line, m + 1, &labels.until.bytes, n) {
        return Err(StepFault::NoLabels);
    }
    let at = m + n + 2;
    let Some((v, len)) = power_at(line, at) else {
        return Err(StepFault::NoPower);
    };
    if at + len == line.len() {
        Ok(v)
    } else {
        Err(StepFault::NoPower)
    }
}

// The next step's line. After a fault, and past the day's steps, it is only counted.
fn take_step(t: Tally, steps: u32, line: &[u8], powers: &mut [u16; 50]) -> Tally
    requires { steps ≤ places }
    ensures { record { tally = result; powers = powers.new }
        ≡ take_step steps (record { tally = t; powers = powers.old }) line.now }
{
    if is_over(t, steps) {
        return count(t);
    }
    let said = line_power(steps, t.lines, line);
    note(t, FIRST_LINE, said, powers)
}

// The good lines from a place on, each taken at once, up to the first that isn't plainly good.
fn good_run(t: Tally, steps: u32, body: &[u8], from: usize, powers: &mut [u16; 50]) -> Run<Tally>
    requires { (steps ≤ places) × (from ≤ length body.now) }
    ensures { RunOn steps body.now
        from (record { tally = t; powers = powers.old })
        result.at (record { tally = result.tally; powers = powers.new }) }
{
    if is_over(t, steps) {
        return Run { tally: t, at: from };
    }
    let mut k = t.lines;
    let stop = run_end(steps, k);
    if stop <= k {
        return Run { tally: t, at: from };
    }
    let times =
        b"00:00;00:30;01:00;01:30;02:00;02:30;03:00;03:30;04:00;04:30;05:00;05:30;06:00;06:30;07:00;07:30;\
        08:00;08:30;09:00;09:30;10:00;10:30;11:00;11:30;12:00;12:30;13:00;13:30;14:00;14:30;15:00;15:30;\
        16:00;16:30;17:00;17:30;18:00;18:30;19:00;19:30;20:00;20:30;21:00;21:30;22:00;22:30;23:00;23:30;\
        24:00;";
    let mut i = half_hours(steps, k) as usize * 6;
    let mut at = from;
    let room = room_in(body);
    // By hand: how many lines were good is the answer, which a `for` would count beside its own.
    while k < stop {
        let Some((power, n)) = good_line(body, at, room, times, i) else {
            break;
        };
        powers[k as usize] = power;
        at += n;
        k += 1;
        i += 6;
    }
    let tally = Tally { lines: k, ..t };
    Run { tally, at }
}

// The steps' lines from a place on, each ended by LF, one after another, and where the unfinished line begins.
pub(crate) fn take_steps(
    t: Tally,
    steps: u32,
    body: &[u8],
    from: usize,
    powers: &mut [u16; 50],
) -> Run<Tally>
    requires { (steps ≤ places) × (from ≤ length body.now) }
    ensures powers_after { record { tally = result.tally; powers = powers.new }
        ≡ take_steps steps (record { tally = t; powers = powers.old })
        (lines_in (drop from body.now)) }
    ensures at_value { result.at ≡ from + whole_to (drop from body.now) }
{
    let mut tally = t;
    let mut at = from;
    // By hand: each turn goes on where its line ended.
    loop {
        let run = good_run(tally, steps, body, at, powers);
        let end = byte_from(body, run.at, b'\n');
        if body.len() <= end {
            return run;
        }
        tally = take_step(run.tally, steps, &body[run.at..end], powers);
        at = end + 1;
    }
}
