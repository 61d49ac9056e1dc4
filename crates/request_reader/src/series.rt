// The steps of an object, and what closes it. A text and a place go as two parameters, as in `tokens`. A count of
// steps goes as a number with its bound, as in the reader's `steps`.
ghost use Rattle.std.specs.Prelude.{◌≡◌, true, false, ◌≤◌, length, drop, IfSome, MatchOption};
ghost use Rattle.notification.specs.Forms.{places};
ghost use Rattle.reader.specs.Folding.{no_steps, step_taken};
ghost use Rattle.request.specs.Tokens.{tokens, fits};
ghost use Rattle.request_reader.specs.Steps.{LaidOut, before_from, front_tests, label_list};
ghost use Rattle.request_reader.specs.Series.{closing, first_step, is_series, NextStep, SeriesAt};
ghost use Rattle.request_reader.specs.Walking.{Missing};

use crate::layouts::Layout;
use crate::runs::{first_step, listed_step, steps_run};
use crate::step::step_at;
use crate::tokens::{after_mark, past_blanks};
use lists::bytes::byte_at;
use reader::tally::{Run, StepFault, Tally, count, is_over, note};
use request::labels::hour_label;

// The place of the first step.
const FIRST_STEP: u32 = 1;

// What is kept after a step's power, the place after it, and how the step is laid out, where that was looked at.
#[derive(Clone, Copy)]
pub struct StepTold {
    pub run: Run<Tally>,
    pub layout: Option<Layout>,
}

// A step more, by what it says. After a fault, and past the day's steps, it is only counted.
fn tell(t: Tally, steps: u32, said: Result<u16, StepFault>, powers: &mut [u16; 50]) -> Tally
    requires { steps ≤ places }
    ensures { record { tally = result; powers = powers.new }
        ≡ step_taken first_step steps (record { tally = t; powers = powers.old }) said }
{
    if is_over(t, steps) {
        return count(t);
    }
    note(t, FIRST_STEP, said, powers)
}

// The next step token by token, with the labels of its place in the day.
fn told_step(s: &[u8], at: usize, t: Tally, steps: u32, powers: &mut [u16; 50]) -> Option<StepTold>
    requires { (at ≤ length s.now) × (1 ≤ steps) × (steps ≤ places) }
    ensures told { MatchOption result (Missing front_tests s.now at) (λ r. NextStep steps s.now at r.run.at
        (record { tally = t; powers = powers.old }) (record { tally = r.run.tally; powers = powers.new })) }
    ensures no_layout { IfSome result (λ r. r.layout ≡ None) }
{
    let k = t.lines.min(steps);
    let from = hour_label(steps, k);
    let until = hour_label(steps, (k + 1).min(steps));
    let from_bytes = from.bytes;
    let until_bytes = until.bytes;
    let m = from.len as usize;
    let n = until.len as usize;
    let step = step_at(s, at, &from_bytes[..m], &until_bytes[..n])?;
    Some(StepTold {
        run: Run {
            tally: tell(t, steps, step.value, powers),
            at: step.next,
        },
        layout: None,
    })
}

// The next step: the first where nothing stands between its tokens, one whose labels stand in the list, or token by
// token.
fn next_step(
    s: &[u8],
    at: usize,
    t: Tally,
    steps: u32,
    labels: &[u8],
    powers: &mut [u16; 50],
) -> Option<StepTold>
    requires { (at ≤ length s.now) × (1 ≤ steps) × (steps ≤ places) × (labels.now ≡ label_list) }
    ensures told { MatchOption result (Missing front_tests s.now at) (λ r. NextStep steps s.now at r.run.at
        (record { tally = t; powers = powers.old }) (record { tally = r.run.tally; powers = powers.new })) }
    ensures laid_out { IfSome result (λ r. IfSome r.layout (λ l. LaidOut before_from s.now at l)) }
{
    if let Some(step) = first_step(s, at, t, steps, labels, &mut *powers) {
        return Some(step);
    }
    if let Some(step) = listed_step(s, at, t, steps, labels, &mut *powers) {
        return Some(step);
    }
    told_step(s, at, t, steps, powers)
}

// Whether `]` and `}` stand at a place, and nothing after them.
fn is_closed(s: &[u8], at: usize) -> bool
    requires { at ≤ length s.now }
    ensures { result ≡ fits closing (tokens (drop at s.now)) }
{
    let Some(inner) = after_mark(s, at, b']') else {
        return false;
    };
    let Some(outer) = after_mark(s, inner, b'}') else {
        return false;
    };
    s.len() <= past_blanks(s, outer)
}

// The steps and what closes the object.
pub(crate) fn take_series(
    s: &[u8],
    from: usize,
    steps: u32,
    powers: &mut [u16; 50],
) -> Option<Tally>
    requires { (from ≤ length s.now) × (1 ≤ steps) × (steps ≤ places) }
    ensures { MatchOption result (is_series (tokens (drop from s.now)) ≡ false)
        (λ t. SeriesAt steps s.now from
        (record { tally = no_steps; powers = powers.old }) (record { tally = t; powers = powers.new })) }
{
    let mut tally = Tally {
        lines: 0,
        fault: 0,
        place: 0,
    };
    let first = past_blanks(s, from);
    if byte_at(s, first) == b']' {
        return is_closed(s, first).then_some(tally);
    }
    let mut at = first;
    // The place after the power before the step at `at`; at the first step that step's.
    let mut lead = first;
    let labels =
        b"t\":\"00h00\"t\":\"00h30\"t\":\"01h00\"t\":\"01h30\"t\":\"02h00\"t\":\"02h30\"t\":\"03h00\"t\":\"03h30\"\
        t\":\"04h00\"t\":\"04h30\"t\":\"05h00\"t\":\"05h30\"t\":\"06h00\"t\":\"06h30\"t\":\"07h00\"t\":\"07h30\"\
        t\":\"08h00\"t\":\"08h30\"t\":\"09h00\"t\":\"09h30\"t\":\"10h00\"t\":\"10h30\"t\":\"11h00\"t\":\"11h30\"\
        t\":\"12h00\"t\":\"12h30\"t\":\"13h00\"t\":\"13h30\"t\":\"14h00\"t\":\"14h30\"t\":\"15h00\"t\":\"15h30\"\
        t\":\"16h00\"t\":\"16h30\"t\":\"17h00\"t\":\"17h30\"t\":\"18h00\"t\":\"18h30\"t\":\"19h00\"t\":\"19h30\"\
        t\":\"20h00\"t\":\"20h30\"t\":\"21h00\"t\":\"21h30\"t\":\"22h00\"t\":\"22h30\"t\":\"23h00\"t\":\"23h30\"\
        t\":\"00h00\"";
    // By hand: how many steps a turn takes is known only after it, and the place to go on from is what ends it.
    loop {
        let step = next_step(s, at, tally, steps, labels, &mut *powers)?;
        // How the step is laid out after the power of another.
        let layout = if lead < at { step.layout } else { None };
        let run = steps_run(s, lead, layout, step.run, steps, labels, &mut *powers);
        tally = run.tally;
        lead = run.at;
        let end = after_mark(s, lead, b'}')?;
        let mark = past_blanks(s, end);
        if byte_at(s, mark) != b',' {
            return is_closed(s, mark).then_some(tally);
        }
        at = mark + 1;
    }
}
