// Steps taken at once, where nothing stands between their tokens or where they are laid out as the step before them.
// A text and a place go as two parameters, as in `tokens`. The list of the day's labels is handed on, and said to be
// that list, so that its entries are compared where they stand.
ghost use Rattle.std.specs.Prelude.{true, ◌≡◌, ℕ, ◌++◌, ◌+◌, ◌≤◌, length, drop, IfSome, IfNone};
ghost use Rattle.std.specs.Option.{ForSome};
ghost use Rattle.notification.specs.Forms.{places};
ghost use Rattle.request_reader.specs.Walking.{part};
ghost use Rattle.request_reader.specs.Steps.{LaidOut, before_from, open_text, label_list, LabelEntry, Between, Wide};
ghost use Rattle.request_reader.specs.Series.{PlainSays, LaidSays};
ghost use Rattle.request_reader.specs.Series.{between_steps, Fronts, Onward, NextStep};

use crate::layouts::{Layout, layout_at, own_front};
use crate::series::StepTold;
use crate::words::{eight_at, four_at, run_power, same_at, same_near};
use reader::marks::{half_hours, run_end};
use reader::tally::{Run, Tally, is_over};

// The labels of a day of fewer steps, which there is none of, don't go on to its midnight.
const FEWEST_STEPS: u32 = 4;

// A step without blanks, by eight bytes of which the last six begin it and by two labels of a list: its power, and how
// many bytes these are.
fn plain_front(s: &[u8], at: usize, lead: &[u8], t: &[u8], i: usize) -> Option<(u16, usize)>
    requires { (at ≤ length s.now) × (length lead.now ≡ 8) × (drop 2 lead.now ≡ open_text)
        × LabelEntry t.now i × LabelEntry t.now (i + 10) }
    ensures { PlainSays lead.now (part (i + 4) 5 t.now) (part (i + 14) 5 t.now)
        s.now at result }
{
    if s.len() - at < 49 {
        return None;
    }
    if !(eight_at(s, at, lead, 0)
        & eight_at(s, at + 8, t, i)
        & eight_at(s, at + 16, b"0\",\"Fin\"", 0)
        & eight_at(s, at + 24, t, i + 12)
        & eight_at(s, at + 32, b",\"Puissa", 0)
        & eight_at(s, at + 37, b"ssance\":", 0))
    {
        return None;
    }
    let (v, n) = run_power(s, at + 45)?;
    Some((v, n + 45))
}

// A step that is laid out as another, which begins after a power, by two labels of a list: its power, and how many
// bytes these are.
fn laid_front(
    s: &[u8],
    at: usize,
    lead: usize,
    l: Layout,
    t: &[u8],
    i: usize,
) -> Option<(u16, usize)>
    requires { (at ≤ length s.now) × LaidOut (between_steps ++ before_from) s.now lead l × Wide lead l
        × LabelEntry t.now i × LabelEntry t.now (i + 10) }
    ensures { LaidSays (part (i + 4) 5 t.now) (part (i + 14) 5 t.now)
        s.now at result }
{
    let a = l.first + 1 - lead;
    let b = l.second - l.first;
    let c = l.power - l.second - 1;
    if s.len() - at < a + b + c + 4 {
        return None;
    }
    let first = at + a;
    let second = first + b;
    let power = second + c;
    if !same_at(s, at, lead, a) {
        return None;
    }
    if !four_at(s, first, t, i + 4) {
        return None;
    }
    if !same_near(s, first + 4, l.first + 5, b - 4) {
        return None;
    }
    if !four_at(s, second, t, i + 14) {
        return None;
    }
    if !same_near(s, second + 4, l.second + 5, c - 4) {
        return None;
    }
    let (v, n) = run_power(s, power)?;
    Some((v, a + b + c + n))
}

// The next step after a step's power, without blanks.
fn plain_next(s: &[u8], at: usize, t: &[u8], i: usize) -> Option<(u16, usize)>
    requires { (at ≤ length s.now) × LabelEntry t.now i × LabelEntry t.now (i + 10) }
    ensures { LaidSays (part (i + 4) 5 t.now) (part (i + 14) 5 t.now)
        s.now at result }
{
    plain_front(s, at, b"},{\"Debu", t, i)
}

// The steps after a step's power, as long as a front finds the next one by two labels of a list.
fn run<F: Fn(usize, usize) -> Option<(u16, usize)>>(
    s: &[u8],
    from: Run<Tally>,
    steps: u32,
    labels: &[u8],
    powers: &mut [u16; 50],
    front: F,
) -> Run<Tally>
    requires known { (from.at ≤ length s.now) × (steps ≤ places) × (labels.now ≡ label_list) }
    requires fronts { Fronts (λ at i. F.pre front at i) (λ at i r. F.post front at i r) labels.now s.now }
    ensures onward { Onward steps s.now from.at (record { tally = from.tally; powers = powers.old })
        result.at (record { tally = result.tally; powers = powers.new }) }
    ensures at_in_bounds { result.at ≤ length s.now }
{
    let t = from.tally;
    if is_over(t, steps) | (steps < FEWEST_STEPS) {
        return from;
    }
    let mut k = t.lines as usize;
    let stop = run_end(steps, t.lines) as usize;
    let mut i = half_hours(steps, t.lines) as usize * 10;
    let mut at = from.at;
    // By hand: how many steps were taken is the answer, which a `for` counts beside its own (tried: two instructions
    // more for each step).
    while k < stop {
        let Some((power, n)) = front(at, i) else {
            break;
        };
        powers[k] = power;
        at += n;
        k += 1;
        i += 10;
    }
    let tally = Tally {
        lines: k as u32,
        fault: 0,
        ..t
    };
    Run { tally, at }
}

// Whether 16 bytes at least and so many at most stand between two places.
fn is_between(from: usize, to: usize, most: usize) -> bool
    requires { from ≤ to }
    ensures { result ≡ true → Between most from to }
{
    (16 <= to - from) & (to - from <= most)
}

// Whether as many stand before each label and the power of a step as are compared there, from what is the same in each
// label of a list on.
fn is_wide(lead: usize, l: Layout) -> bool
    requires { (lead ≤ l.first) × (l.first + 7 ≤ l.second) × (l.second + 7 ≤ l.power) }
    ensures { result ≡ true → Wide lead l }
{
    is_between(lead, l.first + 1, 32)
        & is_between(l.first + 5, l.second + 1, 24)
        & is_between(l.second + 5, l.power, 24)
}

// The steps after a step's power, as long as nothing stands between their tokens, and then, where that step begins
// after another's power, as long as they are laid out as it is.
pub(crate) fn steps_run(
    s: &[u8],
    lead: usize,
    layout: Option<Layout>,
    from: Run<Tally>,
    steps: u32,
    labels: &[u8],
    powers: &mut [u16; 50],
) -> Run<Tally>
    requires { (from.at ≤ length s.now) × (steps ≤ places) × (labels.now ≡ label_list)
        × ForSome layout (λ l. LaidOut (between_steps ++ before_from) s.now lead l) }
    ensures onward { Onward steps s.now from.at (record { tally = from.tally; powers = powers.old })
        result.at (record { tally = result.tally; powers = powers.new }) }
    ensures at_in_bounds { result.at ≤ length s.now }
{
    let plain = run(
        s,
        from,
        steps,
        labels,
        &mut *powers,
        |at, i| plain_next(s, at, labels, i),
    );
    let Some(l) = layout else {
        return plain;
    };
    if !is_wide(lead, l) {
        return plain;
    }
    run(s, plain, steps, labels, powers, |at, i| {
        laid_front(s, at, lead, l, labels, i)
    })
}

// The first step of the day, where nothing stands between its tokens.
pub(crate) fn first_step(
    s: &[u8],
    at: usize,
    t: Tally,
    steps: u32,
    labels: &[u8],
    powers: &mut [u16; 50],
) -> Option<StepTold>
    requires { (at ≤ length s.now) × (steps ≤ places) × (labels.now ≡ label_list) }
    ensures powers_unchanged { IfNone result (powers.new ≡ powers.old) }
    ensures next_step { IfSome result (λ r. NextStep steps s.now at r.run.at
        (record { tally = t; powers = powers.old }) (record { tally = r.run.tally; powers = powers.new })) }
    ensures no_layout { IfSome result (λ r. r.layout ≡ None) }
{
    if is_over(t, steps) | (steps < FEWEST_STEPS) {
        return None;
    }
    if t.lines != 0 {
        return None;
    }
    if at < 2 {
        return None;
    }
    let (power, n) = plain_front(s, at - 2, b":[{\"Debu", labels, 0)?;
    powers[0] = power;
    let tally = Tally {
        lines: 1,
        fault: 0,
        ..t
    };
    Some(StepTold {
        run: Run {
            tally,
            at: at - 2 + n,
        },
        layout: None,
    })
}

// A step of the day whose labels stand in the list, whatever blanks stand between its tokens.
pub(crate) fn listed_step(
    s: &[u8],
    at: usize,
    t: Tally,
    steps: u32,
    labels: &[u8],
    powers: &mut [u16; 50],
) -> Option<StepTold>
    requires { (at ≤ length s.now) × (steps ≤ places) × (labels.now ≡ label_list) }
    ensures powers_unchanged { IfNone result (powers.new ≡ powers.old) }
    ensures next_step { IfSome result (λ r. NextStep steps s.now at r.run.at
        (record { tally = t; powers = powers.old }) (record { tally = r.run.tally; powers = powers.new })) }
    ensures laid_out { IfSome result (λ r. IfSome r.layout (λ l. LaidOut before_from s.now at l)) }
{
    if is_over(t, steps) | (steps < FEWEST_STEPS) {
        return None;
    }
    let k = t.lines;
    if run_end(steps, k) <= k {
        return None;
    }
    let i = half_hours(steps, k) as usize * 10;
    let layout = layout_at(s, at)?;
    let (power, n) = own_front(s, layout, labels, i)?;
    powers[k as usize] = power;
    let tally = Tally {
        lines: k + 1,
        fault: 0,
        ..t
    };
    Some(StepTold {
        run: Run {
            tally,
            at: layout.power + n,
        },
        layout: Some(layout),
    })
}
