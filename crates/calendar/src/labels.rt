// The two labels of a step: "Labels are `hh:mm` pairs, 00:00;00:30 up to 23:30;24:00", but for the turn of a short and
// of a long day. A step and the day's steps go as two numbers: they are what a caller has.
ghost use Rattle.std.specs.Prelude.{◌≡◌, ◌<◌, ◌≤◌};
ghost use Rattle.calendar.specs.Labels.{turn_of, minute_of, label_of, labels_of, labels_at};
ghost use Rattle.calendar.specs.Steps.{long_steps};

use crate::steps::{LONG_STEPS, PLAIN_STEPS, STEP_MINUTES};
use crate::texts::digit;

// The boundary between steps at which a short day turns: 02:00, which becomes 03:00.
const SHORT_TURN: u32 = 4;

// The boundary at which a long day turns: after 03:00, and 02:30 stands again.
const LONG_TURN: u32 = 7;

// The minutes of an hour.
const HOUR: u32 = 60;

// A time of day as text: 5 bytes, or 9 where it stands for the second time; the bytes past them are 0. `len` stands
// beside them, since without a heap there is no text to give out.
#[derive(Clone, Copy)]
pub struct Label {
    pub bytes: [u8; 9],
    pub len: u32,
}

// The two labels of a step.
#[derive(Clone, Copy)]
pub struct Labels {
    pub from: Label,
    pub until: Label,
}

// The boundary between steps from which on the labels are counted back from midnight, with its bounds for the caller.
pub fn turn_of(steps: u32) -> u32
    ensures { (result ≡ turn_of steps) × (4 ≤ result) × (result ≤ 7) }
{
    if steps < PLAIN_STEPS {
        SHORT_TURN
    } else {
        LONG_TURN
    }
}

// The minute that a boundary is labelled with.
fn minute_at(steps: u32, at: u32) -> u32
    requires { (at ≤ steps) × (steps ≤ long_steps) }
    ensures { result ≡ minute_of steps at }
{
    if at < turn_of(steps) {
        STEP_MINUTES * at
    } else {
        STEP_MINUTES * (at + PLAIN_STEPS - steps)
    }
}

// The label of a boundary between steps.
fn label_at(steps: u32, at: u32) -> Label
    requires { (at ≤ steps) × (steps ≤ long_steps) }
    ensures { result ≡ label_of steps at }
{
    let t = turn_of(steps);
    let m = minute_at(steps, at);
    let a = digit(m / HOUR / 10);
    let b = digit(m / HOUR);
    let c = digit(m % HOUR / 10);
    let d = digit(m % HOUR);
    if (t <= at) & (m < STEP_MINUTES * t) {
        Label {
            bytes: [a, b, b':', c, d, b'_', b'B', b'I', b'S'],
            len: 9,
        }
    } else {
        Label {
            bytes: [a, b, b':', c, d, 0, 0, 0, 0],
            len: 5,
        }
    }
}

// The two labels of a step of the day.
fn labels_within(steps: u32, step: u32) -> Labels
    requires { (step < steps) × (steps ≤ long_steps) }
    ensures { result ≡ labels_of steps step }
{
    let from = label_at(steps, step);
    let until = label_at(steps, step + 1);
    Labels { from, until }
}

// The two labels of a step of a day of so many steps; outside the day both are empty, of length 0.
pub fn labels_of(steps: u32, step: u32) -> Labels
    ensures { result ≡ labels_at steps step }
{
    if (steps <= LONG_STEPS) & (step < steps) {
        return labels_within(steps, step);
    }
    let none = Label {
        bytes: [0; 9],
        len: 0,
    };
    Labels {
        from: none,
        until: none,
    }
}
