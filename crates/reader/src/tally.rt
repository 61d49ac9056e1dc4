// What is kept while a day's steps are told one after another, in lines or otherwise: their number, the first fault,
// the powers.
ghost use Rattle.std.specs.Prelude.{◌≡◌, ◌+◌, ◌<◌, ◌≤◌, min};
ghost use Rattle.notification.specs.Forms.{places};
ghost use Rattle.reader.specs.Folding.{counted, faulted, is_over, judged, fault_of};

use refusals::{InputRefusal, Refusal};

// More steps than any day has are counted as one more than that.
const MOST_LINES: u32 = 51;

// The fault of a step whose labels are wrong, and of one whose power is: the number of the refusal. 0 is no fault.
// Numbers and no enum: a tally lies in the file reader that C holds, so that any number may stand there.
pub(crate) const NO_FAULT: u32 = 0;

const LABELS: u32 = InputRefusal::Labels as u32;

const POWER: u32 = InputRefusal::Power as u32;

// What the steps so far have shown: how many there were, the first fault, and its place.
#[repr(C)]
#[derive(Clone, Copy)]
pub struct Tally {
    pub lines: u32,
    pub fault: u32,
    pub place: u32,
}

// Why a step gives no power.
#[derive(Clone, Copy)]
pub enum StepFault {
    NoLabels,
    NoPower,
}

// Lines that were taken, and where the next one begins.
#[derive(Clone, Copy)]
pub struct Run<T> {
    pub tally: T,
    pub at: usize,
}

fn one_more(lines: u32) -> u32
    ensures { result ≡ min (lines + 1) 51 }
{
    lines.saturating_add(1).min(MOST_LINES)
}

// A step more.
pub fn count(t: Tally) -> Tally
    ensures { result ≡ counted t }
{
    Tally {
        lines: one_more(t.lines),
        ..t
    }
}

// A step more, which is the first with a fault.
fn fault(t: Tally, number: u32, place: u32) -> Tally
    ensures { result ≡ faulted t number place }
{
    Tally {
        lines: one_more(t.lines),
        fault: number,
        place,
    }
}

// Whether a step is only counted: after a fault, and past the day's steps.
pub fn is_over(t: Tally, steps: u32) -> bool
    ensures { result ≡ is_over steps t }
{
    (t.fault != NO_FAULT) | (steps <= t.lines)
}

// The next step of the day, by what is said of it: its power in its place, or the first fault. The place of the first
// step is given.
pub fn note(t: Tally, first: u32, said: Result<u16, StepFault>, powers: &mut [u16; 50]) -> Tally
    requires { (t.lines < places) × (first ≤ 2) }
    ensures { record { tally = result; powers = powers.new }
        ≡ judged first (record { tally = t; powers = powers.old }) said }
{
    let k = t.lines;
    match said {
        Ok(v) => {
            powers[k as usize] = v;
            count(t)
        }
        Err(StepFault::NoLabels) => fault(t, LABELS, k + first),
        Err(StepFault::NoPower) => fault(t, POWER, k + first),
    }
}

// What the first fault is refused by.
#[tactic(auto, unfolding(crate::specs::Folding::fault_of))]
pub(crate) fn fault_of(t: Tally) -> Result<(), Refusal>
    ensures { result ≡ fault_of t }
{
    match t.fault {
        NO_FAULT => Ok(()),
        LABELS => Err(Refusal::Input(InputRefusal::Labels, t.place)),
        _ => Err(Refusal::Input(InputRefusal::Power, t.place)),
    }
}
