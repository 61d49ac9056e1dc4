// The clock: "a day and an elapsed minute below 30 times the day's steps", a value whose methods take it and answer the
// next one.
ghost use Rattle.std.specs.Prelude.{◌≡◌};
ghost use Rattle.calendar.specs.Clocks.{fresh_clock, first_counted, counts, replaces_whole, loadable, is_moment};
ghost use Rattle.calendar.specs.Clocks.{is_before, advanced};

use crate::steps::{STEP_MINUTES, steps_of};
use refusals::trying::refuse_if;
use refusals::{InputRefusal, Refusal, StateRefusal};

// The steps that the neutral hour takes from the clock's own on: the one that runs, and the next, past midnight too.
const NEUTRAL_STEPS: u32 = 2;

// A day and the minutes elapsed since its local midnight.
#[repr(C)]
#[derive(Clone, Copy, PartialEq, Eq, PartialOrd, Ord)]
pub struct Clock {
    pub day: u32,
    pub minute: u32,
}

impl Clock {
    // The clock of a fresh register.
    pub fn fresh() -> Self
        ensures { result ≡ fresh_clock }
    {
        Clock { day: 0, minute: 0 }
    }

    // The first step of a day that counts.
    pub fn first_counted(self, day: u32) -> u32
        ensures { result ≡ first_counted self day }
    {
        let after = self.minute / STEP_MINUTES + NEUTRAL_STEPS;
        if day <= self.day {
            return after;
        }
        if day - self.day > 1 {
            return 0;
        }
        let steps = steps_of(self.day);
        after.saturating_sub(steps)
    }

    // Whether a step of a day counts.
    pub fn counts(self, day: u32, step: u32) -> bool
        ensures { result ≡ counts self day step }
    {
        let first = self.first_counted(day);
        (self.day <= day) & (first <= step)
    }

    // Whether a record of a day, validated from a step on, is replaced whole.
    pub fn replaces_whole(self, from: u32, day: u32) -> bool
        ensures { result ≡ replaces_whole self from day }
    {
        let first = self.first_counted(day);
        (from == first) | (first == 0)
    }

    // Whether a day can be loaded.
    pub fn loadable(self, day: u32) -> bool
        ensures { result ≡ loadable self day }
    {
        let first = self.first_counted(day);
        (self.day < day) & (first == 0)
    }

    // Whether the minute is one of the day's.
    pub fn is_moment(self) -> bool
        ensures { result ≡ is_moment self }
    {
        let steps = steps_of(self.day);
        self.minute < STEP_MINUTES * steps
    }

    // Whether this moment is before another.
    pub fn is_before(self, other: Clock) -> bool
        ensures { result ≡ is_before self other }
    {
        self < other
    }

    // The clock at a later moment, or at the same one: 10, 38.
    #[tactic(auto, unfolding(crate::specs::Clocks::advanced))]
    pub fn advanced(self, to: Clock) -> Result<Clock, Refusal>
        ensures { result ≡ advanced self to }
    {
        refuse_if(!to.is_moment(), InputRefusal::Range)?;
        refuse_if(to.is_before(self), StateRefusal::Back)?;
        Ok(to)
    }
}
