// The steps of a day: "A short day has 46 steps, a long day 50, any other 48."
ghost use Rattle.std.specs.Prelude.{◌≡◌};
ghost use Rattle.calendar.specs.Steps.{weekday, steps_of};

use crate::change_days::change_day;
use crate::dates::{DAYS, year_of};

// The steps of a short day.
pub const SHORT_STEPS: u32 = 46;

// The steps of a long day, the most that a day has.
pub const LONG_STEPS: u32 = 50;

// The steps of any other day.
pub const PLAIN_STEPS: u32 = 48;

// The minutes of a step.
pub const STEP_MINUTES: u32 = 30;

// The days of a week.
const WEEK: u32 = 7;

// The day of the week on which a change day falls.
const SUNDAY: u32 = 1;

// The day of the week, from 0 for Saturday: day 0 is one.
pub fn weekday_of(day: u32) -> u32
    ensures { result ≡ weekday day }
{
    day % WEEK
}

// How many steps a day has; none where there is no such day. Only a Sunday is held against the table, which a call
// copies.
pub fn steps_of(day: u32) -> u32
    ensures { result ≡ steps_of day }
{
    if day >= DAYS {
        return 0;
    }
    if weekday_of(day) != SUNDAY {
        return PLAIN_STEPS;
    }
    let year = year_of(day);
    if day == change_day(2 * year) {
        return SHORT_STEPS;
    }
    if day == change_day(2 * year + 1) {
        return LONG_STEPS;
    }
    PLAIN_STEPS
}
