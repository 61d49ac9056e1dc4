// Days and steps (document 01, "Days and steps"): dates and day numbers, the steps of a day and their labels, the
// clock.
#![tactic(auto)]

pub mod change_days;
pub mod clock;
pub mod dates;
pub mod labels;
pub mod steps;
pub mod texts;

pub use crate::clock::Clock;
pub use crate::dates::DAYS;
pub use crate::labels::{Label, Labels, labels_of, turn_of};
pub use crate::steps::{LONG_STEPS, PLAIN_STEPS, SHORT_STEPS, STEP_MINUTES, steps_of, weekday_of};
pub use crate::texts::{day_of, text_of};
