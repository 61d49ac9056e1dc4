// Prints what the calendar answers: every day in sums by year, the change days, every label, and the dates, minutes and
// moves of the clock that document 01 names. The file `stdout` holds what a calendar written apart from this one
// answers.
#![tactic(auto)]

mod clocks;
mod dates;
mod days;
mod labels;
mod printing;

use std::io;

fn main(rt: HostRuntime) -> io::Result<()> {
    days::years(&rt)?;
    days::changes(&rt)?;
    labels::all_labels(&rt)?;
    dates::good_dates(&rt)?;
    dates::impossible_dates(&rt)?;
    dates::no_dates(&rt)?;
    dates::past_the_last(&rt)?;
    clocks::plain_minutes(&rt)?;
    clocks::short_minutes(&rt)?;
    clocks::long_minutes(&rt)?;
    clocks::advances(&rt)
}
