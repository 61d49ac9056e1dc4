// Every day: sums over the digits and days of the week by year, and the days that have not 48 steps.
ghost use Rattle.std.specs.Prelude.{◌≤◌};

use crate::printing::text;
use calendar::{DAYS, PLAIN_STEPS};
use std::io;

const YEARS: u32 = 100;

// A running sum that changes with each value and its place.
fn mix(sum: u32, value: u32) -> u32 {
    ((u64::from(sum) * 257 + u64::from(value)) % 1000000007) as u32
}

// The sum after the eight digits of a day and its day of the week.
fn day_sum(before: u32, day: u32) -> u32 {
    let mut sum = before;
    for digit in calendar::text_of(day) {
        sum = mix(sum, u32::from(digit));
    }
    mix(sum, calendar::weekday_of(day))
}

fn sum_of(first: u32, last: u32) -> u32 {
    (first..last).fold(0, |sum, day| day_sum(sum, day))
}

// Whether the text of a day reads back as the day.
fn reads_back(day: u32) -> bool {
    calendar::day_of(&calendar::text_of(day)) == Some(day)
}

// The year in a day's text.
fn year_of(day: u32) -> (u8, u8) {
    let text = calendar::text_of(day);
    (text[2], text[3])
}

// The first day of the next year.
fn year_end(first: u32) -> u32
    ensures { first ≤ result }
{
    let year = year_of(first);
    (first..DAYS)
        .find(|day| year_of(*day) != year)
        .unwrap_or(first.max(DAYS))
}

// The days from one to another, not included: how many, their sum, and how many read back.
fn span_line(rt: &impl Print, first: u32, last: u32) -> io::Result<()>
    requires { first ≤ last }
{
    let from = calendar::text_of(first);
    println!(rt;
        "{} days from {}, sum {}, read back {}",
        last - first,
        text(&from),
        sum_of(first, last),
        (first..last).filter(|day| reads_back(*day)).count(),
    )
}

pub(crate) fn years(rt: &impl Print) -> io::Result<()> {
    let mut first = 0;
    for _ in 0..YEARS {
        let next = year_end(first);
        span_line(rt, first, next)?;
        first = next;
    }
    span_line(rt, 0, DAYS)
}

pub(crate) fn changes(rt: &impl Print) -> io::Result<()> {
    for day in 0..DAYS {
        let steps = calendar::steps_of(day);
        if steps != PLAIN_STEPS {
            let date = calendar::text_of(day);
            println!(rt; "day {day} {} {steps} steps", text(&date))?;
        }
    }
    Ok(())
}
