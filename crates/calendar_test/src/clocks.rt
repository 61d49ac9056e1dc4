// The minutes of documents 01 and 02 on their days, and moves of the clock.
ghost use Rattle.std.specs.Prelude.{◌≤◌};
ghost use Rattle.calendar.specs.Dates.{day_count};

use crate::printing::{label_bytes, text};
use calendar::{Clock, DAYS};
use refusals::number_of;
use std::io;

// How many steps of a day count.
fn counted(clock: Clock, day: u32) -> usize {
    (0..calendar::steps_of(day))
        .filter(|step| clock.counts(day, *step))
        .count()
}

// A minute of a day: whether it is one, its first counted step with that step's label, and how many steps count on the
// day, on the two after it and on the one before.
fn minute_line(rt: &impl Print, day: u32, minute: u32) -> io::Result<()>
    requires { (1 ≤ day) × (day ≤ day_count) }
{
    let clock = Clock { day, minute };
    let date = calendar::text_of(day);
    let moment = if clock.is_moment() { "yes" } else { "no" };
    let steps = calendar::steps_of(day);
    let first = clock.first_counted(day);
    let labels = calendar::labels_of(steps, first);
    let from = text(label_bytes(&labels.from));
    print!(rt;
        "{} minute {minute}: moment {moment}, first {first} of {steps} {from}, counted {}",
        text(&date),
        counted(clock, day),
    )?;
    println!(rt;
        ", tomorrow {} from {}, the day after {} from {}, yesterday {}",
        counted(clock, day + 1),
        clock.first_counted(day + 1),
        counted(clock, day + 2),
        clock.first_counted(day + 2),
        counted(clock, day - 1),
    )
}

// 20210120, a day of 48 steps, and the eves of a day of 46 and of one of 50.
pub(crate) fn plain_minutes(rt: &impl Print) -> io::Result<()> {
    minute_line(rt, 7690, 942)?;
    minute_line(rt, 7690, 1068)?;
    minute_line(rt, 7690, 1379)?;
    minute_line(rt, 7690, 1380)?;
    minute_line(rt, 7690, 1409)?;
    minute_line(rt, 7690, 1410)?;
    minute_line(rt, 7690, 1439)?;
    minute_line(rt, 7690, 1440)?;
    minute_line(rt, 7756, 1409)?;
    minute_line(rt, 7756, 1410)?;
    minute_line(rt, 7973, 1409)?;
    minute_line(rt, 7973, 1410)
}

// 20210328.
pub(crate) fn short_minutes(rt: &impl Print) -> io::Result<()> {
    minute_line(rt, 7757, 1319)?;
    minute_line(rt, 7757, 1320)?;
    minute_line(rt, 7757, 1349)?;
    minute_line(rt, 7757, 1350)?;
    minute_line(rt, 7757, 1379)?;
    minute_line(rt, 7757, 1380)
}

// 20211031.
pub(crate) fn long_minutes(rt: &impl Print) -> io::Result<()> {
    minute_line(rt, 7974, 1439)?;
    minute_line(rt, 7974, 1440)?;
    minute_line(rt, 7974, 1469)?;
    minute_line(rt, 7974, 1470)?;
    minute_line(rt, 7974, 1499)?;
    minute_line(rt, 7974, 1500)
}

fn advance_line(rt: &impl Print, from: Clock, to: Clock) -> io::Result<()> {
    print!(rt;
        "day {} minute {} to day {} minute {}",
        from.day, from.minute, to.day, to.minute
    )?;
    match from.advanced(to) {
        Ok(_) => println!(rt; " moves"),
        Err(refusal) if number_of(refusal) == 10 => println!(rt; " is no moment"),
        Err(_) => println!(rt; " would go back"),
    }
}

fn at(day: u32, minute: u32) -> Clock {
    Clock { day, minute }
}

pub(crate) fn advances(rt: &impl Print) -> io::Result<()> {
    let noon = at(7690, 720);
    advance_line(rt, Clock::fresh(), noon)?;
    advance_line(rt, noon, noon)?;
    advance_line(rt, noon, at(7690, 719))?;
    advance_line(rt, noon, at(7689, 721))?;
    advance_line(rt, noon, at(7691, 0))?;
    advance_line(rt, noon, at(7690, 1440))?;
    advance_line(rt, noon, at(7974, 1440))?;
    advance_line(rt, noon, at(DAYS, 0))
}
