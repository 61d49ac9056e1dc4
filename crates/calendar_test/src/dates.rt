// What texts stand for: dates, impossible dates, and texts that are none.
use calendar::DAYS;
use std::io;

// What a text stands for.
fn answer(rt: &impl Print, text: &[u8]) -> io::Result<()> {
    match calendar::day_of(text) {
        Some(day) => println!(rt; " is day {day} of {} steps", calendar::steps_of(day)),
        None => println!(rt; " is no day"),
    }
}

fn date_line(rt: &impl Print, text: &str) -> io::Result<()> {
    print!(rt; "'{text}'")?;
    answer(rt, text.as_bytes())
}

pub(crate) fn good_dates(rt: &impl Print) -> io::Result<()> {
    date_line(rt, "20000101")?;
    date_line(rt, "20000229")?;
    date_line(rt, "20000326")?;
    date_line(rt, "20210328")?;
    date_line(rt, "20211031")?;
    date_line(rt, "20991231")
}

pub(crate) fn impossible_dates(rt: &impl Print) -> io::Result<()> {
    date_line(rt, "20210230")?;
    date_line(rt, "20000230")?;
    date_line(rt, "20210229")?;
    date_line(rt, "20210431")?;
    date_line(rt, "20210001")?;
    date_line(rt, "20211301")?;
    date_line(rt, "20210100")?;
    date_line(rt, "19991231")?;
    date_line(rt, "21000101")
}

pub(crate) fn no_dates(rt: &impl Print) -> io::Result<()> {
    date_line(rt, "")?;
    date_line(rt, "2021032")?;
    date_line(rt, "202103280")?;
    date_line(rt, "2021O328")?;
    date_line(rt, "2021-3-8")?;
    date_line(rt, " 2021032")?;
    print!(rt; "a byte of 178 for the last digit")?;
    answer(rt, b"2021032\xb2")?;
    print!(rt; "a text of eight bytes of 255")?;
    answer(rt, b"\xff\xff\xff\xff\xff\xff\xff\xff")
}

// What stands past the last day.
pub(crate) fn past_the_last(rt: &impl Print) -> io::Result<()> {
    let none = calendar::text_of(DAYS);
    print!(rt; "the text of the day after the last")?;
    answer(rt, &none)?;
    println!(rt; "{} steps past the last day", calendar::steps_of(DAYS))
}
