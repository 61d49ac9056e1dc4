// What the writer answers: lengths, or a refusal that leaves both buffers as they were.
use crate::files::{PLAIN_DAY, guide, guide_powers, key_on, noted};
use crate::printing::{mixed, put_refusal};
use calendar::DAYS;
use notification::{Key, Notification};
use std::io;

// Says of a buffer whether it is as it was, by the sums before and after.
fn change(rt: &impl Print, before: u32, after: u32) -> io::Result<()> {
    if before == after {
        print!(rt; " unchanged")
    } else {
        print!(rt; " now {after}")
    }
}

// Writes into two buffers, and says what came of it and of the whole of both.
pub(crate) fn write_into(
    rt: &impl Print,
    title: &str,
    n: Notification,
    name: &mut [u8],
    body: &mut [u8],
) -> io::Result<()> {
    let name_before = mixed(1, name);
    let body_before = mixed(1, body);
    print!(rt; "{title}: ")?;
    match writer::writing::write_file(n, name, body) {
        Ok(lengths) => print!(rt; "ok, name of {}, body of {}", lengths.name, lengths.body)?,
        Err(r) => put_refusal(rt, r)?,
    }
    print!(rt; ", name")?;
    change(rt, name_before, mixed(1, name))?;
    print!(rt; ", body")?;
    change(rt, body_before, mixed(1, body))?;
    println!(rt)
}

// Writes into two buffers that are long enough.
fn write(rt: &impl Print, title: &str, n: Notification) -> io::Result<()> {
    let mut name = [b'.'; 60];
    let mut body = [b'.'; 1100];
    write_into(rt, title, n, &mut name, &mut body)
}

// A power in the place of one of the guide's.
fn with_power(steps: u32, place: usize, power: u16) -> Notification {
    let mut powers = guide_powers();
    if let Some(p) = powers.get_mut(place) {
        *p = power;
    }
    noted(PLAIN_DAY, steps, powers)
}

fn on_key(key: Key) -> Notification {
    Notification {
        key,
        steps: 48,
        powers: guide_powers(),
    }
}

// Good, 9, and 10 by the count of steps.
pub(crate) fn forms(rt: &impl Print) -> io::Result<()> {
    let key = Key {
        ceder: [b' '; 16],
        ..key_on(PLAIN_DAY)
    };
    write(rt, "write the guide's", guide())?;
    write(rt, "write a blank ceder", on_key(key))?;
    write(rt, "write 47 steps", noted(PLAIN_DAY, 47, guide_powers()))
}

// 10, and 8.
pub(crate) fn ranges(rt: &impl Print) -> io::Result<()> {
    write(rt, "write a power past the steps", with_power(48, 48, 1))?;
    write(rt, "write a power of 10000", with_power(48, 0, 10000))?;
    write(rt, "write day 36525", noted(DAYS, 48, guide_powers()))?;
    write(rt, "write zeros", noted(PLAIN_DAY, 48, [0; 50]))
}

// 36.
pub(crate) fn short_name(rt: &impl Print) -> io::Result<()> {
    let mut name = [b'.'; 56];
    let mut body = [b'.'; 819];
    write_into(
        rt,
        "a name's room one byte short",
        guide(),
        &mut name,
        &mut body,
    )
}

pub(crate) fn short_body(rt: &impl Print) -> io::Result<()> {
    let mut name = [b'.'; 57];
    let mut body = [b'.'; 818];
    write_into(
        rt,
        "a body's room one byte short",
        guide(),
        &mut name,
        &mut body,
    )
}
