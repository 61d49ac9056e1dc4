// Files of a long day, and a body of zeros.
use crate::reading::{file, other_body, other_date, other_name};
use std::io;

// A body whose powers are all 0, and with one other.
pub(crate) fn zero_powers(rt: &impl Print, name: &[u8], body: &[u8]) -> io::Result<()> {
    file(rt, "every power 0", name, body)?;
    other_body(
        rt,
        "every power 0 but that of line 49",
        name,
        body,
        768,
        769,
        b"9999",
    )?;
    other_body(
        rt,
        "every power 0, 00 at line 49",
        name,
        body,
        768,
        769,
        b"00",
    )
}

// A long day's file, and its body on other days.
pub(crate) fn long_day(rt: &impl Print, name: &[u8], body: &[u8]) -> io::Result<()> {
    file(rt, "long day", name, body)?;
    other_body(
        rt,
        "long day, line 8 without BIS",
        name,
        body,
        158,
        162,
        b"",
    )?;
    other_name(
        rt,
        "long day's body under a short day's name",
        name,
        body,
        38,
        46,
        b"20210328",
    )?;
    other_date(
        rt,
        "long day's lines on a short day",
        name,
        body,
        b"20210328",
    )
}
