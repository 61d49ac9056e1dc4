// Moments: whether one is in its range, and its text.
ghost use Rattle.std.specs.Prelude.{◌≡◌};
ghost use Rattle.request.specs.Moments.{in_time, moment_text};

use calendar::texts::digit;
use calendar::{DAYS, text_of};
use request::Moment;

// The seconds of a day, of an hour and of a minute.
const DAY_SECONDS: u32 = 86400;

const HOUR_SECONDS: u32 = 3600;

const MINUTE_SECONDS: u32 = 60;

// Whether a moment has a date of document 01 and a time from 00:00:00 to 23:59:59.
pub(crate) fn is_timed(m: Moment) -> bool
    ensures { result ≡ in_time m }
{
    (m.day < DAYS) & (m.second < DAY_SECONDS)
}

// A moment's text, `YYYY-MM-DDTHH:mm:ssZ`.
pub(crate) fn moment_text(m: Moment) -> [u8; 20]
    ensures { result ≡ moment_text m }
{
    let d = text_of(m.day);
    let hour = m.second / HOUR_SECONDS;
    let minute = m.second / MINUTE_SECONDS % 60;
    let second = m.second % MINUTE_SECONDS;
    [
        d[0],
        d[1],
        d[2],
        d[3],
        b'-',
        d[4],
        d[5],
        b'-',
        d[6],
        d[7],
        b'T',
        digit(hour / 10),
        digit(hour),
        b':',
        digit(minute / 10),
        digit(minute),
        b':',
        digit(second / 10),
        digit(second),
        b'Z',
    ]
}
