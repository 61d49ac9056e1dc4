// A moment by its twenty bytes: "`YYYY-MM-DDTHH:mm:ssZ` with a date of document 01 and a time from 00:00:00 to
// 23:59:59". Each function asks for the twenty: they are looked at by their places.
ghost use Rattle.std.specs.Prelude.{true, false, ◌≡◌, length, MatchOption};
ghost use Rattle.calendar.specs.Texts.{day_of};
ghost use Rattle.request.specs.Moments.{is_moment_text, moment_in};
ghost use Rattle.request_reader.specs.Walking.{marks_stand, date_digits, time_in};

use calendar::texts::{day_at, pair};
use request::Moment;

// Whether the bytes that are no digits stand in their places.
fn marks_stand(s: &[u8]) -> bool
    requires { length s.now ≡ 20 }
    ensures { result ≡ marks_stand s.now }
{
    (s[4] == b'-')
        & (s[7] == b'-')
        & (s[10] == b'T')
        & (s[13] == b':')
        & (s[16] == b':')
        & (s[19] == b'Z')
}

// The day of the eight digits of the date.
fn day_in(s: &[u8]) -> Option<u32>
    requires { length s.now ≡ 20 }
    ensures { result ≡ day_of (date_digits s.now) }
{
    day_at(
        pair(s[0], s[1]),
        pair(s[2], s[3]),
        pair(s[5], s[6]),
        pair(s[8], s[9]),
    )
}

// The second of the time.
fn time_in(s: &[u8]) -> Option<u32>
    requires { length s.now ≡ 20 }
    ensures { result ≡ time_in s.now }
{
    let hour = pair(s[11], s[12]);
    let minute = pair(s[14], s[15]);
    let second = pair(s[17], s[18]);
    if (hour < 24) & (minute < 60) & (second < 60) {
        Some(3600 * hour + 60 * minute + second)
    } else {
        None
    }
}

// The moment that twenty bytes give.
pub(crate) fn moment_of(s: &[u8]) -> Option<Moment>
    requires { length s.now ≡ 20 }
    ensures { MatchOption result (is_moment_text s.now ≡ false)
        (λ m. (is_moment_text s.now ≡ true) × (m ≡ moment_in s.now)) }
{
    if !marks_stand(s) {
        return None;
    }
    let second = time_in(s)?;
    let day = day_in(s)?;
    Some(Moment { day, second })
}
