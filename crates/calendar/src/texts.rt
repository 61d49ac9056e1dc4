// The eight digits of a date, from a day and back.
ghost use Rattle.std.specs.Prelude.{◌≡◌};
ghost use Rattle.calendar.specs.Texts.{digit_of, date_text, text_of, pair_of, day_at, day_of};

use crate::dates::{DAYS, Date, date_of, is_valid, number_of};

// The byte of the digit 0.
const ZERO: u32 = b'0' as u32;

// How many digits a date has.
const DIGITS: usize = 8;

// The century of every date.
const CENTURY: u32 = 20;

// What two bytes that are no digits stand for: more than any two digits do. A number and no Option: the test of the
// date refuses it as it refuses any other that is too large.
const NO_PAIR: u32 = 100;

// The last digit of a number.
pub fn digit(n: u32) -> u8
    ensures { result ≡ digit_of n }
{
    (ZERO + n % 10) as u8
}

// The eight digits of a date.
fn digits(x: Date) -> [u8; 8]
    ensures { result ≡ date_text x }
{
    [
        digit(CENTURY / 10),
        digit(CENTURY),
        digit(x.year / 10),
        digit(x.year),
        digit(x.month / 10),
        digit(x.month),
        digit(x.day / 10),
        digit(x.day),
    ]
}

// The eight digits of a day; eight bytes of 0 where there is no such day.
pub fn text_of(day: u32) -> [u8; 8]
    ensures { result ≡ text_of day }
{
    if day >= DAYS {
        return [0; 8];
    }
    digits(date_of(day))
}

// Two bytes as a number below 100, and 100 where they are no digits.
pub fn pair(a: u8, b: u8) -> u32
    ensures { result ≡ pair_of a b }
{
    if (b'0' <= a) & (a <= b'9') & ((b'0' <= b) & (b <= b'9')) {
        10 * (a as u32 - ZERO) + (b as u32 - ZERO)
    } else {
        NO_PAIR
    }
}

// The day of a date in a century, where there is such a day.
pub fn day_at(century: u32, year: u32, month: u32, day: u32) -> Option<u32>
    ensures { result ≡ day_at century (record { year = year; month = month; day = day }) }
{
    if century != CENTURY {
        return None;
    }
    let x = Date { year, month, day };
    if is_valid(x) {
        Some(number_of(x))
    } else {
        None
    }
}

// The day that a text stands for, where it is the eight digits of one.
pub fn day_of(s: &[u8]) -> Option<u32>
    ensures { result ≡ day_of s.now }
{
    if s.len() != DIGITS {
        return None;
    }
    day_at(
        pair(s[0], s[1]),
        pair(s[2], s[3]),
        pair(s[4], s[5]),
        pair(s[6], s[7]),
    )
}
