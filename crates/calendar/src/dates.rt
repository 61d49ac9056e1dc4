// Dates and day numbers: "A date is eight digits, year month day, Gregorian, 20000101 to 20991231. Its day number
// counts from 0 for 20000101, a Saturday, to 36524." Leap days go as a number with its bound, since they are added.
ghost use Rattle.std.specs.Prelude.{true, ◌≡◌, ◌+◌, ◌<◌};
ghost use Rattle.calendar.specs.Dates.{year_count, day_count, month_count, leap_days, before_year, before_month};
ghost use Rattle.calendar.specs.Dates.{month_length, InMonth, number, date, valid};

// The days of the calendar, 20000101 to 20991231.
pub const DAYS: u32 = 36525;

// The years of the calendar.
const YEARS: u32 = 100;

// Every fourth of these years is a leap year: so many days in four years.
const FOUR_YEARS: u32 = 1461;

// The months of a year.
const MONTHS: u32 = 12;

// A date: the year from 0 for 2000, the month and the day from 1.
#[derive(Clone, Copy)]
pub struct Date {
    pub year: u32,
    pub month: u32,
    pub day: u32,
}

// The days that a year has above 365: of these years every fourth, 2000 too, is a leap year. A number and no bool,
// since it is added.
fn leap_days(year: u32) -> u32
    requires { year < year_count }
    ensures { (result ≡ leap_days year) × (result < 2) }
{
    if year % 4 == 0 { 1 } else { 0 }
}

// The days of a year before a month, from 0 (no month) to 13 (the next year): from March on, five months have 153 days.
fn before_month(leaps: u32, month: u32) -> u32
    requires { (leaps < 2) × (month < month_count + 2) }
    ensures { result ≡ before_month leaps month }
{
    if month < 3 {
        31 * (month / 2)
    } else {
        59 + leaps + (153 * month - 457) / 5
    }
}

// The days before a year.
fn before_year(year: u32) -> u32
    requires { year < year_count + 1 }
    ensures { result ≡ before_year year }
{
    (FOUR_YEARS * year + 3) / 4
}

// The month that a day of the year, from 0, is in: a month has at most 31 days, so it is the one guessed or the next.
fn month_of(leaps: u32, rest: u32) -> u32
    requires { (leaps < 2) × (rest < 365 + leaps) }
    ensures { InMonth leaps rest result }
{
    let near = rest / 32 + 1;
    if before_month(leaps, near + 1) <= rest {
        near + 1
    } else {
        near
    }
}

// The year that a day is in.
pub(crate) fn year_of(day: u32) -> u32
    requires { day < day_count }
    ensures { (result ≡ (date day).year) × (result < year_count) }
{
    4 * day / FOUR_YEARS
}

// The date of a day.
pub(crate) fn date_of(day: u32) -> Date
    requires { day < day_count }
    ensures { result ≡ date day }
{
    let year = year_of(day);
    let rest = day - before_year(year);
    let leaps = leap_days(year);
    let month = month_of(leaps, rest);
    let day = rest - before_month(leaps, month) + 1;
    Date { year, month, day }
}

// The length of a month; 0 where there is no such month, and no Option: a day is held against it, and none is below 1.
fn month_length(leaps: u32, month: u32) -> u32
    requires { leaps < 2 }
    ensures { result ≡ month_length leaps month }
{
    if month > MONTHS {
        return 0;
    }
    before_month(leaps, month + 1) - before_month(leaps, month)
}

// Whether there is such a date.
pub(crate) fn is_valid(x: Date) -> bool
    ensures { result ≡ valid x }
{
    if x.year >= YEARS {
        return false;
    }
    let length = month_length(leap_days(x.year), x.month);
    ((1 <= x.month) & (x.month <= MONTHS)) & ((1 <= x.day) & (x.day <= length))
}

// The day number of a date that there is.
pub(crate) fn number_of(x: Date) -> u32
    requires { valid x ≡ true }
    ensures { result ≡ number x }
{
    before_year(x.year) + before_month(leap_days(x.year), x.month) + (x.day - 1)
}
