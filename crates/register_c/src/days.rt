// Days by their dates, and their steps.
ghost use Rattle.std.specs.Prelude.{◌≡◌};
ghost use Rattle.calendar.specs.Texts.{day_of, text_of};
ghost use Rattle.calendar.specs.Steps.{steps_of};
ghost use Rattle.register_c.specs.Faces.{number_of_day};

use calendar::DAYS;

// The eight digits of a date.
#[repr(C)]
#[derive(Clone, Copy)]
pub struct DateText {
    pub digits: [u8; 8],
}

// The number of the day with this date; 36525 where there is none.
#[unsafe(no_mangle)]
pub extern "C" fn calendar_day(date: &[u8]) -> u32
    ensures { result ≡ number_of_day (day_of date.now) }
{
    calendar::day_of(date).unwrap_or(DAYS)
}

// The date of a day; eight bytes of 0 where there is no such day.
#[unsafe(no_mangle)]
pub extern "C" fn calendar_date(day: u32) -> DateText
    ensures { result ≡ record { digits = text_of day } }
{
    let digits = calendar::text_of(day);
    DateText { digits }
}

// How many steps a day has; 0 where there is no such day.
#[unsafe(no_mangle)]
pub extern "C" fn calendar_steps(day: u32) -> u32
    ensures { result ≡ steps_of day }
{
    calendar::steps_of(day)
}
