ghost use Rattle.std.specs.Prelude.{◌≡◌, true, false, Some, None};
ghost use Rattle.date.specs.Days.{within, weekday_on};

use crate::division::divide;
use crate::faults::{Cause, Fault};

// The range of days, counted from 1 January of year 1 in the Gregorian calendar, which is day 1.
pub const FIRST_DAY: i32 = 1;

pub const LAST_DAY: i32 = 3_652_059;

pub fn in_range(day: i32) -> bool
    ensures { result ≡ within day }
{
    FIRST_DAY <= day && day <= LAST_DAY
}

// A day of the range.
#[derive(Clone, Copy, PartialEq, Eq, PartialOrd, Ord, Debug)]
pub struct Day {
    number: i32,
    ghost ok: { within number ≡ true },
}

impl Day {
    // The day of that number, if it is in the range.
    pub fn new(number: i32) -> Option<Day>
        ensures { elim result [ Some d ↦ (within number ≡ true) × (d.number ≡ number) | None ↦ within number ≡ false ] }
    {
        if in_range(number) {
            Some(Day { number })
        } else {
            None
        }
    }

    pub fn number(self) -> i32
        ensures { result ≡ self.number }
    {
        self.number
    }
}

// The weekday of a day, 0 for Sunday to 6 for Saturday.
pub fn weekday(day: i32) -> Result<u8, Fault>
    ensures { result ≡ weekday_on day }
{
    let day = Day::new(day).ok_or(Fault::plain(Cause::OutsideRange, 0))?;
    Ok(divide(day.number as u64, 7).1 as u8)
}
