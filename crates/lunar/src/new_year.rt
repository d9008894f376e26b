ghost use Rattle.std.specs.Prelude.{◌≡◌, ◌≤◌};
ghost use Rattle.lunar.specs.Hebrew.{new_year};
ghost use Rattle.lunar.specs.Molad.{leap as leap_in, molad_day, molad_part, weekday};
ghost use Rattle.lunar.specs.Postponements.{molad_zaken, gatarad, betutakpat, by_weekday, delay};
ghost use Rattle.lunar.specs.Weekdays.{number_of};

use crate::weekday::Weekday;
use date::division::divide;
use reckoning::years::Year;

// The parts of a day, and those from one molad to the next.
pub(crate) const DAY: u64 = 25_920;

pub(crate) const MONTH: u64 = 765_433;

// Seven years of nineteen.
pub(crate) fn is_leap(year: u32) -> bool
    ensures { result ≡ leap_in year }
{
    divide(7 * u64::from(year) + 1, 19).1 < 7
}

// The molad of a year: its day, counted from a Monday, and its part of the day.
#[derive(Clone, Copy)]
struct Molad {
    day: u64,
    part: u64,
    ghost in_years: { day ≤ 36600000 },
}

impl Molad {
    fn of(year: Year) -> Molad
        ensures day { result.day ≡ molad_day year.number }
        ensures part { result.part ≡ molad_part year.number }
    {
        let months = divide(235 * u64::from(year.number()) - 234, 19).0;
        let (day, part) = divide(5_604 + MONTH * months, DAY);
        Molad { day, part }
    }

    fn weekday(self) -> Weekday
        ensures { number_of result ≡ weekday self.day }
    {
        Weekday::of(self.day)
    }

    // The postponements by their names. Molad zaken: at noon or later.
    fn is_zaken(self) -> bool
        ensures { result ≡ molad_zaken self.part }
    {
        self.part >= 19_440
    }

    // GaTaRaD: in a common year, on a Tuesday and not early.
    fn is_gatarad(self, leap: bool) -> bool
        ensures { result ≡ gatarad leap (weekday self.day) self.part }
    {
        !leap && self.weekday() == Weekday::Tuesday && self.part >= 9_924
    }

    // BeTUTaKPaT: after a leap year, on a Monday and late.
    fn is_betutakpat(self, after_leap: bool) -> bool
        ensures { result ≡ betutakpat after_leap (weekday self.day) self.part }
    {
        after_leap && self.weekday() == Weekday::Monday && self.part >= 16_789
    }

    // A day more where no year begins on the day reached.
    fn put_off(self, days: u64) -> u64
        requires { days ≤ 1 }
        ensures { result ≡ by_weekday (weekday self.day) days }
    {
        if Weekday::of(self.day + days).is_adu() {
            days + 1
        } else {
            days
        }
    }

    // The days from the molad's to the new year.
    fn delay(self, leap: bool, after_leap: bool) -> u64
        ensures { result ≡ delay leap after_leap (weekday self.day) self.part }
    {
        if self.is_gatarad(leap) {
            2
        } else if self.is_betutakpat(after_leap) {
            1
        } else {
            self.put_off(u64::from(self.is_zaken()))
        }
    }
}

// The day of the new year, counted as the molad's.
#[tactic(auto, unfolding(crate::specs::Hebrew::new_year))]
pub(crate) fn new_year_day(year: Year) -> u64
    ensures { result ≡ new_year year.number }
{
    let molad = Molad::of(year);
    molad.day + molad.delay(is_leap(year.number()), is_leap(year.before()))
}
