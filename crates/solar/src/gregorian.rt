ghost use Rattle.std.specs.Prelude.{◌≡◌, pos};
ghost use Rattle.solar.specs.Gregorian.{leap, before_year, gregorian};
ghost use Rattle.solar.specs.GregorianYears.{gregorian_sound};

use crate::civil::Civil;
use calendar::calendar::Kind;
use date::days::Day;
use date::division::divide;
use reckoning::reckoning::Reckoning;
use reckoning::years::{FIRST, LAST, Outline, Year};

#[derive(Clone, Copy)]
pub struct Gregorian;

impl Kind for Gregorian {
    const KIND: u8 = 1;
}

// Every fourth year, but of the centuries every fourth.
#[tactic(auto, unfolding(crate::specs::Gregorian::leap))]
pub(crate) fn is_leap(year: Year) -> bool
    ensures { result ≡ leap (pos year.number) }
{
    let year = u64::from(year.number());
    divide(year, 4).1 == 0 && (divide(year, 100).1 != 0 || divide(year, 400).1 == 0)
}

// The days before the year.
#[tactic(auto, unfolding(crate::specs::Gregorian::before_year))]
pub(crate) fn days_before(year: Year) -> i32
    ensures { result ≡ before_year (pos year.number) }
{
    let years = u64::from(year.before());
    let fourths = divide(years, 4).0;
    let centuries = divide(years, 100).0;
    let cycles = divide(years, 400).0;
    (365 * years + fourths + cycles - centuries) as i32
}

#[tactic(auto, unfolding(crate::specs::Gregorian::before_year))]
impl Reckoning for Gregorian {
    type Months = Civil;

    ghost rule = { λ _. gregorian };

    ghost sound = { λ _. gregorian_sound };

    fn outline(&self) -> Outline {
        Outline {
            kind: Gregorian::KIND,
            first: FIRST,
            last: LAST,
            last_day: 36_523_884,
        }
    }

    fn months(&self, year: i32) -> Civil {
        Civil {
            leap: is_leap(Year::new(year)),
        }
    }

    fn new_year(&self, year: i32) -> i32 {
        days_before(Year::new(year))
    }

    // It needs one correction at most.
    fn year_near(&self, day: Day) -> i32 {
        (divide(400 * day.number() as u64, 146_097).0 + 1) as i32
    }
}
