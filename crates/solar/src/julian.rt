ghost use Rattle.solar.specs.Julian.{julian};
ghost use Rattle.solar.specs.JulianYears.{julian_sound};

use crate::civil::Civil;
use calendar::calendar::Kind;
use date::days::Day;
use date::division::divide;
use reckoning::reckoning::Reckoning;
use reckoning::years::{FIRST, LAST, Outline, Year};

#[derive(Clone, Copy)]
pub struct Julian;

impl Kind for Julian {
    const KIND: u8 = 2;
}

#[tactic(auto, unfolding(crate::specs::Julian::leap, crate::specs::Julian::before_year))]
impl Reckoning for Julian {
    type Months = Civil;

    ghost rule = { λ _. julian };

    ghost sound = { λ _. julian_sound };

    fn outline(&self) -> Outline {
        Outline {
            kind: Julian::KIND,
            first: FIRST,
            last: LAST,
            last_day: 36_524_632,
        }
    }

    // Every fourth year is leap.
    fn months(&self, year: i32) -> Civil {
        let number = u64::from(Year::new(year).number());
        let leap = divide(number, 4).1 == 0;
        Civil { leap }
    }

    // The first year starts two days before the Gregorian.
    fn new_year(&self, year: i32) -> i32 {
        let years = u64::from(Year::new(year).before());
        (365 * years + divide(years, 4).0) as i32 - 2
    }

    fn year_near(&self, day: Day) -> i32 {
        (divide(4 * (day.number() as u64 + 2), 1_461).0 + 1) as i32
    }
}
