ghost use Rattle.solar.specs.French.{french};
ghost use Rattle.solar.specs.FrenchYears.{french_sound};

use crate::gregorian;
use crate::thirty::Thirty;
use calendar::calendar::Kind;
use date::days::Day;
use date::division::divide;
use reckoning::reckoning::Reckoning;
use reckoning::years::{FIRST, LAST, Outline, Year};

#[derive(Clone, Copy)]
pub struct French;

impl Kind for French {
    const KIND: u8 = 6;
}

#[tactic(auto, unfolding(crate::specs::French::leap, crate::specs::French::before_year, crate::specs::Gregorian::before_year))]
impl Reckoning for French {
    type Months = Thirty;

    ghost rule = { λ _. french };

    ghost sound = { λ _. french_sound };

    fn outline(&self) -> Outline {
        Outline {
            kind: French::KIND,
            first: FIRST,
            last: LAST,
            last_day: 37_178_274,
        }
    }

    // The Gregorian leap years are leap, but not every 4,000th year.
    fn months(&self, year: i32) -> Thirty {
        let this = Year::new(year);
        let leap = gregorian::is_leap(this) && divide(u64::from(this.number()), 4_000).1 != 0;
        Thirty { leap }
    }

    fn new_year(&self, year: i32) -> i32 {
        let year = Year::new(year);
        let cycles = divide(u64::from(year.before()), 4_000).0;
        654_414 + gregorian::days_before(year) - cycles as i32
    }

    fn year_near(&self, day: Day) -> i32 {
        divide(4_000 * (day.number() as u64 + 100), 1_460_969).0 as i32 - 1_791
    }
}
