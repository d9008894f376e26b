ghost use Rattle.solar.specs.Coptic.{coptic};
ghost use Rattle.solar.specs.CopticYears.{coptic_sound};

use crate::thirty::Thirty;
use calendar::calendar::Kind;
use date::days::Day;
use date::division::divide;
use reckoning::reckoning::Reckoning;
use reckoning::years::{FIRST, LAST, Outline, Year};

#[derive(Clone, Copy)]
pub struct Coptic;

impl Kind for Coptic {
    const KIND: u8 = 3;
}

#[tactic(auto, unfolding(crate::specs::Coptic::leap, crate::specs::Coptic::before_year))]
impl Reckoning for Coptic {
    type Months = Thirty;

    ghost rule = { λ _. coptic };

    ghost sound = { λ _. coptic_sound };

    fn outline(&self) -> Outline {
        Outline {
            kind: Coptic::KIND,
            first: FIRST,
            last: LAST,
            last_day: 36_628_239,
        }
    }

    // Every fourth year is leap, from the third.
    fn months(&self, year: i32) -> Thirty {
        let number = u64::from(Year::new(year).number());
        let leap = divide(number, 4).1 == 3;
        Thirty { leap }
    }

    fn new_year(&self, year: i32) -> i32 {
        let year = Year::new(year);
        let fourths = divide(u64::from(year.number()), 4).0;
        (103_604 + 365 * u64::from(year.before()) + fourths) as i32
    }

    fn year_near(&self, day: Day) -> i32 {
        divide(4 * day.number() as u64 + 506, 1_461).0 as i32 - 283
    }
}
