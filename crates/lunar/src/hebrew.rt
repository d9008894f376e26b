ghost use Rattle.std.specs.Prelude.{◌≡◌, pos, ◌≤ℤ◌, unsigned_abs};
ghost use Rattle.lunar.specs.Hebrew.{year_days, before_year, hebrew as hebrew_rule};
ghost use Rattle.lunar.specs.HebrewMonths.{complete, deficient, days, before_month};
ghost use Rattle.lunar.specs.HebrewYears.{Regular};
ghost use Rattle.lunar.specs.HebrewLaws.{hebrew_sound};

use crate::new_year::{DAY, MONTH, is_leap, new_year_day};
use calendar::calendar::Kind;
use date::days::Day;
use date::division::divide;
use reckoning::months::Months;
use reckoning::reckoning::Reckoning;
use reckoning::years::{FIRST, LAST, Outline, Year};

const MONTHS: u8 = 13;

// The day from which the molads are counted, a Monday.
const EPOCH: i32 = -1_373_427;

#[derive(Clone, Copy)]
pub struct Hebrew;

impl Kind for Hebrew {
    const KIND: u8 = 5;
}

// The months of a Hebrew year, by whether it is leap and by how many days it has.
#[derive(Clone, Copy)]
pub struct HebrewMonths {
    leap: bool,
    days: u16,
}

impl HebrewMonths {
    // A complete year has a day more than a regular one, and a deficient year a day less.
    fn is_complete(self) -> bool
        ensures { result ≡ complete self.days }
    {
        matches!(self.days, 355 | 385)
    }

    fn is_deficient(self) -> bool
        ensures { result ≡ deficient self.days }
    {
        matches!(self.days, 353 | 383)
    }
}

impl Months for HebrewMonths {
    ghost months = { λ y. 13 };

    ghost length = { λ y m. days y.leap y.days m };

    ghost before = { λ y m. before_month y.leap y.days m };

    fn count(&self) -> u8 {
        MONTHS
    }

    // It asks nothing of the month, so that a sum over months may call it.
    fn length(&self, month: u8) -> u8
        ensures { result ≡ days self.now.leap self.now.days month }
    {
        match month {
            2 if self.is_complete() => 30,
            3 if self.is_deficient() => 29,
            6 if !self.leap => 0,
            1 | 3 | 5 | 6 | 8 | 10 | 12 => 30,
            _ => 29,
        }
    }

    fn elapsed(&self, month: u8) -> u16 {
        (1..month)
            .map(|earlier| u16::from(self.length(earlier)))
            .sum()
    }

    // By mean months, of which a common year leaves out the sixth.
    fn month_near(&self, nth: u16) -> u8 {
        let near = divide(2 * u64::from(nth), 59).0 + 1;
        let left_out = u64::from(!self.leap && near >= 7);
        (near + left_out).min(13) as u8
    }
}

// The days before the year.
#[tactic(auto, using(crate::specs::NewYears::new_year_small))]
fn days_before(year: Year) -> i32
    ensures { result ≡ before_year (pos year.number) }
{
    EPOCH + new_year_day(year) as i32 - 1
}

// The days of the year: 353, 354 or 355 if it is common, and 383, 384 or 385 if it is leap. Its months fill it, and it
// begins on no Sunday, no Wednesday and no Friday.
#[tactic(auto, using(crate::specs::NewYears::year_ends))]
pub fn days_in_year(year: i32) -> u16
    requires from { pos 1 ≤ℤ year }
    requires to { year ≤ℤ pos 99999 }
    ensures days { result ≡ year_days (unsigned_abs year) }
    ensures regular { Regular year result }
{
    let year = Year::new(year);
    (new_year_day(year.next()) - new_year_day(year)) as u16
}

impl Reckoning for Hebrew {
    type Months = HebrewMonths;

    ghost rule = { λ _. hebrew_rule };

    #[tactic(auto, unfolding(crate::specs::Hebrew::new_year))]
    fn outline(&self) -> Outline {
        Outline {
            kind: Hebrew::KIND,
            first: FIRST,
            last: LAST,
            last_day: 35_150_867,
        }
    }

    fn months(&self, year: i32) -> HebrewMonths {
        HebrewMonths {
            leap: is_leap(Year::new(year).number()),
            days: days_in_year(year),
        }
    }

    fn new_year(&self, year: i32) -> i32 {
        days_before(Year::new(year))
    }

    // By mean years: nineteen have 235 months.
    fn year_near(&self, day: Day) -> i32 {
        let parts = ((day.number() - EPOCH) as u64 + 1) * DAY;
        (divide(19 * parts, 235 * MONTH).0 + 1) as i32
    }

    ghost sound = { λ c. hebrew_sound };
}
