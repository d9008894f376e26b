ghost use Rattle.std.specs.Prelude.{pos};
ghost use Rattle.lunar.specs.Islamic.{days, before_month, islamic as islamic_rule};
ghost use Rattle.lunar.specs.IslamicYears.{islamic_sound};

use calendar::calendar::Kind;
use date::days::Day;
use date::division::divide;
use reckoning::months::Months;
use reckoning::reckoning::Reckoning;
use reckoning::years::{FIRST, LAST, Outline, Year};

const MONTHS: u8 = 12;

// The civil calendar, whose months follow a count and not the moon that is seen.
#[derive(Clone, Copy)]
pub struct Islamic;

impl Kind for Islamic {
    const KIND: u8 = 4;
}

// The months have 30 and 29 days in turn, and in a leap year the last has 30.
#[derive(Clone, Copy)]
pub struct IslamicMonths {
    leap: bool,
}

impl Months for IslamicMonths {
    ghost months = { λ y. 12 };

    ghost length = { λ y m. days y.leap m };

    ghost before = { λ y m. before_month m };

    fn count(&self) -> u8 {
        MONTHS
    }

    fn length(&self, month: u8) -> u8 {
        if month % 2 == 1 || self.leap && month == 12 {
            30
        } else {
            29
        }
    }

    fn elapsed(&self, month: u8) -> u16 {
        29 * (u16::from(month) - 1) + u16::from(month) / 2
    }

    fn month_near(&self, nth: u16) -> u8 {
        let days = u64::from(nth).saturating_sub(1);
        (divide(2 * days, 59).0 + 1).min(12) as u8
    }
}

impl Reckoning for Islamic {
    type Months = IslamicMonths;

    ghost rule = { λ _. islamic_rule };

    fn outline(&self) -> Outline {
        Outline {
            kind: Islamic::KIND,
            first: FIRST,
            last: LAST,
            last_day: 35_663_326,
        }
    }

    // Eleven years of thirty are leap.
    fn months(&self, year: i32) -> IslamicMonths {
        let number = u64::from(Year::new(year).number());
        let leap = divide(11 * number + 14, 30).1 < 11;
        IslamicMonths { leap }
    }

    fn new_year(&self, year: i32) -> i32 {
        let years = u64::from(Year::new(year).before());
        (227_014 + 354 * years + divide(11 * years + 14, 30).0) as i32
    }

    fn year_near(&self, day: Day) -> i32 {
        let days = (day.number() as u64).saturating_sub(227_015);
        (divide(30 * days + 15, 10_631).0 + 1) as i32
    }

    ghost sound = { λ c. islamic_sound };
}
