ghost use Rattle.std.specs.Prelude.{◌≡◌, pos, ◌-ℤ◌, ◌≤ℤ◌};
ghost use Rattle.solar.specs.Iso.{week_one, weeks, before_week, iso};
ghost use Rattle.solar.specs.IsoYears.{iso_sound};
ghost use Rattle.solar.specs.WholeWeeks.{Whole};

use crate::gregorian::{self, Gregorian};
use calendar::calendar::Kind;
use date::days::Day;
use date::division::divide;
use reckoning::months::Months;
use reckoning::reckoning::Reckoning;
use reckoning::years::{FIRST, LAST, Outline, Year};

#[derive(Clone, Copy)]
pub struct Iso;

impl Kind for Iso {
    const KIND: u8 = 7;
}

// The weeks of a year, which stand in place of its months.
#[derive(Clone, Copy)]
pub struct Weeks {
    count: u8,
}

impl Months for Weeks {
    ghost months = { λ y. y.count };

    ghost length = { λ y w. 7 };

    ghost before = { λ y w. before_week w };

    fn count(&self) -> u8 {
        self.count
    }

    fn length(&self, month: u8) -> u8 {
        7
    }

    fn elapsed(&self, month: u8) -> u16 {
        (u16::from(month) - 1) * 7
    }

    fn month_near(&self, nth: u16) -> u8 {
        divide(u64::from(nth) + 6, 7).0.min(53) as u8
    }
}

// The days before week 1 of the year, which begins on the Monday on or before 4 January.
#[tactic(auto, unfolding(crate::specs::Iso::week_one, crate::specs::Gregorian::before_year))]
fn days_before(year: Year) -> u32
    ensures { pos result ≡ week_one (pos year.number) -ℤ pos 1 }
{
    let third = gregorian::days_before(year) as u64 + 3;
    (third - divide(third, 7).1) as u32
}

// The weeks of a year. Every year has whole weeks, 52 or 53, and begins on a Monday.
#[tactic(auto, using(crate::proofs::Weeks::turns, crate::specs::IsoYears::whole))]
pub fn weeks_in(year: i32) -> u8
    requires from { pos 1 ≤ℤ year }
    requires to { year ≤ℤ pos 99999 }
    ensures number { result ≡ weeks year }
    ensures whole { Whole year }
{
    let year = Year::new(year);
    if days_before(year.next()) - days_before(year) == 371 {
        53
    } else {
        52
    }
}

#[tactic(auto, unfolding(crate::specs::Iso::week_one, crate::specs::Gregorian::before_year))]
impl Reckoning for Iso {
    type Months = Weeks;

    ghost rule = { λ _. iso };

    ghost sound = { λ _. iso_sound };

    fn outline(&self) -> Outline {
        Outline {
            kind: Iso::KIND,
            first: FIRST,
            last: LAST,
            last_day: 36_523_886,
        }
    }

    fn months(&self, year: i32) -> Weeks {
        Weeks {
            count: weeks_in(year),
        }
    }

    fn new_year(&self, year: i32) -> i32 {
        days_before(Year::new(year)) as i32
    }

    fn year_near(&self, day: Day) -> i32 {
        Gregorian.year_near(day)
    }
}
