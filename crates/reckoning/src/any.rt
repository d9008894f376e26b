ghost use Rattle.std.specs.Prelude.{◌≡◌, true, pos, ◌+ℤ◌};
ghost use Rattle.date.specs.Days.{within};
ghost use Rattle.reckoning.specs.Rules.{Rule, Sound, InYears, InMonths, last_year, end as last_of};

use crate::months::Months;
use crate::reckoning::Reckoning;
use crate::years::Outline;
use date::days::Day;

// A reckoning whose months are asked by year and number, whatever type a year of it has: so reckonings of any months can
// be lent side by side, as `&dyn AnyReckoning`. Every reckoning is one.
pub trait AnyReckoning {
    ghost rule: { Self → Rule };

    fn kind(&self) -> u8
        ensures { result ≡ (rule self.now).kind };

    // The first year, and the last.
    fn first(&self) -> i32
        ensures { result ≡ (rule self.now).first };

    fn last(&self) -> i32
        ensures { result ≡ last_year (rule self.now) };

    // The last day of the last year.
    fn last_day(&self) -> i32
        ensures { result ≡ last_of (rule self.now) };

    fn months(&self, year: i32) -> u8
        requires { InYears (rule self.now) year }
        ensures { result ≡ (rule self.now).months year };

    fn length(&self, year: i32, month: u8) -> u8
        requires in_years { InYears (rule self.now) year }
        requires in_months { InMonths (rule self.now) year month }
        ensures { result ≡ (rule self.now).length year month };

    // The day before the first of the year.
    fn new_year(&self, year: i32) -> i32
        requires { InYears (rule self.now) year }
        ensures { result ≡ (rule self.now).start year 1 };

    // The days of the year before the month.
    fn elapsed(&self, year: i32, month: u8) -> u16
        requires in_years { InYears (rule self.now) year }
        requires in_months { InMonths (rule self.now) year month }
        ensures { (rule self.now).start year month ≡ (rule self.now).start year 1 +ℤ pos result };

    // A year near that of the day, and a month near that of the nth day of the year. No answer depends on them.
    fn year_near(&self, day: i32) -> i32
        requires { within day ≡ true };

    fn month_near(&self, year: i32, nth: u16) -> u8;

    ghost sound: { (c : Self) → Sound (rule c) };
}

impl<R: Reckoning> AnyReckoning for R {
    ghost rule = { R.Reckoning.rule };

    ghost sound = { R.Reckoning.sound };

    fn kind(&self) -> u8 {
        self.outline().kind
    }

    fn first(&self) -> i32 {
        self.outline().first
    }

    fn last(&self) -> i32 {
        self.outline().last
    }

    fn last_day(&self) -> i32 {
        let Outline { last_day, .. } = self.outline();
        last_day
    }

    fn months(&self, year: i32) -> u8 {
        Reckoning::months(self, year).count()
    }

    fn length(&self, year: i32, month: u8) -> u8 {
        Reckoning::months(self, year).length(month)
    }

    fn new_year(&self, year: i32) -> i32 {
        Reckoning::new_year(self, year)
    }

    fn elapsed(&self, year: i32, month: u8) -> u16 {
        Reckoning::months(self, year).elapsed(month)
    }

    fn year_near(&self, day: i32) -> i32 {
        Day::new(day).map_or(1, |day| Reckoning::year_near(self, day))
    }

    fn month_near(&self, year: i32, nth: u16) -> u8 {
        if self.outline().has_year(year) {
            Reckoning::months(self, year).month_near(nth)
        } else {
            1
        }
    }
}
