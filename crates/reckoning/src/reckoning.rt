ghost use Rattle.std.specs.Prelude.{◌≡◌};
ghost use Rattle.reckoning.specs.Rules.{Rule, Sound, InYears};
ghost use Rattle.reckoning.specs.Years.{Bounds, MonthsOf};

use crate::months::Months;
use crate::years::Outline;
use date::days::Day;

// A calendar that goes by a rule: which years it has, on which day each begins, and which months it has. Only the
// conversion asks for a year, after it has tested that the year is the rule's.
pub trait Reckoning {
    type Months: Months;

    ghost rule: { Self → Rule };

    // What holds of every year.
    fn outline(&self) -> Outline
        ensures { Bounds (rule self.now) result.kind result.first result.last result.last_day };

    // The months of the year.
    fn months(&self, year: i32) -> Self::Months
        requires { InYears (rule self.now) year }
        ensures { MonthsOf (rule self.now) year (Self.Months.months result) (Self.Months.length result) (Self.Months.before result) };

    // The day before the first of the year.
    fn new_year(&self, year: i32) -> i32
        requires { InYears (rule self.now) year }
        ensures { result ≡ (rule self.now).start year 1 };

    // A year near that of the day: where the corrections begin. No answer depends on it.
    fn year_near(&self, day: Day) -> i32;

    ghost sound: { (c : Self) → Sound (rule c) };
}
