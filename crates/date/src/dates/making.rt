ghost use Rattle.std.specs.Prelude.{◌≡◌, pos};
ghost use Rattle.date.specs.Dated.{dated};
ghost use Rattle.date.specs.Fields.{between};
ghost use Rattle.date.specs.Misfits.{first_misfit};

use crate::dates::Date;
use crate::faults::{Fault, Field};

// The ranges of a date's numbers.
pub const ERA_TO: i64 = 255;

pub const YEAR_FROM: i64 = -9_999;

pub const YEAR_TO: i64 = 99_999;

pub const MARK_TO: i64 = 1;

pub const MONTH_TO: i64 = 63;

pub const DAY_TO: i64 = 63;

fn is_between(from: i64, to: i64, n: i64) -> bool
    ensures { result ≡ between from to n }
{
    (from..=to).contains(&n)
}

// The first field whose number is out of its range.
fn first_misfit(era: i64, year: i64, mark: i64, month: i64, day: i64) -> Option<Field>
    ensures { result ≡ first_misfit era year mark month day }
{
    if !is_between(0, ERA_TO, era) {
        Some(Field::Era)
    } else if !is_between(YEAR_FROM, YEAR_TO, year) {
        Some(Field::Year)
    } else if !is_between(0, MARK_TO, mark) {
        Some(Field::Mark)
    } else if !is_between(1, MONTH_TO, month) {
        Some(Field::Month)
    } else if !is_between(1, DAY_TO, day) {
        Some(Field::Day)
    } else {
        None
    }
}

// The date of five numbers, or the refusal of the first that is out of its range.
fn make(era: i64, year: i64, mark: i64, month: i64, day: i64) -> Result<Date, Fault>
    ensures { result ≡ dated era year mark month day }
{
    if let Some(field) = first_misfit(era, year, mark, month, day) {
        return Err(Fault::misfit(field, 0));
    }
    Ok(Date {
        era: era as u8,
        year: year as i32,
        mark: mark as u8,
        month: month as u8,
        day: day as u8,
    })
}

impl Date {
    // The only way to a date: five numbers of any value are tested, in this order.
    pub fn new(era: i64, year: i64, mark: i64, month: i64, day: i64) -> Result<Date, Fault>
        ensures { result ≡ dated era year mark month day }
    {
        make(era, year, mark, month, day)
    }

    // The date with another era, year and mark, and the same month and day of the month.
    pub fn with(&self, era: i64, year: i64, mark: i64) -> Result<Date, Fault>
        ensures { result ≡ dated era year mark (pos self.now.month) (pos self.now.day) }
    {
        Date::new(era, year, mark, i64::from(self.month), i64::from(self.day))
    }

    pub fn era(&self) -> u8
        ensures { result ≡ self.now.era }
    {
        self.era
    }

    pub fn year(&self) -> i32
        ensures { result ≡ self.now.year }
    {
        self.year
    }

    pub fn mark(&self) -> u8
        ensures { result ≡ self.now.mark }
    {
        self.mark
    }

    pub fn month(&self) -> u8
        ensures { result ≡ self.now.month }
    {
        self.month
    }

    pub fn day(&self) -> u8
        ensures { result ≡ self.now.day }
    {
        self.day
    }
}
