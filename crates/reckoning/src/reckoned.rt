ghost use Rattle.std.specs.Prelude.{◌≡◌, ◌≤◌, ◌<◌, ◌≤ℤ◌, true, false, pos, ◌+ℤ◌, MatchOption, IfOk, int_lt};
ghost use Rattle.calendar.specs.Piles.{calendar as calendar_of};
ghost use Rattle.date.specs.Fields.{month_to};
ghost use Rattle.reckoning.specs.Faith.{Faithful};
ghost use Rattle.reckoning.specs.Held.{HoldsYear, HoldsNth};
ghost use Rattle.reckoning.specs.Reckoned.{reckoned as reckoned_by, misdated, place_in, has_day, on};
ghost use Rattle.reckoning.specs.Rules.{InYears};
ghost use Rattle.reckoning.specs.Years.{Bounds, MonthsOf};
ghost use Rattle.reckoning.specs.Faiths.{rule_lawful};

use crate::months::Months;
use crate::reckoning::Reckoning;
use crate::years::Outline;
use calendar::calendar::Calendar;
use date::dates::Date;
use date::days::Day;
use date::faults::{Cause, Fault, Field};

// A calendar that goes by a reckoning.
#[derive(Clone, Copy)]
pub struct Reckoned<R> {
    by: R,
}

// Whether the month holds the nth day of the year: it begins before the day, and the next, if there is one, does not.
fn holds_nth<M: Months>(months: &M, month: u8, nth: u16) -> bool
    requires from { 1 ≤ month }
    requires to { month ≤ M.months months.now }
    ensures { result ≡ true → HoldsNth (M.months months.now) (M.before months.now) nth month }
{
    months.elapsed(month) < nth && (month == months.count() || months.elapsed(month + 1) >= nth)
}

// The month that holds the nth day of the year, from one near it: back while it begins too late, and on while the next
// begins in time.
#[cold]
fn month_from<M: Months>(months: &M, near: u8, nth: u16) -> u8
    requires from { 1 ≤ near }
    requires to { near ≤ M.months months.now }
    requires few { M.months months.now ≤ month_to }
    requires begun { M.before months.now 1 < nth }
    ensures { HoldsNth (M.months months.now) (M.before months.now) nth result }
{
    let count = months.count();
    let month = (1..near + 1)
        .rev()
        .find(|&m| months.elapsed(m) < nth)
        .unwrap_or(1);
    (month..count)
        .find(|&m| months.elapsed(m + 1) >= nth)
        .unwrap_or(count)
}

// The month that holds the nth day of the year: the hint, or one that is found from there.
fn month_of<M: Months>(months: &M, nth: u16) -> u8
    requires some { 1 ≤ M.months months.now }
    requires few { M.months months.now ≤ month_to }
    requires begun { M.before months.now 1 < nth }
    ensures { HoldsNth (M.months months.now) (M.before months.now) nth result }
{
    let near = months.month_near(nth).clamp(1, months.count());
    if holds_nth(months, near, nth) {
        near
    } else {
        month_from(months, near, nth)
    }
}

// The theorem of arithmetic calendars, at the rule of a reckoning. It stands apart from `new` for the sake of the edit
// `new-never-returns`: a function that has a proof file and calls itself is refused for the place of that file alone.
fn faithful_to<R: Reckoning>(by: R) -> Reckoned<R>
    ensures same { result.by ≡ by }
    ensures faithful { Faithful (R.Reckoning.rule by) }
{
    Reckoned { by }
}

impl<R: Reckoning> Reckoned<R> {
    // The calendar of a reckoning. Every day of its years has one valid date, both answers are exact, and later days have
    // later dates.
    pub fn new(by: R) -> Reckoned<R>
        ensures same { result.by ≡ by }
        ensures faithful { Faithful (R.Reckoning.rule by) }
    {
        faithful_to(by)
    }

    // Whether the year begins before the day.
    fn begins_before(&self, year: i32, day: i32) -> bool
        requires { InYears (R.rule self.now.by) year }
        ensures { result ≡ int_lt ((R.rule self.now.by).start year 1) day }
    {
        self.by.new_year(year) < day
    }

    // Whether the year holds the day: it begins before the day, and the next, if there is one, does not.
    fn holds(&self, outline: &Outline, year: i32, day: Day) -> bool
        requires bounds { let o = outline.now in Bounds (R.rule self.now.by) o.kind o.first o.last o.last_day }
        requires in_years { InYears (R.rule self.now.by) year }
        requires by { day.number ≤ℤ outline.now.last_day }
        ensures { result ≡ true → HoldsYear (R.rule self.now.by) day.number year }
    {
        let n = day.number();
        self.begins_before(year, n) && (year == outline.last || !self.begins_before(year + 1, n))
    }

    // The year that holds the day, if one does, from one near it: back to one that begins before the day, and on to the
    // last whose next does not.
    #[cold]
    fn year_from(&self, outline: &Outline, near: i32, day: Day) -> Option<i32>
        requires bounds { let o = outline.now in Bounds (R.rule self.now.by) o.kind o.first o.last o.last_day }
        requires in_years { InYears (R.rule self.now.by) near }
        requires by { day.number ≤ℤ outline.now.last_day }
        ensures { let r = R.rule self.now.by in
            MatchOption result (has_day r day.number ≡ false) (λ y. HoldsYear r day.number y) }
    {
        let (first, last) = (outline.first, outline.last);
        let n = day.number();
        let year = (first..near + 1).rev().find(|&y| self.begins_before(y, n))?;
        Some(
            (year..last)
                .find(|&y| !self.begins_before(y + 1, n))
                .unwrap_or(last),
        )
    }

    // The year that holds the day, if one does: the hint, or one that is found from there. A day that no year holds is
    // not put to the hint.
    fn year_of(&self, outline: &Outline, day: Day) -> Option<i32>
        requires { let o = outline.now in Bounds (R.rule self.now.by) o.kind o.first o.last o.last_day }
        ensures { let r = R.rule self.now.by in
            MatchOption result (has_day r day.number ≡ false) (λ y. HoldsYear r day.number y) }
    {
        let n = day.number();
        if n > outline.last_day || !self.begins_before(outline.first, n) {
            return None;
        }
        let near = self.by.year_near(day).clamp(outline.first, outline.last);
        if self.holds(outline, near, day) {
            Some(near)
        } else {
            self.year_from(outline, near, day)
        }
    }

    // The date of a day that the year holds.
    fn date_in(&self, year: i32, day: Day) -> Result<Date, Fault>
        requires { HoldsYear (R.rule self.now.by) day.number year }
        ensures { result ≡ on (R.rule self.now.by) day.number }
    {
        let months = self.by.months(year);
        let nth = (day.number() - self.by.new_year(year)) as u16;
        let month = month_of(&months, nth);
        let of_month = nth - months.elapsed(month);
        Date::new(0, i64::from(year), 0, i64::from(month), i64::from(of_month))
    }

    // The months of the date's year, or the first field of the date that the rule does not have. A month of no days is
    // none of the year's.
    fn months_of(&self, outline: &Outline, date: &Date) -> Result<R::Months, Field>
        requires { let o = outline.now in Bounds (R.rule self.now.by) o.kind o.first o.last o.last_day }
        ensures place { misdated (R.rule self.now.by) date.now ≡ place_in result }
        ensures months { let r = R.rule self.now.by in
            IfOk result (λ m. MonthsOf r date.now.year (R.Months.months m) (R.Months.length m) (R.Months.before m)) }
    {
        if date.era() != 0 {
            return Err(Field::Era);
        }
        if !outline.has_year(date.year()) {
            return Err(Field::Year);
        }
        if date.mark() != 0 {
            return Err(Field::Mark);
        }
        let months = self.by.months(date.year());
        if date.month() > months.count() {
            return Err(Field::Month);
        }
        let days = months.length(date.month());
        if days == 0 {
            return Err(Field::Month);
        }
        if date.day() > days {
            return Err(Field::Day);
        }
        Ok(months)
    }

    // The day of a date whose fields the rule has, by the months of its year.
    fn day_in(&self, months: &R::Months, date: &Date) -> i32
        requires fits { misdated (R.rule self.now.by) date.now ≡ 0 }
        requires months { let m = months.now in
            MonthsOf (R.rule self.now.by) date.now.year (R.Months.months m) (R.Months.length m) (R.Months.before m) }
        ensures { result ≡ (R.rule self.now.by).start date.now.year date.now.month +ℤ pos date.now.day }
    {
        let before_month = i32::from(months.elapsed(date.month()));
        self.by.new_year(date.year()) + before_month + i32::from(date.day())
    }
}

impl<R: Reckoning> Calendar for Reckoned<R> {
    ghost pile = { λ c. calendar_of (reckoned_by (R.Reckoning.rule c.by)) };

    ghost sound = { λ c. rule_lawful _ (R.Reckoning.sound c.by) };

    #[tactic(auto, unfolding(crate::specs::Reckoned::on))]
    fn date_on(&self, day: i32) -> Result<Date, Fault> {
        let outline = self.by.outline();
        let kind = outline.kind;
        let day = Day::new(day).ok_or(Fault::plain(Cause::OutsideRange, kind))?;
        let year = self
            .year_of(&outline, day)
            .ok_or(Fault::plain(Cause::NoDate, kind))?;
        self.date_in(year, day)
    }

    #[tactic(auto, unfolding(crate::specs::Reckoned::of))]
    fn day_of(&self, date: Date) -> Result<i32, Fault> {
        let outline = self.by.outline();
        let kind = outline.kind;
        let months = self
            .months_of(&outline, &date)
            .map_err(|field| Fault::misfit(field, kind))?;
        let day = self.day_in(&months, &date);
        Day::new(day).ok_or(Fault::new(Cause::OutsideRange, 0, day, kind))?;
        Ok(day)
    }
}
