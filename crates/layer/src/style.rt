ghost use Rattle.std.specs.Prelude.{◌≡◌, pos, ◌+ℤ◌, ◌-ℤ◌};
ghost use Rattle.calendar.specs.Piles.{meaning, calendar as calendar_of};
ghost use Rattle.calendar.specs.Styles.{mark_of, renumbered, restyled, numbered_back, unstyled, styled};
ghost use Rattle.layer.specs.Sounding.{style_sound};
ghost use Rattle.layer.specs.StyleRules.{style_fits, ruled, year_style};

use calendar::calendar::{Calendar, Kind};
use date::dates::Date;
use date::dates::making::{DAY_TO, MONTH_TO};
use date::days::in_range;
use date::faults::{Cause, Fault, Field};
use date::refusals::{hand_on, instead};

// The range of what is added to a year.
pub const ADDITION_FROM: i64 = -9_999;

pub const ADDITION_TO: i64 = 9_999;

// The month and day on which the year starts, and what is added to the year below. It is made of numbers that fit.
#[derive(Clone, Copy)]
pub struct StyleRule {
    month: u8,
    day: u8,
    addition: i32,
}

impl Kind for StyleRule {
    const KIND: u8 = 9;
}

fn fits(month: i64, day: i64, addition: i64) -> bool
    ensures { result ≡ style_fits month day addition }
{
    (1..=MONTH_TO).contains(&month)
        && (1..=DAY_TO).contains(&day)
        && (ADDITION_FROM..=ADDITION_TO).contains(&addition)
}

impl StyleRule {
    // The rule of three numbers of any value, or the refusal of numbers that do not fit.
    pub fn new(month: i64, day: i64, addition: i64) -> Result<StyleRule, Fault>
        ensures { result ≡ ruled month day addition }
    {
        if !fits(month, day, addition) {
            return Err(Fault::plain(Cause::BadStyle, Self::KIND));
        }
        Ok(StyleRule {
            month: month as u8,
            day: day as u8,
            addition: addition as i32,
        })
    }

    // The mark of a month and day: 1 before the start.
    fn mark(&self, month: u8, day: u8) -> u8
        ensures { result ≡ mark_of (year_style self.now) month day }
    {
        u8::from((month, day) < (self.month, self.day))
    }

    fn year_above(&self, year: i32, mark: u8) -> i64
        ensures { result ≡ year +ℤ self.now.addition -ℤ pos mark }
    {
        i64::from(year) + i64::from(self.addition) - i64::from(mark)
    }

    fn year_below(&self, year: i32, mark: u8) -> i64
        ensures { result ≡ year -ℤ self.now.addition +ℤ pos mark }
    {
        i64::from(year) - i64::from(self.addition) + i64::from(mark)
    }

    // The date in the style with this mark, of a date below.
    fn renumber(&self, mark: u8, below: &Date) -> Result<Date, Fault>
        ensures { result ≡ renumbered (year_style self.now) mark below.now }
    {
        let year = self.year_above(below.year(), mark);
        let date = below.with(0, year, i64::from(mark));
        instead(date, Fault::plain(Cause::NoDate, Self::KIND))
    }

    fn restyle(&self, below: &Date) -> Result<Date, Fault>
        ensures { result ≡ restyled (year_style self.now) below.now }
    {
        if below.era() != 0 || below.mark() != 0 {
            return Err(Fault::plain(Cause::NoDate, Self::KIND));
        }
        self.renumber(self.mark(below.month(), below.day()), below)
    }

    // The date below of a date in the style whose mark is right.
    fn number_back(&self, date: &Date) -> Result<Date, Fault>
        ensures { result ≡ numbered_back (year_style self.now) date.now }
    {
        let year = self.year_below(date.year(), date.mark());
        let below = date.with(0, year, 0);
        instead(below, Fault::misfit(Field::Year, Self::KIND))
    }

    fn unstyle(&self, date: &Date) -> Result<Date, Fault>
        ensures { result ≡ unstyled (year_style self.now) date.now }
    {
        if date.era() != 0 {
            return Err(Fault::misfit(Field::Era, Self::KIND));
        }
        if date.mark() != self.mark(date.month(), date.day()) {
            return Err(Fault::misfit(Field::Mark, Self::KIND));
        }
        self.number_back(date)
    }
}

// A calendar whose year starts and is counted by a rule.
pub struct Style<C: Calendar> {
    rule: StyleRule,
    below: C,
}

impl<C: Calendar> Kind for Style<C> {
    const KIND: u8 = StyleRule::KIND;
}

impl<C: Calendar> Style<C> {
    pub fn new(rule: StyleRule, below: C) -> Style<C>
        ensures { result ≡ record { rule = rule; below = below } }
    {
        Style { rule, below }
    }
}

impl<C: Calendar> Calendar for Style<C> {
    ghost pile = { λ s. calendar_of (styled (year_style s.rule) (meaning (C.Calendar.pile s.below))) };

    ghost sound = { λ s. style_sound (year_style s.rule) (C.Calendar.pile s.below) (C.Calendar.sound s.below) };

    fn date_on(&self, day: i32) -> Result<Date, Fault> {
        if !in_range(day) {
            return Err(Fault::plain(Cause::OutsideRange, StyleRule::KIND));
        }
        let below = hand_on(self.below.date_on(day))?;
        self.rule.restyle(&below)
    }

    fn day_of(&self, date: Date) -> Result<i32, Fault> {
        let below = self.rule.unstyle(&date)?;
        hand_on(self.below.day_of(below))
    }
}
