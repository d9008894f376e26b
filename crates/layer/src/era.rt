ghost use Rattle.std.specs.Prelude.{◌≡◌, true, [], Ok};
ghost use Rattle.calendar.specs.Eras.{first_year, reckoned, unreckoned, with_eras};
ghost use Rattle.calendar.specs.Piles.{meaning, calendar as calendar_of};
ghost use Rattle.date.specs.Refusals.{then};
ghost use Rattle.layer.specs.Sounding.{era_sound};
ghost use Rattle.layer.specs.Tables.{rows_fit, may_add, with_row, may_amend, with_number, done_if};

use crate::era::counting::Beginning;
use crate::table::Table;
use calendar::calendar::{Calendar, Kind};
use calendar::rows::Row;
use date::dates::Date;
use date::days::in_range;
use date::faults::{Cause, Fault, Field};
use date::refusals::hand_on;

mod counting;

// A calendar whose years are counted anew from the first day of each row of a table. The rows fit and rise.
pub struct Era<C: Calendar> {
    below: C,
    table: Table,
    ghost ok: { rows_fit table ≡ true },
}

impl<C: Calendar> Kind for Era<C> {
    const KIND: u8 = Table::KIND;
}

impl<C: Calendar> Era<C> {
    // A layer whose table has no row yet.
    pub fn new(below: C) -> Era<C>
        ensures below { result.below ≡ below }
        ensures rows { result.table ≡ [] }
    {
        Era {
            below,
            table: Table::empty(),
        }
    }

    // One more row, after the others; a row that does not fit is refused.
    pub fn add(&mut self, row: Row) -> Result<(), Fault>
        ensures answer { result ≡ done_if (may_add self.old.table row) }
        ensures rows { self.new.table ≡ with_row self.old.table row }
        ensures below { self.new.below ≡ self.old.below }
    {
        self.table.add(row)
    }

    // Another number for a row, counted from 1, in its place.
    pub fn amend(&mut self, row: usize, number: u16) -> Result<(), Fault>
        ensures answer { result ≡ done_if (may_amend self.old.table row number) }
        ensures rows { self.new.table ≡ with_number self.old.table row number }
        ensures below { self.new.below ≡ self.old.below }
    {
        self.table.amend(row, number)
    }

    // Where the row's era begins, if the row's first day carries a date of no era below.
    fn beginning(&self, row: Row) -> Result<Beginning, Fault>
        ensures { result ≡ then (first_year (meaning (C.Calendar.pile self.now.below)) row) (λ y. Ok (record { row = row; first = y })) }
    {
        let outside = Fault::plain(Cause::OutsideEra, Table::KIND);
        let date = self.below.date_on(row.first).map_err(|_| outside)?;
        if date.era() != 0 {
            return Err(outside);
        }
        Ok(Beginning {
            row,
            first: date.year(),
        })
    }

    // The date on a day of the era whose date below is this.
    fn reckon(&self, era: u8, below: Date) -> Result<Date, Fault>
        ensures { result ≡ reckoned self.now.table (meaning (C.Calendar.pile self.now.below)) era below }
    {
        if below.era() != 0 {
            return Err(Fault::plain(Cause::NoDate, Table::KIND));
        }
        match self.table.row(era) {
            Some(row) => self.beginning(row)?.raise(era, &below),
            None => Ok(below),
        }
    }

    // The date below of a date.
    fn unreckon(&self, date: Date) -> Result<Date, Fault>
        ensures { result ≡ unreckoned self.now.table (meaning (C.Calendar.pile self.now.below)) date }
    {
        if date.era() == 0 {
            return Ok(date);
        }
        let row = self.table.row(date.era());
        let row = row.ok_or(Fault::misfit(Field::Era, Table::KIND))?;
        self.beginning(row)?.lower(&date)
    }
}

impl<C: Calendar> Calendar for Era<C> {
    ghost pile = { λ e. calendar_of (with_eras e.table (meaning (C.Calendar.pile e.below))) };

    ghost sound = { λ e. era_sound e.table (C.Calendar.pile e.below) (C.Calendar.sound e.below) };

    fn date_on(&self, day: i32) -> Result<Date, Fault> {
        if !in_range(day) {
            return Err(Fault::plain(Cause::OutsideRange, Table::KIND));
        }
        let below = hand_on(self.below.date_on(day))?;
        self.reckon(self.table.era_on(day), below)
    }

    fn day_of(&self, date: Date) -> Result<i32, Fault> {
        let below = self.unreckon(date)?;
        let day = hand_on(self.below.day_of(below))?;
        self.table.belong(date.era(), day)
    }
}
