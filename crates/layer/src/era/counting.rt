ghost use Rattle.std.specs.Prelude.{◌≡◌, pos, ◌+ℤ◌, ◌-ℤ◌};
ghost use Rattle.calendar.specs.Eras.{raised, lowered};

use crate::table::Table;
use calendar::calendar::Kind;
use calendar::rows::Row;
use date::dates::Date;
use date::faults::{Cause, Fault, Field};
use date::refusals::instead;

// Where an era begins: its row, and the year below on the row's first day. From there its years are counted.
#[derive(Clone, Copy)]
pub(crate) struct Beginning {
    pub(crate) row: Row,
    pub(crate) first: i32,
}

impl Beginning {
    fn year_above(&self, year: i32) -> i64
        ensures { result ≡ pos self.now.row.number +ℤ year -ℤ self.now.first }
    {
        i64::from(self.row.number) + i64::from(year) - i64::from(self.first)
    }

    fn year_below(&self, year: i32) -> i64
        ensures { result ≡ year -ℤ pos self.now.row.number +ℤ self.now.first }
    {
        i64::from(year) - i64::from(self.row.number) + i64::from(self.first)
    }

    // The date below, counted in the era.
    pub(crate) fn raise(&self, era: u8, below: &Date) -> Result<Date, Fault>
        ensures { result ≡ raised era self.now.row self.now.first below.now }
    {
        let year = self.year_above(below.year());
        let date = below.with(i64::from(era), year, i64::from(below.mark()));
        instead(date, Fault::plain(Cause::NoDate, Table::KIND))
    }

    // The date of the era as it is below.
    pub(crate) fn lower(&self, date: &Date) -> Result<Date, Fault>
        ensures { result ≡ lowered self.now.row self.now.first date.now }
    {
        let year = self.year_below(date.year());
        let below = date.with(0, year, i64::from(date.mark()));
        instead(below, Fault::misfit(Field::Year, Table::KIND))
    }
}
