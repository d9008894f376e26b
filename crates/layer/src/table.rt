ghost use Rattle.std.specs.Prelude.{◌≡◌, true, [], pos};
ghost use Rattle.std.specs.Option.{unwrap_or};
ghost use Rattle.calendar.specs.Eras.{belonging};
ghost use Rattle.calendar.specs.Rows.{row_of, era_on as era_of};
ghost use Rattle.layer.specs.Tables.{number_fits, follows, last_first, rows_fit, may_add, with_row, may_amend, with_number, done_if, bad_row as bad_row_of};

use calendar::calendar::Kind;
use calendar::rows::Row;
use date::days::in_range;
use date::faults::{Cause, Fault};
use std::marker::Model;

// The most rows of a table, and the largest number that a row may have.
pub const MOST_ROWS: usize = 16;

pub const NUMBER_TO: u16 = 999;

// The rows of an era layer, one after another, in room for the most that it may have.
#[derive(Clone, Copy)]
pub struct Table {
    rows: [Row; MOST_ROWS],
    len: usize,
}

// What is seen of a table is its rows. They rise and fit.
impl Model for Table {
    ghost use Rattle.std.specs.Prelude.{List, length, take};
    ghost use Rattle.calendar.specs.declared.rows.Row.{Row};
    ghost use Rattle.layer.specs.Rooms.{in_room, Holds};

    ghost Value = { List Row };

    ghost view = { λ t. take t.len t.rows };

    ghost invariant = { λ t. Holds t.rows t.len };

    ghost inverse = { λ rows. record { rows = in_room rows; len = length rows } };

    ghost inverse_ok = { λ t h i. record { rows = h.blank_behind i; len = h.filled i } };
}

impl Kind for Table {
    const KIND: u8 = 10;
}

fn is_number(number: u16) -> bool
    ensures { result ≡ number_fits number }
{
    (1..=NUMBER_TO).contains(&number)
}

// Whether the row may follow one that begins on the day `last`, or be the first.
fn may_follow(last: Option<i32>, row: Row) -> bool
    ensures { result ≡ follows (unwrap_or last (pos 0)) row }
{
    last.is_none_or(|last| last < row.first) && in_range(row.first) && is_number(row.number)
}

fn bad_row() -> Fault
    ensures { result ≡ bad_row_of }
{
    Fault::plain(Cause::BadRow, Table::KIND)
}

#[tactic(auto, using(crate::proofs::Rows::of_rows))]
impl Table {
    pub(crate) fn empty() -> Table
        ensures rows { result ≡ [] }
        ensures fits { rows_fit result ≡ true }
    {
        Table {
            rows: [Row {
                first: 0,
                number: 0,
            }; MOST_ROWS],
            len: 0,
        }
    }

    // The rows, without the room behind them.
    fn rows(&self) -> &[Row]
        ensures rows { result.now ≡ self.now }
        ensures fits { rows_fit self.now ≡ true }
    {
        &self.rows[..self.len]
    }

    // The day on which the last row begins.
    fn last_first(&self) -> Option<i32>
        ensures { unwrap_or result (pos 0) ≡ last_first (pos 0) self.now }
    {
        self.rows().last().map(|row| row.first)
    }

    // One more row, after the others.
    pub(crate) fn add(&mut self, row: Row) -> Result<(), Fault>
        ensures answer { result ≡ done_if (may_add self.old row) }
        ensures rows { self.new ≡ with_row self.old row }
        ensures fits { rows_fit self.new ≡ true }
    {
        if self.len >= MOST_ROWS || !may_follow(self.last_first(), row) {
            return Err(bad_row());
        }
        self.rows[self.len] = row;
        self.len += 1;
        Ok(())
    }

    // Another number for a row, counted from 1, in its place.
    pub(crate) fn amend(&mut self, row: usize, number: u16) -> Result<(), Fault>
        ensures answer { result ≡ done_if (may_amend self.old row number) }
        ensures rows { self.new ≡ with_number self.old row number }
        ensures still_fits { rows_fit self.new ≡ true }
    {
        if self.len < row || row < 1 || !is_number(number) {
            return Err(bad_row());
        }
        self.rows[row - 1].number = number;
        Ok(())
    }

    // The number of the last row that began by the day, and 0 where none did. The rows rise, so it is how many began.
    pub(crate) fn era_on(&self, day: i32) -> u8
        ensures { result ≡ era_of self.now day }
    {
        self.rows().partition_point(|row| row.first <= day) as u8
    }

    #[tactic(auto, using(crate::proofs::Rows::of_rows, std::proofs::lemmas::Option::gets))]
    pub(crate) fn row(&self, era: u8) -> Option<Row>
        ensures { result ≡ row_of self.now era }
    {
        let place = usize::from(era).checked_sub(1)?;
        self.rows().get(place).copied()
    }

    // The day, if it belongs to the era.
    pub(crate) fn belong(&self, era: u8, day: i32) -> Result<i32, Fault>
        ensures { result ≡ belonging self.now era day }
    {
        if self.era_on(day) == era {
            Ok(day)
        } else {
            Err(Fault::plain(Cause::OutsideEra, Table::KIND))
        }
    }
}
