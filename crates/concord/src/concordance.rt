ghost use Rattle.std.specs.Prelude.{◌≡◌};
ghost use Rattle.concord.specs.Answering.{date_of, column, columns_on, answered};
ghost use Rattle.concord.specs.Concordance.{Concordant};

use crate::letters::Letter;
use crate::reader::Line;
use calendar::calendar::Calendar;
use date::dates::Date;
use date::days::weekday;
use date::faults::Fault;

// A day's date under a letter, or why there is none.
#[derive(Clone, Copy)]
pub(crate) struct Column {
    pub(crate) letter: Letter,
    pub(crate) date: Result<Date, Fault>,
}

// What is answered of a line: its day, the weekday, and the day's date under every letter.
#[derive(Clone, Copy)]
pub(crate) struct Answer {
    pub(crate) day: i32,
    pub(crate) weekday: u8,
    pub(crate) columns: [Column; 2],
}

// The date of the line's numbers, if they fit.
impl TryFrom<Line> for Date {
    type Error = Fault;

    ghost try_from_gives = { λ line read. read ≡ date_of line };

    fn try_from(line: Line) -> Result<Date, Fault> {
        Date::new(
            i64::from(line.era),
            line.year,
            i64::from(line.mark),
            i64::from(line.month),
            i64::from(line.day),
        )
    }
}

impl Column {
    fn new(letter: Letter, day: i32) -> Column
        ensures { result ≡ column day letter }
    {
        Column {
            letter,
            date: letter.date_on(day),
        }
    }
}

// The day's date under every letter.
fn columns_on(day: i32) -> [Column; 2]
    ensures { result ≡ columns_on day }
{
    Letter::ALL.map(|letter| Column::new(letter, day))
}

// The first refusal ends it: in reading, in making the date, or by the calendar.
fn answer_to(read: Result<Line, Fault>) -> Result<Answer, Fault>
    ensures { result ≡ answered read }
{
    let line = read?;
    let date = Date::try_from(line)?;
    let day = line.letter.day_of(date)?;
    Ok(Answer {
        day,
        weekday: weekday(day)?,
        columns: columns_on(day),
    })
}

impl Answer {
    // The answer to a line as it was read. Its dates are one day's: each, put to its own letter, gets the same answer.
    #[tactic(auto, using(crate::proofs::Concording::concordant))]
    pub(crate) fn new(read: Result<Line, Fault>) -> Result<Answer, Fault>
        ensures value { result ≡ answered read }
        ensures concordant { Concordant }
    {
        answer_to(read)
    }
}
