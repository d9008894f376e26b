ghost use Rattle.std.specs.Prelude.{◌≡◌, Ok};
ghost use Rattle.concord.specs.Ending.{ended, year_of};
ghost use Rattle.concord.specs.Reading.{next};
ghost use Rattle.concord.specs.Ways.{start, answer, after, at, with_letter, with_digit, with_era, with_minus, with_mark, two_digits, with_month, with_day};

use crate::letters::Letter;
use date::faults::Cause;

// What was read last of a line. `Number` is digits that may yet be an era or a year, `Zero` a year that is 0, and
// `YearEnd` and `MonthEnd` are the hyphens after a year and a month.
#[derive(Clone, Copy)]
pub(crate) enum State {
    Nothing,
    Letter,
    Space,
    Number,
    Colon,
    Minus,
    Zero,
    Year,
    Slash,
    Mark,
    YearEnd,
    MonthTens,
    Month,
    MonthEnd,
    DayTens,
    Day,
}

// A line as it is written: its letter and the five numbers of its date, which need not fit a date.
#[derive(Clone, Copy)]
pub(crate) struct Line {
    pub(crate) letter: Letter,
    pub(crate) era: u16,
    pub(crate) year: i64,
    pub(crate) mark: u8,
    pub(crate) month: u16,
    pub(crate) day: u16,
}

// A line in reading: what was read last, and what is known by then. `number` is the digits of an era or a year.
#[derive(Clone, Copy)]
pub(crate) struct Reader {
    state: State,
    letter: Letter,
    era: u16,
    minus: bool,
    number: u32,
    mark: u8,
    month: u16,
    day: u16,
}

// A number of two digits at most, when one more is read.
fn two_digits(number: u16, digit: u8) -> u16
    ensures { result ≡ two_digits number digit }
{
    number % 10 * 10 + u16::from(digit)
}

impl Reader {
    pub(crate) fn new() -> Reader
        ensures { result ≡ start }
    {
        Reader {
            state: State::Nothing,
            letter: Letter::G,
            era: 0,
            minus: false,
            number: 0,
            mark: 0,
            month: 0,
            day: 0,
        }
    }

    // Takes the next byte of the line, or says why no line goes on with it.
    pub(crate) fn step(&mut self, byte: u8) -> Result<(), Cause>
        ensures answer { result ≡ answer (next self.old byte) }
        ensures after { self.new ≡ after self.old (next self.old byte) }
    {
        *self = match (self.state, byte) {
            (State::Nothing, _) => self.with_letter(byte)?,
            (State::Letter, b' ') => self.at(State::Space),
            (State::Space, b'1'..=b'9') => self.with_digit(byte - b'0', State::Number)?,
            (State::Number, b'0'..=b'9') => self.with_digit(byte - b'0', State::Number)?,
            (State::Number, b':') => self.with_era()?,
            (State::Space | State::Colon, b'-') => self.with_minus(),
            (State::Space | State::Colon, b'0') => self.at(State::Zero),
            (State::Colon | State::Minus, b'1'..=b'9') => self.with_digit(
                byte - b'0',
                State::Year,
            )?,
            (State::Year, b'0'..=b'9') => self.with_digit(byte - b'0', State::Year)?,
            (State::Number | State::Zero | State::Year, b'/') => self.at(State::Slash),
            (State::Number | State::Zero | State::Year, b'-') => self.at(State::YearEnd),
            (State::Slash, b'1') => self.with_mark(),
            (State::Mark, b'-') => self.at(State::YearEnd),
            (State::YearEnd, b'0'..=b'9') => self.with_month(byte - b'0', State::MonthTens),
            (State::MonthTens, b'0'..=b'9') => self.with_month(byte - b'0', State::Month),
            (State::Month, b'-') => self.at(State::MonthEnd),
            (State::MonthEnd, b'0'..=b'9') => self.with_day(byte - b'0', State::DayTens),
            (State::DayTens, b'0'..=b'9') => self.with_day(byte - b'0', State::Day),
            _ => return Err(Cause::Malformed),
        };
        Ok(())
    }

    // The line, if it may end here.
    pub(crate) fn end(self) -> Result<Line, Cause>
        ensures { result ≡ ended self }
    {
        match self.state {
            State::Day => Ok(Line {
                letter: self.letter,
                era: self.era,
                year: self.year(),
                mark: self.mark,
                month: self.month,
                day: self.day,
            }),
            _ => Err(Cause::Malformed),
        }
    }

    fn year(self) -> i64
        ensures { result ≡ year_of self }
    {
        let size = i64::from(self.number);
        if self.minus { -size } else { size }
    }

    // After a byte that only leads on.
    fn at(self, state: State) -> Reader
        ensures { Ok result ≡ at state self }
    {
        Reader { state, ..self }
    }

    fn with_letter(self, byte: u8) -> Result<Reader, Cause>
        ensures { result ≡ with_letter byte self }
    {
        Ok(Reader {
            letter: Letter::try_from(byte)?,
            ..self.at(State::Letter)
        })
    }

    // One digit more of an era or a year, which has five at most.
    fn with_digit(self, digit: u8, state: State) -> Result<Reader, Cause>
        ensures { result ≡ with_digit digit state self }
    {
        if self.number >= 10_000 {
            return Err(Cause::Malformed);
        }
        Ok(Reader {
            number: self.number * 10 + u32::from(digit),
            ..self.at(state)
        })
    }

    // The colon after a number of three digits at most, which is then the era.
    fn with_era(self) -> Result<Reader, Cause>
        ensures { result ≡ with_era self }
    {
        if self.number >= 1_000 {
            return Err(Cause::Malformed);
        }
        Ok(Reader {
            era: self.number as u16,
            number: 0,
            ..self.at(State::Colon)
        })
    }

    fn with_minus(self) -> Reader
        ensures { Ok result ≡ with_minus self }
    {
        Reader {
            minus: true,
            ..self.at(State::Minus)
        }
    }

    fn with_mark(self) -> Reader
        ensures { Ok result ≡ with_mark self }
    {
        Reader {
            mark: 1,
            ..self.at(State::Mark)
        }
    }

    fn with_month(self, digit: u8, state: State) -> Reader
        ensures { Ok result ≡ with_month digit state self }
    {
        Reader {
            month: two_digits(self.month, digit),
            ..self.at(state)
        }
    }

    fn with_day(self, digit: u8, state: State) -> Reader
        ensures { Ok result ≡ with_day digit state self }
    {
        Reader {
            day: two_digits(self.day, digit),
            ..self.at(state)
        }
    }
}
