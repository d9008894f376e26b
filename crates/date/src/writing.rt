ghost use Rattle.std.specs.Prelude.{Some};
ghost use Rattle.std.specs.Fmt.{WritesOnOk};
ghost use Rattle.date.specs.Writing.{era_text, mark_text, day_text, date_text, refusal_text};

use crate::dates::Date;
use crate::faults::Fault;
use std::fmt;

// An era and a colon; nothing where there is no era.
fn write_era<W: fmt::Write>(era: u8, f: &mut fmt::Formatter<W>) -> fmt::Result
    ensures { WritesOnOk W.write_str_gives f.old result (era_text era) f.new }
{
    if era > 0 { write!(f, "{era}:") } else { Ok(()) }
}

// A mark, told where it is 1.
fn write_mark<W: fmt::Write>(mark: u8, f: &mut fmt::Formatter<W>) -> fmt::Result
    ensures { WritesOnOk W.write_str_gives f.old result (mark_text mark) f.new }
{
    if mark == 1 { write!(f, "/1") } else { Ok(()) }
}

// A hyphen and the month, a hyphen and the day of the month, each in two digits.
#[tactic(auto, using(crate::proofs::Texts::two_digits))]
fn write_day<W: fmt::Write>(month: u8, day: u8, f: &mut fmt::Formatter<W>) -> fmt::Result
    ensures { WritesOnOk W.write_str_gives f.old result (day_text month day) f.new }
{
    write!(f, "-{month:02}-{day:02}")
}

// The written form of a date.
impl fmt::Display for Date {
    ghost output = { λ d. Some (date_text d) };

    fn fmt<W: fmt::Write>(&self, f: &mut fmt::Formatter<W>) -> fmt::Result {
        write_era(self.era(), f)?;
        write!(f, "{}", self.year())?;
        write_mark(self.mark(), f)?;
        write_day(self.month(), self.day(), f)
    }
}

// A refusal in numbers: cause, place, day, kind and level.
impl fmt::Display for Fault {
    ghost output = { λ f. Some (refusal_text f) };

    fn fmt<W: fmt::Write>(&self, f: &mut fmt::Formatter<W>) -> fmt::Result {
        write!(
            f,
            "! {} {} {} {} {}",
            self.cause.number(),
            self.place,
            self.day,
            self.kind,
            self.level
        )
    }
}
