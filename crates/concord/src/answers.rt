ghost use Rattle.std.specs.Prelude.{Some};
ghost use Rattle.concord.specs.Texts.{letter_text, column_text, answer_text};

use crate::concordance::{Answer, Column};
use crate::letters::Letter;
use crate::reader::Line;
use date::faults::Fault;
use std::{fmt, io};

impl fmt::Display for Letter {
    ghost output = { λ l. Some (letter_text l) };

    fn fmt<W: fmt::Write>(&self, f: &mut fmt::Formatter<W>) -> fmt::Result {
        match self {
            Letter::G => write!(f, "G"),
            Letter::J => write!(f, "J"),
        }
    }
}

impl fmt::Display for Column {
    ghost output = { λ c. Some (column_text c) };

    fn fmt<W: fmt::Write>(&self, f: &mut fmt::Formatter<W>) -> fmt::Result {
        let letter = self.letter;
        match self.date {
            Ok(date) => write!(f, " {letter} {date}"),
            Err(fault) => write!(f, " {letter} {fault}"),
        }
    }
}

impl fmt::Display for Answer {
    ghost output = { λ a. Some (answer_text a) };

    fn fmt<W: fmt::Write>(&self, f: &mut fmt::Formatter<W>) -> fmt::Result {
        write!(f, "{} {}", self.day, self.weekday)?;
        for column in &self.columns {
            write!(f, "{column}")?;
        }
        Ok(())
    }
}

// Writes the answer to a line as it was read.
pub(crate) fn write_answer<W: io::Write>(out: &mut W, read: Result<Line, Fault>) -> io::Result<()> {
    match Answer::new(read) {
        Ok(answer) => writeln!(out, "{answer}"),
        Err(fault) => writeln!(out, "{fault}"),
    }
}
