#![tactic(auto)]
// Holds the calendars against a table of days: each line a day, then its date under each calendar in turn, or a hyphen
// where the day comes before the calendar's first year. Says for each calendar how many days agree, both ways.
use calendar::calendar::Calendar;
use date::dates::Date;
use date::faults::Cause;
use lunar::hebrew::Hebrew;
use lunar::islamic::Islamic;
use reckoning::reckoned::Reckoned;
use solar::coptic::Coptic;
use solar::french::French;
use solar::gregorian::Gregorian;
use solar::iso::Iso;
use solar::julian::Julian;
use std::io;
use std::io::{BufRead, BufReader};

#[cfg(test)]
mod tests;

// The date of a year, a month and a day of the month with hyphens between them.
fn read_date(word: &str) -> Option<Date> {
    let mut numbers = word.split('-');
    let year = numbers.next()?.parse::<i64>().ok()?;
    let month = numbers.next()?.parse::<i64>().ok()?;
    let day = numbers.next()?.parse::<i64>().ok()?;
    Date::new(0, year, 0, month, day).ok()
}

// Whether the calendar has the date on the day and the day of the date, or rightly neither.
fn agrees(calendar: &dyn Calendar, day: i32, word: &str) -> bool {
    match read_date(word) {
        Some(date) => calendar.date_on(day) == Ok(date) && calendar.day_of(date) == Ok(day),
        None => {
            let refused = calendar.date_on(day).err().map(|fault| fault.cause);
            word.len() == 1 && refused == Some(Cause::NoDate)
        },
    }
}

// How many days of the table agree with one calendar, and how many were seen.
#[derive(Clone, Copy, Default)]
struct Tally {
    agree: u32,
    days: u32,
}

impl Tally {
    fn note(&mut self, agrees: bool) {
        self.days = self.days.saturating_add(1);
        if agrees {
            self.agree = self.agree.saturating_add(1);
        }
    }
}

// Notes one line of the table, which has a word for each calendar; says whether it was one.
fn note(calendars: &[(&str, &dyn Calendar)], tallies: &mut [Tally], line: &str) -> Option<()> {
    let mut words = line.split(' ');
    let day = words.next()?.parse::<i32>().ok()?;
    for ((_, calendar), tally) in calendars.iter().zip(tallies) {
        tally.note(agrees(*calendar, day, words.next()?));
    }
    Some(())
}

fn main(rt: HostRuntime) -> io::Result<()> {
    let calendars: [(&str, &dyn Calendar); 7] = [
        ("Gregorian", &Reckoned::new(Gregorian)),
        ("Julian", &Reckoned::new(Julian)),
        ("Coptic", &Reckoned::new(Coptic)),
        ("Islamic civil", &Reckoned::new(Islamic)),
        ("Hebrew", &Reckoned::new(Hebrew)),
        ("French arithmetic", &Reckoned::new(French)),
        ("ISO week", &Reckoned::new(Iso)),
    ];
    let mut tallies = [Tally::default(); 7];
    for line in BufReader::new(rt.alloc(), rt.stdin())?.lines(rt.alloc()) {
        let line = line?;
        if note(&calendars, &mut tallies, line.as_str()).is_none() {
            println!(rt; "no line of the table: {line}")?;
        }
    }
    for ((name, _), tally) in calendars.iter().zip(tallies) {
        let Tally { agree, days } = tally;
        println!(rt; "{name}: {agree} of {days} days agree")?;
    }
    Ok(())
}
