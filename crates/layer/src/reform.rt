ghost use Rattle.std.specs.Prelude.{◌≡◌};
ghost use Rattle.calendar.specs.Piles.{meaning, calendar as calendar_of};
ghost use Rattle.calendar.specs.Reforms.{unsound as unsound_at, skipped as skipped_at, before_cut, seam as seam_of, placed, reformed};
ghost use Rattle.layer.specs.Sounding.{reform_sound};

use calendar::calendar::{Calendar, Kind};
use date::dates::Date;
use date::days::in_range;
use date::faults::{Cause, Fault};
use date::refusals::hand_on;

// The cut of a reform: the first day of the new calendar.
#[derive(Clone, Copy)]
pub struct Cut {
    day: i32,
}

impl Kind for Cut {
    const KIND: u8 = 8;
}

impl Cut {
    fn unsound(&self) -> Fault
        ensures { result ≡ unsound_at self.now.day }
    {
        Fault::new(Cause::UnsoundSeam, 0, self.day, Cut::KIND)
    }

    fn skipped(&self) -> Fault
        ensures { result ≡ skipped_at self.now.day }
    {
        Fault::new(Cause::Skipped, 0, self.day, Cut::KIND)
    }

    // The day, if it comes before the cut.
    fn before(&self, day: i32) -> Result<i32, Fault>
        ensures { result ≡ before_cut self.now.day day }
    {
        if day >= self.day {
            return Err(self.unsound());
        }
        Ok(day)
    }
}

// An old calendar before the cut, and a new one from it on.
pub struct Reform<A: Calendar, B: Calendar> {
    old: A,
    new: B,
    cut: Cut,
}

impl<A: Calendar, B: Calendar> Kind for Reform<A, B> {
    const KIND: u8 = Cut::KIND;
}

impl<A: Calendar, B: Calendar> Reform<A, B> {
    // Any day may be the cut. Where the seam is not sound, no day from the cut on carries a date.
    pub fn new(old: A, new: B, cut: i32) -> Reform<A, B>
        ensures { result ≡ record { old = old; new = new; cut = record { day = cut } } }
    {
        Reform {
            old,
            new,
            cut: Cut { day: cut },
        }
    }

    // The last date of the old and the first of the new, if the one is earlier than the other.
    fn seam(&self) -> Result<(Date, Date), Fault>
        ensures { result ≡ seam_of (meaning (A.Calendar.pile self.now.old)) (meaning (B.Calendar.pile self.now.new)) self.now.cut.day }
    {
        let cut = self.cut.day;
        let unsound = self.cut.unsound();
        if !in_range(cut) {
            return Err(unsound);
        }
        let last = self.old.date_on(cut - 1).map_err(|_| unsound)?;
        let first = self.new.date_on(cut).map_err(|_| unsound)?;
        if last.is_earlier(&first) {
            Ok((last, first))
        } else {
            Err(unsound)
        }
    }

    // The day of a date, by the seam.
    fn place(&self, date: Date, seam: Result<(Date, Date), Fault>) -> Result<i32, Fault>
        ensures { result ≡ placed (meaning (A.Calendar.pile self.now.old)) (meaning (B.Calendar.pile self.now.new)) self.now.cut.day date seam }
    {
        let Ok((last, first)) = seam else {
            let day = hand_on(self.old.day_of(date))?;
            return self.cut.before(day);
        };
        if !last.is_earlier(&date) {
            hand_on(self.old.day_of(date))
        } else if date.is_earlier(&first) {
            Err(self.cut.skipped())
        } else {
            hand_on(self.new.day_of(date))
        }
    }
}

impl<A: Calendar, B: Calendar> Calendar for Reform<A, B> {
    ghost pile = { λ r. calendar_of (reformed (meaning (A.Calendar.pile r.old)) (meaning (B.Calendar.pile r.new)) r.cut.day) };

    ghost sound = { λ r. reform_sound (A.Calendar.pile r.old) (B.Calendar.pile r.new) r.cut.day (A.Calendar.sound r.old) (B.Calendar.sound r.new) };

    fn date_on(&self, day: i32) -> Result<Date, Fault> {
        if !in_range(day) {
            return Err(Fault::plain(Cause::OutsideRange, Cut::KIND));
        }
        if day < self.cut.day {
            return hand_on(self.old.date_on(day));
        }
        self.seam()?;
        hand_on(self.new.date_on(day))
    }

    fn day_of(&self, date: Date) -> Result<i32, Fault> {
        self.place(date, self.seam())
    }
}
