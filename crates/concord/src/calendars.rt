ghost use Rattle.concord.specs.Calendars.{pile_of, sound as sound_of};

use crate::letters::Letter;
use calendar::calendar::Calendar;
use date::dates::Date;
use date::faults::Fault;
use reckoning::reckoned::Reckoned;
use solar::gregorian::Gregorian;
use solar::julian::Julian;

// A letter stands for its calendar.
impl Calendar for Letter {
    ghost pile = { pile_of };

    ghost sound = { sound_of };

    fn date_on(&self, day: i32) -> Result<Date, Fault> {
        match self {
            Letter::G => Reckoned::new(Gregorian).date_on(day),
            Letter::J => Reckoned::new(Julian).date_on(day),
        }
    }

    fn day_of(&self, date: Date) -> Result<i32, Fault> {
        match self {
            Letter::G => Reckoned::new(Gregorian).day_of(date),
            Letter::J => Reckoned::new(Julian).day_of(date),
        }
    }
}
