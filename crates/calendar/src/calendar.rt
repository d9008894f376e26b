ghost use Rattle.std.specs.Prelude.{◌≡◌};
ghost use Rattle.calendar.specs.Piles.{Pile, Sound, meaning};

use date::dates::Date;
use date::faults::Fault;

// A calendar or layer has a kind number, fixed for its kind, which its refusals name.
pub trait Kind {
    const KIND: u8;
}

// Anything that says which date a day carries and which day carries a date. Its pile is what it stands for: a calendar
// by its meaning, or a layer over piles; and every calendar in the pile keeps the law.
pub trait Calendar {
    ghost pile: { Self → Pile };

    // The date that the day carries, or the refusal of a day that carries none.
    fn date_on(&self, day: i32) -> Result<Date, Fault>
        ensures { result ≡ (meaning (pile self.now)).on day };

    // The day that carries the date, or the refusal of a date that no day carries.
    fn day_of(&self, date: Date) -> Result<i32, Fault>
        ensures { result ≡ (meaning (pile self.now)).of date };

    ghost sound: { (c : Self) → Sound (pile c) };
}
