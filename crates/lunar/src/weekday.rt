ghost use Rattle.std.specs.Prelude.{◌≡◌};
ghost use Rattle.lunar.specs.Molad.{weekday};
ghost use Rattle.lunar.specs.Postponements.{lo_adu};
ghost use Rattle.lunar.specs.Weekdays.{number_of};

use date::division::divide;

// The weekday of a molad, or of the day to which a year's beginning is put off.
#[derive(Clone, Copy, PartialEq, Eq, Debug)]
pub(crate) enum Weekday {
    Sunday,
    Monday,
    Tuesday,
    Wednesday,
    Thursday,
    Friday,
    Saturday,
}

impl Weekday {
    // Of a day that is counted from a Monday.
    pub(crate) fn of(day: u64) -> Weekday
        ensures { number_of result ≡ weekday day }
    {
        match divide(day, 7).1 {
            0 => Weekday::Monday,
            1 => Weekday::Tuesday,
            2 => Weekday::Wednesday,
            3 => Weekday::Thursday,
            4 => Weekday::Friday,
            5 => Weekday::Saturday,
            _ => Weekday::Sunday,
        }
    }

    // Lo ADU: no year begins on it.
    pub(crate) fn is_adu(self) -> bool
        ensures { result ≡ lo_adu (number_of self) }
    {
        matches!(self, Weekday::Sunday | Weekday::Wednesday | Weekday::Friday)
    }
}
