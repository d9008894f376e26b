ghost use Rattle.std.specs.Prelude.{◌≡◌, true, pos};
ghost use Rattle.date.specs.Fields.{fits};

pub mod making;
pub mod order;

// A date: an era, 0 where there is none; a year; a mark, 1 where the day falls before the year's own start in a style
// that begins the year late; a month; and a day of the month. The type holds only numbers that fit.
#[derive(Clone, Copy, PartialEq, Eq, PartialOrd, Ord, Debug)]
pub struct Date {
    era: u8,
    year: i32,
    mark: u8,
    month: u8,
    day: u8,
    ghost ok: { fits (pos era) year (pos mark) (pos month) (pos day) ≡ true },
}
