ghost use Rattle.std.specs.Prelude.{◌≡◌, ◌+◌, ◌-◌, ◌<◌, ◌≤◌, ◌&&◌, pos, ◌≤ℤ◌, int_le};

// The years that a date of a calendar may have whose first year is year 1.
pub const FIRST: i32 = 1;

pub const LAST: i32 = 99_999;

// What holds of every year of a calendar: its kind, its first year and its last, and the last day of the last.
#[derive(Clone, Copy, PartialEq, Eq, Debug)]
pub struct Outline {
    pub kind: u8,
    pub first: i32,
    pub last: i32,
    pub last_day: i32,
}

impl Outline {
    // Whether the year is one of the calendar's.
    pub(crate) fn has_year(&self, year: i32) -> bool
        ensures { result ≡ (int_le self.now.first year && int_le year self.now.last) }
    {
        self.first <= year && year <= self.last
    }
}

// A year of a calendar whose first year is year 1, or the one after the last, whose start ends it.
#[derive(Clone, Copy, PartialEq, Eq, PartialOrd, Ord, Debug)]
pub struct Year {
    number: u32,
    ghost from: { 1 ≤ number },
    ghost to: { number ≤ 100000 },
}

impl Year {
    pub fn new(number: i32) -> Year
        requires from { pos 1 ≤ℤ number }
        requires to { number ≤ℤ pos 100000 }
        ensures { pos result.number ≡ number }
    {
        Year {
            number: number as u32,
        }
    }

    pub fn number(self) -> u32
        ensures { result ≡ self.number }
    {
        self.number
    }

    // The years before it.
    pub fn before(self) -> u32
        ensures { result ≡ self.number - 1 }
    {
        self.number - 1
    }

    pub fn next(self) -> Year
        requires { self.number < 100000 }
        ensures { result.number ≡ self.number + 1 }
    {
        Year {
            number: self.number + 1,
        }
    }
}
