// Why a call is refused. Every cause has its number, fixed for good: programs print it and people cite it.
#[derive(Clone, Copy, PartialEq, Eq, Debug)]
pub enum Cause {
    Malformed = 1,
    NoLetter = 2,
    Field = 3,
    OutsideRange = 4,
    Skipped = 5,
    OutsideEra = 6,
    NoDate = 7,
    UnsoundSeam = 8,
    BadRow = 9,
    Full = 10,
    ReferenceStands = 11,
    NoRow = 12,
    OutputShort = 13,
    BadStyle = 14,
}

// The fields of a date, each with the number by which a refusal names it.
#[derive(Clone, Copy, PartialEq, Eq, Debug)]
pub enum Field {
    Era = 1,
    Year = 2,
    Mark = 3,
    Month = 4,
    Day = 5,
}

// A refusal: its cause; its place, a field of a date or a byte of a line; the day that the rule names; the kind of the
// calendar or layer that refused; and how many layers have handed it on. What a rule does not name is 0.
#[derive(Clone, Copy, PartialEq, Eq, Debug)]
pub struct Fault {
    pub cause: Cause,
    pub place: usize,
    pub day: i32,
    pub kind: u8,
    pub level: u8,
}
