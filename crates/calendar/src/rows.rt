// A row of a table of eras: the day on which its era begins, and the number of the year in which it does. A pile that has
// a table names its rows, so they stand beside the trait.
#[derive(Clone, Copy, PartialEq, Eq, Debug, Default)]
pub struct Row {
    pub first: i32,
    pub number: u16,
}
