#![tactic(auto)]
// The three layers, each over anything that is a calendar, and each a calendar in turn: a reform from an old calendar to
// a new one, a style of the year, and a table of eras.
pub mod era;
pub mod reform;
pub mod style;
pub mod table;
