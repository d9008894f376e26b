#![tactic(auto)]
// What a calendar is: what it means, and the law that it keeps.
pub mod calendar;
pub mod refusing;
pub mod rows;
