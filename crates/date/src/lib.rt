#![tactic(auto)]
// Days, dates and refusals: what every other crate speaks of.
pub mod dates;
pub mod days;
pub mod division;
pub mod faults;
pub mod refusals;
pub mod writing;
