#![tactic(auto)]
// Arithmetic calendars: one conversion both ways, proved once for every rule of years, months and days.
pub mod any;
pub mod months;
pub mod reckoned;
pub mod reckoning;
pub mod years;
