#![tactic(auto)]
// Calendars of the moon's months, each a rule under the one reckoning.
pub mod hebrew;
pub mod islamic;
mod new_year;
mod weekday;
