#![tactic(auto)]
// Calendars of the sun's year, each a rule under the one reckoning.
mod civil;
pub mod coptic;
pub mod french;
pub mod gregorian;
pub mod iso;
pub mod julian;
mod thirty;
