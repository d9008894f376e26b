#![tactic(auto)]
// Dates carried from one pile to another by their day, with the law of all piles.
pub mod carry;
