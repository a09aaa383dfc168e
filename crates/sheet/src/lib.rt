//! The week sheet: rows of figures in two slices of the caller's, under a head that is open or closed.
#![tactic(auto)]

pub mod closed;
mod every;
pub mod heads;
pub mod open;
pub mod refusal;
mod rows;
mod totals;
