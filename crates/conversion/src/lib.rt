//! Conversions of figures: an on and a back between the numbers of a kind and a range of them.
#![tactic(auto)]

pub mod chain;
pub mod conversion;
pub mod flip;
pub mod refusal;
pub mod reversal;
pub mod trip;
