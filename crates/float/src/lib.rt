//! The tests on a float's size and sign by which the functions choose their bands.
#![tactic(auto)]

pub mod band;
pub mod width;
