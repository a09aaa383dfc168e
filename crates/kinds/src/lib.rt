//! Kinds of figure: f64, f32, and whole cents in an i64.
#![tactic(auto)]

pub mod cents;
pub mod count;
pub mod floats;
pub mod kind;
