//! asinh, acosh and atanh, each equal to its definition in specs/ for every f64.
#![tactic(auto)]

pub mod acosh;
pub mod asinh;
pub mod atanh;
