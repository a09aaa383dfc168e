//! sinh, cosh and tanh, each equal to its definition in specs/ for every f64.
#![tactic(auto)]

pub mod cosh;
mod expo2;
mod k_expo2;
pub mod sinh;
pub mod tanh;
