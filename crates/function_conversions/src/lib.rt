//! The conversions by a function and its inverse.
#![tactic(auto)]

pub mod cosh;
mod ends;
pub mod exp;
pub mod expm1;
pub mod expm1f;
pub mod pair;
pub mod sinh;
pub mod tanh;
