//! A float times a power of two.
#![tactic(auto)]

mod power;
pub mod scalbn;
pub mod scalbnf;
pub mod scaling;
mod stepwise;
