//! exp and expm1, each equal to its definition in specs/ for every f64, and the method of expm1 for either width.
#![tactic(auto)]

mod binary32;
mod binary64;
pub mod exp;
pub mod expm1;
mod ln2;
pub mod table;
