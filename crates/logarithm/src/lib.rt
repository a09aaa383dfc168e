//! log and log1p, each equal to its definition in specs/ for every f64, and the method of log1p for either width.
#![tactic(auto)]

mod binary32;
mod binary64;
mod kernel;
pub mod log;
pub mod log1p;
pub mod table;
