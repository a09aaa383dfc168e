//! A week: a list of calls on a new sheet, and the law that it keeps.
#![tactic(auto)]

pub mod answer;
pub mod carry;
pub mod head;
pub mod mirror;
pub mod run;
pub mod step;
