//! The score of a week: what stores sent becomes calls on a sheet, and the answers a judgement.
#![tactic(auto)]

pub mod calls;
pub mod judge;
pub mod judgement;
pub mod settle;
