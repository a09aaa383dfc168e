//! The ledger of a week: its marks, its calls, and what each call means.
#![tactic(auto)]

pub mod call;
pub mod mark;
