// The lines of the table program: what each one asks, and what is printed for it.
#![tactic(auto)]

mod digits;
mod fill;
pub mod function;
mod question;
pub mod refusal;
pub mod reply;
pub mod session;
pub mod short;
