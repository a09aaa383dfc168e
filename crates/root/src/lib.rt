// The square root.
#![tactic(auto)]

pub mod sqrt;
