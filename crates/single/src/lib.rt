//! expm1f and log1pf, each equal to its definition in specs/ for every f32.
#![tactic(auto)]

pub mod expm1f;
pub mod log1pf;
