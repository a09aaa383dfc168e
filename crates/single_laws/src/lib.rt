//! Where the values of expm1f lie, for every f32 that is a number. Proofs only.
#![tactic(auto)]
