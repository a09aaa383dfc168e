//! Where the values of expm1 and exp lie, for every f64 that is a number. Proofs only.
#![tactic(auto)]
