//! Where the values of sinh, cosh and tanh lie, for every f64 that is a number. Proofs only.
#![tactic(auto)]
