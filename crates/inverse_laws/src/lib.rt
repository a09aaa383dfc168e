//! Where the inverse hyperbolic functions lie: of every number of their ranges they are numbers. Proofs only.
#![tactic(auto)]
