#![tactic(auto)]

// Lemmas on the reduction by multiples of ln 2, for the proofs of the crates above; no code.
