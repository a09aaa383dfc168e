#![tactic(auto)]

// Lemmas on rounded arithmetic, for the proofs of the crates above; no code.
