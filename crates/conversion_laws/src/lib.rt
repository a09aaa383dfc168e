//! What an answer of a conversion, known by what is told of it, says of the answer itself. Proofs only.
#![tactic(auto)]
