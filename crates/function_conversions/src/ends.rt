// The end -1. Stays a constant: its bits are known to a proof, and those of a negated literal in a
// function's body are not.
pub(crate) const MINUS_ONE: f64 = -1.0;

pub(crate) const MINUS_ONE_F: f32 = -1.0;
