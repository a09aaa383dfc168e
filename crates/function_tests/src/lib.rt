//! Examples of every function. Expected bits are libm's, built from its own files, or follow from the C standard or
//! from exact arithmetic; the functions here made none of them.
#![tactic(auto)]

#[cfg(test)]
mod bands;
#[cfg(test)]
mod bits;
#[cfg(test)]
mod exponentials;
#[cfg(test)]
mod hyperbolics;
#[cfg(test)]
mod inverses;
#[cfg(test)]
mod known;
#[cfg(test)]
mod logarithms;
#[cfg(test)]
mod scalings;
#[cfg(test)]
mod singles;
