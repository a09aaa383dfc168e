//! Examples of kinds, conversions and refusals. Expected values follow from the rules of docs/CONVERSIONS.md and
//! docs/REFUSALS.md, and from exact arithmetic.
#![tactic(auto)]

#[cfg(test)]
mod cents;
#[cfg(test)]
mod conversions;
#[cfg(test)]
mod doubles;
#[cfg(test)]
mod functions;
#[cfg(test)]
mod same;
#[cfg(test)]
mod scales;
#[cfg(test)]
mod singles;
