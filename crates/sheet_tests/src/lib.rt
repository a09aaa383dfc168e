//! Examples of sheets and weeks. Expected values follow from the rules of docs/SHEET.md, from exact arithmetic, and
//! from the special values of the C standard.
#![tactic(auto)]

#[cfg(test)]
mod altered;
#[cfg(test)]
mod cents;
#[cfg(test)]
mod doubles;
#[cfg(test)]
mod rows;
#[cfg(test)]
mod same;
#[cfg(test)]
mod singles;
#[cfg(test)]
mod weeks;
