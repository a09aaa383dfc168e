#![tactic(auto)]

// Examples of the table program's lines, each against the rules of docs/TABLE.md.
#[cfg(test)]
mod cutting;
#[cfg(test)]
mod letters;
#[cfg(test)]
mod malformed;
#[cfg(test)]
mod well_formed;
