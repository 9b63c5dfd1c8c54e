//! The wire format of metadata messages, by worked cases: tests alone. Expected values are from outside the program.
#![tactic(auto)]

#[cfg(test)]
mod decoding;
#[cfg(test)]
mod encoding;
#[cfg(test)]
mod fields;
#[cfg(test)]
mod fronts;
#[cfg(test)]
mod messages;
#[cfg(test)]
mod shown;
