//! What lines of text cannot say of types, values and patterns: tests alone. Lines of text stand in `filter_cases`.
#![tactic(auto)]

#[cfg(test)]
mod keys;
#[cfg(test)]
mod messages;
#[cfg(test)]
mod names;
#[cfg(test)]
mod patterns;
#[cfg(test)]
mod scalars;
#[cfg(test)]
mod types;
#[cfg(test)]
mod widths;
