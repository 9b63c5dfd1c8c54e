//! Decimals in parts by worked cases: tests alone.
#![tactic(auto)]

#[cfg(test)]
mod comparing;
#[cfg(test)]
mod corners;
#[cfg(test)]
mod refusals;
#[cfg(test)]
mod rows;
#[cfg(test)]
mod samples;
#[cfg(test)]
mod serialized;
#[cfg(test)]
mod splitting;
