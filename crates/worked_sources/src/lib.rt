//! Sources of each kind, by worked cases: tests alone. Where a generator picks, the places are from `bench/cases/seeded_orders`.
#![tactic(auto)]

#[cfg(test)]
mod consuming;
#[cfg(test)]
mod failing;
#[cfg(test)]
mod lying;
#[cfg(test)]
mod memory;
#[cfg(test)]
mod orders;
#[cfg(test)]
mod samples;
