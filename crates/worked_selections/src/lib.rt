//! Selections, row masks, requests and what sources tell, by worked cases: tests alone.
#![tactic(auto)]

#[cfg(test)]
mod counts;
#[cfg(test)]
mod lists;
#[cfg(test)]
mod masks;
#[cfg(test)]
mod requests;
#[cfg(test)]
mod samples;
#[cfg(test)]
mod sources;
