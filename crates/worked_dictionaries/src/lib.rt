//! Dictionary arrays by worked cases: tests alone.
#![tactic(auto)]

#[cfg(test)]
mod answering;
#[cfg(test)]
mod building;
#[cfg(test)]
mod changing;
#[cfg(test)]
mod decoding;
#[cfg(test)]
mod encoders;
#[cfg(test)]
mod encoding;
#[cfg(test)]
mod making;
#[cfg(test)]
mod ordering;
#[cfg(test)]
mod parts;
#[cfg(test)]
mod samples;
