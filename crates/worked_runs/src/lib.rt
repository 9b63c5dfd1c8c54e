//! Runs over planners of their own, by worked cases: tests alone.
#![tactic(auto)]

#[cfg(test)]
mod arrivals;
#[cfg(test)]
mod calls;
#[cfg(test)]
mod drained;
#[cfg(test)]
mod drivers;
#[cfg(test)]
mod errors;
#[cfg(test)]
mod lister;
#[cfg(test)]
mod orders;
#[cfg(test)]
mod owing;
#[cfg(test)]
mod pieces;
#[cfg(test)]
mod reader;
#[cfg(test)]
mod running;
#[cfg(test)]
mod scarce;
#[cfg(test)]
mod surveyor;
#[cfg(test)]
mod waiter;
