//! Worked cases of the definitions, and scans whose answers the plain programs judge. Expected values are from outside
//! the programs.
#![tactic(auto)]

#[cfg(test)]
mod answering;
#[cfg(test)]
mod batches;
#[cfg(test)]
mod cases;
#[cfg(test)]
mod choosing;
#[cfg(test)]
mod filtering;
#[cfg(test)]
mod judging;
#[cfg(test)]
mod requests;
#[cfg(test)]
mod scanning;
#[cfg(test)]
mod stored;
#[cfg(test)]
mod tables;
