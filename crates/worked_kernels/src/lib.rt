//! Calls on buffers, lane kernels and row operations, at lengths about the ends of words: tests alone. What is expected is
//! found lane by lane and bit by bit, with no call that is tested.
#![tactic(auto)]

#[cfg(test)]
mod bits;
#[cfg(test)]
mod buffers;
#[cfg(test)]
mod counting;
#[cfg(test)]
mod kernels;
#[cfg(test)]
mod lane_types;
#[cfg(test)]
mod lists;
#[cfg(test)]
mod masks;
#[cfg(test)]
mod rows;
#[cfg(test)]
mod samples;
