//! The calls on decimals in parts, and the same on plain ones, under C names, so that `bench/decimals` can time them beside
//! stock Rust. Each builds its decimals once and makes its call so many times, so that what a call costs is what further
//! calls add. Each tells something of the rows that the last call gave.
#![tactic(auto)]

mod answers;
mod building;
mod once;
mod parts;
mod plain;
mod repeating;
mod telling;
mod whole;
