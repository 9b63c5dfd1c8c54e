//! The calls on dictionaries, and the same on decoded columns, under C names, so that `bench/dictionaries` can time them
//! beside stock Rust. Each builds its dictionary once and makes its call so many times, so that what a call costs is what
//! further calls add. Each tells something of the rows that the last call gave.
#![tactic(auto)]

mod answers;
mod building;
mod changes;
mod once;
mod parts;
mod plain;
mod repeating;
mod telling;
