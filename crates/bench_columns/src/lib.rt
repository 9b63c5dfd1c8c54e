//! The calls on columns, under C names, so that `bench/columns` can time them beside stock Rust. Each builds its columns
//! once and makes its call so many times, so that what a call costs is what further calls add. Each tells something of the
//! rows that the last call gave.
#![tactic(auto)]

mod building;
mod numbers;
mod once;
mod pairs;
mod repeating;
mod telling;
mod texts;
