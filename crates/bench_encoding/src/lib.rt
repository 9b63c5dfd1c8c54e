//! Columns encoded as dictionaries, under C names, so that `bench/encoding` can time it beside stock Rust. Each builds its column
//! once and encodes it so many times, so that what a call costs is what further calls add. Each tells something of the
//! dictionary that the last call gave.
#![tactic(auto)]

mod building;
mod encoding;
mod names;
mod telling;
