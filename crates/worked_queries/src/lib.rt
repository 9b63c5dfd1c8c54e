//! The program's top call, its formats and the streams below it, by worked cases: tests alone. Expected texts are from outside the
//! program.
#![tactic(auto)]

#[cfg(test)]
mod cases;
#[cfg(test)]
mod fakes;
#[cfg(test)]
mod limits;
#[cfg(test)]
mod queries;
#[cfg(test)]
mod requests;
#[cfg(test)]
mod rows;
#[cfg(test)]
mod streams;
#[cfg(test)]
mod systems;
#[cfg(test)]
mod tables;
