//! Casts of columns to another type, and columns whose nulls are filled, for each kind of column.
//! Two traits for each state once what it is: of the values that a plain array keeps, and of columns. A refusal names the
//! first row that cannot be cast.
#![tactic(auto)]

mod bools;
mod cast;
mod constants;
mod decimals;
mod errors;
mod fill;
mod primitives;
mod refusals;
mod strings;
mod widths;

pub use cast::{Cast, CastValues};
pub use errors::CastError;
pub use fill::{Fill, FillValues};
