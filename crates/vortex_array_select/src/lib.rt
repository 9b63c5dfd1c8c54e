//! Parts of the kinds of columns: rows in a line, rows that a mask keeps, and rows at indices.
//! Two traits state once what each part is, one trait what of a kind's values it is made, and plain arrays make it of those.
#![tactic(auto)]

mod bools;
mod constants;
mod decimals;
mod plain;
mod primitives;
mod select;
mod strings;
mod taken;
mod validities;

pub use constants::take_constant;
pub use select::{Select, SelectValues, Take};
