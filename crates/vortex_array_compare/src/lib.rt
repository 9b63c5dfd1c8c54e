//! Comparisons of columns of one kind, and of a column with one value: a column of truth values, null where a row is.
//! Two traits state once what a comparison is: of the values that a plain array keeps, and of columns.
#![tactic(auto)]

mod answers;
mod bools;
mod compare;
mod constants;
mod decimals;
mod like;
mod orders;
mod primitives;
mod strings;
mod turned;

pub use answers::{either_nullability, equal_answers, null_answers};
pub use compare::{Compare, CompareValues};
pub use like::{like_pattern, like_patterns, text_like_patterns};
pub use turned::turned_operator;
