//! The order of a column's rows: whether they are equal or in order, and their least and greatest values. A null is below
//! every value, so the validity says where the values begin, and one loop goes over them alone, whatever their kind.
#![tactic(auto)]

mod bools;
mod compared;
mod constants;
mod decimals;
mod items;
mod nulls;
mod order;
mod ordered;
mod places;
mod plain;
mod primitives;
mod strings;

pub use order::RowOrder;
pub use ordered::{OrderValues, Ordered};
pub use places::ExtremePlaces;
