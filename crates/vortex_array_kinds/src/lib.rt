//! The kinds of columns: truth values, whole numbers, decimals, texts and bytes, and equal rows.
//! Each call answers by rows: one definition for each kind reads it as its column.
#![tactic(auto)]

mod bools;
mod builder;
mod constants;
mod decimals;
mod joined;
mod kleene;
mod laws;
mod plain;
mod primitives;
mod strings;
mod validity;
mod values;
mod widths;

pub use bools::BoolArray;
pub use builder::{PushError, VarBinViewBuilder};
pub use constants::ConstantArray;
pub use decimals::{DecimalArray, DecimalBuffer, DecimalWidth, Decimals};
pub use laws::{
    bounded_by_row, compared_by_row, joined_by_and_by_row, joined_by_or_by_row, liked_by_row,
    negated_by_row,
};
pub use plain::PlainArray;
pub use primitives::{PrimitiveArray, PrimitiveBuffer};
pub use strings::{StringKind, Strings, VarBinViewArray};
pub use validity::{LengthMismatch, Validity};
pub use values::{Kind, Values};
pub use widths::{PrimitiveWidth, WideNumber, convert};
