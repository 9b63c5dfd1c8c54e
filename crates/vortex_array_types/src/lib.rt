//! Types, values, filters and descriptions of columns: what a table is made of, and what a filter says of a row.
//! Contracts see a value as its number, its truth or its bytes; a filter's meaning is a definition.
#![tactic(auto)]

mod column;
mod filter;
mod filter_check;
mod names;
mod native;
mod scalar;
mod types;
mod value_order;
mod value_ref;

pub use column::ColumnDesc;
pub use filter::{BetweenOptions, Filter, Operand, StrictComparison};
pub use filter_check::{FilterError, column_type};
pub use names::{Bytes, Name, Text};
pub use native::{CodeType, NativeValue};
pub use scalar::{Scalar, Value, WrongType};
pub use types::{BadPrecision, DType, DecimalDType, Nullability, PType};
pub use value_order::{accepts, compares};
pub use value_ref::ValueRef;
pub use vortex_buffer::CompareOperator;
