//! Columns in memory, and batches of them.
//! Each call answers by rows: one definition, `column_of`, reads an array as its column.
#![tactic(auto)]

mod arrays;
mod batch;
mod compare;
mod convert;
mod fill;
mod indices;
mod like;
mod min_max;
mod orders;
mod plain;
mod select;
mod single;
mod take;
pub mod wire;

pub use arrays::Array;
pub use batch::RecordBatch;
pub use min_max::MinMax;
pub use sqlite_items::Boxed;
pub use vortex_array_cast::CastError;
pub use vortex_array_kinds::{
    BoolArray, ConstantArray, DecimalArray, DecimalBuffer, Decimals, LengthMismatch, PlainArray,
    PrimitiveArray, PrimitiveBuffer, PushError, StringKind, Strings, Validity, VarBinViewArray,
    VarBinViewBuilder,
};
pub use vortex_array_predicates::{BetweenTo, CompareTo, LikePattern, LikeTo, Predicate};
pub use vortex_array_select::{Select, Take};
pub use vortex_array_types::{
    BadPrecision, BetweenOptions, Bytes, CodeType, ColumnDesc, CompareOperator, DType,
    DecimalDType, Filter, FilterError, Name, NativeValue, Nullability, Operand, PType, Scalar,
    StrictComparison, Text, Value, ValueRef, WrongType, accepts, compares,
};
