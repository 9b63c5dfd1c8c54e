// Every name of columns, values, filters and tests of values: the root of `vortex_array` has each, or this does not build.
pub use vortex_array::{
    Array, BadPrecision, BetweenOptions, BetweenTo, BoolArray, Boxed, Bytes, CastError, CodeType,
    ColumnDesc, CompareOperator, CompareTo, ConstantArray, DType, DecimalArray, DecimalBuffer,
    DecimalDType, Filter, FilterError, LengthMismatch, LikePattern, LikeTo, MinMax, Name,
    NativeValue, Nullability, Operand, PType, Predicate, PrimitiveArray, PrimitiveBuffer,
    PushError, RecordBatch, Scalar, StrictComparison, Text, Validity, Value, ValueRef,
    VarBinViewArray, VarBinViewBuilder, WrongType,
};
