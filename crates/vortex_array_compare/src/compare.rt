// What a comparison of columns is, whatever their kind.
ghost use Rattle.std.specs.Prelude.{◌≡◌, IfOk, IsTrue, length, map};
ghost use Rattle.std.specs.Simd.Lanes.{zip2};
ghost use Rattle.vortex_array_types.specs.Order.{compares};
ghost use Rattle.vortex_array_types.specs.Row.{value_fits};
ghost use Rattle.vortex_array_types.specs.Seen.{value_seen};
ghost use Rattle.vortex_array_types.specs.Typed.{same_apart_from_nullability};
ghost use Rattle.vortex_array_types.specs.declared.types.Nullability.TheVariants.{NonNullable};
ghost use Rattle.vortex_array_kinds.specs.Kinds.{bool_column};
ghost use Rattle.vortex_array_kinds.specs.Truths.{compared};
ghost use Rattle.vortex_array_compare.specs.Repeated.{repeated};

use crate::answers::{pair_answers, value_answers};
use std::alloc::{AllocError, Global};
use vortex_array_kinds::{BoolArray, Kind, PlainArray, Values};
use vortex_array_types::{CompareOperator, DType, ValueRef};
use vortex_buffer::BitBuffer;

/// Values that are compared place by place. The operator is looked at once, outside the loop.
pub trait CompareValues: Values {
    /// For each place whether the operator holds of the value there and another of the same type.
    fn compare_each(
        &self,
        alloc: Global,
        other: &Self,
        operator: CompareOperator,
    ) -> Result<BitBuffer, AllocError>
        requires same_length { Self.count_of self.now ≡ Self.count_of other.now }
        requires same_type { IsTrue (same_apart_from_nullability (Self.type_of self.now NonNullable) (Self.type_of other.now NonNullable)) }
        ensures { IfOk result (λ bits. bits ≡ zip2 (compares operator) (Self.items self.now) (Self.items other.now)) };

    /// For each place whether the operator holds of the value there and one value of the same type.
    fn compare_with(
        &self,
        alloc: Global,
        value: ValueRef<'_>,
        operator: CompareOperator,
    ) -> Result<BitBuffer, AllocError>
        requires fits { IsTrue (value_fits (Self.type_of self.now NonNullable) (value_seen value)) }
        ensures { IfOk result (λ bits. bits ≡ map (λ x. compares operator x (value_seen value.entry)) (Self.items self.now)) };
}

/// A kind of columns that are compared row by row.
pub trait Compare: Kind {
    /// Row by row whether the operator holds of this column and another of the same length and, apart from nullability, of
    /// the same type. Null where a row is null.
    fn compare(
        &self,
        alloc: Global,
        other: &Self,
        operator: CompareOperator,
    ) -> Result<BoolArray, AllocError>
        requires same_length { length (Self.column self.now).rows ≡ length (Self.column other.now).rows }
        requires same_type { IsTrue (same_apart_from_nullability (Self.column self.now).dtype (Self.column other.now).dtype) }
        ensures { IfOk result (λ a. bool_column a ≡ compared operator (Self.column self.now) (Self.column other.now)) };

    /// Row by row whether the operator holds of this column and one value that fits it, null where the row is null. Of the
    /// other type only its nulls count: the answer has nulls where one of the two has.
    fn compare_value(
        &self,
        alloc: Global,
        dtype: DType,
        value: ValueRef<'_>,
        operator: CompareOperator,
    ) -> Result<BoolArray, AllocError>
        requires fits { IsTrue (value_fits (Self.column self.now).dtype (value_seen value)) }
        ensures { IfOk result (λ a. bool_column a ≡ compared operator (Self.column self.now) (repeated dtype (value_seen value.entry) (length (Self.column self.now).rows))) };
}

impl<V: CompareValues> Compare for PlainArray<V> {
    fn compare(
        &self,
        alloc: Global,
        other: &PlainArray<V>,
        operator: CompareOperator,
    ) -> Result<BoolArray, AllocError> {
        let bits = self.stored().compare_each(alloc, other.stored(), operator)?;
        let answers = pair_answers(alloc, bits, self, other)?;
        Ok(answers)
    }

    fn compare_value(
        &self,
        alloc: Global,
        dtype: DType,
        value: ValueRef<'_>,
        operator: CompareOperator,
    ) -> Result<BoolArray, AllocError> {
        let bits = self.stored().compare_with(alloc, value, operator)?;
        let answers = value_answers(alloc, bits, self, dtype.nullability())?;
        Ok(answers)
    }
}
