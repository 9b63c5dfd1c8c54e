// Columns of any kind compared row by row.
ghost use Rattle.std.specs.Prelude.{◌≡◌, IfOk, IsTrue, None, Some, length, option_map, replicate};
ghost use Rattle.vortex_array_types.specs.Order.{accepts, value_cmp};
ghost use Rattle.vortex_array_types.specs.Row.{nullability, value_fits};
ghost use Rattle.vortex_array_types.specs.Seen.{value_seen};
ghost use Rattle.vortex_array_types.specs.Truth.{lower_operator as operator_of_lower, upper_operator as operator_of_upper};
ghost use Rattle.vortex_array_types.specs.Typed.{same_apart_from_nullability};
ghost use Rattle.vortex_array_types.specs.declared.types.Nullability.TheVariants.{Nullable};
ghost use Rattle.vortex_array_kinds.specs.Truths.{bounded, compared, either, truths};
ghost use Rattle.vortex_array_compare.specs.Repeated.{repeated};
ghost use Rattle.vortex_array_compare.specs.Turned.{turned};
ghost use Rattle.vortex_array.specs.ColumnOf.{bool_column, column_of, constant_column, decimal_column, is_plain, primitive_column};

use crate::arrays::{Array, each_kind};
use crate::plain::{bools_of, decimals_of, primitives_of, strings_of};
use std::alloc::{AllocError, Global};
use vortex_array_compare::{Compare, null_answers, turned_operator};
use vortex_array_kinds::{BoolArray, ConstantArray};
use vortex_array_types::{
    BetweenOptions, CompareOperator, DType, Nullability, StrictComparison, ValueRef,
};

impl Array {
    /// Row by row whether the operator holds of this column and another of the same length and, apart from nullability, of
    /// the same type. Null where a row is null.
    pub fn compare(
        &self,
        alloc: Global,
        rhs: &Array,
        operator: CompareOperator,
    ) -> Result<BoolArray, AllocError>
        requires same_length { length (column_of self.now).rows ≡ length (column_of rhs.now).rows }
        requires same_type { IsTrue (same_apart_from_nullability (column_of self.now).dtype (column_of rhs.now).dtype) }
        ensures { IfOk result (λ a. bool_column a ≡ compared operator (column_of self.now) (column_of rhs.now)) }
    {
        match rhs {
            Array::Constant(constant) => compare_constant(alloc, self, constant, operator),
            _ => compare_plain(alloc, self, rhs, operator),
        }
    }

    /// Row by row whether the value lies between its bounds, each bound itself left out where it is strict. All three columns
    /// have one length and, apart from nullability, one type. Null where a row of the three is null.
    pub fn between(
        &self,
        alloc: Global,
        lower: &Array,
        upper: &Array,
        options: &BetweenOptions,
    ) -> Result<BoolArray, AllocError>
        requires lower_length { length (column_of self.now).rows ≡ length (column_of lower.now).rows }
        requires lower_type { IsTrue (same_apart_from_nullability (column_of self.now).dtype (column_of lower.now).dtype) }
        requires upper_length { length (column_of self.now).rows ≡ length (column_of upper.now).rows }
        requires upper_type { IsTrue (same_apart_from_nullability (column_of self.now).dtype (column_of upper.now).dtype) }
        ensures { IfOk result (λ a. bool_column a ≡ bounded options.now (column_of self.now) (column_of lower.now) (column_of upper.now)) }
    {
        let above = self.compare(alloc, lower, lower_operator(options.lower_strict))?;
        let below = self.compare(alloc, upper, upper_operator(options.upper_strict))?;
        let between = above.both_true(alloc, &below)?;
        Ok(between)
    }
}

// How a value is compared with its lower bound.
fn lower_operator(strict: StrictComparison) -> CompareOperator
    ensures { result ≡ operator_of_lower strict }
{
    match strict {
        StrictComparison::Strict => CompareOperator::Gt,
        StrictComparison::NonStrict => CompareOperator::Gte,
    }
}

// How a value is compared with its upper bound.
fn upper_operator(strict: StrictComparison) -> CompareOperator
    ensures { result ≡ operator_of_upper strict }
{
    match strict {
        StrictComparison::Strict => CompareOperator::Lt,
        StrictComparison::NonStrict => CompareOperator::Lte,
    }
}

// A column compared with one that is plain.
fn compare_plain(
    alloc: Global,
    left: &Array,
    right: &Array,
    operator: CompareOperator,
) -> Result<BoolArray, AllocError>
    requires same_length { length (column_of left.now).rows ≡ length (column_of right.now).rows }
    requires same_type { IsTrue (same_apart_from_nullability (column_of left.now).dtype (column_of right.now).dtype) }
    requires plain { IsTrue (is_plain right.now) }
    ensures { IfOk result (λ a. bool_column a ≡ compared operator (column_of left.now) (column_of right.now)) }
{
    match left {
        Array::Constant(left) => compare_constant(alloc, right, left, turned_operator(operator)),
        Array::Bool(left) => left.compare(alloc, bools_of(right), operator),
        Array::Primitive(left) => left.compare(alloc, primitives_of(right), operator),
        Array::Decimal(left) => left.compare(alloc, decimals_of(right), operator),
        Array::VarBinView(left) => left.compare(alloc, strings_of(right), operator),
    }
}

// A column compared with equal rows.
fn compare_constant(
    alloc: Global,
    left: &Array,
    constant: &ConstantArray,
    operator: CompareOperator,
) -> Result<BoolArray, AllocError>
    requires same_length { length (column_of left.now).rows ≡ length (constant_column constant.now).rows }
    requires same_type { IsTrue (same_apart_from_nullability (column_of left.now).dtype (constant_column constant.now).dtype) }
    ensures { IfOk result (λ a. bool_column a ≡ compared operator (column_of left.now) (constant_column constant.now)) }
{
    match constant.scalar().value_ref() {
        Some(value) => compare_value(alloc, left, constant.dtype(), value, operator),
        None => null_answers(alloc, constant.len()),
    }
}

// A column compared with one value in each row.
fn compare_value(
    alloc: Global,
    left: &Array,
    dtype: DType,
    value: ValueRef<'_>,
    operator: CompareOperator,
) -> Result<BoolArray, AllocError>
    requires { IsTrue (value_fits (column_of left.now).dtype (value_seen value)) }
    ensures { IfOk result (λ a. bool_column a ≡ compared operator (column_of left.now) (repeated dtype (value_seen value.entry) (length (column_of left.now).rows))) }
{
    each_kind!(left, left => left.compare_value(alloc, dtype, value, operator))
}
