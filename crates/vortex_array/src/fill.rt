// Columns of any kind whose null rows get a value.
ghost use Rattle.std.specs.Prelude.{◌≡◌, ◌∷◌, [], IfOk, IsTrue, Some, is_some};
ghost use Rattle.vortex_array_types.specs.Row.{value_fits};
ghost use Rattle.vortex_array_types.specs.Seen.{value_seen};
ghost use Rattle.vortex_array_types.specs.Typed.{same_apart_from_nullability};
ghost use Rattle.vortex_array_cast.specs.Filled.{filled, filled_row};
ghost use Rattle.vortex_array.specs.ColumnOf.{column_of, constant_column, is_plain as is_plain_array};

use crate::arrays::{Array, plain_kind};
use crate::single::one_row;
use crate::take::repeat_row;
use std::alloc::{AllocError, Global};
use vortex_array_cast::Fill;
use vortex_array_kinds::ConstantArray;
use vortex_array_types::{DType, Scalar, ValueRef};

impl Array {
    /// The same rows, and the fill in each row that is null, of the fill's type. The fill is not null, and of the array's
    /// type apart from nullability. The answer is plain.
    pub fn fill_null(&self, alloc: Global, fill: &Scalar) -> Result<Array, AllocError>
        requires value { IsTrue (is_some fill.now.value) }
        requires dtype { IsTrue (same_apart_from_nullability (column_of self.now).dtype fill.now.dtype) }
        ensures column { IfOk result (λ a. column_of a ≡ filled fill.now (column_of self.now)) }
        ensures plain { IfOk result (λ a. IsTrue (is_plain_array a)) }
    {
        match fill.value_ref() {
            Some(value) => fill_any(alloc, self, fill.dtype(), value),
            None => unreachable!(),
        }
    }
}

// The rows of any array, and the value in the null rows.
fn fill_any(
    alloc: Global,
    array: &Array,
    dtype: DType,
    value: ValueRef<'_>,
) -> Result<Array, AllocError>
    requires kind { IsTrue (same_apart_from_nullability (column_of array.now).dtype dtype) }
    requires fits { IsTrue (value_fits dtype (value_seen value)) }
    ensures column { IfOk result (λ a. column_of a ≡ filled (record { dtype = dtype; value = Some (value_seen value.entry) }) (column_of array.now)) }
    ensures plain { IfOk result (λ a. IsTrue (is_plain_array a)) }
{
    match array {
        Array::Constant(array) => fill_constant(alloc, array, dtype, value),
        _ => fill_plain(alloc, array, dtype, value),
    }
}

// The rows of a plain array, and the value in the null rows.
fn fill_plain(
    alloc: Global,
    array: &Array,
    dtype: DType,
    value: ValueRef<'_>,
) -> Result<Array, AllocError>
    requires plain { IsTrue (is_plain_array array.now) }
    requires kind { IsTrue (same_apart_from_nullability (column_of array.now).dtype dtype) }
    requires fits { IsTrue (value_fits dtype (value_seen value)) }
    ensures column { IfOk result (λ a. column_of a ≡ filled (record { dtype = dtype; value = Some (value_seen value.entry) }) (column_of array.now)) }
    ensures plain { IfOk result (λ a. IsTrue (is_plain_array a)) }
{
    plain_kind!(array, array => array.fill_null(alloc, dtype, value))
}

// Equal rows, each the value where they are null: one of them is filled and stands in each row.
fn fill_constant(
    alloc: Global,
    array: &ConstantArray,
    dtype: DType,
    value: ValueRef<'_>,
) -> Result<Array, AllocError>
    requires kind { IsTrue (same_apart_from_nullability (constant_column array.now).dtype dtype) }
    requires fits { IsTrue (value_fits dtype (value_seen value)) }
    ensures column { IfOk result (λ a. column_of a ≡ filled (record { dtype = dtype; value = Some (value_seen value.entry) }) (constant_column array.now)) }
    ensures plain { IfOk result (λ a. IsTrue (is_plain_array a)) }
{
    let row = fill_row(alloc, array.scalar(), dtype, value)?;
    let full = repeat_row(alloc, &row, array.len())?;
    Ok(full)
}

// One row, or the value where it is null, as a plain array.
fn fill_row(
    alloc: Global,
    row: &Scalar,
    dtype: DType,
    value: ValueRef<'_>,
) -> Result<Array, AllocError>
    requires kind { IsTrue (same_apart_from_nullability row.now.dtype dtype) }
    requires fits { IsTrue (value_fits dtype (value_seen value)) }
    ensures column { IfOk result (λ a. column_of a ≡ record { dtype = dtype; rows = filled_row (Some (value_seen value.entry)) row.now.value ∷ [] }) }
    ensures plain { IfOk result (λ a. IsTrue (is_plain_array a)) }
{
    let row = one_row(alloc, row)?;
    fill_plain(alloc, &row, dtype, value)
}
