// The numbers of columns of `u64` without nulls.
ghost use Rattle.std.specs.Prelude.{◌≡◌, ◌<◌, None, IfOk, IfSome, IsTrue, is_some, length, map, option_map, pos, slice_index_or};
ghost use Rattle.vortex_array.specs.ColumnOf.{column_of};
ghost use Rattle.vortex_array_kinds.specs.Kinds.{numbers_of, primitive_column, ptype_of};
ghost use Rattle.vortex_array_types.specs.Row.{fits_type};
ghost use Rattle.vortex_array_types.specs.Seen.{value_seen};
ghost use Rattle.vortex_array_types.specs.declared.types.PType.TheVariants as width;
ghost use Rattle.vortex_table.specs.Built.{u64_type};
ghost use Rattle.vortex_table.specs.Scanning.{keeps_numbers, u64_column, u64_row};

use std::alloc::{AllocError, Global};
use vortex_array::{Array, PrimitiveArray, PrimitiveBuffer, ValueRef};

// The numbers of a buffer of the width `u64`.
fn u64_items(values: &PrimitiveBuffer) -> &[u64]
    requires { ptype_of values.now ≡ width.U64 }
    ensures { numbers_of values.now ≡ map (λ n. pos n) result.now }
{
    match values {
        PrimitiveBuffer::U64(values) => values.as_slice(),
        _ => unreachable!(),
    }
}

// The numbers of a column of `u64` without nulls that keeps each of them.
fn u64_values(array: &PrimitiveArray) -> &[u64]
    requires { (primitive_column array.now).dtype ≡ u64_type }
    ensures { primitive_column array.now ≡ u64_column result.now }
{
    u64_items(array.values())
}

/// The numbers of a column of `u64` without nulls, lent where it keeps each of them, and none where it keeps one for all rows.
pub fn lent_numbers(array: &Array) -> Option<&[u64]>
    requires { (column_of array.now).dtype ≡ u64_type }
    ensures numbers { IfSome result (λ numbers. column_of array.now ≡ u64_column numbers.now) }
    ensures kept { is_some result ≡ keeps_numbers array.now }
{
    match array {
        Array::Primitive(array) => Some(u64_values(array)),
        _ => None,
    }
}

// The number of a row of `u64` without nulls.
fn number_of(row: Option<ValueRef<'_>>) -> u64
    requires { IsTrue (fits_type u64_type (option_map value_seen row)) }
    ensures { option_map value_seen row.entry ≡ u64_row result }
{
    match row {
        Some(ValueRef::Int(number)) => number as u64,
        _ => unreachable!(),
    }
}

// The number at a place of a column of `u64` without nulls.
fn number_at(array: &Array, i: usize) -> u64
    requires kind { (column_of array.now).dtype ≡ u64_type }
    requires inside { i < length (column_of array.now).rows }
    ensures { slice_index_or (column_of array.now).rows i None ≡ u64_row result }
{
    number_of(array.value_at(i))
}

/// A copy of the numbers of a column of `u64` without nulls, read row by row.
pub fn read_numbers(alloc: Global, array: &Array) -> Result<Vec<u64>, AllocError>
    requires { (column_of array.now).dtype ≡ u64_type }
    ensures { IfOk result (λ numbers. column_of array.now ≡ u64_column numbers.items) }
{
    let mut numbers = Vec::new(alloc);
    for i in 0..array.len() {
        numbers.push(number_at(array, i))?;
    }
    Ok(numbers)
}
