// The rows of arrays at indices.
ghost use Rattle.std.specs.Prelude.{◌≡◌, All, IfOk, IsTrue, None, length, map, pos, replicate, slice_index_or};
ghost use Rattle.vortex_array_select.specs.Selected.{IndexBelow, NamesRows, taken};
ghost use Rattle.vortex_array_select.specs.SelectedParts.{PlacesBelow, index_column};
ghost use Rattle.vortex_array.specs.ColumnOf.{column_of, constant_column, is_plain as is_plain_array, primitive_column};
ghost use Rattle.vortex_array.specs.Index.{number_column};
ghost use Rattle.vortex_array_kinds.specs.Validities.{is_as_long};

use crate::arrays::{Array, plain_kind};
use crate::plain::primitives_of;
use crate::single::one_row;
use std::alloc::{AllocError, Global};
use vortex_array_kinds::{ConstantArray, PrimitiveArray, PrimitiveBuffer, Validity};
use vortex_array_rows::RowIndex;
use vortex_array_select::{Take, take_constant};
use vortex_buffer::Buffer;

impl Array {
    /// The rows at the indices, in the order of the indices; null where an index is null. An index may come again. The
    /// indices are a column of unsigned whole numbers, each null or below the number of rows. Of a plain array the answer
    /// is plain.
    pub fn take(&self, alloc: Global, indices: &Array) -> Result<Array, AllocError>
        requires { NamesRows (column_of indices.now) (length (column_of self.now).rows) }
        ensures column { IfOk result (λ part. column_of part ≡ taken (column_of indices.now) (column_of self.now)) }
        ensures plain { IfOk result (λ part. IsTrue (is_plain_array self.now) → IsTrue (is_plain_array part)) }
    {
        match indices {
            Array::Primitive(indices) => take_by_numbers(alloc, self, indices),
            Array::Constant(index) => take_by_equal(alloc, self, index),
            Array::VarBinView(_) => unreachable!(),
            Array::Bool(_) => unreachable!(),
            Array::Decimal(_) => unreachable!(),
        }
    }
}

// The rows at indices of one of the four unsigned widths.
fn take_by_numbers(
    alloc: Global,
    array: &Array,
    indices: &PrimitiveArray,
) -> Result<Array, AllocError>
    requires { NamesRows (primitive_column indices.now) (length (column_of array.now).rows) }
    ensures column { IfOk result (λ part. column_of part ≡ taken (primitive_column indices.now) (column_of array.now)) }
    ensures plain { IfOk result (λ part. IsTrue (is_plain_array array.now) → IsTrue (is_plain_array part)) }
{
    let nulls = indices.validity();
    match indices.values() {
        PrimitiveBuffer::U8(places) => take_numbers_at(alloc, array, places, nulls),
        PrimitiveBuffer::U16(places) => take_numbers_at(alloc, array, places, nulls),
        PrimitiveBuffer::U32(places) => take_numbers_at(alloc, array, places, nulls),
        PrimitiveBuffer::U64(places) => take_numbers_at(alloc, array, places, nulls),
        PrimitiveBuffer::I8(_) => unreachable!(),
        PrimitiveBuffer::I16(_) => unreachable!(),
        PrimitiveBuffer::I32(_) => unreachable!(),
        PrimitiveBuffer::I64(_) => unreachable!(),
    }
}

// The rows at indices of one width.
fn take_numbers_at<P: RowIndex>(
    alloc: Global,
    array: &Array,
    places: &Buffer<P>,
    nulls: &Validity,
) -> Result<Array, AllocError>
    requires long { IsTrue (is_as_long nulls.now (length (map (λ p. pos (P.place p)) places.now))) }
    requires within { All (IndexBelow (length (column_of array.now).rows)) (number_column nulls.now (map (λ p. pos (P.place p)) places.now)).rows }
    ensures column { IfOk result (λ part. column_of part ≡ taken (number_column nulls.now (map (λ p. pos (P.place p)) places.now)) (column_of array.now)) }
    ensures plain { IfOk result (λ part. IsTrue (is_plain_array array.now) → IsTrue (is_plain_array part)) }
{
    let part = take_at(alloc, array, places.as_slice(), nulls)?;
    Ok(part)
}

// The rows at equal indices.
fn take_by_equal(alloc: Global, array: &Array, index: &ConstantArray) -> Result<Array, AllocError>
    requires { NamesRows (constant_column index.now) (length (column_of array.now).rows) }
    ensures column { IfOk result (λ part. column_of part ≡ taken (constant_column index.now) (column_of array.now)) }
    ensures plain { IfOk result (λ part. IsTrue (is_plain_array array.now) → IsTrue (is_plain_array part)) }
{
    let indices = each_row(alloc, index)?;
    let part = take_by_numbers(alloc, array, primitives_of(&indices))?;
    Ok(part)
}

// The rows at places, null where a place is null.
fn take_at<P: RowIndex>(
    alloc: Global,
    array: &Array,
    places: &[P],
    nulls: &Validity,
) -> Result<Array, AllocError>
    requires long { IsTrue (is_as_long nulls.now (length places.now)) }
    requires within { PlacesBelow (length (column_of array.now).rows) nulls.now (map P.place places.now) }
    ensures column { IfOk result (λ part. column_of part ≡ taken (index_column nulls.now (map P.place places.now)) (column_of array.now)) }
    ensures plain { IfOk result (λ part. IsTrue (is_plain_array array.now) → IsTrue (is_plain_array part)) }
{
    match array {
        Array::Constant(array) => take_constant_at(alloc, array, places, nulls),
        _ => take_plain(alloc, array, places, nulls),
    }
}

// The rows of a plain array at places.
fn take_plain<P: RowIndex>(
    alloc: Global,
    array: &Array,
    places: &[P],
    nulls: &Validity,
) -> Result<Array, AllocError>
    requires plain { IsTrue (is_plain_array array.now) }
    requires long { IsTrue (is_as_long nulls.now (length places.now)) }
    requires within { PlacesBelow (length (column_of array.now).rows) nulls.now (map P.place places.now) }
    ensures column { IfOk result (λ part. column_of part ≡ taken (index_column nulls.now (map P.place places.now)) (column_of array.now)) }
    ensures plain { IfOk result (λ part. IsTrue (is_plain_array part)) }
{
    plain_kind!(array, array => array.take(alloc, places, nulls))
}

// The rows of a constant array at places. Where a place may be null, its row is taken as a plain array of one.
fn take_constant_at<P: RowIndex>(
    alloc: Global,
    array: &ConstantArray,
    places: &[P],
    nulls: &Validity,
) -> Result<Array, AllocError>
    requires long { IsTrue (is_as_long nulls.now (length places.now)) }
    requires within { PlacesBelow (length (constant_column array.now).rows) nulls.now (map P.place places.now) }
    ensures { IfOk result (λ part. column_of part ≡ taken (index_column nulls.now (map P.place places.now)) (constant_column array.now)) }
{
    if !nulls.has_none() {
        return take_one_row(alloc, array, places, nulls);
    }
    take_constant(alloc, array, places, nulls).map(Array::Constant)
}

// The row of a constant array wherever a place is not null, as a plain array.
fn take_one_row<P: RowIndex>(
    alloc: Global,
    array: &ConstantArray,
    places: &[P],
    nulls: &Validity,
) -> Result<Array, AllocError>
    requires long { IsTrue (is_as_long nulls.now (length places.now)) }
    requires within { PlacesBelow (length (constant_column array.now).rows) nulls.now (map P.place places.now) }
    ensures { IfOk result (λ part. column_of part ≡ taken (index_column nulls.now (map P.place places.now)) (constant_column array.now)) }
{
    let row = one_row(alloc, array.scalar())?;
    let first = equal_places(alloc, 0u8, places.len())?;
    let part = take_plain(alloc, &row, first.as_slice(), nulls)?;
    Ok(part)
}

// So many equal places.
fn equal_places<P: RowIndex>(alloc: Global, place: P, len: usize) -> Result<Vec<P>, AllocError>
    ensures { IfOk result (λ places. places.items ≡ replicate len place) }
{
    let mut places = Vec::with_capacity(alloc, len)?;
    for _ in 0..len {
        places.push(place)?;
    }
    Ok(places)
}

// The one row of a plain array, so many times.
pub(crate) fn repeat_row(alloc: Global, row: &Array, len: usize) -> Result<Array, AllocError>
    requires plain { IsTrue (is_plain_array row.now) }
    requires one { length (column_of row.now).rows ≡ 1 }
    ensures column { IfOk result (λ a. column_of a ≡ record { dtype = (column_of row.now).dtype; rows = replicate len (slice_index_or (column_of row.now).rows 0 None) }) }
    ensures plain { IfOk result (λ a. IsTrue (is_plain_array a)) }
{
    let first = equal_places(alloc, 0u8, len)?;
    let part = take_plain(alloc, row, first.as_slice(), &Validity::NonNullable)?;
    Ok(part)
}

// Equal rows as a plain array.
fn each_row(alloc: Global, array: &ConstantArray) -> Result<Array, AllocError>
    ensures column { IfOk result (λ a. column_of a ≡ constant_column array.now) }
    ensures plain { IfOk result (λ a. IsTrue (is_plain_array a)) }
{
    let row = one_row(alloc, array.scalar())?;
    let each = repeat_row(alloc, &row, array.len())?;
    Ok(each)
}
