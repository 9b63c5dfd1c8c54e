// Whether a column can be the indices of rows.
ghost use Rattle.std.specs.Prelude.{◌≡◌, ◌↔◌, ◌&&◌, All, IsTrue, int_le, int_lt, length, map, option_map, pos};
ghost use Rattle.vortex_array_types.specs.Seen.{value_seen};
ghost use Rattle.vortex_array_select.specs.Selected.{IndexBelow, NamesRows, is_index_type as is_type_of_indices};
ghost use Rattle.vortex_array_select.specs.SelectedParts.{PlacesBelow};
ghost use Rattle.vortex_array_kinds.specs.Validities.{is_as_long};
ghost use Rattle.vortex_array.specs.ColumnOf.{column_of, constant_column, primitive_column};
ghost use Rattle.vortex_array.specs.Index.{number_column};

use crate::arrays::Array;
use vortex_array_kinds::{ConstantArray, PrimitiveArray, PrimitiveBuffer, Validity};
use vortex_array_rows::{RowIndex, places_below, set_places_below};
use vortex_array_types::{DType, ValueRef};
use vortex_buffer::Buffer;

impl Array {
    /// Whether these are indices of so many rows, which is what `take` asks of its indices: unsigned whole numbers, each
    /// null or below the number of rows.
    pub fn names_rows(&self, rows: usize) -> bool
        ensures { IsTrue result ↔ NamesRows (column_of self.now) rows }
    {
        match self {
            Array::Primitive(indices) => numbers_name_rows(indices, rows),
            Array::Constant(index) => equal_rows_name_rows(index, rows),
            Array::Bool(_) => false,
            Array::Decimal(_) => false,
            Array::VarBinView(_) => false,
        }
    }
}

// Whether whole numbers are indices: those of a width without a sign may be.
fn numbers_name_rows(indices: &PrimitiveArray, rows: usize) -> bool
    ensures { IsTrue result ↔ NamesRows (primitive_column indices.now) rows }
{
    let nulls = indices.validity();
    match indices.values() {
        PrimitiveBuffer::U8(places) => items_below(places, nulls, rows),
        PrimitiveBuffer::U16(places) => items_below(places, nulls, rows),
        PrimitiveBuffer::U32(places) => items_below(places, nulls, rows),
        PrimitiveBuffer::U64(places) => items_below(places, nulls, rows),
        PrimitiveBuffer::I8(_) => false,
        PrimitiveBuffer::I16(_) => false,
        PrimitiveBuffer::I32(_) => false,
        PrimitiveBuffer::I64(_) => false,
    }
}

// Whether each number of one width that is not null is below a bound.
fn items_below<P: RowIndex>(places: &Buffer<P>, nulls: &Validity, bound: usize) -> bool
    requires { IsTrue (is_as_long nulls.now (length (map (λ p. pos (P.place p)) places.now))) }
    ensures { IsTrue result ↔ All (IndexBelow bound) (number_column nulls.now (map (λ p. pos (P.place p)) places.now)).rows }
{
    valid_places_below(places.as_slice(), nulls, bound)
}

// Whether each place that is not null is below a bound.
fn valid_places_below<P: RowIndex>(places: &[P], nulls: &Validity, bound: usize) -> bool
    requires { IsTrue (is_as_long nulls.now (length places.now)) }
    ensures { IsTrue result ↔ PlacesBelow bound nulls.now (map P.place places.now) }
{
    match nulls {
        Validity::NonNullable => places_below(places, bound),
        Validity::AllValid => places_below(places, bound),
        Validity::AllInvalid => true,
        Validity::Bits(valid) => set_places_below(places, valid, bound),
    }
}

// Whether equal rows are indices.
fn equal_rows_name_rows(index: &ConstantArray, rows: usize) -> bool
    ensures { IsTrue result ↔ NamesRows (constant_column index.now) rows }
{
    if !is_index_type(index.dtype()) {
        return false;
    }
    if index.len() == 0 {
        return true;
    }
    is_index_below(index.scalar().value_ref(), rows)
}

// Whether the type is one of unsigned whole numbers.
fn is_index_type(dtype: DType) -> bool
    ensures { result ≡ is_type_of_indices dtype }
{
    match dtype {
        DType::Primitive(width, _) => width.is_unsigned(),
        _ => false,
    }
}

// Whether a row is null or a number from 0 up to a bound, without it.
fn is_index_below(row: Option<ValueRef<'_>>, bound: usize) -> bool
    ensures { IsTrue result ↔ IndexBelow bound (option_map value_seen row.entry) }
{
    match row {
        None => true,
        Some(ValueRef::Int(number)) => is_number_below(number, bound),
        Some(_) => false,
    }
}

// Whether a number lies from 0 up to a bound, without it.
fn is_number_below(number: i128, bound: usize) -> bool
    ensures { result ≡ (int_le (pos 0) number && int_lt number (pos bound)) }
{
    number >= 0 && number < bound as i128
}
