// Whether the rows of a dictionary are all equal. Codes are read in their own width; values are compared only where two codes
// differ, and nothing is made for a row.
ghost use Rattle.std.specs.Prelude.{◌≡◌, ◌↔◌, ◌<◌, IsTrue, length, map, option_map, pos};
ghost use Rattle.vortex_array_types.specs.Seen.{value_seen};
ghost use Rattle.vortex_array_kinds.specs.Kinds.{constant_column, primitive_column};
ghost use Rattle.vortex_array_kinds.specs.Validities.{is_as_long};
ghost use Rattle.vortex_array_order.specs.InOrder.{IsConstant};
ghost use Rattle.vortex_array_select.specs.Selected.{NamesRows, row_at};
ghost use Rattle.vortex_array_select.specs.SelectedParts.{PlacesBelow};
ghost use Rattle.vortex_array.specs.ColumnOf.{column_of};
ghost use Rattle.vortex_array.specs.Index.{number_column};
ghost use Rattle.vortex_dict.specs.Decoded.{decoded, dict_column};
ghost use Rattle.vortex_dict.specs.NamedValues.{row_named};

use crate::codes::each_code_width;
use crate::dict::DictArray;
use crate::rows::same_row;
use vortex_array::{Array, ConstantArray, PrimitiveArray, PrimitiveBuffer, Validity, ValueRef};
use vortex_array_rows::RowIndex;
use vortex_buffer::Buffer;

impl DictArray {
    /// Whether there is a row, and each row equals it, null equal to null.
    pub fn is_constant(&self) -> bool
        ensures { IsTrue result ↔ IsConstant (dict_column self.now).rows }
    {
        let values = self.values();
        match self.codes() {
            Array::Primitive(codes) => numbers_name_one(codes, values),
            Array::Constant(code) => equal_name_one(code, values),
            Array::Bool(_) => unreachable!(),
            Array::Decimal(_) => unreachable!(),
            Array::VarBinView(_) => unreachable!(),
        }
    }
}

// Whether whole numbers name one row.
fn numbers_name_one(codes: &PrimitiveArray, values: &Array) -> bool
    requires { NamesRows (primitive_column codes.now) (length (column_of values.now).rows) }
    ensures { IsTrue result ↔ IsConstant (decoded (primitive_column codes.now) (column_of values.now)).rows }
{
    let nulls = codes.validity();
    each_code_width!(codes.values(), places => places_name_one(places, nulls, values))
}

// Whether equal codes name one row: where there is one, whatever they name.
fn equal_name_one(code: &ConstantArray, values: &Array) -> bool
    ensures { IsTrue result ↔ IsConstant (decoded (constant_column code.now) (column_of values.now)).rows }
{
    let _ = values;
    code.len() > 0
}

// The same of numbers of one width.
fn places_name_one<P: RowIndex>(places: &Buffer<P>, nulls: &Validity, values: &Array) -> bool
    requires long { IsTrue (is_as_long nulls.now (length (map (λ p. pos (P.place p)) places.now))) }
    requires below { NamesRows (number_column nulls.now (map (λ p. pos (P.place p)) places.now)) (length (column_of values.now).rows) }
    ensures { IsTrue result ↔ IsConstant (map (row_at (column_of values.now).rows) (number_column nulls.now (map (λ p. pos (P.place p)) places.now)).rows) }
{
    let items = places.as_slice();
    if items.len() == 0 {
        return false;
    }
    for row in 1..items.len() {
        if !same_named(values, items, nulls, row) {
            return false;
        }
    }
    true
}

// Whether the code in a row names the same as the first: it is the same code, or the values there are equal.
#[inline(always)]
fn same_named<P: RowIndex>(values: &Array, places: &[P], nulls: &Validity, row: usize) -> bool
    requires inside { row < length places.now }
    requires below { PlacesBelow (length (column_of values.now).rows) nulls.now (map P.place places.now) }
    ensures { IsTrue result ↔ (row_named (column_of values.now).rows nulls.now (map P.place places.now) row ≡ row_named (column_of values.now).rows nulls.now (map P.place places.now) 0) }
{
    let valid = nulls.is_valid(row);
    if valid == nulls.is_valid(0) && places[row].place() == places[0].place() {
        return true;
    }
    same_row(
        row_named_at(values, places, nulls, row),
        row_named_at(values, places, nulls, 0),
    )
}

// The row that the code in a row names.
fn row_named_at<'a, P: RowIndex>(
    values: &'a Array,
    places: &[P],
    nulls: &Validity,
    row: usize,
) -> Option<ValueRef<'a>>
    requires inside { row < length places.now }
    requires below { PlacesBelow (length (column_of values.now).rows) nulls.now (map P.place places.now) }
    ensures { option_map value_seen result ≡ row_named (column_of values.now).rows nulls.now (map P.place places.now) row }
{
    if nulls.is_valid(row) {
        values.value_at(places[row].place())
    } else {
        None
    }
}
