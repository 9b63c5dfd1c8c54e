// Truths of values, one bit for each, gathered by code: a word of answers at a time.
ghost use Rattle.std.specs.Prelude.{◌≡◌, All, IfOk, IsTrue, length, map, pos};
ghost use Rattle.vortex_array_kinds.specs.Kinds.{primitive_column};
ghost use Rattle.vortex_array_kinds.specs.Validities.{is_as_long};
ghost use Rattle.vortex_array_select.specs.Selected.{IndexBelow, NamesRows, taken};
ghost use Rattle.vortex_array_select.specs.SelectedParts.{PlacesBelow, index_column, taken_validity};
ghost use Rattle.vortex_array.specs.Plain.{is_bool_type};
ghost use Rattle.vortex_array.specs.ColumnOf.{bool_column, column_of, is_plain};
ghost use Rattle.vortex_array.specs.Index.{number_column};

use crate::codes::each_code_width;
use crate::lookup::bits_at;
use std::alloc::{AllocError, Global};
use vortex_array::{Array, BoolArray, PrimitiveArray, PrimitiveBuffer, Validity};
use vortex_array_rows::RowIndex;
use vortex_buffer::Buffer;

// The truths at the codes, null where a code is.
pub(crate) fn truths_at(
    alloc: Global,
    truths: BoolArray,
    codes: &Array,
) -> Result<BoolArray, AllocError>
    requires { NamesRows (column_of codes.now) (length (bool_column truths).rows) }
    ensures { IfOk result (λ a. bool_column a ≡ taken (column_of codes.now) (bool_column truths)) }
{
    match codes {
        Array::Primitive(codes) => truths_at_numbers(alloc, &truths, codes),
        _ => truths_at_equal(alloc, truths, codes),
    }
}

// The truths at codes of any form: each bit is looked up.
fn truths_at_equal(alloc: Global, truths: BoolArray, codes: &Array) -> Result<BoolArray, AllocError>
    requires { NamesRows (column_of codes.now) (length (bool_column truths).rows) }
    ensures { IfOk result (λ a. bool_column a ≡ taken (column_of codes.now) (bool_column truths)) }
{
    let answers = Array::Bool(truths).take(alloc, codes)?;
    let copy = truths_of(&answers).try_clone(alloc)?;
    Ok(copy)
}

// A plain array of truth values as what it is.
fn truths_of(array: &Array) -> &BoolArray
    requires plain { IsTrue (is_plain array.now) }
    requires kind { IsTrue (is_bool_type (column_of array.now).dtype) }
    ensures { column_of array.now ≡ bool_column result.now }
{
    match array {
        Array::Bool(truths) => truths,
        Array::Primitive(_) => unreachable!(),
        Array::Decimal(_) => unreachable!(),
        Array::VarBinView(_) => unreachable!(),
        Array::Constant(_) => unreachable!(),
    }
}

// The truths at codes that are a number in each row.
fn truths_at_numbers(
    alloc: Global,
    truths: &BoolArray,
    codes: &PrimitiveArray,
) -> Result<BoolArray, AllocError>
    requires { NamesRows (primitive_column codes.now) (length (bool_column truths.now).rows) }
    ensures { IfOk result (λ a. bool_column a ≡ taken (primitive_column codes.now) (bool_column truths.now)) }
{
    let nulls = codes.validity();
    each_code_width!(codes.values(), places => truths_at_width(alloc, truths, places, nulls))
}

// The truths at codes of one width.
fn truths_at_width<P: RowIndex>(
    alloc: Global,
    truths: &BoolArray,
    codes: &Buffer<P>,
    nulls: &Validity,
) -> Result<BoolArray, AllocError>
    requires long { IsTrue (is_as_long nulls.now (length (map (λ p. pos (P.place p)) codes.now))) }
    requires within { All (IndexBelow (length (bool_column truths.now).rows)) (number_column nulls.now (map (λ p. pos (P.place p)) codes.now)).rows }
    ensures { IfOk result (λ a. bool_column a ≡ taken (number_column nulls.now (map (λ p. pos (P.place p)) codes.now)) (bool_column truths.now)) }
{
    let answers = truths_at_places(alloc, truths, codes.as_slice(), nulls)?;
    Ok(answers)
}

// The truths at places, null where a place is.
fn truths_at_places<P: RowIndex>(
    alloc: Global,
    truths: &BoolArray,
    places: &[P],
    nulls: &Validity,
) -> Result<BoolArray, AllocError>
    requires long { IsTrue (is_as_long nulls.now (length places.now)) }
    requires within { PlacesBelow (length (bool_column truths.now).rows) nulls.now (map P.place places.now) }
    ensures { IfOk result (λ a. bool_column a ≡ taken (index_column nulls.now (map P.place places.now)) (bool_column truths.now)) }
{
    let bits = bits_at(alloc, truths.bits(), places, nulls)?;
    let validity = validity_at(alloc, truths, places, nulls)?;
    Ok(BoolArray::new(bits, validity))
}

// Which of the truths at places are not null: none at a null place.
fn validity_at<P: RowIndex>(
    alloc: Global,
    truths: &BoolArray,
    places: &[P],
    nulls: &Validity,
) -> Result<Validity, AllocError>
    requires long { IsTrue (is_as_long nulls.now (length places.now)) }
    requires within { PlacesBelow (length truths.now.values) nulls.now (map P.place places.now) }
    ensures { IfOk result (λ part. part ≡ taken_validity nulls.now (map P.place places.now) truths.now.validity) }
{
    match truths.validity() {
        Validity::NonNullable => nulls.try_clone(alloc),
        Validity::AllValid => nulls.try_clone(alloc).map(Validity::into_nullable),
        Validity::AllInvalid => Ok(Validity::AllInvalid),
        Validity::Bits(bits) => bits_at(alloc, bits, places, nulls).map(Validity::Bits),
    }
}
