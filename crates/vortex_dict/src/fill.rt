// Dictionaries whose null rows get a value.
ghost use Rattle.std.specs.Prelude.{◌≡◌, ◌↔◌, Contains, IfNone, IfOk, IfSome, IsFalse, IsTrue, Some, is_some, map, pos};
ghost use Rattle.vortex_array_types.specs.Row.{is_nullable};
ghost use Rattle.vortex_array_types.specs.Typed.{same_apart_from_nullability};
ghost use Rattle.vortex_array_types.specs.declared.scalar.Value.TheVariants as values;
ghost use Rattle.vortex_array_types.specs.declared.types.DType.TheVariants as dtypes;
ghost use Rattle.vortex_array_types.specs.declared.types.Nullability.TheVariants.{NonNullable, Nullable};
ghost use Rattle.vortex_array_types.specs.declared.types.PType.TheVariants as widths;
ghost use Rattle.vortex_array_cast.specs.Filled.{filled, filled_row};
ghost use Rattle.vortex_array_select.specs.Selected.{is_index_type};
ghost use Rattle.vortex_array.specs.ColumnOf.{column_of};
ghost use Rattle.vortex_dict.specs.Decoded.{dict_column};
ghost use Rattle.vortex_dict.specs.Fills.{FilledWithin, FirstEqual, NoneEqual, OnDictionary, filled_column, is_dictionary};

use crate::dict::DictArray;
use crate::rows::same_row;
use crate::shortcuts::code_scalar;
use std::alloc::{AllocError, Global};
use vortex_array::{Array, CastError, DType, Nullability, PType, Scalar, Value};

/// A dictionary whose null rows got a value.
pub enum DictFilled {
    /// A dictionary: the fill is one of its values.
    Dict(DictArray),
    /// A plain array: the fill is none of the values.
    Plain(Array),
}

impl Drop for DictFilled {
    fn drop(self) {
        match self {
            DictFilled::Dict(_dict) => {}
            DictFilled::Plain(_rows) => {}
        }
    }
}

impl DictArray {
    /// The same rows, and the fill in each row that is null, of the fill's type. The fill is not null, and of the dictionary's
    /// type apart from nullability. It stays a dictionary exactly where a value equals the fill: then null codes name the
    /// first place of that, and null values become the fill. Else it is decoded.
    pub fn fill_null(&self, alloc: Global, fill: &Scalar) -> Result<DictFilled, AllocError>
        requires value { IsTrue (is_some fill.now.value) }
        requires same_type { IsTrue (same_apart_from_nullability (dict_column self.now).dtype fill.now.dtype) }
        ensures column { IfOk result (λ f. filled_column f ≡ filled fill.now (dict_column self.now)) }
        ensures form { IfOk result (λ f. IsTrue (is_dictionary f) ↔ Contains (column_of self.now.values).rows fill.now.value) }
        ensures parts { IfOk result (OnDictionary (FilledWithin self.now fill.now)) }
    {
        match first_equal(self.values(), fill) {
            Some(place) => {
                let dict = fill_within(alloc, self, fill, place)?;
                Ok(DictFilled::Dict(dict))
            }
            None => {
                let rows = fill_decoded(alloc, self, fill)?;
                Ok(DictFilled::Plain(rows))
            }
        }
    }
}

// The first place where a row equals this one.
fn first_equal(values: &Array, fill: &Scalar) -> Option<usize>
    ensures none { IfNone result (NoneEqual (column_of values.now).rows fill.now.value) }
    ensures some { IfSome result (FirstEqual (column_of values.now).rows fill.now.value) }
{
    for place in 0..values.len() {
        if same_row(values.value_at(place), fill.value_ref()) {
            return Some(place);
        }
    }
    None
}

// The dictionary filled with the value at a place.
fn fill_within(
    alloc: Global,
    dict: &DictArray,
    fill: &Scalar,
    place: usize,
) -> Result<DictArray, AllocError>
    requires value { IsTrue (is_some fill.now.value) }
    requires same_type { IsTrue (same_apart_from_nullability (dict_column dict.now).dtype fill.now.dtype) }
    requires first { FirstEqual (column_of dict.now.values).rows fill.now.value place }
    ensures column { IfOk result (λ d. dict_column d ≡ filled fill.now (dict_column dict.now)) }
    ensures parts { IfOk result (FilledWithin dict.now fill.now) }
{
    let values = dict.values().fill_null(alloc, fill)?;
    let codes = fill_codes(alloc, dict.codes(), place as u64)?;
    Ok(DictArray::new(codes, values))
}

// The decoded rows, filled.
fn fill_decoded(alloc: Global, dict: &DictArray, fill: &Scalar) -> Result<Array, AllocError>
    requires value { IsTrue (is_some fill.now.value) }
    requires same_type { IsTrue (same_apart_from_nullability (dict_column dict.now).dtype fill.now.dtype) }
    ensures { IfOk result (λ a. column_of a ≡ filled fill.now (dict_column dict.now)) }
{
    let rows = dict.canonicalize(alloc)?;
    let full = rows.fill_null(alloc, fill)?;
    Ok(full)
}

// The codes, and this one where they are null. They are of the same width where that holds it, else of the widest.
fn fill_codes(alloc: Global, codes: &Array, place: u64) -> Result<Array, AllocError>
    requires { IsTrue (is_index_type (column_of codes.now).dtype) }
    ensures kind { IfOk result (λ a. IsTrue (is_index_type (column_of a).dtype)) }
    ensures full { IfOk result (λ a. IsFalse (is_nullable (column_of a).dtype)) }
    ensures rows { IfOk result (λ a. (column_of a).rows ≡ map (filled_row (Some (values.Int (pos place)))) (column_of codes.now).rows) }
{
    match code_scalar(codes, Nullability::NonNullable, place) {
        Some(code) => fill_with(alloc, codes, &code),
        None => {
            let wide = wide_codes(alloc, codes)?;
            let code = wide_code(place);
            let full = fill_with(alloc, &wide, &code)?;
            Ok(full)
        }
    }
}

// Codes filled with one of their width.
fn fill_with(alloc: Global, codes: &Array, code: &Scalar) -> Result<Array, AllocError>
    requires code { IsTrue (is_some code.now.value) }
    requires same_type { IsTrue (same_apart_from_nullability (column_of codes.now).dtype code.now.dtype) }
    ensures { IfOk result (λ a. column_of a ≡ filled code.now (column_of codes.now)) }
{
    let full = codes.fill_null(alloc, code)?;
    Ok(full)
}

// The codes in the widest width, of a type with nulls. Each code lies in it, as what a row tells of itself says.
fn wide_codes(alloc: Global, codes: &Array) -> Result<Array, AllocError>
    requires { IsTrue (is_index_type (column_of codes.now).dtype) }
    ensures { IfOk result (λ a. column_of a ≡ record { dtype = dtypes.Primitive widths.U64 Nullable; rows = (column_of codes.now).rows }) }
{
    match codes.cast(alloc, &DType::Primitive(PType::U64, Nullability::Nullable)) {
        Ok(wide) => Ok(wide),
        Err(CastError::OutOfMemory) => Err(AllocError),
        Err(CastError::DoesNotFit { row }) => {
            let _ = codes.value_at(row);
            unreachable!()
        }
        Err(CastError::HasNull { row }) => {
            let _ = row;
            unreachable!()
        }
        Err(CastError::Unsupported) => unreachable!(),
    }
}

// A place as a code of the widest width.
fn wide_code(place: u64) -> Scalar
    ensures { result ≡ record { dtype = dtypes.Primitive widths.U64 NonNullable; value = Some (values.Int (pos place)) } }
{
    let dtype = DType::Primitive(PType::U64, Nullability::NonNullable);
    match Scalar::try_new(dtype, Some(Value::Int(place as i128))) {
        Ok(scalar) => scalar,
        Err(_) => unreachable!(),
    }
}
