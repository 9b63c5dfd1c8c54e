// Codes, read in their own width. The width is matched once, outside the loops.
ghost use Rattle.std.specs.Prelude.{◌≡◌, ◌<◌, ◌≤◌, ◌&&◌, ℕ, All, IfNone, IfSome, IsTrue, Some, None, length, map, nat_lt, not, pos, slice_index_or, true};
ghost use Rattle.vortex_array_types.specs.Row.{fits_type, value_fits};
ghost use Rattle.vortex_array_types.specs.Seen.{value_seen};
ghost use Rattle.vortex_array_types.specs.declared.scalar.Value.TheVariants as values;
ghost use Rattle.vortex_array_kinds.specs.Kinds.{constant_column, primitive_column};
ghost use Rattle.vortex_array_kinds.specs.Validities.{is_as_long, valid_at};
ghost use Rattle.vortex_array_select.specs.Selected.{IndexBelow, NamesRows, is_index_type as is_type_of_codes};
ghost use Rattle.vortex_array_select.specs.SelectedParts.{PlacesBelow};
ghost use Rattle.vortex_array.specs.ColumnOf.{column_of};
ghost use Rattle.vortex_array.specs.Index.{number_column};
ghost use Rattle.vortex_dict.specs.Refused.{FirstOutside, Refuses};

use crate::error::DictError;
use vortex_array::{
    Array, ConstantArray, DType, PrimitiveArray, PrimitiveBuffer, Validity, ValueRef,
};
use vortex_array_rows::RowIndex;
use vortex_buffer::Buffer;

// What the expression is for unsigned numbers, whatever their width.
macro_rules! each_code_width {
    ($numbers:expr, $places:ident => $answer:expr) => {
        match $numbers {
            PrimitiveBuffer::U8($places) => $answer,
            PrimitiveBuffer::U16($places) => $answer,
            PrimitiveBuffer::U32($places) => $answer,
            PrimitiveBuffer::U64($places) => $answer,
            PrimitiveBuffer::I8(_) => unreachable!(),
            PrimitiveBuffer::I16(_) => unreachable!(),
            PrimitiveBuffer::I32(_) => unreachable!(),
            PrimitiveBuffer::I64(_) => unreachable!(),
        }
    };
}

pub(crate) use each_code_width;

// Why these are no codes of so many values, or none where they are.
pub(crate) fn refusal(codes: &Array, values: usize) -> Option<DictError>
    ensures none { IfNone result (NamesRows (column_of codes.now) values) }
    ensures some { IfSome result (Refuses (column_of codes.now) values) }
{
    match codes {
        Array::Primitive(codes) => number_refusal(codes, values),
        Array::Constant(code) => equal_refusal(code, values),
        Array::Bool(_) => Some(DictError::NotUnsigned),
        Array::Decimal(_) => Some(DictError::NotUnsigned),
        Array::VarBinView(_) => Some(DictError::NotUnsigned),
    }
}

// The same of whole numbers.
fn number_refusal(codes: &PrimitiveArray, values: usize) -> Option<DictError>
    ensures none { IfNone result (NamesRows (primitive_column codes.now) values) }
    ensures some { IfSome result (Refuses (primitive_column codes.now) values) }
{
    let nulls = codes.validity();
    match codes.values() {
        PrimitiveBuffer::U8(places) => outside(places, nulls, values),
        PrimitiveBuffer::U16(places) => outside(places, nulls, values),
        PrimitiveBuffer::U32(places) => outside(places, nulls, values),
        PrimitiveBuffer::U64(places) => outside(places, nulls, values),
        PrimitiveBuffer::I8(_) => Some(DictError::NotUnsigned),
        PrimitiveBuffer::I16(_) => Some(DictError::NotUnsigned),
        PrimitiveBuffer::I32(_) => Some(DictError::NotUnsigned),
        PrimitiveBuffer::I64(_) => Some(DictError::NotUnsigned),
    }
}

// The first number of one width that is not null and not below a bound, as a refusal.
fn outside<P: RowIndex>(places: &Buffer<P>, nulls: &Validity, bound: usize) -> Option<DictError>
    requires { IsTrue (is_as_long nulls.now (length (map (λ p. pos (P.place p)) places.now))) }
    ensures none { IfNone result (All (IndexBelow bound) (number_column nulls.now (map (λ p. pos (P.place p)) places.now)).rows) }
    ensures some { IfSome result (Refuses (number_column nulls.now (map (λ p. pos (P.place p)) places.now)) bound) }
{
    match first_outside(places.as_slice(), nulls, bound) {
        Some(row) => Some(DictError::CodeOutOfRange {
            row,
            code: places.get(row).place() as u64,
        }),
        None => None,
    }
}

// The first place that is not null and not below a bound.
fn first_outside<P: RowIndex>(places: &[P], nulls: &Validity, bound: usize) -> Option<usize>
    requires { IsTrue (is_as_long nulls.now (length places.now)) }
    ensures none { IfNone result (PlacesBelow bound nulls.now (map P.place places.now)) }
    ensures within { IfSome result (λ row. row < length places.now) }
    ensures present { IfSome result (λ row. valid_at nulls.now row ≡ true) }
    ensures outside { IfSome result (λ row. bound ≤ slice_index_or (map P.place places.now) row 0) }
    ensures before { IfSome result (λ row. (k : ℕ) → k < row → valid_at nulls.now k ≡ true → slice_index_or (map P.place places.now) k 0 < bound) }
{
    for row in 0..places.len() {
        if is_outside(places[row], nulls.is_valid(row), bound) {
            return Some(row);
        }
    }
    None
}

// Whether a place that is valid is not below a bound.
#[inline(always)]
fn is_outside<P: RowIndex>(place: P, valid: bool, bound: usize) -> bool
    ensures { result ≡ (valid && not (nat_lt (P.place place) bound)) }
{
    valid && place.place() >= bound
}

// Why equal rows are no codes of so many values, or none where they are.
fn equal_refusal(code: &ConstantArray, values: usize) -> Option<DictError>
    ensures none { IfNone result (NamesRows (constant_column code.now) values) }
    ensures some { IfSome result (Refuses (constant_column code.now) values) }
{
    if !is_code_type(code.dtype()) {
        return Some(DictError::NotUnsigned);
    }
    if code.len() == 0 {
        return None;
    }
    match code.scalar().value_ref() {
        Some(value) => number_outside(number_of(code.dtype(), value), values),
        None => None,
    }
}

// A number in each row that is not below a bound, as a refusal.
fn number_outside(code: u64, bound: usize) -> Option<DictError>
    ensures none { IfNone result (code < bound) }
    ensures some { IfSome result (λ error. (bound ≤ code) × (error ≡ DictError.CodeOutOfRange 0 code)) }
{
    if code >= bound as u64 {
        Some(DictError::CodeOutOfRange { row: 0, code })
    } else {
        None
    }
}

// Whether the type is one of unsigned whole numbers.
fn is_code_type(dtype: DType) -> bool
    ensures { result ≡ is_type_of_codes dtype }
{
    match dtype {
        DType::Primitive(width, _) => width.is_unsigned(),
        _ => false,
    }
}

// The number of a code that is a value of its type.
pub(crate) fn number_of(dtype: DType, value: ValueRef<'_>) -> u64
    requires kind { IsTrue (is_type_of_codes dtype) }
    requires fits { IsTrue (value_fits dtype (value_seen value)) }
    ensures { value_seen value.entry ≡ values.Int (pos result) }
{
    match value {
        ValueRef::Int(number) => number as u64,
        _ => unreachable!(),
    }
}
