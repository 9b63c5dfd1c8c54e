// Columns encoded as dictionaries.
ghost use Rattle.std.specs.Prelude.{◌≡◌, ◌≢◌, [], IfErr, IfOk, IsTrue, OnErr, OnOk, length};
ghost use Rattle.vortex_array_kinds.specs.Kinds.{primitive_column};
ghost use Rattle.vortex_array_select.specs.Selected.{NamesRows};
ghost use Rattle.vortex_array.specs.ColumnOf.{column_of};
ghost use Rattle.vortex_dict.specs.Casts.{HaveNoNull};
ghost use Rattle.vortex_dict.specs.Decoded.{dict_column};
ghost use Rattle.vortex_dict.specs.Encoded.{EncodesAll, EncodesPart, RefusesAll, narrowed, width_of_places};
ghost use Rattle.vortex_dict_builders.specs.Any.{any_encoder, encoder_for, is_encoded_type};
ghost use Rattle.vortex_dict_builders.specs.declared.errors.DictEncodeError.TheVariants as errors;

use crate::dict::DictArray;
use std::alloc::Global;
use vortex_array::{Array, CastError, DType, Nullability, PType, PrimitiveArray};
use vortex_dict_builders::{
    AnyDictEncoder, DictConstraints, DictEncodeError, DictEncoder, EncodeError, dict_encoder,
    unlimited_encoder,
};

/// A dictionary of the rows of a column: its values are the distinct rows in the order in which they first appear, null counted
/// as one, and each code is the place of its row. The codes are of the least unsigned width that holds them, `u8` where there
/// is no row. It is refused exactly for truth values and decimals; else memory alone can be wanting.
pub fn dict_encode(alloc: Global, array: &Array) -> Result<DictArray, DictEncodeError>
    ensures ok { IfOk result (EncodesAll (column_of array.now)) }
    ensures fits { OnOk result (IsTrue (is_encoded_type (column_of array.now).dtype)) }
    ensures err { IfErr result (RefusesAll (column_of array.now)) }
{
    let _ = array.len();
    let encoder = unlimited_encoder(alloc, array)?;
    let dict = encoded_by(alloc, encoder, array)?;
    Ok(dict)
}

/// A dictionary of the first rows of a column, as `dict_encode` gives it of them: up to the first row that is no value yet and
/// that the limits refuse, or of all. It is refused exactly for truth values and decimals; else memory alone can be wanting.
pub fn dict_encode_with_constraints(
    alloc: Global,
    array: &Array,
    constraints: &DictConstraints,
) -> Result<DictArray, DictEncodeError>
    ensures ok { IfOk result (EncodesPart (encoder_for (column_of array.now).dtype constraints.now) (column_of array.now)) }
    ensures fits { OnOk result (IsTrue (is_encoded_type (column_of array.now).dtype)) }
    ensures err { IfErr result (RefusesAll (column_of array.now)) }
{
    let encoder = dict_encoder(alloc, array, constraints)?;
    let dict = encoded_by(alloc, encoder, array)?;
    Ok(dict)
}

/// Columns of one type with equal rows become dictionaries of equal codes and equal values.
pub fn encode_both(
    alloc: Global,
    first: &Array,
    second: &Array,
) -> Result<(DictArray, DictArray), DictEncodeError>
    requires { column_of first.now ≡ column_of second.now }
    ensures codes { IfOk result (λ both. column_of both.0.codes ≡ column_of both.1.codes) }
    ensures values { IfOk result (λ both. column_of both.0.values ≡ column_of both.1.values) }
{
    let one = dict_encode(alloc, first)?;
    let other = dict_encode(alloc, second)?;
    let _ = one.codes();
    let _ = other.codes();
    Ok((one, other))
}

/// The dictionary, where it has so many rows. Else `NotAll` tells how many it has. It takes no memory; where it is refused, the
/// dictionary is dropped.
pub fn require_all(dict: DictArray, rows: usize) -> Result<DictArray, DictEncodeError>
    ensures ok { IfOk result (λ d. d ≡ dict) }
    ensures fits { OnOk result (length (dict_column dict).rows ≡ rows) }
    ensures err { IfErr result (λ e. e ≡ errors.NotAll (length (dict_column dict).rows) rows) }
    ensures differ { OnErr result (length (dict_column dict).rows ≢ rows) }
{
    let encoded = dict.len();
    if encoded != rows {
        return Err(DictEncodeError::NotAll { encoded, rows });
    }
    Ok(dict)
}

// The first rows of a column as a builder without entries encodes them.
fn encoded_by(
    alloc: Global,
    encoder: AnyDictEncoder,
    array: &Array,
) -> Result<DictArray, DictEncodeError>
    requires same_type { (column_of array.now).dtype ≡ (any_encoder encoder).dtype }
    requires none { (any_encoder encoder).entries ≡ [] }
    ensures ok { IfOk result (EncodesPart (any_encoder encoder) (column_of array.now)) }
    ensures err { IfErr result (λ e. e ≡ errors.OutOfMemory) }
{
    let mut encoder = encoder;
    let codes = match encoder.encode(array) {
        Ok(codes) => codes,
        Err(EncodeError::OutOfMemory) => return Err(DictEncodeError::OutOfMemory),
        Err(EncodeError::WrongType) => unreachable!(),
    };
    match encoder.values() {
        Ok(values) => dict_of(alloc, codes, values),
        Err(_) => Err(DictEncodeError::OutOfMemory),
    }
}

// Codes and values as a dictionary, the codes in the least width that holds them.
fn dict_of(
    alloc: Global,
    codes: PrimitiveArray,
    values: Array,
) -> Result<DictArray, DictEncodeError>
    requires names { NamesRows (primitive_column codes) (length (column_of values).rows) }
    requires full { HaveNoNull (primitive_column codes).rows }
    ensures ok { IfOk result (λ d. column_of d.codes ≡ narrowed (length (column_of values).rows) (primitive_column codes)) }
    ensures values { IfOk result (λ d. d.values ≡ values) }
    ensures err { IfErr result (λ e. e ≡ errors.OutOfMemory) }
{
    let dtype = DType::Primitive(code_width(values.len()), Nullability::NonNullable);
    let codes = Array::Primitive(codes);
    if codes.dtype() == dtype {
        return Ok(DictArray::new(codes, values));
    }
    match codes.cast(alloc, &dtype) {
        Ok(codes) => Ok(DictArray::new(codes, values)),
        Err(CastError::OutOfMemory) => Err(DictEncodeError::OutOfMemory),
        Err(CastError::Unsupported) => unreachable!(),
        Err(CastError::HasNull { row }) => {
            let _ = row;
            unreachable!()
        }
        Err(CastError::DoesNotFit { row }) => {
            let _ = row;
            unreachable!()
        }
    }
}

// The least unsigned width that holds every place of so many values.
fn code_width(values: usize) -> PType
    ensures { result ≡ width_of_places values }
{
    let greatest = values.saturating_sub(1);
    if greatest <= 255 {
        PType::U8
    } else if greatest <= 65535 {
        PType::U16
    } else if greatest <= 4294967295 {
        PType::U32
    } else {
        PType::U64
    }
}
