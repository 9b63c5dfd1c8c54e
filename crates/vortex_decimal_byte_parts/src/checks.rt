// Whether arrays are the parts of decimals.
ghost use Rattle.std.specs.Prelude.{◌≡◌, IfErr, None, OnOk, Some, length};
ghost use Rattle.std.specs.List.{list_all};
ghost use Rattle.vortex_array.specs.ColumnOf.{column_of};
ghost use Rattle.vortex_decimal_byte_parts.specs.Checked.{has_length, is_lower_type as is_type_of_lower, is_msp_type as is_type_of_msp, is_type_of_parts as is_type_of_the_parts, refused_beside, refused_column, refused_lower, refused_parts, same_nulls as are_same_nulls};

use crate::errors::PartsError;
use vortex_array::{Array, DType, DecimalDType, Nullability};

/// The parts of decimals as they are checked.
pub struct DecimalBytePartsData;

impl DecimalBytePartsData {
    /// Whether arrays are the parts of a column of decimals of this type and length.
    ///
    /// The first refusal that holds is answered: `MspNotSigned`; `WrongDecimalType` where the type is not the decimal type
    /// with the nulls of the most significant part; `LengthMismatch` where a part has another length; `TooManyLowerParts`
    /// where there is more than one; `LowerNotUnsigned` where its type has a sign or nulls.
    pub fn validate(
        msp: &Array,
        lower_parts: &[Array],
        decimal_dtype: DecimalDType,
        dtype: &DType,
        len: usize,
    ) -> Result<(), PartsError>
        ensures ok { OnOk result (refused_column msp.now lower_parts.now decimal_dtype dtype.now len ≡ None) }
        ensures err { IfErr result (λ e. refused_column msp.now lower_parts.now decimal_dtype dtype.now len ≡ Some e) }
    {
        if !is_msp_type(msp.dtype()) {
            return Err(PartsError::MspNotSigned);
        }
        if !is_type_of_parts(msp, decimal_dtype, dtype) {
            return Err(PartsError::WrongDecimalType);
        }
        if msp.len() != len {
            return Err(PartsError::LengthMismatch);
        }
        check_beside(lower_parts, len)
    }
}

// Whether arrays are parts.
pub(crate) fn check_parts(msp: &Array, lower_parts: &[Array]) -> Result<(), PartsError>
    ensures ok { OnOk result (refused_parts msp.now lower_parts.now ≡ None) }
    ensures err { IfErr result (λ e. refused_parts msp.now lower_parts.now ≡ Some e) }
{
    if !is_msp_type(msp.dtype()) {
        return Err(PartsError::MspNotSigned);
    }
    check_beside(lower_parts, msp.len())
}

// Whether the type is one of signed whole numbers.
pub(crate) fn is_msp_type(dtype: DType) -> bool
    ensures { result ≡ is_type_of_msp dtype }
{
    match dtype {
        DType::Primitive(width, _) => width.is_signed(),
        _ => false,
    }
}

// Whether the type is one of unsigned whole numbers without null.
fn is_lower_type(dtype: DType) -> bool
    ensures { result ≡ is_type_of_lower dtype }
{
    match dtype {
        DType::Primitive(width, Nullability::NonNullable) => width.is_unsigned(),
        _ => false,
    }
}

// Whether both have nulls or neither has.
fn same_nulls(left: Nullability, right: Nullability) -> bool
    ensures { result ≡ are_same_nulls left right }
{
    match (left, right) {
        (Nullability::NonNullable, Nullability::NonNullable) => true,
        (Nullability::NonNullable, Nullability::Nullable) => false,
        (Nullability::Nullable, Nullability::NonNullable) => false,
        (Nullability::Nullable, Nullability::Nullable) => true,
    }
}

// Whether the type is the decimal type, with nulls where the most significant part has them.
fn is_type_of_parts(msp: &Array, decimal_dtype: DecimalDType, dtype: &DType) -> bool
    ensures { result ≡ is_type_of_the_parts msp.now decimal_dtype dtype.now }
{
    let full = DType::Decimal(decimal_dtype, Nullability::NonNullable);
    dtype.same_apart_from_nullability(&full)
        && same_nulls(dtype.nullability(), msp.dtype().nullability())
}

// Whether all have so many rows.
fn have_length(parts: &[Array], len: usize) -> bool
    ensures { result ≡ list_all (has_length len) parts.now }
{
    for part in parts {
        if part.len() != len {
            return false;
        }
    }
    true
}

// Whether arrays are lower parts of so many rows.
fn check_beside(lower_parts: &[Array], len: usize) -> Result<(), PartsError>
    ensures ok { OnOk result (refused_beside len lower_parts.now ≡ None) }
    ensures err { IfErr result (λ e. refused_beside len lower_parts.now ≡ Some e) }
{
    if !have_length(lower_parts, len) {
        return Err(PartsError::LengthMismatch);
    }
    check_lower(lower_parts)
}

// Whether arrays of the right length are lower parts.
fn check_lower(lower_parts: &[Array]) -> Result<(), PartsError>
    ensures ok { OnOk result (refused_lower lower_parts.now ≡ None) }
    ensures err { IfErr result (λ e. refused_lower lower_parts.now ≡ Some e) }
{
    match lower_parts {
        [] => Ok(()),
        [lower] => {
            if is_lower_type(lower.dtype()) {
                Ok(())
            } else {
                Err(PartsError::LowerNotUnsigned)
            }
        }
        _ => Err(PartsError::TooManyLowerParts),
    }
}
