// Decimals in parts with nulls in their type or without.
ghost use Rattle.std.specs.Prelude.{◌≡◌, IfErr, IfOk, IfSome, IsTrue, OnOk, is_some, length, map};
ghost use Rattle.std.specs.Simd.Lanes.{zip2};
ghost use Rattle.vortex_array_types.specs.Typed.{same_apart_from_nullability};
ghost use Rattle.vortex_array_types.specs.Widths.{with_nullability};
ghost use Rattle.vortex_array_types.specs.declared.types.DType.TheVariants as dtypes;
ghost use Rattle.vortex_array_cast.specs.Casts.{AllFit, IsCast, cast_column};
ghost use Rattle.vortex_array.specs.ColumnOf.{column_of};
ghost use Rattle.vortex_decimal_byte_parts.specs.Asked.{RefusesNull, RefusesPartsCast};
ghost use Rattle.vortex_decimal_byte_parts.specs.Checked.{is_lower_type, is_msp_type};
ghost use Rattle.vortex_decimal_byte_parts.specs.Columns.{one_row, parts_column, two_rows};

use crate::errors::PartsCastError;
use crate::numbers::{numbers_fit, rows_hold, width_of};
use crate::parts::DecimalByteParts;
use std::alloc::Global;
use vortex_array::{Array, CastError, DType, DecimalDType, Nullability};

impl DecimalByteParts {
    /// The same rows, of this type. None exactly where the type is not this decimal type apart from nullability.
    ///
    /// The first refusal that holds is answered: `HasNull` with the first row that is null, where the type has no nulls;
    /// `OutOfMemory`.
    pub fn cast(
        &self,
        alloc: Global,
        dtype: &DType,
    ) -> Result<Option<DecimalByteParts>, PartsCastError>
        ensures none { IfOk result (λ found. is_some found ≡ same_apart_from_nullability (parts_column self.now).dtype dtype.now) }
        ensures ok { IfOk result (λ found. IfSome found (λ p. parts_column p ≡ cast_column dtype.now (parts_column self.now))) }
        ensures fits { IfOk result (λ found. IfSome found (λ _. IsCast dtype.now (parts_column self.now))) }
        ensures err { IfErr result (RefusesPartsCast dtype.now (parts_column self.now)) }
    {
        if !self.dtype().same_apart_from_nullability(dtype) {
            return Ok(None);
        }
        match dtype {
            DType::Decimal(digits, nullability) => {
                match cast_to(alloc, self, *digits, *nullability) {
                    Ok(parts) => Ok(Some(parts)),
                    Err(error) => Err(error),
                }
            }
            _ => unreachable!(),
        }
    }
}

// Decimals of as many digits, with nulls in their type or without.
fn cast_to(
    alloc: Global,
    parts: &DecimalByteParts,
    digits: DecimalDType,
    nullability: Nullability,
) -> Result<DecimalByteParts, PartsCastError>
    ensures ok { IfOk result (λ p. parts_column p ≡ record { dtype = dtypes.Decimal digits nullability; rows = (parts_column parts.now).rows }) }
    ensures fits { OnOk result (AllFit (dtypes.Decimal digits nullability) (parts_column parts.now).rows) }
    ensures err { IfErr result (RefusesNull (dtypes.Decimal digits nullability) (parts_column parts.now).rows) }
{
    match parts.lower_part() {
        None => cast_narrow(alloc, parts.msp(), digits, nullability),
        Some(lower) => cast_wide(alloc, parts.msp(), lower, digits, nullability),
    }
}

// The same of a most significant part alone.
fn cast_narrow(
    alloc: Global,
    msp: &Array,
    digits: DecimalDType,
    nullability: Nullability,
) -> Result<DecimalByteParts, PartsCastError>
    requires msp { IsTrue (is_msp_type (column_of msp.now).dtype) }
    ensures ok { IfOk result (λ p. parts_column p ≡ record { dtype = dtypes.Decimal digits nullability; rows = map one_row (column_of msp.now).rows }) }
    ensures fits { OnOk result (AllFit (dtypes.Decimal digits nullability) (map one_row (column_of msp.now).rows)) }
    ensures err { IfErr result (RefusesNull (dtypes.Decimal digits nullability) (map one_row (column_of msp.now).rows)) }
{
    rows_hold(msp);
    let msp = cast_msp(alloc, msp, nullability)?;
    Ok(DecimalByteParts::new(msp, None, digits))
}

// The same of two parts.
fn cast_wide(
    alloc: Global,
    msp: &Array,
    lower: &Array,
    digits: DecimalDType,
    nullability: Nullability,
) -> Result<DecimalByteParts, PartsCastError>
    requires msp { IsTrue (is_msp_type (column_of msp.now).dtype) }
    requires lower { IsTrue (is_lower_type (column_of lower.now).dtype) }
    requires same_length { length (column_of msp.now).rows ≡ length (column_of lower.now).rows }
    ensures ok { IfOk result (λ p. parts_column p ≡ record { dtype = dtypes.Decimal digits nullability; rows = zip2 two_rows (column_of msp.now).rows (column_of lower.now).rows }) }
    ensures fits { OnOk result (AllFit (dtypes.Decimal digits nullability) (zip2 two_rows (column_of msp.now).rows (column_of lower.now).rows)) }
    ensures err { IfErr result (RefusesNull (dtypes.Decimal digits nullability) (zip2 two_rows (column_of msp.now).rows (column_of lower.now).rows)) }
{
    rows_hold(msp);
    rows_hold(lower);
    numbers_fit(lower);
    let msp = cast_msp(alloc, msp, nullability)?;
    match lower.try_clone(alloc) {
        Ok(lower) => Ok(DecimalByteParts::new(msp, Some(lower), digits)),
        Err(_) => Err(PartsCastError::OutOfMemory),
    }
}

// A most significant part with nulls in its type or without.
fn cast_msp(alloc: Global, msp: &Array, nullability: Nullability) -> Result<Array, PartsCastError>
    requires msp { IsTrue (is_msp_type (column_of msp.now).dtype) }
    ensures ok { IfOk result (λ a. column_of a ≡ record { dtype = with_nullability nullability (column_of msp.now).dtype; rows = (column_of msp.now).rows }) }
    ensures fits { OnOk result (AllFit (with_nullability nullability (column_of msp.now).dtype) (column_of msp.now).rows) }
    ensures err { IfErr result (RefusesNull (with_nullability nullability (column_of msp.now).dtype) (column_of msp.now).rows) }
{
    let dtype = DType::Primitive(width_of(msp), nullability);
    match msp.cast(alloc, &dtype) {
        Ok(msp) => Ok(msp),
        Err(CastError::HasNull { row }) => Err(PartsCastError::HasNull { row }),
        Err(CastError::OutOfMemory) => Err(PartsCastError::OutOfMemory),
        Err(CastError::Unsupported) => unreachable!(),
        Err(CastError::DoesNotFit { row }) => {
            let _number = msp.value_at(row);
            unreachable!()
        }
    }
}
