// Decimals in parts.
ghost use Rattle.std.specs.Prelude.{◌≡◌, ◌<◌, ◌≤◌, ◌==◌, ◌↔◌, [], IfErr, IfOk, IsTrue, None, OnOk, Some, is_some, length, map, option_copied, option_map, slice_index_or};
ghost use Rattle.std.specs.Simd.Lanes.{zip2};
ghost use Rattle.vortex_buffer.specs.Mask.{mask_bits};
ghost use Rattle.vortex_array_order.specs.InOrder.{IsConstant};
ghost use Rattle.vortex_array_types.specs.Row.{is_nullable};
ghost use Rattle.vortex_array_types.specs.declared.scalar.Value.TheVariants.{Decimal};
ghost use Rattle.vortex_array.specs.ColumnOf.{column_of};
ghost use Rattle.vortex_decimal_byte_parts.specs.Checked.{are_parts, first_of_lower, is_lower_type, is_msp_type, refused_parts};
ghost use Rattle.vortex_decimal_byte_parts.specs.Columns.{one_row, parts_column, two_rows};

use crate::checks::check_parts;
use crate::errors::PartsError;
use crate::numbers::{numbers_fit, rows_hold};
use std::alloc::{AllocError, Global};
use std::marker::Model;
use vortex_array::{Array, DType, DecimalDType, Scalar, Value, ValueRef};
use vortex_buffer::Mask;

/// A column of decimals in parts: signed whole numbers, which say which rows are null, and beside them unsigned ones of at
/// most 64 bits without null, or none. The unscaled number of a row is that of the most significant part alone, or that
/// part times 2^64 and the lower one.
pub struct DecimalByteParts {
    msp: Array,
    lower: Option<Array>,
    decimal_dtype: DecimalDType,
}

/// The same column, by the name that other columns' types have.
pub type DecimalBytePartsArray = DecimalByteParts;

impl Drop for DecimalByteParts {
    fn drop(self) {
        let DecimalByteParts {
            msp: _msp,
            lower: _lower,
            decimal_dtype: _decimal_dtype,
        } = self;
    }
}

impl Model for DecimalByteParts {
    ghost use Rattle.std.specs.Prelude.{IsTrue};
    ghost use Rattle.vortex_decimal_byte_parts.specs.Columns.{Parts};
    ghost use Rattle.vortex_decimal_byte_parts.specs.Checked.{are_parts};

    ghost Value = { Parts };

    ghost view = { λ p. record { msp = p.msp; lower = p.lower; digits = p.decimal_dtype } };

    ghost invariant = { λ p. IsTrue (are_parts (record { msp = p.msp; lower = p.lower; digits = p.decimal_dtype })) };
}

impl DecimalByteParts {
    /// Decimals of a most significant part alone. Refused with `MspNotSigned` exactly where it is not of signed whole numbers.
    pub fn try_new(msp: Array, decimal_dtype: DecimalDType) -> Result<DecimalByteParts, PartsError>
        ensures ok { IfOk result (λ p. p ≡ record { msp = msp; lower = None; digits = decimal_dtype }) }
        ensures parts { OnOk result (refused_parts msp [] ≡ None) }
        ensures err { IfErr result (λ e. refused_parts msp [] ≡ Some e) }
    {
        match check_parts(&msp, &[]) {
            Ok(()) => Ok(DecimalByteParts {
                msp,
                lower: None,
                decimal_dtype,
            }),
            Err(error) => Err(error),
        }
    }

    /// Decimals of a most significant part and lower parts, of which there is one at most.
    ///
    /// The first refusal that holds is answered: `MspNotSigned`; `LengthMismatch` where a lower part has not as many rows as
    /// the most significant one; `TooManyLowerParts`; `LowerNotUnsigned` where the type of the lower one has a sign or nulls.
    pub fn try_new_with_lower_parts(
        msp: Array,
        lower_parts: Vec<Array>,
        decimal_dtype: DecimalDType,
    ) -> Result<DecimalByteParts, PartsError>
        ensures ok { IfOk result (λ p. p ≡ record { msp = msp; lower = first_of_lower lower_parts.items; digits = decimal_dtype }) }
        ensures parts { OnOk result (refused_parts msp lower_parts.items ≡ None) }
        ensures err { IfErr result (λ e. refused_parts msp lower_parts.items ≡ Some e) }
    {
        match check_parts(&msp, lower_parts.as_slice()) {
            Ok(()) => Ok(DecimalByteParts {
                msp,
                lower: only_one(lower_parts),
                decimal_dtype,
            }),
            Err(error) => Err(error),
        }
    }

    // Decimals of parts.
    pub(crate) fn new(
        msp: Array,
        lower: Option<Array>,
        decimal_dtype: DecimalDType,
    ) -> DecimalByteParts
        requires { IsTrue (are_parts (record { msp = msp; lower = lower; digits = decimal_dtype })) }
        ensures { result ≡ record { msp = msp; lower = lower; digits = decimal_dtype } }
    {
        DecimalByteParts {
            msp,
            lower,
            decimal_dtype,
        }
    }

    /// The most significant part.
    pub fn msp(&self) -> &Array
        ensures part { result.now ≡ self.now.msp }
        ensures parts { IsTrue (are_parts self.now) }
    {
        &self.msp
    }

    /// The lower part, if there is one.
    pub fn lower_part(&self) -> Option<&Array>
        ensures part { option_copied result ≡ self.now.lower }
        ensures parts { IsTrue (are_parts self.now) }
    {
        self.lower.as_ref()
    }

    /// How many digits the decimals have.
    pub fn decimal_dtype(&self) -> DecimalDType
        ensures { result ≡ self.now.digits }
    {
        self.decimal_dtype
    }

    /// How many rows there are.
    pub fn len(&self) -> usize
        ensures rows { result ≡ length (parts_column self.now).rows }
        ensures msp { result ≡ length (column_of self.now.msp).rows }
    {
        self.msp.len()
    }

    /// Whether there is no row.
    pub fn is_empty(&self) -> bool
        ensures { result ≡ (length (parts_column self.now).rows == 0) }
    {
        self.len() == 0
    }

    /// The type.
    pub fn dtype(&self) -> DType
        ensures { result ≡ (parts_column self.now).dtype }
    {
        DType::Decimal(self.decimal_dtype, self.msp.dtype().nullability())
    }

    /// A second column of equal parts.
    pub fn try_clone(&self, alloc: Global) -> Result<DecimalByteParts, AllocError>
        ensures { IfOk result (λ p. p ≡ self.now) }
    {
        let msp = self.msp.try_clone(alloc)?;
        let lower = copy_of(alloc, &self.lower)?;
        Ok(DecimalByteParts {
            msp,
            lower,
            decimal_dtype: self.decimal_dtype,
        })
    }

    /// The row at a place, with the type.
    pub fn scalar_at(&self, i: usize) -> Scalar
        requires { i < length (parts_column self.now).rows }
        ensures { result ≡ record { dtype = (parts_column self.now).dtype; value = slice_index_or (parts_column self.now).rows i None } }
    {
        let number = match &self.lower {
            None => narrow_at(&self.msp, i),
            Some(lower) => wide_at(&self.msp, lower, i),
        };
        match Scalar::try_new(self.dtype(), decimal_value(number)) {
            Ok(scalar) => scalar,
            Err(_) => unreachable!(),
        }
    }

    /// For each row whether it is not null.
    pub fn validity_mask(&self, alloc: Global) -> Result<Mask, AllocError>
        ensures { IfOk result (λ mask. mask_bits mask ≡ map is_some (parts_column self.now).rows) }
    {
        match &self.lower {
            None => narrow_mask(alloc, &self.msp),
            Some(lower) => wide_mask(alloc, &self.msp, lower),
        }
    }

    /// Whether there is a row, and each row equals it, null equal to null.
    pub fn is_constant(&self) -> bool
        ensures { IsTrue result ↔ IsConstant (parts_column self.now).rows }
    {
        match &self.lower {
            None => narrow_is_constant(&self.msp),
            Some(lower) => wide_is_constant(&self.msp, lower),
        }
    }
}

// A second lower part, or none.
fn copy_of(alloc: Global, lower: &Option<Array>) -> Result<Option<Array>, AllocError>
    ensures { IfOk result (λ copy. copy ≡ lower.now) }
{
    match lower {
        Some(lower) => Ok(Some(lower.try_clone(alloc)?)),
        None => Ok(None),
    }
}

// The only one of the lower parts, if there is one.
fn only_one(mut lower_parts: Vec<Array>) -> Option<Array>
    requires { length lower_parts.items ≤ 1 }
    ensures { result ≡ first_of_lower lower_parts.items }
{
    lower_parts.pop()
}

// A number as a value, or null.
fn decimal_value(number: Option<i128>) -> Option<Value>
    ensures { result ≡ option_map (λ n. Decimal n) number }
{
    number.map(Value::Decimal)
}

// The number of a row, or none where it is null.
fn narrow_at(msp: &Array, i: usize) -> Option<i128>
    requires msp { IsTrue (is_msp_type (column_of msp.now).dtype) }
    requires within { i < length (column_of msp.now).rows }
    ensures row { option_map (λ n. Decimal n) result ≡ one_row (slice_index_or (column_of msp.now).rows i None) }
    ensures null { result ≡ None → IsTrue (is_nullable (column_of msp.now).dtype) }
{
    match msp.value_at(i) {
        Some(ValueRef::Int(number)) => Some(number),
        Some(_) => unreachable!(),
        None => None,
    }
}

// The number of a row of two parts, or none where it is null.
fn wide_at(msp: &Array, lower: &Array, i: usize) -> Option<i128>
    requires msp { IsTrue (is_msp_type (column_of msp.now).dtype) }
    requires lower { IsTrue (is_lower_type (column_of lower.now).dtype) }
    requires within { i < length (column_of msp.now).rows }
    requires beside { i < length (column_of lower.now).rows }
    ensures row { option_map (λ n. Decimal n) result ≡ two_rows (slice_index_or (column_of msp.now).rows i None) (slice_index_or (column_of lower.now).rows i None) }
    ensures null { result ≡ None → IsTrue (is_nullable (column_of msp.now).dtype) }
{
    match (msp.value_at(i), lower.value_at(i)) {
        (Some(ValueRef::Int(msp)), Some(ValueRef::Int(lower))) => {
            Some(msp * 18446744073709551616 + lower)
        }
        (None, _) => None,
        _ => unreachable!(),
    }
}

// For each row of a most significant part alone whether it is not null.
fn narrow_mask(alloc: Global, msp: &Array) -> Result<Mask, AllocError>
    requires msp { IsTrue (is_msp_type (column_of msp.now).dtype) }
    ensures { IfOk result (λ mask. mask_bits mask ≡ map is_some (map one_row (column_of msp.now).rows)) }
{
    rows_hold(msp);
    let mask = msp.validity_mask(alloc)?;
    Ok(mask)
}

// For each row of two parts whether it is not null.
fn wide_mask(alloc: Global, msp: &Array, lower: &Array) -> Result<Mask, AllocError>
    requires msp { IsTrue (is_msp_type (column_of msp.now).dtype) }
    requires lower { IsTrue (is_lower_type (column_of lower.now).dtype) }
    requires same_length { length (column_of msp.now).rows ≡ length (column_of lower.now).rows }
    ensures { IfOk result (λ mask. mask_bits mask ≡ map is_some (zip2 two_rows (column_of msp.now).rows (column_of lower.now).rows)) }
{
    rows_hold(msp);
    rows_hold(lower);
    numbers_fit(lower);
    let mask = msp.validity_mask(alloc)?;
    Ok(mask)
}

// Whether each row of a most significant part alone equals the first.
fn narrow_is_constant(msp: &Array) -> bool
    requires msp { IsTrue (is_msp_type (column_of msp.now).dtype) }
    ensures { IsTrue result ↔ IsConstant (map one_row (column_of msp.now).rows) }
{
    rows_hold(msp);
    msp.is_constant()
}

// Whether each row of two parts equals the first: the most significant ones do, and are null or the lower ones do too.
fn wide_is_constant(msp: &Array, lower: &Array) -> bool
    requires msp { IsTrue (is_msp_type (column_of msp.now).dtype) }
    requires lower { IsTrue (is_lower_type (column_of lower.now).dtype) }
    requires same_length { length (column_of msp.now).rows ≡ length (column_of lower.now).rows }
    ensures { IsTrue result ↔ IsConstant (zip2 two_rows (column_of msp.now).rows (column_of lower.now).rows) }
{
    rows_hold(msp);
    rows_hold(lower);
    numbers_fit(lower);
    if msp.is_empty() || !msp.is_constant() {
        return false;
    }
    !msp.is_valid(0) || lower.is_constant()
}
