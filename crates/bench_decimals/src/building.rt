// Decimals in parts and what they are asked with, from what the caller lends.
ghost use Rattle.std.specs.Prelude.{◌≡◌, IfOk, length};
ghost use Rattle.vortex_buffer.specs.Mask.{mask_bits};

use std::alloc::{AllocError, Global};
use vortex_array::{
    Array, ConstantArray, DType, DecimalArray, DecimalDType, Nullability, PrimitiveArray,
    PrimitiveBuffer, Scalar, Validity, Value,
};
use vortex_buffer::{BitBuffer, Buffer, Mask};
use vortex_decimal_byte_parts::{DecimalByteParts, assemble_decimal};

/// Parts of decimals, as the caller lends them.
#[derive(Clone, Copy)]
pub struct Lent<'a> {
    /// The most significant parts.
    pub msp: &'a [i64],
    /// The lower parts, or none.
    pub lower: &'a [u64],
}

// The digits of the decimals.
fn digits() -> Result<DecimalDType, AllocError> {
    match DecimalDType::try_new(38, 2) {
        Ok(digits) => Ok(digits),
        Err(_) => Err(AllocError),
    }
}

// A column of numbers without null.
fn column_of(numbers: PrimitiveBuffer) -> Result<Array, AllocError> {
    match PrimitiveArray::try_new(numbers, Validity::NonNullable) {
        Ok(array) => Ok(Array::Primitive(array)),
        Err(_) => Err(AllocError),
    }
}

/// A column of `u64`.
pub fn column_of_u64(alloc: Global, values: &[u64]) -> Result<Array, AllocError> {
    match Buffer::from_slice(alloc, values) {
        Ok(numbers) => column_of(PrimitiveBuffer::U64(numbers)),
        Err(e) => Err(e),
    }
}

// A column of `i64`.
fn column_of_i64(alloc: Global, values: &[i64]) -> Result<Array, AllocError> {
    match Buffer::from_slice(alloc, values) {
        Ok(numbers) => column_of(PrimitiveBuffer::I64(numbers)),
        Err(e) => Err(e),
    }
}

/// The decimals in parts. Parts that are none of decimals are told as want of memory.
pub fn decimals(alloc: Global, lent: Lent<'_>) -> Result<DecimalByteParts, AllocError> {
    match column_of_i64(alloc, lent.msp) {
        Ok(msp) => beside(alloc, msp, lent.lower),
        Err(e) => Err(e),
    }
}

// The decimals of a most significant part and lower ones.
fn beside(alloc: Global, msp: Array, lower: &[u64]) -> Result<DecimalByteParts, AllocError> {
    match lower_parts(alloc, lower) {
        Ok(lower) => of_parts(msp, lower),
        Err(e) => Err(e),
    }
}

// The decimals of parts.
fn of_parts(msp: Array, lower: Vec<Array>) -> Result<DecimalByteParts, AllocError> {
    let digits = digits()?;
    match DecimalByteParts::try_new_with_lower_parts(msp, lower, digits) {
        Ok(decimals) => Ok(decimals),
        Err(_) => Err(AllocError),
    }
}

// The lower part as a list of one, or of none.
fn lower_parts(alloc: Global, lower: &[u64]) -> Result<Vec<Array>, AllocError> {
    let mut parts = Vec::with_capacity(alloc, 1)?;
    if !lower.is_empty() {
        parts.push(column_of_u64(alloc, lower)?)?;
    }
    Ok(parts)
}

/// The parts as columns.
pub struct Columns {
    /// The most significant part.
    pub msp: Array,
    /// The lower parts.
    pub lower: Vec<Array>,
}

impl Drop for Columns {
    fn drop(self) {
        let Columns {
            msp: _msp,
            lower: _lower,
        } = self;
    }
}

/// The parts as columns.
pub fn columns_of(alloc: Global, lent: Lent<'_>) -> Result<Columns, AllocError> {
    let msp = column_of_i64(alloc, lent.msp)?;
    match lower_parts(alloc, lent.lower) {
        Ok(lower) => Ok(Columns { msp, lower }),
        Err(e) => Err(e),
    }
}

/// The decimals of columns of parts.
pub fn assembled(alloc: Global, parts: &Columns) -> Result<DecimalArray, AllocError> {
    let digits = digits()?;
    match assemble_decimal(alloc, &parts.msp, parts.lower.as_slice(), digits) {
        Ok(decimals) => Ok(decimals),
        Err(_) => Err(AllocError),
    }
}

/// The decimals as a plain array.
pub fn plain(alloc: Global, lent: Lent<'_>) -> Result<DecimalArray, AllocError> {
    match columns_of(alloc, lent) {
        Ok(parts) => assembled(alloc, &parts),
        Err(e) => Err(e),
    }
}

/// The mask of words, as many bits as rows.
pub fn mask_of_words(alloc: Global, words: &[u64], len: usize) -> Result<Mask, AllocError>
    ensures { IfOk result (λ mask. length (mask_bits mask) ≡ len) }
{
    if words.len() < len.div_ceil(64) {
        return Err(AllocError);
    }
    let bits = BitBuffer::from_words(Buffer::from_slice(alloc, words)?, len);
    Ok(Mask::from_buffer(bits))
}

/// So many rows of a decimal of two parts.
pub fn equal_rows(msp: i64, lower: u64, len: usize) -> Result<Array, AllocError> {
    let number = ((msp as i128) << 64).wrapping_add(lower as i128);
    let dtype = DType::Decimal(digits()?, Nullability::NonNullable);
    match Scalar::try_new(dtype, Some(Value::Decimal(number))) {
        Ok(scalar) => Ok(Array::Constant(ConstantArray::new(scalar, len))),
        Err(_) => Err(AllocError),
    }
}
