// Decimals split in parts.
ghost use Rattle.std.specs.Prelude.{◌≡◌, ◌==◌, All, IfOk, IsTrue, IsFalse, get_or, is_some, length, map, option_to_list};
ghost use Rattle.vortex_buffer.specs.Mask.{mask_bits};
ghost use Rattle.vortex_array_kinds.specs.Kinds.{decimal_column, numbers_of, nullability_of, ptype_of, unscaled_of};
ghost use Rattle.vortex_array_kinds.specs.declared.decimals.DecimalBuffer.TheVariants as unscaled;
ghost use Rattle.vortex_decimal_byte_parts.specs.Columns.{parts_column};
ghost use Rattle.vortex_decimal_byte_parts.specs.Number.{value as number_of_parts};
ghost use Rattle.vortex_decimal_byte_parts.specs.Split.{IsSplit, SplitInto, SplitsTo, bits_kept, empty_part, empty_row, has_value, msp_width};

use crate::parts::DecimalByteParts;
use std::alloc::{AllocError, Global};
use vortex_array::{
    Array, ConstantArray, DType, DecimalArray, DecimalBuffer, Nullability, PType, PrimitiveArray,
    PrimitiveBuffer, Scalar, Validity, Value,
};
use vortex_buffer::{BitBuffer, Buffer, Mask};

/// Decimals split in parts, whose lower parts are one or none.
pub struct DecimalParts {
    /// The most significant part, which says which rows are null.
    pub msp: Array,
    /// The lower part, if there is one.
    pub lower_parts: Vec<Array>,
}

impl Drop for DecimalParts {
    fn drop(self) {
        let DecimalParts {
            msp: _msp,
            lower_parts: _lower_parts,
        } = self;
    }
}

impl DecimalParts {
    // The parts themselves.
    fn into_parts(self) -> (Array, Vec<Array>)
        ensures msp { result.0 ≡ self.msp }
        ensures lower { result.1 ≡ self.lower_parts }
    {
        let DecimalParts { msp, lower_parts } = self;
        (msp, lower_parts)
    }
}

/// The parts of a number: it is the first times 2^64 and the second.
#[inline(always)]
pub fn i128_to_parts(value: i128) -> (i64, [u64; 1])
    ensures { number_of_parts result.0 (get_or result.1 0 0) ≡ value }
{
    let high = (value >> 64) as i64;
    let low = value.rem_euclid(18446744073709551616) as u64;
    (high, [low])
}

/// Values split in parts where their bit is set; elsewhere both parts are 0.
pub fn split_wide<T: Copy, F: Fn(T) -> (i64, [u64; 1])>(
    alloc: Global,
    values: &[T],
    validity: &Mask,
    to_parts: F,
) -> Result<(Buffer<i64>, Buffer<u64>), AllocError>
    requires callable { All (F.pre to_parts) values.now }
    requires same_length { length values.now ≡ length (mask_bits validity.now) }
    ensures { IfOk result (λ made. SplitInto (F.post to_parts) values.now (mask_bits validity.now) made.0 made.1) }
{
    let bits = bits_of_mask(alloc, validity)?;
    let mut msp = Vec::with_capacity(alloc, values.len())?;
    let mut lower = Vec::with_capacity(alloc, values.len())?;
    for i in 0..values.len() {
        let (high, low) = parts_if(bits.value(i), values[i], &to_parts);
        msp.push(high)?;
        lower.push(low)?;
    }
    Ok((Buffer::from_vec(msp), Buffer::from_vec(lower)))
}

// The parts of a value where its bit is set, else 0 and 0.
#[inline(always)]
fn parts_if<T: Copy, F: Fn(T) -> (i64, [u64; 1])>(set: bool, value: T, to_parts: &F) -> (i64, u64)
    requires { F.pre to_parts.now value }
    ensures { SplitsTo (F.post to_parts.now) (value, set) result }
{
    if set {
        let (high, words) = to_parts(value);
        (high, words[0])
    } else {
        (0, 0)
    }
}

// The bits of a mask.
fn bits_of_mask(alloc: Global, mask: &Mask) -> Result<BitBuffer, AllocError>
    ensures { IfOk result (λ bits. bits ≡ mask_bits mask.now) }
{
    match mask {
        Mask::AllTrue(len) => Validity::AllValid.to_bits(alloc, *len),
        Mask::AllFalse(len) => BitBuffer::new_unset(alloc, *len),
        Mask::Values(bits) => bits.try_clone(alloc),
    }
}

/// Decimals split in parts. Numbers of up to 64 bits are a most significant part of their width and no lower part. Those of
/// 128 bits are an `i64` most significant part and one `u64` lower part, both 0 where the row is null. Where no row is a
/// value the parts are constant arrays of these types: null, or 0 in a type without nulls.
pub fn split_decimal(alloc: Global, decimal: &DecimalArray) -> Result<DecimalParts, AllocError>
    ensures { IfOk result (λ parts. IsSplit decimal.now parts.msp parts.lower_parts.items) }
{
    let mask = decimal.validity_mask(alloc)?;
    if mask.all_false() {
        split_empty(alloc, decimal)
    } else {
        split_some(alloc, decimal, &mask)
    }
}

// Decimals of which some are values.
fn split_some(
    alloc: Global,
    decimal: &DecimalArray,
    mask: &Mask,
) -> Result<DecimalParts, AllocError>
    requires mask { mask_bits mask.now ≡ map is_some (decimal_column decimal.now).rows }
    requires some { IsTrue (has_value (decimal_column decimal.now).rows) }
    ensures { IfOk result (λ parts. IsSplit decimal.now parts.msp parts.lower_parts.items) }
{
    match decimal.values() {
        DecimalBuffer::I8(items) => {
            let values = items.try_clone(alloc)?;
            from_narrow(alloc, decimal, PrimitiveBuffer::I8(values))
        }
        DecimalBuffer::I16(items) => {
            let values = items.try_clone(alloc)?;
            from_narrow(alloc, decimal, PrimitiveBuffer::I16(values))
        }
        DecimalBuffer::I32(items) => {
            let values = items.try_clone(alloc)?;
            from_narrow(alloc, decimal, PrimitiveBuffer::I32(values))
        }
        DecimalBuffer::I64(items) => {
            let values = items.try_clone(alloc)?;
            from_narrow(alloc, decimal, PrimitiveBuffer::I64(values))
        }
        DecimalBuffer::I128(items) => from_wide(alloc, decimal, items, mask),
    }
}

// Numbers of up to 64 bits as a most significant part.
fn from_narrow(
    alloc: Global,
    decimal: &DecimalArray,
    values: PrimitiveBuffer,
) -> Result<DecimalParts, AllocError>
    requires numbers { numbers_of values ≡ unscaled_of decimal.now.values.numbers }
    requires width { ptype_of values ≡ msp_width decimal.now.values.numbers }
    requires narrow { IsFalse (bits_kept decimal.now.values.numbers == 128) }
    requires some { IsTrue (has_value (decimal_column decimal.now).rows) }
    ensures { IfOk result (λ parts. IsSplit decimal.now parts.msp parts.lower_parts.items) }
{
    let validity = decimal.validity().try_clone(alloc)?;
    let msp = Array::Primitive(PrimitiveArray::new(values, validity));
    Ok(DecimalParts {
        msp,
        lower_parts: Vec::new(alloc),
    })
}

// Numbers of 128 bits as two parts.
fn from_wide(
    alloc: Global,
    decimal: &DecimalArray,
    items: &Buffer<i128>,
    mask: &Mask,
) -> Result<DecimalParts, AllocError>
    requires items { decimal.now.values.numbers ≡ unscaled.I128 items.now }
    requires mask { mask_bits mask.now ≡ map is_some (decimal_column decimal.now).rows }
    requires some { IsTrue (has_value (decimal_column decimal.now).rows) }
    ensures { IfOk result (λ parts. IsSplit decimal.now parts.msp parts.lower_parts.items) }
{
    let validity = decimal.validity().try_clone(alloc)?;
    let (high, low) = split_wide(alloc, items.as_slice(), mask, i128_to_parts)?;
    let msp = PrimitiveArray::new(PrimitiveBuffer::I64(high), validity);
    let lower = PrimitiveArray::new(PrimitiveBuffer::U64(low), Validity::NonNullable);
    let mut lower_parts = Vec::with_capacity(alloc, 1)?;
    lower_parts.push(Array::Primitive(lower))?;
    Ok(DecimalParts {
        msp: Array::Primitive(msp),
        lower_parts,
    })
}

// Decimals of which none is a value.
fn split_empty(alloc: Global, decimal: &DecimalArray) -> Result<DecimalParts, AllocError>
    requires none { IsFalse (has_value (decimal_column decimal.now).rows) }
    ensures { IfOk result (λ parts. IsSplit decimal.now parts.msp parts.lower_parts.items) }
{
    let width = width_of(decimal.values());
    let msp = equal_part(width, decimal.validity().nullability(), decimal.len());
    let mut lower_parts = Vec::new(alloc);
    if is_wide(decimal.values()) {
        lower_parts.push(equal_part(PType::U64, Nullability::NonNullable, decimal.len()))?;
    }
    Ok(DecimalParts { msp, lower_parts })
}

// The width of the most significant part of numbers.
fn width_of(numbers: &DecimalBuffer) -> PType
    ensures { result ≡ msp_width numbers.now }
{
    match numbers {
        DecimalBuffer::I8(_) => PType::I8,
        DecimalBuffer::I16(_) => PType::I16,
        DecimalBuffer::I32(_) => PType::I32,
        DecimalBuffer::I64(_) => PType::I64,
        DecimalBuffer::I128(_) => PType::I64,
    }
}

// Whether the numbers have 128 bits.
fn is_wide(numbers: &DecimalBuffer) -> bool
    ensures { result ≡ (bits_kept numbers.now == 128) }
{
    match numbers {
        DecimalBuffer::I128(_) => true,
        _ => false,
    }
}

// So many rows of null, or of 0 in a type without nulls.
fn equal_part(width: PType, nullability: Nullability, len: usize) -> Array
    ensures { result ≡ empty_part width nullability len }
{
    match Scalar::try_new(
        DType::Primitive(width, nullability),
        empty_value(nullability),
    ) {
        Ok(scalar) => Array::Constant(ConstantArray::new(scalar, len)),
        Err(_) => unreachable!(),
    }
}

// Null, or 0 where the type has no nulls.
fn empty_value(nullability: Nullability) -> Option<Value>
    ensures { result ≡ empty_row nullability }
{
    match nullability {
        Nullability::Nullable => None,
        Nullability::NonNullable => Some(Value::Int(0)),
    }
}

impl DecimalByteParts {
    /// The same column in the parts of `split_decimal`.
    pub fn encode(alloc: Global, decimal: &DecimalArray) -> Result<DecimalByteParts, AllocError>
        ensures column { IfOk result (λ p. parts_column p ≡ decimal_column decimal.now) }
        ensures parts { IfOk result (λ p. IsSplit decimal.now p.msp (option_to_list p.lower)) }
    {
        let parts = split_decimal(alloc, decimal)?;
        let (msp, lower_parts) = parts.into_parts();
        match DecimalByteParts::try_new_with_lower_parts(
            msp,
            lower_parts,
            decimal.decimal_dtype(),
        ) {
            Ok(parts) => Ok(parts),
            Err(_) => unreachable!(),
        }
    }
}
