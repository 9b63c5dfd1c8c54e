// Decimals and answers that the tests share.
use std::alloc::Global;
use std::test::Fail;
use vortex_array::{
    Array, BoolArray, ConstantArray, DType, DecimalArray, DecimalBuffer, DecimalDType, Nullability,
    PrimitiveArray, PrimitiveBuffer, Scalar, Validity, Value, ValueRef,
};
use vortex_buffer::{BitBuffer, Buffer};
use vortex_compute::collect_bits;
use vortex_decimal_byte_parts::DecimalByteParts;

/// 2 to the power of 64.
pub(crate) const WORD: i128 = 18446744073709551616;

/// 2 to the power of 70.
pub(crate) const LARGE: i128 = 1180591620717411303424;

/// The numbers about the ends of the parts.
pub(crate) const CORNERS: [i128; 9] = [
    i128::MIN,
    -1,
    0,
    9223372036854775807,
    9223372036854775808,
    18446744073709551615,
    18446744073709551616,
    -9223372036854775808,
    i128::MAX,
];

/// Decimals of 38 digits, none behind the point.
pub(crate) fn digits() -> Result<DecimalDType, Fail> {
    Ok(DecimalDType::try_new(38, 0)?)
}

/// Bits, set where these are true.
pub(crate) fn bits(alloc: Global, set: &[bool]) -> Result<BitBuffer, Fail> {
    let bits = collect_bits(alloc, set, |bit: bool| bit)?;
    Ok(bits)
}

/// Decimals of 128 bits.
pub(crate) fn decimals(
    alloc: Global,
    numbers: &[i128],
    validity: Validity,
) -> Result<DecimalArray, Fail> {
    let values = DecimalBuffer::I128(Buffer::from_slice(alloc, numbers)?);
    let decimals = DecimalArray::try_new(values, digits()?, validity)?;
    Ok(decimals)
}

/// The same in parts.
pub(crate) fn wide(
    alloc: Global,
    numbers: &[i128],
    validity: Validity,
) -> Result<DecimalByteParts, Fail> {
    let decimals = decimals(alloc, numbers, validity)?;
    let parts = DecimalByteParts::encode(alloc, &decimals)?;
    Ok(parts)
}

/// Decimals of a most significant part of 32 bits alone.
pub(crate) fn narrow(
    alloc: Global,
    numbers: &[i32],
    validity: Validity,
) -> Result<DecimalByteParts, Fail> {
    let values = PrimitiveBuffer::I32(Buffer::from_slice(alloc, numbers)?);
    let msp = Array::Primitive(PrimitiveArray::try_new(values, validity)?);
    let parts = DecimalByteParts::try_new(msp, digits()?)?;
    Ok(parts)
}

/// So many rows of a decimal, or of null.
pub(crate) fn same(number: Option<i128>, len: usize) -> Result<Array, Fail> {
    let dtype = DType::Decimal(digits()?, Nullability::Nullable);
    let scalar = Scalar::try_new(dtype, number.map(Value::Decimal))?;
    Ok(Array::Constant(ConstantArray::new(scalar, len)))
}

/// Whether the decimals have these rows.
pub(crate) fn are_rows(parts: &DecimalByteParts, rows: &[Option<i128>]) -> bool {
    if parts.len() != rows.len() {
        return false;
    }
    for i in 0..rows.len() {
        if !is_row(&parts.scalar_at(i), rows[i]) {
            return false;
        }
    }
    true
}

/// Whether the row is this number, or null.
pub(crate) fn is_row(scalar: &Scalar, row: Option<i128>) -> bool {
    match (scalar.value_ref(), row) {
        (Some(ValueRef::Decimal(number)), Some(want)) => number == want,
        (None, None) => true,
        _ => false,
    }
}

/// Whether the answers are these.
pub(crate) fn are_answers(answers: &BoolArray, rows: &[Option<bool>]) -> bool {
    if answers.len() != rows.len() {
        return false;
    }
    for i in 0..rows.len() {
        let is_same = match (answers.value_at(i), rows[i]) {
            (Some(ValueRef::Bool(answer)), Some(want)) => answer == want,
            (None, None) => true,
            _ => false,
        };
        if !is_same {
            return false;
        }
    }
    true
}
