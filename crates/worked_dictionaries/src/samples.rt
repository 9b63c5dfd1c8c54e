// Columns of few rows, and whether a column has rows as they are written down.
use std::alloc::{AllocError, Global};
use std::test::Fail;
use vortex_array::{
    Array, BoolArray, ConstantArray, DType, Nullability, PType, PlainArray, PrimitiveBuffer,
    Scalar, StringKind, Text, Validity, Value, ValueRef, VarBinViewBuilder,
};
use vortex_buffer::{BitBuffer, Buffer};
use vortex_compute::collect_bits;
use vortex_dict::DictArray;

pub(crate) const NUMBER: DType = DType::Primitive(PType::I32, Nullability::NonNullable);

pub(crate) const TEXT: DType = DType::Utf8(Nullability::NonNullable);

// The validity of rows that are valid where the bit is set.
pub(crate) fn nulls(alloc: Global, valid: &[bool]) -> Result<Validity, AllocError> {
    let bits = collect_bits(alloc, valid, |bit: bool| bit)?;
    Ok(Validity::Bits(bits))
}

// Codes of the least width.
pub(crate) fn codes(alloc: Global, codes: &[u8], validity: Validity) -> Result<Array, Fail> {
    let numbers = PrimitiveBuffer::U8(Buffer::from_slice(alloc, codes)?);
    Ok(Array::Primitive(PlainArray::<PrimitiveBuffer>::try_new(numbers, validity)?))
}

// Numbers of 32 bits.
pub(crate) fn numbers(alloc: Global, numbers: &[i32], validity: Validity) -> Result<Array, Fail> {
    let numbers = PrimitiveBuffer::I32(Buffer::from_slice(alloc, numbers)?);
    Ok(Array::Primitive(PlainArray::<PrimitiveBuffer>::try_new(numbers, validity)?))
}

// Truth values.
pub(crate) fn truths(alloc: Global, truths: &[bool], validity: Validity) -> Result<Array, Fail> {
    let bits = collect_bits(alloc, truths, |bit: bool| bit)?;
    Ok(Array::Bool(PlainArray::<BitBuffer>::try_new(bits, validity)?))
}

// Texts.
pub(crate) fn texts(alloc: Global, texts: &[&str]) -> Result<Array, Fail> {
    let mut builder = VarBinViewBuilder::new(alloc, TEXT);
    for text in texts {
        builder.push(Some(text.as_bytes()))?;
    }
    Ok(Array::VarBinView(builder.finish()))
}

// So many equal rows of numbers of a width.
pub(crate) fn equal_numbers(width: PType, number: i128, len: usize) -> Result<Array, Fail> {
    let dtype = DType::Primitive(width, Nullability::NonNullable);
    let scalar = Scalar::try_new(dtype, Some(Value::Int(number)))?;
    Ok(Array::Constant(ConstantArray::new(scalar, len)))
}

// So many equal texts.
pub(crate) fn equal_texts(alloc: Global, text: &str, len: usize) -> Result<Array, Fail> {
    let value = Value::Utf8(Text::from_str(alloc, text)?);
    let scalar = Scalar::try_new(TEXT, Some(value))?;
    Ok(Array::Constant(ConstantArray::new(scalar, len)))
}

// Whether the rows of an array are these numbers or nulls.
pub(crate) fn are_numbers(array: &Array, rows: &[Option<i128>]) -> bool {
    if array.len() != rows.len() {
        return false;
    }
    for i in 0..rows.len() {
        if !is_number(array.value_at(i), rows[i]) {
            return false;
        }
    }
    true
}

fn is_number(value: Option<ValueRef<'_>>, row: Option<i128>) -> bool {
    match (value, row) {
        (None, None) => true,
        (Some(ValueRef::Int(number)), Some(wanted)) => number == wanted,
        _ => false,
    }
}

// Whether the rows of an array are these texts.
pub(crate) fn are_texts(array: &Array, rows: &[&str]) -> bool {
    if array.len() != rows.len() {
        return false;
    }
    for i in 0..rows.len() {
        if !is_text(array.value_at(i), rows[i]) {
            return false;
        }
    }
    true
}

pub(crate) fn is_text(value: Option<ValueRef<'_>>, row: &str) -> bool {
    match value {
        Some(ValueRef::Utf8(text)) => text == row,
        _ => false,
    }
}

// Whether the rows of an array are these truth values or nulls.
pub(crate) fn are_truths(array: &BoolArray, rows: &[Option<bool>]) -> bool {
    if array.len() != rows.len() {
        return false;
    }
    for i in 0..rows.len() {
        if !is_truth(array.value_at(i), rows[i]) {
            return false;
        }
    }
    true
}

fn is_truth(value: Option<ValueRef<'_>>, row: Option<bool>) -> bool {
    match (value, row) {
        (None, None) => true,
        (Some(ValueRef::Bool(truth)), Some(wanted)) => truth == wanted,
        _ => false,
    }
}

// Whether a dictionary decodes to these numbers or nulls, in a plain array of its type.
pub(crate) fn is_decoded(
    alloc: Global,
    dict: &DictArray,
    rows: &[Option<i128>],
) -> Result<bool, Fail> {
    let plain = dict.canonicalize(alloc)?;
    Ok(plain.dtype() == dict.dtype() && are_numbers(&plain, rows))
}

// Whether a dictionary decodes to these texts.
pub(crate) fn is_decoded_text(
    alloc: Global,
    dict: &DictArray,
    rows: &[&str],
) -> Result<bool, Fail> {
    let plain = dict.canonicalize(alloc)?;
    Ok(plain.dtype() == dict.dtype() && are_texts(&plain, rows))
}

// Whether a dictionary decodes to these truth values or nulls.
pub(crate) fn are_decoded_truths(
    alloc: Global,
    dict: &DictArray,
    rows: &[Option<bool>],
) -> Result<bool, Fail> {
    match &dict.canonicalize(alloc)? {
        Array::Bool(truths) => Ok(are_truths(truths, rows)),
        _ => Ok(false),
    }
}
