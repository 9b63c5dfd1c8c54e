// Columns from what the caller lends.
ghost use Rattle.std.specs.Prelude.{◌≡◌, IfOk, length};
ghost use Rattle.vortex_buffer.specs.Mask.{mask_bits};

use std::alloc::{AllocError, Global};
use vortex_array::{
    Array, ConstantArray, DType, Nullability, PType, PrimitiveArray, PrimitiveBuffer, Scalar, Text,
    Validity, Value, VarBinViewBuilder,
};
use vortex_buffer::{BitBuffer, Buffer, Mask};

// The bits of words, as many as rows.
fn bits_of_words(alloc: Global, words: &[u64], len: usize) -> Result<BitBuffer, AllocError>
    ensures { IfOk result (λ bits. length bits ≡ len) }
{
    if words.len() < len.div_ceil(64) {
        return Err(AllocError);
    }
    Ok(BitBuffer::from_words(Buffer::from_slice(alloc, words)?, len))
}

/// The mask of words, as many bits as rows.
pub fn mask_of_words(alloc: Global, words: &[u64], len: usize) -> Result<Mask, AllocError>
    ensures { IfOk result (λ mask. length (mask_bits mask) ≡ len) }
{
    Ok(Mask::from_buffer(bits_of_words(alloc, words, len)?))
}

// Which rows are not null: those whose bit is set in the words, or all where there is no word.
fn validity_of_words(alloc: Global, words: &[u64], len: usize) -> Result<Validity, AllocError> {
    if words.is_empty() {
        return Ok(Validity::NonNullable);
    }
    Ok(Validity::Bits(bits_of_words(alloc, words, len)?))
}

// A column of numbers, of which those are not null that the validity says.
fn column_of(numbers: PrimitiveBuffer, validity: Validity) -> Result<Array, AllocError> {
    match PrimitiveArray::try_new(numbers, validity) {
        Ok(array) => Ok(Array::Primitive(array)),
        Err(_) => Err(AllocError),
    }
}

/// A column of `u64`, null where the words have no bit.
pub fn column_of_u64(alloc: Global, values: &[u64], words: &[u64]) -> Result<Array, AllocError> {
    let validity = validity_of_words(alloc, words, values.len())?;
    match Buffer::from_slice(alloc, values) {
        Ok(numbers) => column_of(PrimitiveBuffer::U64(numbers), validity),
        Err(e) => Err(e),
    }
}

/// A column of `i32`, null where the words have no bit.
pub fn column_of_i32(alloc: Global, values: &[i32], words: &[u64]) -> Result<Array, AllocError> {
    let validity = validity_of_words(alloc, words, values.len())?;
    match Buffer::from_slice(alloc, values) {
        Ok(numbers) => column_of(PrimitiveBuffer::I32(numbers), validity),
        Err(e) => Err(e),
    }
}

/// So many rows of one number of `u64`.
pub fn equal_numbers(number: u64, len: usize) -> Result<Array, AllocError> {
    let dtype = DType::Primitive(PType::U64, Nullability::NonNullable);
    equal_rows(dtype, Value::Int(number as i128), len)
}

/// So many equal rows of a type.
pub fn equal_rows(dtype: DType, value: Value, len: usize) -> Result<Array, AllocError> {
    match Scalar::try_new(dtype, Some(value)) {
        Ok(scalar) => Ok(Array::Constant(ConstantArray::new(scalar, len))),
        Err(_) => Err(AllocError),
    }
}

/// So many rows of one text.
pub fn equal_texts(alloc: Global, text: &str, len: usize) -> Result<Array, AllocError> {
    let value = Value::Utf8(Text::from_str(alloc, text)?);
    equal_rows(DType::Utf8(Nullability::NonNullable), value, len)
}

/// A column of these texts, one after another in the bytes, null where the words have no bit.
pub fn column_of_texts(
    alloc: Global,
    bytes: &[u8],
    ends: &[usize],
    words: &[u64],
) -> Result<Array, AllocError> {
    let nullability = if words.is_empty() {
        Nullability::NonNullable
    } else {
        Nullability::Nullable
    };
    let mut builder = VarBinViewBuilder::new(alloc, DType::Utf8(nullability));
    match push_texts(&mut builder, bytes, ends, words) {
        Ok(()) => Ok(Array::VarBinView(builder.finish())),
        Err(e) => Err(e),
    }
}

// Pushes each of the texts.
fn push_texts(
    builder: &mut VarBinViewBuilder,
    bytes: &[u8],
    ends: &[usize],
    words: &[u64],
) -> Result<(), AllocError> {
    let mut start = 0;
    for (i, end) in ends.iter().enumerate() {
        let text = if is_set(words, i) {
            bytes.get(start..*end)
        } else {
            None
        };
        if builder.push(text).is_err() {
            return Err(AllocError);
        }
        start = *end;
    }
    Ok(())
}

// Whether a bit is set in words. Behind the last word each counts as set.
fn is_set(words: &[u64], i: usize) -> bool {
    match words.get(i / 64) {
        Some(word) => (*word >> (i % 64)) & 1 == 1,
        None => true,
    }
}
