// Dictionaries and what they are asked with, from what the caller lends.
ghost use Rattle.std.specs.Prelude.{◌≡◌, IfOk, length};
ghost use Rattle.vortex_buffer.specs.Mask.{mask_bits};

use std::alloc::{AllocError, Global};
use vortex_array::{
    Array, ConstantArray, DType, Nullability, PType, PrimitiveArray, PrimitiveBuffer, Scalar, Text,
    Validity, Value, VarBinViewBuilder,
};
use vortex_buffer::{BitBuffer, Buffer, Mask};
use vortex_dict::DictArray;

/// What a dictionary is built of.
#[derive(Clone, Copy)]
pub struct Lent<'a> {
    /// Codes of 8 bits, or none where those of 32 bits count.
    pub narrow: &'a [u8],
    /// Codes of 32 bits.
    pub wide: &'a [u32],
    /// Values, where there is no text.
    pub numbers: &'a [u64],
    /// Texts, one after another.
    pub bytes: &'a [u8],
    /// Where each text ends.
    pub ends: &'a [usize],
}

impl Lent<'_> {
    /// How many codes there are.
    pub fn rows(&self) -> usize {
        if self.narrow.is_empty() {
            self.wide.len()
        } else {
            self.narrow.len()
        }
    }

    // Whether the values are texts.
    fn has_texts(&self) -> bool {
        !self.ends.is_empty()
    }
}

// A column of numbers.
fn column_of(numbers: PrimitiveBuffer, validity: Validity) -> Result<Array, AllocError> {
    match PrimitiveArray::try_new(numbers, validity) {
        Ok(array) => Ok(Array::Primitive(array)),
        Err(_) => Err(AllocError),
    }
}

/// A column of `u64`.
pub fn column_of_u64(alloc: Global, values: &[u64]) -> Result<Array, AllocError> {
    match Buffer::from_slice(alloc, values) {
        Ok(numbers) => column_of(PrimitiveBuffer::U64(numbers), Validity::NonNullable),
        Err(e) => Err(e),
    }
}

// The codes.
fn codes_of(alloc: Global, lent: Lent<'_>, validity: Validity) -> Result<Array, AllocError> {
    if lent.narrow.is_empty() {
        match Buffer::from_slice(alloc, lent.wide) {
            Ok(numbers) => column_of(PrimitiveBuffer::U32(numbers), validity),
            Err(e) => Err(e),
        }
    } else {
        match Buffer::from_slice(alloc, lent.narrow) {
            Ok(numbers) => column_of(PrimitiveBuffer::U8(numbers), validity),
            Err(e) => Err(e),
        }
    }
}

// The values: texts where there are some, else numbers.
fn values_of(alloc: Global, lent: Lent<'_>) -> Result<Array, AllocError> {
    if lent.has_texts() {
        column_of_texts(alloc, lent.bytes, lent.ends)
    } else {
        column_of_u64(alloc, lent.numbers)
    }
}

// A column of these texts.
fn column_of_texts(alloc: Global, bytes: &[u8], ends: &[usize]) -> Result<Array, AllocError> {
    let mut builder = VarBinViewBuilder::new(alloc, DType::Utf8(Nullability::NonNullable));
    match push_texts(&mut builder, bytes, ends) {
        Ok(()) => Ok(Array::VarBinView(builder.finish())),
        Err(e) => Err(e),
    }
}

// Pushes each of the texts.
fn push_texts(
    builder: &mut VarBinViewBuilder,
    bytes: &[u8],
    ends: &[usize],
) -> Result<(), AllocError> {
    let mut start = 0;
    for end in ends.iter() {
        if builder.push(bytes.get(start..*end)).is_err() {
            return Err(AllocError);
        }
        start = *end;
    }
    Ok(())
}

/// The dictionary. A code without a value is told as want of memory.
pub fn dictionary(alloc: Global, lent: Lent<'_>) -> Result<DictArray, AllocError> {
    dictionary_under(alloc, lent, Validity::NonNullable)
}

/// The dictionary, where the codes are null whose bit is not set.
pub fn dictionary_with_nulls(
    alloc: Global,
    lent: Lent<'_>,
    valid: &[u64],
) -> Result<DictArray, AllocError> {
    match bits_of_words(alloc, valid, lent.rows()) {
        Ok(bits) => dictionary_under(alloc, lent, Validity::Bits(bits)),
        Err(e) => Err(e),
    }
}

// The dictionary of codes under a validity.
fn dictionary_under(
    alloc: Global,
    lent: Lent<'_>,
    validity: Validity,
) -> Result<DictArray, AllocError> {
    match codes_of(alloc, lent, validity) {
        Ok(codes) => with_codes(alloc, lent, codes),
        Err(e) => Err(e),
    }
}

// The dictionary of these codes.
fn with_codes(alloc: Global, lent: Lent<'_>, codes: Array) -> Result<DictArray, AllocError> {
    let values = values_of(alloc, lent)?;
    match DictArray::try_new(codes, values) {
        Ok(dict) => Ok(dict),
        Err(_) => Err(AllocError),
    }
}

// So many bits of words.
fn bits_of_words(alloc: Global, words: &[u64], len: usize) -> Result<BitBuffer, AllocError>
    ensures { IfOk result (λ bits. length bits ≡ len) }
{
    if words.len() < len.div_ceil(64) {
        return Err(AllocError);
    }
    Ok(BitBuffer::from_words(Buffer::from_slice(alloc, words)?, len))
}

/// The mask of words, as many bits as codes.
pub fn mask_of_words(alloc: Global, words: &[u64], len: usize) -> Result<Mask, AllocError>
    ensures { IfOk result (λ mask. length (mask_bits mask) ≡ len) }
{
    let bits = bits_of_words(alloc, words, len)?;
    Ok(Mask::from_buffer(bits))
}

/// A value of the dictionary's type: a text where it has texts, else a number.
pub fn value_like(
    alloc: Global,
    lent: Lent<'_>,
    number: u64,
    text: &[u8],
) -> Result<Scalar, AllocError> {
    if lent.has_texts() {
        text_scalar(alloc, text)
    } else {
        let dtype = DType::Primitive(PType::U64, Nullability::NonNullable);
        scalar_of(dtype, Value::Int(number as i128))
    }
}

// A value of a type.
fn scalar_of(dtype: DType, value: Value) -> Result<Scalar, AllocError> {
    match Scalar::try_new(dtype, Some(value)) {
        Ok(scalar) => Ok(scalar),
        Err(_) => Err(AllocError),
    }
}

/// A text of these bytes.
pub fn text_scalar(alloc: Global, bytes: &[u8]) -> Result<Scalar, AllocError> {
    match std::str::from_utf8(bytes) {
        Ok(text) => {
            let value = Value::Utf8(Text::from_str(alloc, text)?);
            scalar_of(DType::Utf8(Nullability::NonNullable), value)
        }
        Err(_) => Err(AllocError),
    }
}

/// The type that a dictionary is cast to: texts with nulls where it has texts, else `i64`.
pub fn other_type(lent: Lent<'_>) -> DType {
    if lent.has_texts() {
        DType::Utf8(Nullability::Nullable)
    } else {
        DType::Primitive(PType::I64, Nullability::NonNullable)
    }
}

/// So many equal rows.
pub fn equal_rows(scalar: Scalar, len: usize) -> Array {
    Array::Constant(ConstantArray::new(scalar, len))
}
