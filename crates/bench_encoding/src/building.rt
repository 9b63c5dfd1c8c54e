// Columns of what the caller lends.
use std::alloc::{AllocError, Global};
use vortex_array::{
    Array, DType, Nullability, PrimitiveArray, PrimitiveBuffer, Validity, VarBinViewBuilder,
};
use vortex_buffer::Buffer;

/// A column of `u64` without null.
pub fn column_of_u64(alloc: Global, values: &[u64]) -> Result<Array, AllocError> {
    let numbers = PrimitiveBuffer::U64(Buffer::from_slice(alloc, values)?);
    match PrimitiveArray::try_new(numbers, Validity::NonNullable) {
        Ok(array) => Ok(Array::Primitive(array)),
        Err(_) => Err(AllocError),
    }
}

/// A column of texts without null: the bytes of all, one after another, and where each ends.
pub fn column_of_texts(alloc: Global, bytes: &[u8], ends: &[usize]) -> Result<Array, AllocError> {
    let mut builder = VarBinViewBuilder::new(alloc, DType::Utf8(Nullability::NonNullable));
    match push_texts(&mut builder, bytes, ends) {
        Ok(()) => Ok(Array::VarBinView(builder.finish())),
        Err(e) => Err(e),
    }
}

// Pushes each of the texts.
fn push_texts(
    builder: &mut VarBinViewBuilder,
    bytes: &[u8],
    ends: &[usize],
) -> Result<(), AllocError> {
    let mut start = 0;
    for end in ends.iter() {
        if builder.push(bytes.get(start..*end)).is_err() {
            return Err(AllocError);
        }
        start = *end;
    }
    Ok(())
}
