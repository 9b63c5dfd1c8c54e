// Columns built from values.
use crate::problem::Problem;
use std::alloc::Global;
use vortex_array::{
    Array, DType, Nullability, PrimitiveArray, PrimitiveBuffer, RecordBatch, Validity,
    VarBinViewBuilder,
};
use vortex_buffer::{BitBuffer, Buffer};

/// Texts: a builder takes them row by row, and refuses what is no UTF-8.
pub(crate) fn towns(alloc: Global) -> Result<Array, Problem> {
    let mut builder = VarBinViewBuilder::new(alloc, DType::Utf8(Nullability::NonNullable));
    for town in ["Bergen", "Oslo", "Bodo", "Hamar"] {
        if builder.push(Some(town.as_bytes())).is_err() {
            return Err(Problem::OutOfMemory);
        }
    }
    Ok(Array::VarBinView(builder.finish()))
}

/// Whole numbers in one of eight widths, in a buffer that the column keeps, and a bit for each row that is not null.
pub(crate) fn degrees(alloc: Global) -> Result<Array, Problem> {
    let values = PrimitiveBuffer::I32(Buffer::from_slice(alloc, &[4, -7, 0, 11])?);
    // The third row is null: what its place holds does not count.
    let valid = BitBuffer::from_words(Buffer::from_slice(alloc, &[0b1011])?, 4);
    match PrimitiveArray::try_new(values, Validity::Bits(valid)) {
        Ok(array) => Ok(Array::Primitive(array)),
        Err(_) => Err(Problem::DoesNotFit),
    }
}

/// Places of rows, which may be null: `take` takes them of any width without a sign.
pub(crate) fn places(alloc: Global) -> Result<Array, Problem> {
    let values = PrimitiveBuffer::U8(Buffer::from_slice(alloc, &[3, 0, 3])?);
    let valid = BitBuffer::from_words(Buffer::from_slice(alloc, &[0b101])?, 3);
    match PrimitiveArray::try_new(values, Validity::Bits(valid)) {
        Ok(array) => Ok(Array::Primitive(array)),
        Err(_) => Err(Problem::DoesNotFit),
    }
}

/// A batch: columns of one length.
pub(crate) fn nights(alloc: Global) -> Result<RecordBatch, Problem> {
    let mut columns = Vec::new(alloc);
    columns.push(towns(alloc)?)?;
    columns.push(degrees(alloc)?)?;
    match RecordBatch::try_new(4, columns) {
        Ok(batch) => Ok(batch),
        Err(_) => Err(Problem::DoesNotFit),
    }
}
