// Rows chosen: by a comparison, by a pattern, by their places. Each call says in its contract what it asks of its columns;
// where the program does not know it of them, it tests it first.
use crate::problem::Problem;
use std::alloc::Global;
use vortex_array::{
    Array, BoolArray, CompareOperator, ConstantArray, DType, Nullability, PType, RecordBatch,
    Scalar, Text, Value,
};
use vortex_buffer::Mask;

// So many equal rows of a number.
fn equal_numbers(number: i128, len: usize) -> Result<Array, Problem> {
    let dtype = DType::Primitive(PType::I32, Nullability::NonNullable);
    match Scalar::try_new(dtype, Some(Value::Int(number))) {
        Ok(scalar) => Ok(Array::Constant(ConstantArray::new(scalar, len))),
        Err(_) => Err(Problem::DoesNotFit),
    }
}

// So many equal rows of a text.
fn equal_texts(alloc: Global, text: &str, len: usize) -> Result<Array, Problem> {
    let dtype = DType::Utf8(Nullability::NonNullable);
    match Scalar::try_new(dtype, Some(Value::Utf8(Text::from_str(alloc, text)?))) {
        Ok(scalar) => Ok(Array::Constant(ConstantArray::new(scalar, len))),
        Err(_) => Err(Problem::DoesNotFit),
    }
}

// Which rows are below a number: true, false, or null.
fn below(alloc: Global, degrees: &Array, number: i128) -> Result<BoolArray, Problem> {
    let bound = equal_numbers(number, degrees.len())?;
    if !degrees.dtype().same_apart_from_nullability(&bound.dtype())
        || degrees.len() != bound.len()
    {
        return Err(Problem::DoesNotFit);
    }
    Ok(degrees.compare(alloc, &bound, CompareOperator::Lt)?)
}

// The rows of each column that a mask keeps.
fn kept(alloc: Global, batch: &RecordBatch, mask: &Mask) -> Result<Vec<Array>, Problem> {
    let mut columns = Vec::new(alloc);
    for column in batch.columns() {
        columns.push(kept_rows(alloc, column, mask)?)?;
    }
    Ok(columns)
}

fn kept_rows(alloc: Global, column: &Array, mask: &Mask) -> Result<Array, Problem> {
    if mask.len() != column.len() {
        return Err(Problem::DoesNotFit);
    }
    Ok(column.filter(alloc, mask)?)
}

/// The rows whose second column is below a number. A null row is not.
pub(crate) fn colder(
    alloc: Global,
    nights: &RecordBatch,
    number: i128,
) -> Result<RecordBatch, Problem> {
    if nights.column_count() < 2 {
        return Err(Problem::DoesNotFit);
    }
    let mask = below(alloc, nights.column(1), number)?.true_mask(alloc)?;
    match RecordBatch::try_new(mask.true_count(), kept(alloc, nights, &mask)?) {
        Ok(batch) => Ok(batch),
        Err(_) => Err(Problem::DoesNotFit),
    }
}

/// The first rows of a batch.
pub(crate) fn first(
    alloc: Global,
    nights: &RecordBatch,
    count: usize,
) -> Result<RecordBatch, Problem> {
    if count > nights.rows() {
        return Err(Problem::DoesNotFit);
    }
    Ok(nights.head(alloc, count)?)
}

// The rows that are true.
fn rows_where(alloc: Global, column: &Array, answers: &BoolArray) -> Result<Array, Problem> {
    let mask = answers.true_mask(alloc)?;
    kept_rows(alloc, column, &mask)
}

/// The texts that match a pattern.
pub(crate) fn matching(alloc: Global, texts: &Array, pattern: &str) -> Result<Array, Problem> {
    let patterns = equal_texts(alloc, pattern, texts.len())?;
    if !matches!(texts.dtype(), DType::Utf8(_)) || !matches!(patterns.dtype(), DType::Utf8(_)) {
        return Err(Problem::DoesNotFit);
    }
    if texts.len() != patterns.len() {
        return Err(Problem::DoesNotFit);
    }
    rows_where(alloc, texts, &texts.like(alloc, &patterns)?)
}

/// The rows at places, null where a place is null.
pub(crate) fn taken(alloc: Global, column: &Array, places: &Array) -> Result<Array, Problem> {
    if !places.names_rows(column.len()) {
        return Err(Problem::DoesNotFit);
    }
    Ok(column.take(alloc, places)?)
}
