// Batches as cases write them: `0..2=1,2` has the rows 1 and 2 of the split 0..2, `1/0..2=1` stands in the second partition,
// `0..2:i32?=1` has another type, and `0..2#2` has two rows without columns. A space parts two batches.
use crate::cases::{cells_of, dtype_of};
use std::alloc::{AllocError, Global};
use std::ops::Range;
use std::test::Fail;
use vortex_array::DType;
use vortex_judge::{PlainBatch, PlainColumn, PlainRow, Question, answers};
use vortex_scan_types::WorkScope;

fn rows_of(written: &str) -> Result<Range<u64>, Fail> {
    let (start, end) = written.split_once("..").ok_or("a split without an end")?;
    Ok(start.parse::<u64>()?..end.parse::<u64>()?)
}

/// The rows `0..2` of the first partition, or `1/0..2` of the second.
pub fn scope_of(written: &str) -> Result<WorkScope, Fail> {
    let (file, rows) = written.split_once('/').unwrap_or(("0", written));
    Ok(WorkScope {
        file_ordinal: file.parse::<u64>()?,
        rows: rows_of(rows)?,
    })
}

/// The cells as the one column.
pub fn one_column(
    alloc: Global,
    dtype: DType,
    cells: PlainRow,
) -> Result<Vec<PlainColumn>, AllocError> {
    let mut columns = Vec::new(alloc);
    columns.push(PlainColumn::new(dtype, cells))?;
    Ok(columns)
}

fn batch_with(
    alloc: Global,
    scope: WorkScope,
    dtype: DType,
    cells: PlainRow,
) -> Result<PlainBatch, AllocError> {
    let rows = cells.as_slice().len() as u64;
    let columns = one_column(alloc, dtype, cells)?;
    Ok(PlainBatch::new(scope, rows, columns))
}

fn batch_at(
    alloc: Global,
    scope: WorkScope,
    dtype: &str,
    numbers: &str,
) -> Result<PlainBatch, Fail> {
    let dtype = dtype_of(dtype)?;
    let cells = cells_of(alloc, numbers)?;
    Ok(batch_with(alloc, scope, dtype, cells)?)
}

fn batch_of_numbers(alloc: Global, written: &str) -> Result<PlainBatch, Fail> {
    let (origin, numbers) = written.split_once('=').ok_or("a batch without rows")?;
    let (scope, dtype) = origin.split_once(':').unwrap_or((origin, "u64"));
    batch_at(alloc, scope_of(scope)?, dtype, numbers)
}

fn batch_of(alloc: Global, written: &str) -> Result<PlainBatch, Fail> {
    match written.split_once('#') {
        Some((scope, rows)) => {
            let rows = rows.parse::<u64>()?;
            Ok(PlainBatch::new(scope_of(scope)?, rows, Vec::new(alloc)))
        }
        None => batch_of_numbers(alloc, written),
    }
}

fn batches_of(alloc: Global, written: &str) -> Result<Vec<PlainBatch>, Fail> {
    let mut batches = Vec::new(alloc);
    for piece in written.split(' ') {
        if !piece.is_empty() {
            batches.push(batch_of(alloc, piece)?)?;
        }
    }
    Ok(batches)
}

/// Whether the batches answer the question.
pub fn are_answer_to(alloc: Global, question: &Question, written: &str) -> Result<bool, Fail> {
    let batches = batches_of(alloc, written)?;
    Ok(answers(alloc, question, &batches)?)
}
