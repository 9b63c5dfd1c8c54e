// Arrays and batches, read as the columns and the rows that they stand for.
ghost use Rattle.std.specs.Prelude.{◌≡◌, ◌<◌, IfOk, None, length, map, slice_index_or};
ghost use Rattle.vortex_array.specs.ColumnOf.{column_of};
ghost use Rattle.vortex_io.specs.Memory.{columns_of};
ghost use Rattle.vortex_table.specs.ChunkOf.{chunk_column, content_of};
ghost use Rattle.vortex_table.specs.Given.{given};

use crate::batch::{PlainBatch, PlainColumn, PlainContent, PlainSplit};
use crate::rows::PlainRow;
use std::alloc::{AllocError, Global};
use vortex_array::{Array, RecordBatch, Value};
use vortex_scan_types::{Batch, WorkScope};
use vortex_table::Chunk;

// The row at a place.
fn read_row(alloc: Global, array: &Array, i: usize) -> Result<Option<Value>, AllocError>
    requires { i < length (column_of array.now).rows }
    ensures { IfOk result (λ row. row ≡ slice_index_or (column_of array.now).rows i None) }
{
    match array.value_at(i) {
        Some(value) => Ok(Some(value.to_value(alloc)?)),
        None => Ok(None),
    }
}

/// The column that an array stands for.
pub fn read_column(alloc: Global, array: &Array) -> Result<PlainColumn, AllocError>
    ensures { IfOk result (λ c. c ≡ column_of array.now) }
{
    let mut rows = Vec::new(alloc);
    for i in 0..array.len() {
        rows.push(read_row(alloc, array, i)?)?;
    }
    Ok(PlainColumn::new(array.dtype(), PlainRow::new(rows)))
}

// The column that a chunk stands for.
fn read_chunk(alloc: Global, chunk: &Chunk) -> Result<PlainColumn, AllocError>
    ensures { IfOk result (λ c. c ≡ chunk_column chunk.now) }
{
    let Chunk::Plain(array) = chunk;
    read_column(alloc, array)
}

// The chunks of a split, seen as columns.
fn read_split(alloc: Global, chunks: &[Chunk]) -> Result<PlainSplit, AllocError>
    ensures { IfOk result (λ s. s ≡ map chunk_column chunks.now) }
{
    let mut columns = Vec::new(alloc);
    for chunk in chunks {
        columns.push(read_chunk(alloc, chunk)?)?;
    }
    Ok(PlainSplit::new(columns))
}

/// The content of chunks by split and by column.
pub fn read_content(alloc: Global, chunks: &[Vec<Chunk>]) -> Result<PlainContent, AllocError>
    ensures { IfOk result (λ c. c ≡ content_of (map columns_of chunks.now)) }
{
    let mut splits = Vec::new(alloc);
    for columns in chunks {
        splits.push(read_split(alloc, columns.as_slice())?)?;
    }
    Ok(PlainContent::new(splits))
}

// The columns of a batch of rows.
fn read_columns(alloc: Global, array: &RecordBatch) -> Result<Vec<PlainColumn>, AllocError>
    ensures { IfOk result (λ v. v.items ≡ map column_of array.now.columns) }
{
    let mut columns = Vec::new(alloc);
    for i in 0..array.column_count() {
        columns.push(read_column(alloc, array.column(i))?)?;
    }
    Ok(columns)
}

/// A scan's batch as its scope, its number of rows and its columns.
pub fn read_batch(alloc: Global, batch: &Batch) -> Result<PlainBatch, AllocError>
    ensures { IfOk result (λ b. b ≡ given batch.now) }
{
    let columns = read_columns(alloc, &batch.array)?;
    let scope = WorkScope {
        file_ordinal: batch.scope.file_ordinal,
        rows: batch.scope.rows.start..batch.scope.rows.end,
    };
    Ok(PlainBatch::new(scope, batch.array.rows() as u64, columns))
}
