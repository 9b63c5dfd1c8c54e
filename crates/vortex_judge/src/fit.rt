// Whether the content of sources fits the description of a table.
ghost use Rattle.std.specs.Prelude.{◌≡◌, ◌↔◌, IsTrue, length};
ghost use Rattle.std.specs.List.{AllZip, list_all};
ghost use Rattle.vortex_array_types.specs.Row.{fits_column, fits_type};
ghost use Rattle.vortex_table_types.specs.Table.{FitsChunk, FitsPartition};

use crate::batch::{PlainColumn, PlainContent, PlainSplit};
use crate::same::same_dtype;
use vortex_array::{DType, Value};
use vortex_table::{ChunkDesc, PartitionDesc, SplitDesc};

// Whether each row fits the type.
fn are_of_type(dtype: DType, rows: &[Option<Value>]) -> bool
    ensures { result ≡ list_all (fits_type dtype) rows.now }
{
    rows.iter().all(|row| dtype.admits(row))
}

// Whether the chunk has the described number of rows and type, and its rows fit that type.
fn fits_chunk(described: &ChunkDesc, chunk: &PlainColumn) -> bool
    ensures { IsTrue result ↔ FitsChunk described.now chunk.now }
{
    let rows = chunk.rows().len() as u64;
    rows == described.rows
        && same_dtype(&chunk.dtype(), &described.dtype)
        && are_of_type(chunk.dtype(), chunk.rows())
}

// Whether the chunks of a split fit their descriptions, one by one.
fn fit_chunks(described: &[ChunkDesc], chunks: &[PlainColumn]) -> bool
    ensures { IsTrue result ↔ AllZip FitsChunk described.now chunks.now }
{
    let [first, described @ ..] = described else {
        return chunks.is_empty();
    };
    let [chunk, chunks @ ..] = chunks else {
        return false;
    };
    fits_chunk(first, chunk) && fit_chunks(described, chunks)
}

// Whether the chunks of each split fit their descriptions.
fn fit_splits(splits: &[SplitDesc], content: &[PlainSplit]) -> bool
    ensures { IsTrue result ↔ AllZip (λ split columns. AllZip FitsChunk split.chunks columns) splits.now content.now }
{
    let [split, splits @ ..] = splits else {
        return content.is_empty();
    };
    let [columns, content @ ..] = content else {
        return false;
    };
    fit_chunks(split.chunks.as_slice(), columns.as_slice()) && fit_splits(splits, content)
}

/// Whether the content of each source fits its partition: a column for each chunk, of the described length and type.
pub fn are_fit(partitions: &[PartitionDesc], contents: &[PlainContent]) -> bool
    ensures { IsTrue result ↔ AllZip FitsPartition partitions.now contents.now }
{
    let [partition, partitions @ ..] = partitions else {
        return contents.is_empty();
    };
    let [content, contents @ ..] = contents else {
        return false;
    };
    fit_splits(partition.splits.as_slice(), content.as_slice()) && are_fit(partitions, contents)
}
