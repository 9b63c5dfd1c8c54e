// Whether a description makes a table.
ghost use Rattle.std.specs.Prelude.{◌↔◌, ◌<◌, ◌+◌, ◌^◌, All, IfNone, IfSome, IsTrue, SomeIff, length, sum_by};
ghost use Rattle.std.specs.List.{AllZip};
ghost use Rattle.vortex_table_types.specs.Described.{AllFit, FitsColumns, HaveOwnNames, IsApart, IsChunkOf, IsDescribed, IsFirstUnfit, IsFirstUnfitSplit, Refuses, split_count, steps_of, total_rows};

use crate::describe::{ChunkDesc, PartitionDesc, SplitDesc};
use crate::errors::TableError;
use vortex_array::ColumnDesc;

// Whether the column at this place has another name than each before it.
fn is_apart(columns: &[ColumnDesc], place: usize) -> bool
    requires { place < length columns.now }
    ensures { IsTrue result ↔ IsApart columns.now place }
{
    for earlier in 0..place {
        if columns[earlier].name.as_str() == columns[place].name.as_str() {
            return false;
        }
    }
    true
}

// Whether no two columns share a name.
fn have_own_names(columns: &[ColumnDesc]) -> bool
    ensures { IsTrue result ↔ HaveOwnNames columns.now }
{
    for place in 0..columns.len() {
        if !is_apart(columns, place) {
            return false;
        }
    }
    true
}

// Whether a chunk has the split's rows and the column's type.
fn is_chunk_of(split: &SplitDesc, column: &ColumnDesc, chunk: &ChunkDesc) -> bool
    ensures { IsTrue result ↔ IsChunkOf split.now column.now chunk.now }
{
    chunk.rows == split.rows && chunk.dtype == column.dtype
}

// Whether a split has these chunks, one for each of these columns.
fn are_chunks_of(split: &SplitDesc, columns: &[ColumnDesc], chunks: &[ChunkDesc]) -> bool
    ensures { IsTrue result ↔ AllZip (IsChunkOf split.now) columns.now chunks.now }
{
    if columns.len() != chunks.len() {
        return false;
    }
    for place in 0..columns.len() {
        if !is_chunk_of(split, &columns[place], &chunks[place]) {
            return false;
        }
    }
    true
}

// The first split whose chunks do not fit the columns.
fn first_unfit_split(columns: &[ColumnDesc], splits: &[SplitDesc]) -> Option<usize>
    ensures none { IfNone result (All (FitsColumns columns.now) splits.now) }
    ensures some { IfSome result (λ split. IsFirstUnfitSplit columns.now splits.now split) }
{
    for index in 0..splits.len() {
        let split = &splits[index];
        if !are_chunks_of(split, columns, split.chunks.as_slice()) {
            return Some(index);
        }
    }
    None
}

// The first split of a table whose chunks do not fit the columns.
fn first_unfit(columns: &[ColumnDesc], partitions: &[PartitionDesc]) -> Option<(u64, u64)>
    ensures none { IfNone result (All (AllFit columns.now) partitions.now) }
    ensures some { IfSome result (λ place. IsFirstUnfit columns.now partitions.now place.0 place.1) }
{
    for index in 0..partitions.len() {
        let partition = &partitions[index];
        if let Some(split) = first_unfit_split(columns, partition.splits.as_slice()) {
            return Some((index as u64, split as u64));
        }
    }
    None
}

// The rows of a partition, where they fit 64 bits with those before it.
#[tactic(auto, using(std::proofs::lemmas::List::Sums::sum_by_more_le, std::proofs::lemmas::List::Sums::sum_by_more))]
fn add_rows(rows: u64, splits: &[SplitDesc]) -> Option<u64>
    ensures { SomeIff result (rows + sum_by (λ split. split.rows) splits.now < 2 ^ 64) (rows + sum_by (λ split. split.rows) splits.now) }
{
    let mut rows = rows;
    for split in splits {
        rows = rows.checked_add(split.rows)?;
    }
    Some(rows)
}

// The rows of a table, where they fit 64 bits.
#[tactic(auto, using(std::proofs::lemmas::List::Sums::sum_by_more_le, std::proofs::lemmas::List::Sums::sum_by_more))]
fn count_rows(partitions: &[PartitionDesc]) -> Option<u64>
    ensures { SomeIff result (total_rows partitions.now < 2 ^ 64) (total_rows partitions.now) }
{
    let mut rows = 0u64;
    for partition in partitions {
        rows = add_rows(rows, partition.splits.as_slice())?;
    }
    Some(rows)
}

// The splits of a table, where their number fits 64 bits.
#[tactic(auto, using(std::proofs::lemmas::List::Sums::sum_by_more_le, std::proofs::lemmas::List::Sums::sum_by_more))]
fn count_splits(partitions: &[PartitionDesc]) -> Option<u64>
    ensures { SomeIff result (split_count partitions.now < 2 ^ 64) (split_count partitions.now) }
{
    let mut splits = 0u64;
    for partition in partitions {
        splits = splits.checked_add(partition.splits.len() as u64)?;
    }
    Some(splits)
}

/// Six for each split and two for each partition, where that fits 64 bits.
pub fn count_steps(partitions: &[PartitionDesc]) -> Option<u64>
    ensures { SomeIff result (steps_of partitions.now < 2 ^ 64) (steps_of partitions.now) }
{
    let splits = count_splits(partitions)?.checked_mul(6)?;
    let partitions = (partitions.len() as u64).checked_mul(2)?;
    splits.checked_add(partitions)
}

/// Why a description and so many sources make no table, if they make none.
pub fn refusal(
    columns: &[ColumnDesc],
    partitions: &[PartitionDesc],
    sources: usize,
) -> Option<TableError>
    ensures none { IfNone result (IsDescribed columns.now partitions.now sources) }
    ensures some { IfSome result (Refuses columns.now partitions.now sources) }
{
    if !have_own_names(columns) {
        return Some(TableError::RepeatedName);
    }
    if sources != partitions.len() {
        return Some(TableError::SourceCount);
    }
    if let Some((partition, split)) = first_unfit(columns, partitions) {
        return Some(TableError::ChunkListDoesNotFit { partition, split });
    }
    if count_rows(partitions).is_none() || count_steps(partitions).is_none() {
        return Some(TableError::TooLarge);
    }
    None
}
