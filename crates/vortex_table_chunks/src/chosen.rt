// The kept rows of a split as a batch of the projected columns. A column is decoded only if it is projected, and only in the
// rows that are kept.
ghost use Rattle.std.specs.Prelude.{◌≡◌, ◌<◌, ◌&&◌, [], All, IfOk, IsTrue, List, Some, length, map, slice_index_or};
ghost use Rattle.std.specs.List.{AllZip};
ghost use Rattle.std.specs.Simd.Lanes.{zip2};
ghost use Rattle.vortex_buffer.specs.Mask.{mask_bits};
ghost use Rattle.vortex_array_types.specs.Row.{Column};
ghost use Rattle.vortex_array_types.specs.Truth.{keeps};
ghost use Rattle.vortex_array_types.specs.Typed.{filter_names, well_typed};
ghost use Rattle.vortex_array_rows.specs.Kept.{kept_by};
ghost use Rattle.vortex_table_types.specs.Chosen.{projected_names};
ghost use Rattle.vortex_table_types.specs.Described.{HaveOwnNames};
ghost use Rattle.vortex_table_chunks.specs.Rows.{FitColumns, IsThere, cells_of};
ghost use Rattle.vortex_table_chunks.specs.Kept.{HoldsNamed, IsBatchOf, StandsFor, kept_rows, rows_of};

use crate::chunk::Chunk;
use crate::filters::filter_truth;
use crate::named::chunk_named;
use std::alloc::{AllocError, Global};
use vortex_array::{Array, ColumnDesc, Filter, Name, RecordBatch};
use vortex_buffer::Mask;
use vortex_scan_types::Projection;

/// The rows of a split whose bit is set and of which the filter is true, or all whose bit is set where there is none: the
/// projected columns, as plain arrays. Of each column that the filter or the projection names there is the chunk. Whatever
/// the other columns hold, the batch is the same.
pub fn chosen_batch(
    alloc: Global,
    columns: &[ColumnDesc],
    chunks: &[Option<Chunk>],
    rows: &Mask,
    filter: &Option<Filter>,
    projection: &Projection,
) -> Result<RecordBatch, AllocError>
    requires fits { FitColumns (length (mask_bits rows.now)) columns.now chunks.now }
    requires names { HaveOwnNames columns.now }
    requires filtered { All (IsThere columns.now chunks.now) (filter_names filter.now) }
    requires types { IsTrue (well_typed columns.now filter.now) }
    requires projected { All (IsThere columns.now chunks.now) (projected_names columns.now projection.now) }
    ensures { IfOk result (λ b. (contents : List Column) → AllZip StandsFor chunks.now contents → IsBatchOf columns.now (projected_names columns.now projection.now) (kept_rows filter.now (mask_bits rows.now) (rows_of columns.now contents (length (mask_bits rows.now)))) b) }
{
    let kept = kept_mask(alloc, columns, chunks, rows, filter)?;
    let arrays = projected_arrays(alloc, columns, chunks, &kept, projection)?;
    match RecordBatch::try_new(kept.true_count(), arrays) {
        Ok(batch) => Ok(batch),
        Err(_) => unreachable!(),
    }
}

// The rows that are kept: those whose bit is set, and of which the filter is true, or there is none.
fn kept_mask(
    alloc: Global,
    columns: &[ColumnDesc],
    chunks: &[Option<Chunk>],
    rows: &Mask,
    filter: &Option<Filter>,
) -> Result<Mask, AllocError>
    requires fits { FitColumns (length (mask_bits rows.now)) columns.now chunks.now }
    requires filtered { All (IsThere columns.now chunks.now) (filter_names filter.now) }
    requires types { IsTrue (well_typed columns.now filter.now) }
    ensures { IfOk result (λ mask. mask_bits mask ≡ zip2 ◌&&◌ (mask_bits rows.now) (map (keeps filter.now) (cells_of columns.now chunks.now (length (mask_bits rows.now))))) }
{
    match filter {
        None => rows.try_clone(alloc),
        Some(filter) => {
            let truth = true_rows(alloc, columns, chunks, rows.len(), filter)?;
            rows.and(alloc, &truth)
        }
    }
}

// The rows of which a filter is true.
fn true_rows(
    alloc: Global,
    columns: &[ColumnDesc],
    chunks: &[Option<Chunk>],
    rows: usize,
    filter: &Filter,
) -> Result<Mask, AllocError>
    requires fits { FitColumns rows columns.now chunks.now }
    requires there { All (IsThere columns.now chunks.now) (filter_names (Some filter.now)) }
    requires types { IsTrue (well_typed columns.now (Some filter.now)) }
    ensures { IfOk result (λ mask. mask_bits mask ≡ map (keeps (Some filter.now)) (cells_of columns.now chunks.now rows)) }
{
    let truth = filter_truth(alloc, columns, chunks, rows, filter)?;
    let mask = truth.true_mask(alloc)?;
    Ok(mask)
}

// The kept rows of the projected columns.
fn projected_arrays(
    alloc: Global,
    columns: &[ColumnDesc],
    chunks: &[Option<Chunk>],
    kept: &Mask,
    projection: &Projection,
) -> Result<Vec<Array>, AllocError>
    requires fits { FitColumns (length (mask_bits kept.now)) columns.now chunks.now }
    requires names { HaveOwnNames columns.now }
    requires projected { All (IsThere columns.now chunks.now) (projected_names columns.now projection.now) }
    ensures { IfOk result (λ arrays. AllZip (HoldsNamed columns.now (kept_by (mask_bits kept.now) (cells_of columns.now chunks.now (length (mask_bits kept.now))))) (projected_names columns.now projection.now) arrays.items) }
{
    match projection {
        Projection::All => all_arrays(alloc, columns, chunks, kept),
        Projection::Columns(names) => named_arrays(alloc, columns, chunks, kept, names.as_slice()),
    }
}

// The kept rows of the named columns.
fn named_arrays(
    alloc: Global,
    columns: &[ColumnDesc],
    chunks: &[Option<Chunk>],
    kept: &Mask,
    names: &[Name],
) -> Result<Vec<Array>, AllocError>
    requires fits { FitColumns (length (mask_bits kept.now)) columns.now chunks.now }
    requires there { All (IsThere columns.now chunks.now) names.now }
    ensures { IfOk result (λ arrays. AllZip (HoldsNamed columns.now (kept_by (mask_bits kept.now) (cells_of columns.now chunks.now (length (mask_bits kept.now))))) names.now arrays.items) }
{
    let mut arrays = Vec::with_capacity(alloc, names.len())?;
    for name in names {
        arrays.push(named_array(alloc, columns, chunks, kept, name)?)?;
    }
    Ok(arrays)
}

// The kept rows of the column with this name.
fn named_array(
    alloc: Global,
    columns: &[ColumnDesc],
    chunks: &[Option<Chunk>],
    kept: &Mask,
    name: &Name,
) -> Result<Array, AllocError>
    requires fits { FitColumns (length (mask_bits kept.now)) columns.now chunks.now }
    requires there { IsThere columns.now chunks.now name.now }
    ensures { IfOk result (HoldsNamed columns.now (kept_by (mask_bits kept.now) (cells_of columns.now chunks.now (length (mask_bits kept.now)))) name.now) }
{
    let chunk = chunk_named(columns, chunks, name.as_str());
    let array = chunk.kept_rows(alloc, kept)?;
    Ok(array)
}

// The kept rows of all columns.
fn all_arrays(
    alloc: Global,
    columns: &[ColumnDesc],
    chunks: &[Option<Chunk>],
    kept: &Mask,
) -> Result<Vec<Array>, AllocError>
    requires fits { FitColumns (length (mask_bits kept.now)) columns.now chunks.now }
    requires names { HaveOwnNames columns.now }
    requires there { All (IsThere columns.now chunks.now) (map (λ column. column.name) columns.now) }
    ensures { IfOk result (λ arrays. AllZip (HoldsNamed columns.now (kept_by (mask_bits kept.now) (cells_of columns.now chunks.now (length (mask_bits kept.now))))) (map (λ column. column.name) columns.now) arrays.items) }
{
    let mut arrays = Vec::with_capacity(alloc, columns.len())?;
    for i in 0..columns.len() {
        arrays.push(array_at(alloc, columns, chunks, kept, i)?)?;
    }
    Ok(arrays)
}

// The kept rows of the column at a place.
fn array_at(
    alloc: Global,
    columns: &[ColumnDesc],
    chunks: &[Option<Chunk>],
    kept: &Mask,
    i: usize,
) -> Result<Array, AllocError>
    requires inside { i < length columns.now }
    requires fits { FitColumns (length (mask_bits kept.now)) columns.now chunks.now }
    requires names { HaveOwnNames columns.now }
    requires there { All (IsThere columns.now chunks.now) (map (λ column. column.name) columns.now) }
    ensures { IfOk result (HoldsNamed columns.now (kept_by (mask_bits kept.now) (cells_of columns.now chunks.now (length (mask_bits kept.now)))) (slice_index_or (map (λ column. column.name) columns.now) i [])) }
{
    match &chunks[i] {
        Some(chunk) => {
            let array = chunk.kept_rows(alloc, kept)?;
            Ok(array)
        }
        None => unreachable!(),
    }
}
