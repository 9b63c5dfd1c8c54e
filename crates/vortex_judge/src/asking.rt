// What a request asks of a table, from its description and the content of its sources.
// Lists are walked by recursion on their first item, as the definitions do.
ghost use Rattle.std.specs.Prelude.{◌≡◌, [], ◌∷◌, ◌++◌, ◌+◌, ◌<◌, ◌≤◌, ◌^◌, ◌↔◌, IsTrue, length, None, IfOk, OnOk, All, filter_map, flat_map, map, slice_get, sum_by, unwrap_or, zip};
ghost use Rattle.vortex_table_types.specs.Answers.{asked};
ghost use Rattle.vortex_table_types.specs.Chosen.{projected_types};
ghost use Rattle.vortex_array_types.specs.Cells.{dtype_of};
ghost use Rattle.vortex_table_types.specs.Table.{decoded, partition_rows, row_at as row_there, scopes_from, split_rows, split_scopes};

use crate::batch::{PlainColumn, PlainContent, PlainSplit, Question};
use crate::chosen::chosen_rows;
use crate::judge::cell_there;
use crate::rows::{PlainRow, PlainRows, PlainTable};
use std::alloc::{AllocError, Global};
use vortex_array::{ColumnDesc, DType, Name};
use vortex_array_types::column_type;
use vortex_scan_types::{Projection, ScanRequest, WorkScope};
use vortex_table::{PartitionDesc, SplitDesc};

// One row of the chunks of a split.
fn row_at(alloc: Global, columns: &[PlainColumn], row: usize) -> Result<PlainRow, AllocError>
    ensures { IfOk result (λ r. r ≡ row_there columns.now row) }
{
    let mut cells = Vec::new(alloc);
    for column in columns {
        cells.push(cell_there(alloc, column.rows(), row)?)?;
    }
    Ok(PlainRow::new(cells))
}

// Puts the rows of a split behind others.
fn push_split(
    alloc: Global,
    split: &SplitDesc,
    columns: &[PlainColumn],
    list: &mut Vec<PlainRow>,
) -> Result<(), AllocError>
    ensures { OnOk result (list.new.items ≡ list.old.items ++ split_rows split.now columns.now) }
{
    for row in 0..split.rows {
        list.push(row_at(alloc, columns, row as usize)?)?;
    }
    Ok(())
}

// Puts the rows of splits behind others.
fn push_splits(
    alloc: Global,
    splits: &[SplitDesc],
    content: &[PlainSplit],
    list: &mut Vec<PlainRow>,
) -> Result<(), AllocError>
    ensures { OnOk result (list.new.items ≡ list.old.items ++ flat_map (λ s. split_rows s.0 s.1) (zip splits.now content.now)) }
{
    let [split, splits @ ..] = splits else {
        return Ok(());
    };
    let [columns, content @ ..] = content else {
        return Ok(());
    };
    push_split(alloc, split, columns.as_slice(), list)?;
    push_splits(alloc, splits, content, list)?;
    Ok(())
}

// The rows of a partition.
fn partition_of(
    alloc: Global,
    partition: &PartitionDesc,
    content: &PlainContent,
) -> Result<PlainRows, AllocError>
    ensures { IfOk result (λ r. r ≡ partition_rows partition.now content.now) }
{
    let mut list = Vec::new(alloc);
    push_splits(
        alloc,
        partition.splits.as_slice(),
        content.as_slice(),
        &mut list,
    )?;
    Ok(PlainRows::new(list))
}

// Puts the rows of each partition behind others.
fn push_partitions(
    alloc: Global,
    partitions: &[PartitionDesc],
    contents: &[PlainContent],
    list: &mut Vec<PlainRows>,
) -> Result<(), AllocError>
    ensures { OnOk result (list.new.items ≡ list.old.items ++ map (λ p. partition_rows p.0 p.1) (zip partitions.now contents.now)) }
{
    let [partition, partitions @ ..] = partitions else {
        return Ok(());
    };
    let [content, contents @ ..] = contents else {
        return Ok(());
    };
    let rows = partition_of(alloc, partition, content)?;
    list.push(rows)?;
    push_partitions(alloc, partitions, contents, list)?;
    Ok(())
}

/// The decoded table: its columns, and the rows of each partition. The content of a source has, for each split and
/// each column, the chunk as a column. Partitions without content, and content without a partition, are left out.
pub fn decode(
    alloc: Global,
    columns: Vec<ColumnDesc>,
    partitions: &[PartitionDesc],
    contents: &[PlainContent],
) -> Result<PlainTable, AllocError>
    ensures { IfOk result (λ t. t ≡ decoded columns.items partitions.now contents.now) }
{
    let mut list = Vec::new(alloc);
    push_partitions(alloc, partitions, contents, &mut list)?;
    Ok(PlainTable::new(columns, list))
}

// Puts the scopes of a partition's splits behind others, the first split starting at a row.
fn push_scopes(
    list: &mut Vec<WorkScope>,
    partition: u64,
    start: u64,
    splits: &[SplitDesc],
) -> Result<(), AllocError>
    requires { start + sum_by (λ s. s.rows) splits.now < 2 ^ 64 }
    ensures { OnOk result (list.new.items ≡ list.old.items ++ split_scopes partition start splits.now) }
{
    let [split, splits @ ..] = splits else {
        return Ok(());
    };
    let end = start + split.rows;
    list.push(WorkScope {
        file_ordinal: partition,
        rows: start..end,
    })?;
    push_scopes(list, partition, end, splits)?;
    Ok(())
}

// Puts the scopes of all splits behind others, the first partition having this number.
fn push_all_scopes(
    list: &mut Vec<WorkScope>,
    partition: u64,
    partitions: &[PartitionDesc],
) -> Result<(), AllocError>
    requires small { All (λ p. sum_by (λ s. s.rows) p.splits < 2 ^ 64) partitions.now }
    requires few { partition + length partitions.now < 2 ^ 64 }
    ensures { OnOk result (list.new.items ≡ list.old.items ++ scopes_from partition partitions.now) }
{
    let [described, partitions @ ..] = partitions else {
        return Ok(());
    };
    push_scopes(list, partition, 0, described.splits.as_slice())?;
    push_all_scopes(list, partition + 1, partitions)?;
    Ok(())
}

// Puts the type of a column behind others, where a column has the name.
fn push_type(columns: &[ColumnDesc], name: &str, types: &mut Vec<DType>) -> Result<(), AllocError>
    ensures { OnOk result (types.new.items ≡ types.old.items ++ filter_map (dtype_of columns.now) (name.now ∷ [])) }
{
    match column_type(columns, name) {
        Some(dtype) => {
            types.push(dtype)?;
            Ok(())
        }
        None => Ok(()),
    }
}

// Puts the type of each named column behind others.
fn push_types(
    columns: &[ColumnDesc],
    names: &[Name],
    types: &mut Vec<DType>,
) -> Result<(), AllocError>
    ensures { OnOk result (types.new.items ≡ types.old.items ++ filter_map (dtype_of columns.now) names.now) }
{
    let [name, names @ ..] = names else {
        return Ok(());
    };
    push_type(columns, name.as_str(), types)?;
    push_types(columns, names, types)?;
    Ok(())
}

// Puts the type of each of these columns behind others.
fn push_all_types(
    columns: &[ColumnDesc],
    named: &[ColumnDesc],
    types: &mut Vec<DType>,
) -> Result<(), AllocError>
    ensures { OnOk result (types.new.items ≡ types.old.items ++ filter_map (dtype_of columns.now) (map (λ column. column.name) named.now)) }
{
    let [column, named @ ..] = named else {
        return Ok(());
    };
    push_type(columns, column.name.as_str(), types)?;
    push_all_types(columns, named, types)?;
    Ok(())
}

// The types of the projected columns.
fn types_in(
    alloc: Global,
    columns: &[ColumnDesc],
    projection: &Projection,
) -> Result<Vec<DType>, AllocError>
    ensures { IfOk result (λ v. v.items ≡ projected_types columns.now projection.now) }
{
    let mut types = Vec::new(alloc);
    match projection {
        Projection::All => {
            push_all_types(columns, columns, &mut types)?;
            Ok(types)
        }
        Projection::Columns(names) => {
            push_types(columns, names.as_slice(), &mut types)?;
            Ok(types)
        }
    }
}

// Whether the splits have at most so many rows together.
fn are_within(splits: &[SplitDesc], rows: u64) -> bool
    ensures { IsTrue result ↔ (sum_by (λ s. s.rows) splits.now ≤ rows) }
{
    let [split, splits @ ..] = splits else {
        return true;
    };
    split.rows <= rows && are_within(splits, rows - split.rows)
}

/// Whether the rows of each partition fit 64 bits.
pub fn are_small(partitions: &[PartitionDesc]) -> bool
    ensures { IsTrue result ↔ All (λ p. sum_by (λ s. s.rows) p.splits < 2 ^ 64) partitions.now }
{
    partitions.iter().all(|partition| are_within(partition.splits.as_slice(), u64::MAX))
}

/// What the request asks of the table with this content. The rows of each partition have to fit 64 bits: `are_small`
/// tells.
pub fn ask(
    alloc: Global,
    columns: Vec<ColumnDesc>,
    partitions: &[PartitionDesc],
    contents: &[PlainContent],
    request: &ScanRequest,
) -> Result<Question, AllocError>
    requires small { All (λ p. sum_by (λ s. s.rows) p.splits < 2 ^ 64) partitions.now }
    ensures { IfOk result (λ q. q ≡ asked columns.items partitions.now contents.now request.now) }
{
    let types = types_in(alloc, &columns, &request.projection)?;
    let mut scopes = Vec::new(alloc);
    push_all_scopes(&mut scopes, 0, partitions)?;
    let table = decode(alloc, columns, partitions, contents)?;
    let rows = chosen_rows(alloc, request, &table)?;
    Ok(Question::new(scopes, types, rows, request.limit, request.ordered))
}
