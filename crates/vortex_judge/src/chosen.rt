// The list of the chosen rows of a table.
ghost use Rattle.std.specs.Prelude.{◌≡◌, ◌++◌, ◌^◌, ◌<◌, length, map, filter, option_copied, IfOk, OnOk};
ghost use Rattle.vortex_array_types.specs.Cells.{cell_of};
ghost use Rattle.vortex_judge.specs.Steps.{chosen_part};
ghost use Rattle.vortex_table_types.specs.Chosen.{chosen, is_chosen as is_chosen_row, placed_rows, projected, projected_names};

use crate::members::is_selected;
use crate::rows::{PlacedRow, PlainRow, PlainTable};
use crate::truth::{cell, keeps};
use std::alloc::{AllocError, Global};
use vortex_array::{ColumnDesc, Name, Value};
use vortex_scan_types::{Projection, ScanRequest};

// A second value of the row in the column with this name.
fn cell_copy(
    alloc: Global,
    columns: &[ColumnDesc],
    row: &[Option<Value>],
    name: &str,
) -> Result<Option<Value>, AllocError>
    ensures { IfOk result (λ v. v ≡ cell_of columns.now row.now name.now) }
{
    match cell(columns, row, name) {
        Some(value) => Ok(Some(value.try_clone(alloc)?)),
        None => Ok(None),
    }
}

// The values of the row under these names.
fn values_under(
    alloc: Global,
    columns: &[ColumnDesc],
    row: &[Option<Value>],
    names: &[Name],
) -> Result<PlainRow, AllocError>
    ensures { IfOk result (λ r. r ≡ map (cell_of columns.now row.now) names.now) }
{
    let mut cells = Vec::new(alloc);
    for name in names {
        cells.push(cell_copy(alloc, columns, row, name.as_str())?)?;
    }
    Ok(PlainRow::new(cells))
}

// The values of the row in all columns.
fn values_of(
    alloc: Global,
    columns: &[ColumnDesc],
    row: &[Option<Value>],
) -> Result<PlainRow, AllocError>
    ensures { IfOk result (λ r. r ≡ map (cell_of columns.now row.now) (map (λ column. column.name) columns.now)) }
{
    let mut cells = Vec::new(alloc);
    for column in columns {
        cells.push(cell_copy(alloc, columns, row, column.name.as_str())?)?;
    }
    Ok(PlainRow::new(cells))
}

// The projected values of the row.
fn projected_values(
    alloc: Global,
    columns: &[ColumnDesc],
    projection: &Projection,
    row: &[Option<Value>],
) -> Result<PlainRow, AllocError>
    ensures { IfOk result (λ r. r ≡ map (cell_of columns.now row.now) (projected_names columns.now projection.now)) }
{
    match projection {
        Projection::All => {
            let row = values_of(alloc, columns, row)?;
            Ok(row)
        }
        Projection::Columns(names) => {
            let row = values_under(alloc, columns, row, names.as_slice())?;
            Ok(row)
        }
    }
}

/// Whether the row with these values is chosen: it is selected, and the filter is true of it or there is none.
pub fn is_chosen(
    request: &ScanRequest,
    columns: &[ColumnDesc],
    partition: u64,
    row: u64,
    values: &[Option<Value>],
) -> bool
    ensures { result ≡ is_chosen_row request.now columns.now (record { partition = partition; row = row; values = values.now }) }
{
    is_selected(request, partition, row) && keeps(columns, values, &request.filter)
}

// Puts the chosen rows of a partition behind others.
fn push_chosen(
    alloc: Global,
    request: &ScanRequest,
    columns: &[ColumnDesc],
    partition: u64,
    rows: &[PlainRow],
    list: &mut Vec<PlacedRow>,
) -> Result<(), AllocError>
    ensures { OnOk result (list.new.items ≡ list.old.items ++ chosen_part request.now columns.now partition 0 rows.now) }
{
    for row in 0..rows.len() {
        let values = rows[row].as_slice();
        if is_chosen(request, columns, partition, row as u64, values) {
            let values = projected_values(alloc, columns, &request.projection, values)?;
            list.push(PlacedRow::new(partition, row as u64, values))?;
        }
    }
    Ok(())
}

/// The chosen rows by partition and then row, each with its place and its projected values.
pub fn chosen_rows(
    alloc: Global,
    request: &ScanRequest,
    table: &PlainTable,
) -> Result<Vec<PlacedRow>, AllocError>
    ensures { IfOk result (λ v. v.items ≡ chosen request.now table.now) }
{
    let mut list = Vec::new(alloc);
    let columns = table.columns();
    let partitions = table.partitions();
    for partition in 0..partitions.len() {
        push_chosen(
            alloc,
            request,
            columns,
            partition as u64,
            partitions[partition].as_slice(),
            &mut list,
        )?;
    }
    Ok(list)
}
