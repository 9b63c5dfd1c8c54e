// Batches in text.
ghost use Rattle.std.specs.Prelude.{◌≡◌, ◌++◌, ◌∷◌, [], All, IfOk, OnOk, List, ℕ, Some, map, flat_map};
ghost use Rattle.csv.specs.Writing.{default_writer, row_text};
ghost use Rattle.vortex_array.specs.ColumnOf.{column_of};
ghost use Rattle.vortex_query.specs.Shown.{Holds, IsOneU64Batch, IsOneU64Column, number_row, one_value, rows_of};
ghost use Rattle.vortex_query.specs.Text.{header_cell as cell_text, line_text, text, type_text};
ghost use Rattle.vortex_table.specs.Built.{u64_type};
ghost use Rattle.vortex_table.specs.Given.{given};
ghost use Rattle.vortex_table_types.specs.Turn.{batch_rows};
ghost use Rattle.vortex_scan_types.specs.declared.request.Projection.TheVariants as projections;

use csv::{Writer, WriterBuilder};
use std::alloc::{AllocError, Global};
use vortex_array::{Array, ColumnDesc};
use vortex_buffer::Buffer;
use vortex_scan_types::{Batch, Projection};
use vortex_table::{lent_numbers, read_numbers};

// A writer that holds nothing yet.
fn new_writer(alloc: Global) -> Writer<Vec<u8>>
    ensures { Holds (λ v. Some v.items) result [] }
{
    WriterBuilder::new().from_writer(Vec::new(alloc))
}

// Writes one row.
fn write_row(writer: &mut Writer<Vec<u8>>, fields: &[&[u8]]) -> Result<(), AllocError>
    ensures { OnOk result ((written : List ℕ) → Holds (λ v. Some v.items) writer.old written
        → Holds (λ v. Some v.items) writer.new (written ++ row_text default_writer (map (λ f. f.now) fields.now))) }
{
    // A vector takes all bytes, so only memory can be wanting.
    let Ok(()) = writer.write_fields(fields) else {
        return Err(AllocError);
    };
    Ok(())
}

// The bytes that were written.
fn finish(writer: Writer<Vec<u8>>) -> Result<Vec<u8>, AllocError>
    ensures { IfOk result (λ bytes. (written : List ℕ) → Holds (λ v. Some v.items) writer written → bytes.items ≡ written) }
{
    let Ok(bytes) = writer.into_inner() else {
        return Err(AllocError);
    };
    Ok(bytes)
}

// What stands above a column of `u64` without nulls.
fn header_cell(alloc: Global, column: &ColumnDesc) -> Result<Vec<u8>, AllocError>
    requires { column.now.dtype ≡ u64_type }
    ensures { IfOk result (λ cell. cell.items ≡ cell_text column.now) }
{
    let mut cell = Vec::from_slice(alloc, column.name.as_str().as_bytes())?;
    cell.extend_from_slice(b":u64")?;
    Ok(cell)
}

// The array of a batch of one column.
fn one_array(batch: &Batch) -> &Array
    requires { IsOneU64Batch batch.now }
    ensures kind { (column_of result.now).dtype ≡ u64_type }
    ensures rows { map one_value (column_of result.now).rows ≡ batch_rows (given batch.now) }
{
    &batch.array.columns()[0]
}

// Writes a row for each number under a column.
fn write_numbers(writer: &mut Writer<Vec<u8>>, numbers: &[u64]) -> Result<(), AllocError>
    ensures { OnOk result ((columns : List ColumnDesc) → IsOneU64Column columns → (written : List ℕ) → Holds (λ v. Some v.items) writer.old written
        → Holds (λ v. Some v.items) writer.new (written ++ flat_map (line_text columns) (map number_row numbers.now))) }
{
    for number in numbers {
        let mut digits = itoa::Buffer::new();
        write_row(writer, &[digits.format(*number).as_bytes()])?;
    }
    Ok(())
}

// Writes a row for each row of an array, of which a copy is read first.
fn write_copied(
    alloc: Global,
    writer: &mut Writer<Vec<u8>>,
    array: &Array,
) -> Result<(), AllocError>
    requires { (column_of array.now).dtype ≡ u64_type }
    ensures { OnOk result ((columns : List ColumnDesc) → IsOneU64Column columns → (written : List ℕ) → Holds (λ v. Some v.items) writer.old written
        → Holds (λ v. Some v.items) writer.new (written ++ flat_map (line_text columns) (map one_value (column_of array.now).rows))) }
{
    let numbers = read_numbers(alloc, array)?;
    write_numbers(writer, numbers.as_slice())?;
    Ok(())
}

// Writes a row for each row of an array.
fn write_array(alloc: Global, writer: &mut Writer<Vec<u8>>, array: &Array) -> Result<(), AllocError>
    requires { (column_of array.now).dtype ≡ u64_type }
    ensures { OnOk result ((columns : List ColumnDesc) → IsOneU64Column columns → (written : List ℕ) → Holds (λ v. Some v.items) writer.old written
        → Holds (λ v. Some v.items) writer.new (written ++ flat_map (line_text columns) (map one_value (column_of array.now).rows))) }
{
    if let Some(numbers) = lent_numbers(array) {
        write_numbers(writer, numbers)?;
        return Ok(());
    }
    write_copied(alloc, writer, array)
}

// Writes the header.
fn write_header(
    alloc: Global,
    writer: &mut Writer<Vec<u8>>,
    columns: &[ColumnDesc],
) -> Result<(), AllocError>
    requires columns { IsOneU64Column columns.now }
    requires nothing { Holds (λ v. Some v.items) writer.old [] }
    ensures { OnOk result (Holds (λ v. Some v.items) writer.new (text columns.now projections.All [])) }
{
    let cell = header_cell(alloc, &columns[0])?;
    write_row(writer, &[cell.as_slice()])
}

// Writes a line for each row of the batches, behind the header.
fn write_batches(
    alloc: Global,
    writer: &mut Writer<Vec<u8>>,
    columns: &[ColumnDesc],
    batches: &[Batch],
) -> Result<(), AllocError>
    requires columns { IsOneU64Column columns.now }
    requires batches { All IsOneU64Batch batches.now }
    requires header { Holds (λ v. Some v.items) writer.old (text columns.now projections.All []) }
    ensures { OnOk result (Holds (λ v. Some v.items) writer.new (text columns.now projections.All (rows_of batches.now))) }
{
    let _ = columns;
    for batch in batches {
        write_array(alloc, writer, one_array(batch))?;
    }
    Ok(())
}

/// The text of the batches' rows: a header, and a line for each row, as `csv` writes them with its default settings. Each batch
/// has a column of the one column's type. Its bytes are written at once, so it takes memory for all of them.
pub fn rows_text(
    alloc: Global,
    columns: &[ColumnDesc],
    projection: &Projection,
    batches: &[Batch],
) -> Result<Buffer<u8>, AllocError>
    requires columns { IsOneU64Column columns.now }
    requires projection { projection.now ≡ projections.All }
    requires batches { All IsOneU64Batch batches.now }
    ensures { IfOk result (λ bytes. bytes ≡ text columns.now projection.now (rows_of batches.now)) }
{
    let _ = projection;
    let mut writer = new_writer(alloc);
    write_header(alloc, &mut writer, columns)?;
    write_batches(alloc, &mut writer, columns, batches)?;
    Ok(Buffer::from_vec(finish(writer)?))
}
