// The name and the numbers of a table of one column.
ghost use Rattle.std.specs.Prelude.{◌≡◌, ℕ, List, Some, None, IfOk, IsErrOf, option_map};
ghost use Rattle.csv.specs.Records.{fields_of};
ghost use Rattle.vortex_query.specs.Fields.{header_name as name_in, row_number as number_in};
ghost use Rattle.vortex_query.specs.Left.{Left};
ghost use Rattle.vortex_query.specs.Numbered.{column_in, column_seen, few_numbers, numbered as numbered_in, rows_numbers, ReadsName, ReadsNumber};
ghost use Rattle.vortex_query.specs.declared.table_text.TableTextError.TheVariants.{NotBuilt};

use super::TableTextError;
use super::fields::{name_of, number_of};
use super::rows::{next_row, only_field, reader_of};
use csv::{ByteRecord, Reader};
use std::alloc::Global;
use vortex_array::Name;

// The most rows of a table.
const ROW_LIMIT: usize = 65_536;

/// A name, and the numbers under it.
#[derive(Drop)]
pub struct NamedNumbers {
    pub name: Name,
    pub numbers: Vec<u64>,
}

// The number that the one field of a row spells.
fn row_number(row: &ByteRecord) -> Option<u64>
    ensures { result ≡ number_in (fields_of row.now) }
{
    number_of(only_field(row)?)
}

// The name in a header row of one cell.
fn header_name(row: &ByteRecord) -> Option<&str>
    ensures { option_map (λ name. name.now) result ≡ name_in (fields_of row.now) }
{
    name_of(only_field(row)?)
}

// The name in the first row.
fn first_name(
    alloc: Global,
    reader: &mut Reader<&[u8]>,
    row: &mut ByteRecord,
) -> Result<Name, TableTextError>
    ensures ok { IfOk result (λ name. (rows : List (List (List ℕ))) → Left (λ s. Some s.now) reader.old rows → ReadsName (λ s. Some s.now) reader.new rows name) }
    ensures not_built { IsErrOf result NotBuilt → (rows : List (List (List ℕ))) → Left (λ s. Some s.now) reader.old rows → column_in rows ≡ None }
{
    if !next_row(reader, row)? {
        return Err(TableTextError::NotBuilt);
    }
    match header_name(row) {
        Some(name) => Ok(Name::from_str(alloc, name)?),
        None => Err(TableTextError::NotBuilt),
    }
}

// The number in the next row, or none where no row is left.
fn next_number(
    reader: &mut Reader<&[u8]>,
    row: &mut ByteRecord,
) -> Result<Option<u64>, TableTextError>
    ensures ok { IfOk result (λ number. (rows : List (List (List ℕ))) → Left (λ s. Some s.now) reader.old rows → ReadsNumber (λ s. Some s.now) reader.new rows number) }
    ensures not_built { IsErrOf result NotBuilt → (rows : List (List (List ℕ))) → Left (λ s. Some s.now) reader.old rows → rows_numbers rows ≡ None }
{
    if !next_row(reader, row)? {
        return Ok(None);
    }
    match row_number(row) {
        Some(number) => Ok(Some(number)),
        None => Err(TableTextError::NotBuilt),
    }
}

// The numbers of all rows that are left, which are at most 65,536.
fn numbers_left(
    alloc: Global,
    reader: &mut Reader<&[u8]>,
    row: &mut ByteRecord,
) -> Result<Vec<u64>, TableTextError>
    ensures ok { IfOk result (λ numbers. (rows : List (List (List ℕ))) → Left (λ s. Some s.now) reader.old rows → few_numbers rows ≡ Some numbers.items) }
    ensures not_built { IsErrOf result NotBuilt → (rows : List (List (List ℕ))) → Left (λ s. Some s.now) reader.old rows → few_numbers rows ≡ None }
{
    let mut numbers = Vec::new(alloc);
    for index in 0..ROW_LIMIT + 1 {
        match next_number(reader, row)? {
            Some(number) => numbers.push(number)?,
            None => return Ok(numbers),
        }
    }
    Err(TableTextError::NotBuilt)
}

// The name in the first row, and the numbers of all rows behind it.
fn column_left(alloc: Global, reader: &mut Reader<&[u8]>) -> Result<NamedNumbers, TableTextError>
    ensures ok { IfOk result (λ column. (rows : List (List (List ℕ))) → Left (λ s. Some s.now) reader.old rows → column_in rows ≡ Some (column_seen column)) }
    ensures not_built { IsErrOf result NotBuilt → (rows : List (List (List ℕ))) → Left (λ s. Some s.now) reader.old rows → column_in rows ≡ None }
{
    let mut row = ByteRecord::new(alloc);
    let name = first_name(alloc, reader, &mut row)?;
    let numbers = numbers_left(alloc, reader, &mut row)?;
    Ok(NamedNumbers { name, numbers })
}

/// The name and the numbers that a text spells: a header row of one cell, and at most 65,536 rows of one field.
pub fn numbered(alloc: Global, bytes: &[u8]) -> Result<NamedNumbers, TableTextError>
    ensures ok { IfOk result (λ column. numbered_in bytes.now ≡ Some (column_seen column)) }
    ensures not_built { IsErrOf result NotBuilt → numbered_in bytes.now ≡ None }
{
    let mut reader = reader_of(alloc, bytes);
    column_left(alloc, &mut reader)
}
