// The records of a text, one after another.
ghost use Rattle.std.specs.Prelude.{◌≡◌, Some, IfOk, List, ℕ, option_map};
ghost use Rattle.csv.specs.Reading.{default_config, records, strip_bom};
ghost use Rattle.csv.specs.Records.{fields_of};
ghost use Rattle.vortex_query.specs.Fields.{only};
ghost use Rattle.vortex_query.specs.Left.{Gives, Left};

use csv::{ByteRecord, Reader, ReaderBuilder};
use std::alloc::{AllocError, Global};

/// A reader of all records of the bytes.
pub fn reader_of(alloc: Global, bytes: &[u8]) -> Reader<&[u8]>
    ensures { Left (λ s. Some s.now) result (records default_config (strip_bom bytes.now)) }
{
    ReaderBuilder::new()
        .has_headers(false)
        .flexible(true)
        .from_reader(alloc, bytes)
}

/// Reads the next record, if there is one.
pub fn next_row(reader: &mut Reader<&[u8]>, row: &mut ByteRecord) -> Result<bool, AllocError>
    ensures { IfOk result (λ found. (rows : List (List (List ℕ))) → Left (λ s. Some s.now) reader.old rows
        → Gives (λ s. Some s.now) found rows (fields_of row.new) reader.new) }
{
    // Bytes in memory are read with no fault and records of any length pass, so only memory is left.
    let Ok(found) = reader.read_byte_record(row) else {
        return Err(AllocError);
    };
    Ok(found)
}

/// The field of a row that has no other.
pub fn only_field(row: &ByteRecord) -> Option<&[u8]>
    ensures { option_map (λ field. field.now) result ≡ only (fields_of row.now) }
{
    if row.len() == 1 { row.get(0) } else { None }
}
