// Header cells.
ghost use Rattle.std.specs.Prelude.{◌≡◌, ◌++◌, ◌<◌, IfOk, IfSome, IsTrue, OnOk, Some, length, option_and_then, option_map};
ghost use Rattle.vortex_query_fields.specs.Columns.{column_of, column_spelled, header_text, last_place, name_spelled};
ghost use Rattle.vortex_query_fields.specs.Written.{has_text};

use crate::texts::text_in;
use crate::types::{push_type, type_in};
use std::alloc::{AllocError, Global};
use vortex_array_types::{ColumnDesc, DType, Name};
use vortex_buffer::Buffer;

// The place of the last colon.
fn last_colon(cell: &[u8]) -> Option<usize>
    ensures place { result ≡ last_place 58 cell.now }
    ensures within { IfSome result (λ at. at < length cell.now) }
{
    let mut left = cell.len();
    while left > 0 {
        left -= 1;
        if cell[left] == b':' {
            return Some(left);
        }
    }
    None
}

// A name that is not empty.
fn name_in(bytes: &[u8]) -> Option<&str>
    ensures { option_map (λ name. name.now) result ≡ name_spelled bytes.now }
{
    if bytes.is_empty() {
        None
    } else {
        text_in(bytes)
    }
}

// The name and the type in a header cell.
fn parts(cell: &[u8]) -> Option<(&str, DType)>
    ensures { option_and_then (λ part. column_of (Some part.0.now) (Some part.1)) result ≡ column_spelled cell.now }
{
    let at = last_colon(cell)?;
    match name_in(&cell[..at]) {
        Some(name) => match type_in(&cell[at + 1..]) {
            Some(dtype) => Some((name, dtype)),
            None => None,
        },
        None => None,
    }
}

/// The column that a header cell spells: a name of UTF-8 that is not empty, a colon and a type. The last colon divides.
pub fn column_in(alloc: Global, cell: &[u8]) -> Result<Option<ColumnDesc>, AllocError>
    ensures { IfOk result (λ column. column ≡ column_spelled cell.now) }
{
    match parts(cell) {
        Some((name, dtype)) => Ok(Some(ColumnDesc {
            name: Name::from_str(alloc, name)?,
            dtype,
        })),
        None => Ok(None),
    }
}

/// Appends the header cell of a column. A decimal has 0 to 38 digits behind the point.
pub fn push_header(text: &mut Vec<u8>, column: &ColumnDesc) -> Result<(), AllocError>
    requires { IsTrue (has_text column.now.dtype) }
    ensures { OnOk result (text.new.items ≡ text.old.items ++ header_text column.now) }
{
    text.extend_from_slice(column.name.as_str().as_bytes())?;
    text.extend_from_slice(b":")?;
    push_type(text, &column.dtype)
}

/// The header cell of a column. A decimal has 0 to 38 digits behind the point.
pub fn header_cell(alloc: Global, column: &ColumnDesc) -> Result<Buffer<u8>, AllocError>
    requires { IsTrue (has_text column.now.dtype) }
    ensures { IfOk result (λ cell. cell ≡ header_text column.now) }
{
    let mut text = Vec::new(alloc);
    push_header(&mut text, column)?;
    Ok(Buffer::from_vec(text))
}
