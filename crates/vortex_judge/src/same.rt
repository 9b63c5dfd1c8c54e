// Whether values, rows, types and columns are equal.
ghost use Rattle.std.specs.Prelude.{◌≡◌, ◌↔◌, IsTrue};

use crate::batch::PlainColumn;
use crate::rows::PlacedRow;
use vortex_array::{DType, Value};
use vortex_scan_types::WorkScope;

/// Whether two values are one.
pub fn same_value(a: &Value, b: &Value) -> bool
    ensures { IsTrue result ↔ (a.now ≡ b.now) }
{
    match (a, b) {
        (Value::Bool(a), Value::Bool(b)) => *a == *b,
        (Value::Int(a), Value::Int(b)) => *a == *b,
        (Value::Decimal(a), Value::Decimal(b)) => *a == *b,
        (Value::Utf8(a), Value::Utf8(b)) => a.as_str() == b.as_str(),
        (Value::Binary(a), Value::Binary(b)) => a.as_slice() == b.as_slice(),
        _ => false,
    }
}

// Whether two values or nulls are one.
fn same_cell(a: &Option<Value>, b: &Option<Value>) -> bool
    ensures { IsTrue result ↔ (a.now ≡ b.now) }
{
    match (a, b) {
        (None, None) => true,
        (Some(a), Some(b)) => same_value(a, b),
        _ => false,
    }
}

/// Whether two rows are one.
pub fn same_row(a: &[Option<Value>], b: &[Option<Value>]) -> bool
    ensures { IsTrue result ↔ (a.now ≡ b.now) }
{
    let [x, a @ ..] = a else {
        return b.is_empty();
    };
    let [y, b @ ..] = b else {
        return false;
    };
    same_cell(x, y) && same_row(a, b)
}

/// Whether two types are one.
pub fn same_dtype(a: &DType, b: &DType) -> bool
    ensures { IsTrue result ↔ (a.now ≡ b.now) }
{
    *a == *b
}

// Whether two columns are one.
fn same_column(a: &PlainColumn, b: &PlainColumn) -> bool
    ensures { IsTrue result ↔ (a.now ≡ b.now) }
{
    same_dtype(&a.dtype(), &b.dtype()) && same_row(a.rows(), b.rows())
}

/// Whether two lists of columns are one.
pub fn same_columns(a: &[PlainColumn], b: &[PlainColumn]) -> bool
    ensures { IsTrue result ↔ (a.now ≡ b.now) }
{
    let [x, a @ ..] = a else {
        return b.is_empty();
    };
    let [y, b @ ..] = b else {
        return false;
    };
    same_column(x, y) && same_columns(a, b)
}

// Whether two rows are one, with their places.
fn same_place(a: &PlacedRow, b: &PlacedRow) -> bool
    ensures { IsTrue result ↔ (a.now ≡ b.now) }
{
    a.partition() == b.partition() && a.row() == b.row() && same_row(a.values(), b.values())
}

/// Whether two lists of rows are one, with their places.
pub fn same_places(a: &[PlacedRow], b: &[PlacedRow]) -> bool
    ensures { IsTrue result ↔ (a.now ≡ b.now) }
{
    let [x, a @ ..] = a else {
        return b.is_empty();
    };
    let [y, b @ ..] = b else {
        return false;
    };
    same_place(x, y) && same_places(a, b)
}

/// Whether two scopes are one.
pub fn same_scope(a: &WorkScope, b: &WorkScope) -> bool
    ensures { IsTrue result ↔ (a.now ≡ b.now) }
{
    a.file_ordinal == b.file_ordinal && a.rows.start == b.rows.start && a.rows.end == b.rows.end
}
