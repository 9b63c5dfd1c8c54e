// Columns read row by row.
use std::alloc::{AllocError, Global};
use vortex_array::{Array, MinMax, ValueRef};

fn push_number(text: &mut String, alloc: Global, number: i128) -> Result<(), AllocError> {
    text.push_str(format!(in alloc; "{number}")?.as_str())
}

// A row: a value that the column lends, or null.
fn push_row(text: &mut String, alloc: Global, row: Option<ValueRef<'_>>) -> Result<(), AllocError> {
    match row {
        None => text.push_str("null"),
        Some(ValueRef::Bool(truth)) => text.push_str(if truth { "true" } else { "false" }),
        Some(ValueRef::Int(number)) => push_number(text, alloc, number),
        Some(ValueRef::Decimal(unscaled)) => push_number(text, alloc, unscaled),
        Some(ValueRef::Utf8(letters)) => text.push_str(letters),
        Some(ValueRef::Binary(bytes)) => push_number(text, alloc, bytes.len() as i128),
    }
}

/// Adds the rows of a column to a text, in a line.
pub(crate) fn push_column(
    text: &mut String,
    alloc: Global,
    column: &Array,
) -> Result<(), AllocError> {
    for row in 0..column.len() {
        text.push_str("  ")?;
        push_row(text, alloc, column.value_at(row))?;
    }
    text.push('\n')
}

fn push_pair(text: &mut String, alloc: Global, found: &MinMax) -> Result<(), AllocError> {
    text.push_str("  ")?;
    push_row(text, alloc, found.min.value_ref())?;
    text.push_str("  ")?;
    push_row(text, alloc, found.max.value_ref())
}

/// Adds the least and the greatest value of a column to a text, in a line.
pub(crate) fn push_extremes(
    text: &mut String,
    alloc: Global,
    column: &Array,
) -> Result<(), AllocError> {
    if let Some(found) = column.min_max(alloc)? {
        push_pair(text, alloc, &found)?;
    }
    text.push('\n')
}
