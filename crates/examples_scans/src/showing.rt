// Batches as text.
use std::alloc::{AllocError, Global};
use vortex_array::{RecordBatch, ValueRef};
use vortex_scan::Batch;

// Adds a value behind two spaces.
fn push_value(
    text: &mut String,
    alloc: Global,
    value: Option<ValueRef<'_>>,
) -> Result<(), AllocError> {
    match value {
        Some(ValueRef::Int(number)) => text.push_str(format!(in alloc; "  {number}")?.as_str()),
        Some(ValueRef::Utf8(word)) => text.push_str(format!(in alloc; "  {word}")?.as_str()),
        _ => text.push_str("  null"),
    }
}

// Adds a row in a line.
fn push_row(
    text: &mut String,
    alloc: Global,
    rows: &RecordBatch,
    row: usize,
) -> Result<(), AllocError> {
    for column in rows.columns() {
        if row < column.len() {
            push_value(text, alloc, column.value_at(row))?;
        }
    }
    text.push('\n')
}

// Adds a batch: where its rows stand, and each of them.
fn push_batch(text: &mut String, alloc: Global, batch: &Batch) -> Result<(), AllocError> {
    let scope = batch.scope();
    let start = scope.rows.start;
    let end = scope.rows.end;
    let head = format!(in alloc;
        "of rows {start}..{end} of partition {}\n",
        scope.file_ordinal
    )?;
    text.push_str(head.as_str())?;
    for row in 0..batch.array().rows() {
        push_row(text, alloc, batch.array(), row)?;
    }
    Ok(())
}

/// The batches, and how many chunks came.
pub(crate) fn report(alloc: Global, batches: &[Batch], came: u64) -> Result<String, AllocError> {
    let mut text = String::new(alloc);
    for batch in batches {
        push_batch(&mut text, alloc, batch)?;
    }
    text.push_str(format!(in alloc; "{came} chunks came\n")?.as_str())?;
    Ok(text)
}
