// Batches as text.
use std::alloc::{AllocError, Global};
use vortex_array::{Array, ValueRef};
use vortex_scan::Batch;

// Adds a row that is a number.
fn push_row(text: &mut String, alloc: Global, row: Option<ValueRef<'_>>) -> Result<(), AllocError> {
    if let Some(ValueRef::Int(number)) = row {
        text.push_str(format!(in alloc; " {number}")?.as_str())?;
    }
    Ok(())
}

// Adds the numbers of a column.
fn push_column(text: &mut String, alloc: Global, column: &Array) -> Result<(), AllocError> {
    for row in 0..column.len() {
        push_row(text, alloc, column.value_at(row))?;
    }
    Ok(())
}

// Adds a batch in a line: its place and its numbers.
fn push_batch(text: &mut String, alloc: Global, batch: &Batch) -> Result<(), AllocError> {
    for number in batch.place().as_slice() {
        text.push_str(format!(in alloc; "{number}.")?.as_str())?;
    }
    for column in batch.array().columns() {
        push_column(text, alloc, column)?;
    }
    text.push('\n')
}

/// The batches, and how many chunks came.
pub(crate) fn report(alloc: Global, batches: &[Batch], came: u64) -> Result<String, AllocError> {
    let mut text = String::new(alloc);
    for batch in batches {
        push_batch(&mut text, alloc, batch)?;
    }
    text.push_str(format!(in alloc; "{came} chunks came\n")?.as_str())?;
    Ok(text)
}
