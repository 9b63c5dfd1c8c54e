// Batches of columns.
use crate::columns::column;
use crate::shown::push_column;
use crate::stop::Stop;
use crate::words::{count, cut};
use std::alloc::Global;
use vortex_array::{Array, RecordBatch};

// The columns of words.
fn columns(alloc: Global, words: &str) -> Result<Vec<Array>, Stop> {
    let mut columns = Vec::new(alloc);
    if words.is_empty() {
        return Ok(columns);
    }
    for word in words.split(' ') {
        columns.push(column(alloc, word)?)?;
    }
    Ok(columns)
}

// A batch as its number of rows and its columns.
fn shown(alloc: Global, batch: &RecordBatch) -> Result<String, Stop> {
    let rows = batch.rows();
    let mut text = format!(in alloc; "{rows} rows")?;
    for i in 0..batch.column_count() {
        text.push(' ')?;
        push_column(&mut text, alloc, batch.column(i))?;
    }
    Ok(text)
}

/// A batch of so many rows and these columns.
pub(crate) fn batch(alloc: Global, words: &str) -> Result<String, Stop> {
    let (rows, words) = cut(words);
    let rows = count(rows)?;
    match RecordBatch::try_new(rows, columns(alloc, words)?) {
        Ok(batch) => shown(alloc, &batch),
        Err(_) => Ok("another length".to_string(alloc)?),
    }
}

/// The first rows, so many, of a batch of so many rows and these columns.
pub(crate) fn head(alloc: Global, words: &str) -> Result<String, Stop> {
    let (k, words) = cut(words);
    let (rows, words) = cut(words);
    let k = count(k)?;
    let rows = count(rows)?;
    match RecordBatch::try_new(rows, columns(alloc, words)?) {
        Ok(batch) => head_of(alloc, &batch, k),
        Err(_) => Ok("another length".to_string(alloc)?),
    }
}

fn head_of(alloc: Global, batch: &RecordBatch, k: usize) -> Result<String, Stop> {
    if k > batch.rows() {
        return Err(Stop::NoSuchCall);
    }
    let head = batch.head(alloc, k)?;
    shown(alloc, &head)
}
