// Parts of a column: rows in a line, those that a mask keeps, those at indices.
use crate::columns::{column, mask};
use crate::shown::shown;
use crate::stop::Stop;
use crate::words::{count, cut, yes_or_no};
use std::alloc::Global;
use vortex_array::Array;
use vortex_buffer::Mask;

/// The answer of a call that takes rows of a column.
pub(crate) fn answer(
    alloc: Global,
    call: &str,
    array: &Array,
    words: &str,
) -> Result<String, Stop> {
    match call {
        "slice" => slice(alloc, array, words),
        "filter" => filter(alloc, array, words),
        "take" => take(alloc, array, words),
        _ => names_rows(alloc, array, words),
    }
}

fn slice(alloc: Global, array: &Array, words: &str) -> Result<String, Stop> {
    let (start, end) = cut(words);
    let start = count(start)?;
    let end = count(end)?;
    if start > end || end > array.len() {
        return Err(Stop::NoSuchCall);
    }
    let part = array.slice(alloc, start..end)?;
    shown(alloc, &part)
}

fn filter(alloc: Global, array: &Array, words: &str) -> Result<String, Stop> {
    let mask = mask(alloc, words, array.len())?;
    filtered(alloc, array, &mask)
}

fn filtered(alloc: Global, array: &Array, mask: &Mask) -> Result<String, Stop> {
    if mask.len() != array.len() {
        return Err(Stop::NoSuchCall);
    }
    let kept = array.filter(alloc, mask)?;
    shown(alloc, &kept)
}

fn take(alloc: Global, array: &Array, words: &str) -> Result<String, Stop> {
    let indices = column(alloc, words)?;
    taken(alloc, array, &indices)
}

fn taken(alloc: Global, array: &Array, indices: &Array) -> Result<String, Stop> {
    if !indices.names_rows(array.len()) {
        return Err(Stop::NoSuchCall);
    }
    let part = array.take(alloc, indices)?;
    shown(alloc, &part)
}

fn names_rows(alloc: Global, array: &Array, words: &str) -> Result<String, Stop> {
    Ok(yes_or_no(array.names_rows(count(words)?)).to_string(alloc)?)
}
