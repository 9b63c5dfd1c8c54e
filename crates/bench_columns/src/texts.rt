// Calls on columns of texts. Each function owns one column or one mask.
use crate::building::{column_of_texts, equal_texts, mask_of_words};
use crate::repeating::{below_times, filter_times, like_times};
use crate::telling::{Told, nothing};
use std::alloc::{AllocError, Global};
use vortex_array::Array;
use vortex_buffer::Mask;

// The rows of a column of texts that the mask keeps.
fn filtered_by(
    alloc: Global,
    bytes: &[u8],
    ends: &[usize],
    nulls: &[u64],
    mask: &Mask,
    times: usize,
) -> Result<Told, AllocError> {
    match column_of_texts(alloc, bytes, ends, nulls) {
        Ok(rows) => filter_times(alloc, &rows, mask, times),
        Err(e) => Err(e),
    }
}

// The rows of a column of texts whose bit is set.
fn filtered(
    alloc: Global,
    bytes: &[u8],
    ends: &[usize],
    nulls: &[u64],
    mask: &[u64],
    times: usize,
) -> Result<Told, AllocError> {
    match mask_of_words(alloc, mask, ends.len()) {
        Ok(mask) => filtered_by(alloc, bytes, ends, nulls, &mask, times),
        Err(e) => Err(e),
    }
}

/// The rows of a column of texts whose bit is set in the mask.
#[unsafe(no_mangle)]
pub extern "C" fn bench_texts_filter(
    alloc: Global,
    bytes: &[u8],
    ends: &[usize],
    nulls: &[u64],
    mask: &[u64],
    times: usize,
) -> Told {
    filtered(alloc, bytes, ends, nulls, mask, times).unwrap_or(nothing())
}

// Whether the rows of a column of texts are below those of another.
fn below_rows(
    alloc: Global,
    bytes: &[u8],
    ends: &[usize],
    nulls: &[u64],
    bound: &Array,
    times: usize,
) -> Result<Told, AllocError> {
    match column_of_texts(alloc, bytes, ends, nulls) {
        Ok(rows) => below_times(alloc, &rows, bound, times),
        Err(e) => Err(e),
    }
}

// Whether the rows of a column of texts are below a text.
fn below(
    alloc: Global,
    bytes: &[u8],
    ends: &[usize],
    nulls: &[u64],
    text: &str,
    times: usize,
) -> Result<Told, AllocError> {
    match equal_texts(alloc, text, ends.len()) {
        Ok(bound) => below_rows(alloc, bytes, ends, nulls, &bound, times),
        Err(e) => Err(e),
    }
}

/// Whether the rows of a column of texts are below a text.
#[unsafe(no_mangle)]
pub extern "C" fn bench_texts_below(
    alloc: Global,
    bytes: &[u8],
    ends: &[usize],
    nulls: &[u64],
    text: &[u8],
    times: usize,
) -> Told {
    match std::str::from_utf8(text) {
        Ok(text) => below(alloc, bytes, ends, nulls, text, times).unwrap_or(nothing()),
        Err(_) => nothing(),
    }
}

// Whether the rows of a column of texts match the patterns of another.
fn like_rows(
    alloc: Global,
    bytes: &[u8],
    ends: &[usize],
    nulls: &[u64],
    patterns: &Array,
    times: usize,
) -> Result<Told, AllocError> {
    match column_of_texts(alloc, bytes, ends, nulls) {
        Ok(rows) => like_times(alloc, &rows, patterns, times),
        Err(e) => Err(e),
    }
}

// Whether the rows of a column of texts match a pattern.
fn like(
    alloc: Global,
    bytes: &[u8],
    ends: &[usize],
    nulls: &[u64],
    pattern: &str,
    times: usize,
) -> Result<Told, AllocError> {
    match equal_texts(alloc, pattern, ends.len()) {
        Ok(patterns) => like_rows(alloc, bytes, ends, nulls, &patterns, times),
        Err(e) => Err(e),
    }
}

/// Whether the rows of a column of texts match a pattern.
#[unsafe(no_mangle)]
pub extern "C" fn bench_texts_like(
    alloc: Global,
    bytes: &[u8],
    ends: &[usize],
    nulls: &[u64],
    pattern: &[u8],
    times: usize,
) -> Told {
    match std::str::from_utf8(pattern) {
        Ok(pattern) => like(alloc, bytes, ends, nulls, pattern, times).unwrap_or(nothing()),
        Err(_) => nothing(),
    }
}
