// Calls on one column of whole numbers. Each function owns one column or one mask.
use crate::building::{column_of_i32, column_of_u64, mask_of_words};
use crate::repeating::{cast_times, filter_times, slice_times};
use crate::telling::{Told, nothing};
use std::alloc::{AllocError, Global};
use vortex_array::{DType, Nullability, PType};
use vortex_buffer::Mask;

// The rows of a column of `u64` that the mask keeps.
fn filtered_by(
    alloc: Global,
    values: &[u64],
    nulls: &[u64],
    mask: &Mask,
    times: usize,
) -> Result<Told, AllocError> {
    match column_of_u64(alloc, values, nulls) {
        Ok(rows) => filter_times(alloc, &rows, mask, times),
        Err(e) => Err(e),
    }
}

// The rows of a column of `u64` whose bit is set.
fn filtered(
    alloc: Global,
    values: &[u64],
    nulls: &[u64],
    mask: &[u64],
    times: usize,
) -> Result<Told, AllocError> {
    match mask_of_words(alloc, mask, values.len()) {
        Ok(mask) => filtered_by(alloc, values, nulls, &mask, times),
        Err(e) => Err(e),
    }
}

/// The rows of a column of `u64` whose bit is set in the mask.
#[unsafe(no_mangle)]
pub extern "C" fn bench_column_filter(
    alloc: Global,
    values: &[u64],
    nulls: &[u64],
    mask: &[u64],
    times: usize,
) -> Told {
    filtered(alloc, values, nulls, mask, times).unwrap_or(nothing())
}

// The rows of a column of `u64` from one place up to another.
fn sliced(
    alloc: Global,
    values: &[u64],
    nulls: &[u64],
    start: usize,
    end: usize,
    times: usize,
) -> Result<Told, AllocError> {
    match column_of_u64(alloc, values, nulls) {
        Ok(rows) => slice_times(alloc, &rows, start, end, times),
        Err(e) => Err(e),
    }
}

/// The rows of a column of `u64` from one place up to another.
#[unsafe(no_mangle)]
pub extern "C" fn bench_column_slice(
    alloc: Global,
    values: &[u64],
    nulls: &[u64],
    start: usize,
    end: usize,
    times: usize,
) -> Told {
    sliced(alloc, values, nulls, start, end, times).unwrap_or(nothing())
}

// A column of `i32` as one of `i64`.
fn cast(alloc: Global, values: &[i32], nulls: &[u64], times: usize) -> Result<Told, AllocError> {
    let dtype = DType::Primitive(PType::I64, Nullability::Nullable);
    match column_of_i32(alloc, values, nulls) {
        Ok(rows) => cast_times(alloc, &rows, &dtype, times),
        Err(e) => Err(e),
    }
}

/// A column of `i32` as one of `i64`.
#[unsafe(no_mangle)]
pub extern "C" fn bench_column_cast(
    alloc: Global,
    values: &[i32],
    nulls: &[u64],
    times: usize,
) -> Told {
    cast(alloc, values, nulls, times).unwrap_or(nothing())
}
