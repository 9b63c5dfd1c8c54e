// Calls on two columns of whole numbers. Each function owns one of them.
use crate::building::{column_of_i32, column_of_u64, equal_numbers};
use crate::repeating::{below_times, take_times};
use crate::telling::{Told, nothing};
use std::alloc::{AllocError, Global};
use vortex_array::Array;

// The rows of a column of `u64` at the places of another.
fn taken_at(
    alloc: Global,
    values: &[u64],
    nulls: &[u64],
    places: &Array,
    times: usize,
) -> Result<Told, AllocError> {
    match column_of_u64(alloc, values, nulls) {
        Ok(rows) => take_times(alloc, &rows, places, times),
        Err(e) => Err(e),
    }
}

// The rows of a column of `u64` at places.
fn taken(
    alloc: Global,
    values: &[u64],
    nulls: &[u64],
    places: &[u64],
    times: usize,
) -> Result<Told, AllocError> {
    match column_of_u64(alloc, places, &[]) {
        Ok(places) => taken_at(alloc, values, nulls, &places, times),
        Err(e) => Err(e),
    }
}

/// The rows of a column of `u64` at places.
#[unsafe(no_mangle)]
pub extern "C" fn bench_column_take(
    alloc: Global,
    values: &[u64],
    nulls: &[u64],
    places: &[u64],
    times: usize,
) -> Told {
    taken(alloc, values, nulls, places, times).unwrap_or(nothing())
}

// Whether the rows of a column of `u64` are below those of another.
fn below_rows(
    alloc: Global,
    values: &[u64],
    nulls: &[u64],
    bound: &Array,
    times: usize,
) -> Result<Told, AllocError> {
    match column_of_u64(alloc, values, nulls) {
        Ok(rows) => below_times(alloc, &rows, bound, times),
        Err(e) => Err(e),
    }
}

// Whether the rows of a column of `u64` are below a number.
fn below(
    alloc: Global,
    values: &[u64],
    nulls: &[u64],
    number: u64,
    times: usize,
) -> Result<Told, AllocError> {
    match equal_numbers(number, values.len()) {
        Ok(bound) => below_rows(alloc, values, nulls, &bound, times),
        Err(e) => Err(e),
    }
}

/// Whether the rows of a column of `u64` are below a number.
#[unsafe(no_mangle)]
pub extern "C" fn bench_column_below(
    alloc: Global,
    values: &[u64],
    nulls: &[u64],
    number: u64,
    times: usize,
) -> Told {
    below(alloc, values, nulls, number, times).unwrap_or(nothing())
}

// Whether the rows of a column of `i32` are below those of another.
fn below_column(
    alloc: Global,
    values: &[i32],
    nulls: &[u64],
    right: &Array,
    times: usize,
) -> Result<Told, AllocError> {
    match column_of_i32(alloc, values, nulls) {
        Ok(rows) => below_times(alloc, &rows, right, times),
        Err(e) => Err(e),
    }
}

// Whether the numbers are below others, row by row.
fn below_each(
    alloc: Global,
    left: &[i32],
    right: &[i32],
    nulls: &[u64],
    times: usize,
) -> Result<Told, AllocError> {
    match column_of_i32(alloc, right, nulls) {
        Ok(right) => below_column(alloc, left, nulls, &right, times),
        Err(e) => Err(e),
    }
}

/// Whether the rows of a column of `i32` are below those of another, both null in the same rows.
#[unsafe(no_mangle)]
pub extern "C" fn bench_column_below_each(
    alloc: Global,
    left: &[i32],
    right: &[i32],
    nulls: &[u64],
    times: usize,
) -> Told {
    below_each(alloc, left, right, nulls, times).unwrap_or(nothing())
}
