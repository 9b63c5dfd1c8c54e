// The C names. Each function owns one column.
use crate::building::{column_of_texts, column_of_u64};
use crate::encoding::encode_times;
use crate::telling::{Told, nothing};
use std::alloc::{AllocError, Global};

// A column of numbers as a dictionary, so many times.
fn encoded_numbers(alloc: Global, numbers: &[u64], times: usize) -> Result<Told, AllocError> {
    match column_of_u64(alloc, numbers) {
        Ok(rows) => encode_times(alloc, &rows, times),
        Err(e) => Err(e),
    }
}

/// A column of numbers as a dictionary, so many times.
#[unsafe(no_mangle)]
pub extern "C" fn bench_encode_numbers(alloc: Global, numbers: &[u64], times: usize) -> Told {
    encoded_numbers(alloc, numbers, times).unwrap_or(nothing())
}

// A column of texts as a dictionary, so many times.
fn encoded_texts(
    alloc: Global,
    bytes: &[u8],
    ends: &[usize],
    times: usize,
) -> Result<Told, AllocError> {
    match column_of_texts(alloc, bytes, ends) {
        Ok(rows) => encode_times(alloc, &rows, times),
        Err(e) => Err(e),
    }
}

/// A column of texts as a dictionary, so many times.
#[unsafe(no_mangle)]
pub extern "C" fn bench_encode_texts(
    alloc: Global,
    bytes: &[u8],
    ends: &[usize],
    times: usize,
) -> Told {
    encoded_texts(alloc, bytes, ends, times).unwrap_or(nothing())
}
