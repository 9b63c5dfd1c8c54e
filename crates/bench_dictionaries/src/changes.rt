// Dictionaries cast, filled and asked for extremes. Each function owns one thing.
use crate::building::{Lent, dictionary, dictionary_with_nulls, other_type, value_like};
use crate::plain::{cast_in_column, extremes_in_column, fill_in_column};
use crate::repeating::{cast_times, extremes_times, fill_times};
use crate::telling::{Told, nothing};
use std::alloc::{AllocError, Global};
use vortex_array::{DType, Scalar};
use vortex_dict::DictArray;

// The rows, of a type, decoded before.
fn cast_decoded(
    alloc: Global,
    dict: &DictArray,
    dtype: &DType,
    times: usize,
) -> Result<Told, AllocError> {
    match dict.canonicalize(alloc) {
        Ok(rows) => cast_in_column(alloc, &rows, dtype, times),
        Err(e) => Err(e),
    }
}

// The rows, of another type.
fn cast(alloc: Global, lent: Lent<'_>, decoded: usize, times: usize) -> Result<Told, AllocError> {
    let dtype = other_type(lent);
    let dict = dictionary(alloc, lent)?;
    if decoded == 0 {
        cast_times(alloc, &dict, &dtype, times)
    } else {
        cast_decoded(alloc, &dict, &dtype, times)
    }
}

/// The rows, of another type: numbers as `i64`, texts with nulls.
#[unsafe(no_mangle)]
pub extern "C" fn bench_dictionary_cast(
    alloc: Global,
    narrow: &[u8],
    wide: &[u32],
    numbers: &[u64],
    bytes: &[u8],
    ends: &[usize],
    decoded: usize,
    times: usize,
) -> Told {
    let lent = Lent {
        narrow,
        wide,
        numbers,
        bytes,
        ends,
    };
    cast(alloc, lent, decoded, times).unwrap_or(nothing())
}

// The rows, and the fill in the place of nulls, decoded before.
fn fill_decoded(
    alloc: Global,
    dict: &DictArray,
    fill: &Scalar,
    times: usize,
) -> Result<Told, AllocError> {
    match dict.canonicalize(alloc) {
        Ok(rows) => fill_in_column(alloc, &rows, fill, times),
        Err(e) => Err(e),
    }
}

// The rows, and the fill in the place of nulls.
fn fill_with(
    alloc: Global,
    lent: Lent<'_>,
    valid: &[u64],
    fill: &Scalar,
    decoded: usize,
    times: usize,
) -> Result<Told, AllocError> {
    let dict = dictionary_with_nulls(alloc, lent, valid)?;
    if decoded == 0 {
        fill_times(alloc, &dict, fill, times)
    } else {
        fill_decoded(alloc, &dict, fill, times)
    }
}

/// The rows, and the text or the number in the place of those whose bit is not set.
#[unsafe(no_mangle)]
pub extern "C" fn bench_dictionary_fill(
    alloc: Global,
    narrow: &[u8],
    wide: &[u32],
    numbers: &[u64],
    bytes: &[u8],
    ends: &[usize],
    valid: &[u64],
    number: u64,
    text: &[u8],
    decoded: usize,
    times: usize,
) -> Told {
    let lent = Lent {
        narrow,
        wide,
        numbers,
        bytes,
        ends,
    };
    match value_like(alloc, lent, number, text) {
        Ok(fill) => fill_with(alloc, lent, valid, &fill, decoded, times).unwrap_or(nothing()),
        Err(_) => nothing(),
    }
}

// The least and the greatest row, decoded before.
fn extremes_decoded(alloc: Global, dict: &DictArray, times: usize) -> Result<Told, AllocError> {
    match dict.canonicalize(alloc) {
        Ok(rows) => extremes_in_column(alloc, &rows, times),
        Err(e) => Err(e),
    }
}

// The least and the greatest row.
fn extremes(
    alloc: Global,
    lent: Lent<'_>,
    decoded: usize,
    times: usize,
) -> Result<Told, AllocError> {
    let dict = dictionary(alloc, lent)?;
    if decoded == 0 {
        extremes_times(alloc, &dict, times)
    } else {
        extremes_decoded(alloc, &dict, times)
    }
}

/// The least and the greatest row.
#[unsafe(no_mangle)]
pub extern "C" fn bench_dictionary_extremes(
    alloc: Global,
    narrow: &[u8],
    wide: &[u32],
    numbers: &[u64],
    bytes: &[u8],
    ends: &[usize],
    decoded: usize,
    times: usize,
) -> Told {
    let lent = Lent {
        narrow,
        wide,
        numbers,
        bytes,
        ends,
    };
    extremes(alloc, lent, decoded, times).unwrap_or(nothing())
}
