// Dictionaries decoded, and parts of their rows. Each function owns one thing.
use crate::building::{Lent, column_of_u64, dictionary, mask_of_words};
use crate::plain::{filter_in_column, slice_in_column, take_in_column};
use crate::repeating::{decode_times, filter_times, slice_times, take_times};
use crate::telling::{Told, nothing};
use std::alloc::{AllocError, Global};
use vortex_array::Array;
use vortex_buffer::Mask;
use vortex_dict::DictArray;

// The rows as a plain array.
fn decode(alloc: Global, lent: Lent<'_>, times: usize) -> Result<Told, AllocError> {
    match dictionary(alloc, lent) {
        Ok(dict) => decode_times(alloc, &dict, times),
        Err(e) => Err(e),
    }
}

/// The rows as a plain array.
#[unsafe(no_mangle)]
pub extern "C" fn bench_dictionary_decode(
    alloc: Global,
    narrow: &[u8],
    wide: &[u32],
    numbers: &[u64],
    bytes: &[u8],
    ends: &[usize],
    times: usize,
) -> Told {
    let lent = Lent {
        narrow,
        wide,
        numbers,
        bytes,
        ends,
    };
    decode(alloc, lent, times).unwrap_or(nothing())
}

// The rows that the mask keeps, decoded before.
fn filter_decoded(
    alloc: Global,
    dict: &DictArray,
    mask: &Mask,
    times: usize,
) -> Result<Told, AllocError> {
    match dict.canonicalize(alloc) {
        Ok(rows) => filter_in_column(alloc, &rows, mask, times),
        Err(e) => Err(e),
    }
}

// The rows that the mask keeps.
fn filter_by(
    alloc: Global,
    lent: Lent<'_>,
    mask: &Mask,
    decoded: usize,
    times: usize,
) -> Result<Told, AllocError> {
    let dict = dictionary(alloc, lent)?;
    if decoded == 0 {
        filter_times(alloc, &dict, mask, times)
    } else {
        filter_decoded(alloc, &dict, mask, times)
    }
}

// The rows whose bit is set.
fn filter(
    alloc: Global,
    lent: Lent<'_>,
    mask: &[u64],
    decoded: usize,
    times: usize,
) -> Result<Told, AllocError> {
    match mask_of_words(alloc, mask, lent.rows()) {
        Ok(mask) => filter_by(alloc, lent, &mask, decoded, times),
        Err(e) => Err(e),
    }
}

/// The rows whose bit is set in the mask.
#[unsafe(no_mangle)]
pub extern "C" fn bench_dictionary_filter(
    alloc: Global,
    narrow: &[u8],
    wide: &[u32],
    numbers: &[u64],
    bytes: &[u8],
    ends: &[usize],
    mask: &[u64],
    decoded: usize,
    times: usize,
) -> Told {
    let lent = Lent {
        narrow,
        wide,
        numbers,
        bytes,
        ends,
    };
    filter(alloc, lent, mask, decoded, times).unwrap_or(nothing())
}

// The rows at the places, decoded before.
fn take_decoded(
    alloc: Global,
    dict: &DictArray,
    places: &Array,
    times: usize,
) -> Result<Told, AllocError> {
    match dict.canonicalize(alloc) {
        Ok(rows) => take_in_column(alloc, &rows, places, times),
        Err(e) => Err(e),
    }
}

// The rows at the places.
fn take_at(
    alloc: Global,
    lent: Lent<'_>,
    places: &Array,
    decoded: usize,
    times: usize,
) -> Result<Told, AllocError> {
    let dict = dictionary(alloc, lent)?;
    if decoded == 0 {
        take_times(alloc, &dict, places, times)
    } else {
        take_decoded(alloc, &dict, places, times)
    }
}

// The rows at places.
fn take(
    alloc: Global,
    lent: Lent<'_>,
    places: &[u64],
    decoded: usize,
    times: usize,
) -> Result<Told, AllocError> {
    match column_of_u64(alloc, places) {
        Ok(places) => take_at(alloc, lent, &places, decoded, times),
        Err(e) => Err(e),
    }
}

/// The rows at places.
#[unsafe(no_mangle)]
pub extern "C" fn bench_dictionary_take(
    alloc: Global,
    narrow: &[u8],
    wide: &[u32],
    numbers: &[u64],
    bytes: &[u8],
    ends: &[usize],
    places: &[u64],
    decoded: usize,
    times: usize,
) -> Told {
    let lent = Lent {
        narrow,
        wide,
        numbers,
        bytes,
        ends,
    };
    take(alloc, lent, places, decoded, times).unwrap_or(nothing())
}

// The rows from one place up to another, decoded before.
fn slice_decoded(
    alloc: Global,
    dict: &DictArray,
    start: usize,
    end: usize,
    times: usize,
) -> Result<Told, AllocError> {
    match dict.canonicalize(alloc) {
        Ok(rows) => slice_in_column(alloc, &rows, start, end, times),
        Err(e) => Err(e),
    }
}

// The rows from one place up to another.
fn slice(
    alloc: Global,
    lent: Lent<'_>,
    start: usize,
    end: usize,
    decoded: usize,
    times: usize,
) -> Result<Told, AllocError> {
    let dict = dictionary(alloc, lent)?;
    if decoded == 0 {
        slice_times(alloc, &dict, start, end, times)
    } else {
        slice_decoded(alloc, &dict, start, end, times)
    }
}

/// The rows from one place up to another.
#[unsafe(no_mangle)]
pub extern "C" fn bench_dictionary_slice(
    alloc: Global,
    narrow: &[u8],
    wide: &[u32],
    numbers: &[u64],
    bytes: &[u8],
    ends: &[usize],
    start: usize,
    end: usize,
    decoded: usize,
    times: usize,
) -> Told {
    let lent = Lent {
        narrow,
        wide,
        numbers,
        bytes,
        ends,
    };
    slice(alloc, lent, start, end, decoded, times).unwrap_or(nothing())
}
