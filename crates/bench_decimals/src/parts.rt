// Parts of the rows of decimals. Each function owns one thing.
use crate::building::{Lent, column_of_u64, decimals, mask_of_words, plain};
use crate::plain::{filter_in_column, take_in_column};
use crate::repeating::{filter_times, take_times};
use crate::telling::{Told, nothing};
use std::alloc::{AllocError, Global};
use vortex_array::Array;
use vortex_buffer::Mask;

// The rows of decimals in parts that the mask keeps.
fn filter_parts(
    alloc: Global,
    lent: Lent<'_>,
    mask: &Mask,
    times: usize,
) -> Result<Told, AllocError> {
    match decimals(alloc, lent) {
        Ok(parts) => filter_times(alloc, &parts, mask, times),
        Err(e) => Err(e),
    }
}

// The rows of plain decimals that the mask keeps.
fn filter_plain(
    alloc: Global,
    lent: Lent<'_>,
    mask: &Mask,
    times: usize,
) -> Result<Told, AllocError> {
    match plain(alloc, lent) {
        Ok(rows) => filter_in_column(alloc, &Array::Decimal(rows), mask, times),
        Err(e) => Err(e),
    }
}

// The rows whose bit is set.
fn filter(
    alloc: Global,
    lent: Lent<'_>,
    mask: &[u64],
    decoded: usize,
    times: usize,
) -> Result<Told, AllocError> {
    let mask = mask_of_words(alloc, mask, lent.msp.len())?;
    if decoded == 0 {
        filter_parts(alloc, lent, &mask, times)
    } else {
        filter_plain(alloc, lent, &mask, times)
    }
}

/// The rows whose bit is set in the mask.
#[unsafe(no_mangle)]
pub extern "C" fn bench_decimal_filter(
    alloc: Global,
    msp: &[i64],
    lower: &[u64],
    mask: &[u64],
    decoded: usize,
    times: usize,
) -> Told {
    filter(alloc, Lent { msp, lower }, mask, decoded, times).unwrap_or(nothing())
}

// The rows of decimals in parts at the places.
fn take_parts(
    alloc: Global,
    lent: Lent<'_>,
    places: &Array,
    times: usize,
) -> Result<Told, AllocError> {
    match decimals(alloc, lent) {
        Ok(parts) => take_times(alloc, &parts, places, times),
        Err(e) => Err(e),
    }
}

// The rows of plain decimals at the places.
fn take_plain(
    alloc: Global,
    lent: Lent<'_>,
    places: &Array,
    times: usize,
) -> Result<Told, AllocError> {
    match plain(alloc, lent) {
        Ok(rows) => take_in_column(alloc, &Array::Decimal(rows), places, times),
        Err(e) => Err(e),
    }
}

// The rows at places.
fn take(
    alloc: Global,
    lent: Lent<'_>,
    places: &[u64],
    decoded: usize,
    times: usize,
) -> Result<Told, AllocError> {
    let places = column_of_u64(alloc, places)?;
    if decoded == 0 {
        take_parts(alloc, lent, &places, times)
    } else {
        take_plain(alloc, lent, &places, times)
    }
}

/// The rows at places.
#[unsafe(no_mangle)]
pub extern "C" fn bench_decimal_take(
    alloc: Global,
    msp: &[i64],
    lower: &[u64],
    places: &[u64],
    decoded: usize,
    times: usize,
) -> Told {
    take(alloc, Lent { msp, lower }, places, decoded, times).unwrap_or(nothing())
}
