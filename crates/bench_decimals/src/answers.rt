// Answers of decimals row by row. Each function owns one thing.
use crate::building::{Lent, decimals, equal_rows, plain};
use crate::plain::{below_in_column, between_in_column};
use crate::repeating::{below_times, between_times};
use crate::telling::{Told, nothing};
use std::alloc::{AllocError, Global};
use vortex_array::Array;

// Whether decimals in parts are below a bound.
fn below_parts(
    alloc: Global,
    lent: Lent<'_>,
    bound: &Array,
    times: usize,
) -> Result<Told, AllocError> {
    match decimals(alloc, lent) {
        Ok(parts) => below_times(alloc, &parts, bound, times),
        Err(e) => Err(e),
    }
}

// Whether plain decimals are below a bound.
fn below_plain(
    alloc: Global,
    lent: Lent<'_>,
    bound: &Array,
    times: usize,
) -> Result<Told, AllocError> {
    match plain(alloc, lent) {
        Ok(rows) => below_in_column(alloc, &Array::Decimal(rows), bound, times),
        Err(e) => Err(e),
    }
}

// Whether the decimals are below a number of two parts.
fn below(
    alloc: Global,
    lent: Lent<'_>,
    number: (i64, u64),
    decoded: usize,
    times: usize,
) -> Result<Told, AllocError> {
    let bound = equal_rows(number.0, number.1, lent.msp.len())?;
    if decoded == 0 {
        below_parts(alloc, lent, &bound, times)
    } else {
        below_plain(alloc, lent, &bound, times)
    }
}

/// Whether the decimals are below a number of two parts.
#[unsafe(no_mangle)]
pub extern "C" fn bench_decimal_below(
    alloc: Global,
    msp: &[i64],
    lower: &[u64],
    high: i64,
    low: u64,
    decoded: usize,
    times: usize,
) -> Told {
    below(alloc, Lent { msp, lower }, (high, low), decoded, times).unwrap_or(nothing())
}

// Whether decimals in parts lie between bounds.
fn between_parts(
    alloc: Global,
    lent: Lent<'_>,
    least: &Array,
    end: &Array,
    times: usize,
) -> Result<Told, AllocError> {
    match decimals(alloc, lent) {
        Ok(parts) => between_times(alloc, &parts, least, end, times),
        Err(e) => Err(e),
    }
}

// Whether plain decimals lie between bounds.
fn between_plain(
    alloc: Global,
    lent: Lent<'_>,
    least: &Array,
    end: &Array,
    times: usize,
) -> Result<Told, AllocError> {
    match plain(alloc, lent) {
        Ok(rows) => between_in_column(alloc, &Array::Decimal(rows), least, end, times),
        Err(e) => Err(e),
    }
}

// Whether the decimals lie between a bound and a number of two parts, itself left out.
fn between_bound(
    alloc: Global,
    lent: Lent<'_>,
    least: &Array,
    end: (i64, u64),
    decoded: usize,
    times: usize,
) -> Result<Told, AllocError> {
    let end = equal_rows(end.0, end.1, lent.msp.len())?;
    if decoded == 0 {
        between_parts(alloc, lent, least, &end, times)
    } else {
        between_plain(alloc, lent, least, &end, times)
    }
}

// Whether the decimals lie between two numbers of two parts, the second left out.
fn between(
    alloc: Global,
    lent: Lent<'_>,
    least: (i64, u64),
    end: (i64, u64),
    decoded: usize,
    times: usize,
) -> Result<Told, AllocError> {
    match equal_rows(least.0, least.1, lent.msp.len()) {
        Ok(least) => between_bound(alloc, lent, &least, end, decoded, times),
        Err(e) => Err(e),
    }
}

/// Whether the decimals lie between two numbers of two parts, the second left out.
#[unsafe(no_mangle)]
pub extern "C" fn bench_decimal_between(
    alloc: Global,
    msp: &[i64],
    lower: &[u64],
    least_high: i64,
    least_low: u64,
    end_high: i64,
    end_low: u64,
    decoded: usize,
    times: usize,
) -> Told {
    let least = (least_high, least_low);
    let end = (end_high, end_low);
    between(alloc, Lent { msp, lower }, least, end, decoded, times).unwrap_or(nothing())
}
