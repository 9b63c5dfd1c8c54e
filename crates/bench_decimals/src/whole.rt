// Decimals split, and put together. Each function owns one column.
use crate::building::{Lent, columns_of, plain};
use crate::repeating::{assemble_times, split_times};
use crate::telling::{Told, nothing};
use std::alloc::{AllocError, Global};

// Decimals split in parts.
fn split(alloc: Global, lent: Lent<'_>, times: usize) -> Result<Told, AllocError> {
    match plain(alloc, lent) {
        Ok(decimals) => split_times(alloc, &decimals, times),
        Err(e) => Err(e),
    }
}

/// Decimals split in parts.
#[unsafe(no_mangle)]
pub extern "C" fn bench_decimal_split(
    alloc: Global,
    msp: &[i64],
    lower: &[u64],
    times: usize,
) -> Told {
    split(alloc, Lent { msp, lower }, times).unwrap_or(nothing())
}

// Parts put together.
fn assemble(alloc: Global, lent: Lent<'_>, times: usize) -> Result<Told, AllocError> {
    match columns_of(alloc, lent) {
        Ok(parts) => assemble_times(alloc, &parts, times),
        Err(e) => Err(e),
    }
}

/// Parts put together.
#[unsafe(no_mangle)]
pub extern "C" fn bench_decimal_assemble(
    alloc: Global,
    msp: &[i64],
    lower: &[u64],
    times: usize,
) -> Told {
    assemble(alloc, Lent { msp, lower }, times).unwrap_or(nothing())
}
