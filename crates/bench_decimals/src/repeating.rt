// Calls on decimals in parts that are made so many times, at least once.
use crate::building::Columns;
use crate::once::{assemble_once, below_once, between_once, filter_once, split_once, take_once};
use crate::telling::Told;
use std::alloc::{AllocError, Global};
use vortex_array::{Array, DecimalArray};
use vortex_buffer::Mask;
use vortex_decimal_byte_parts::DecimalByteParts;

/// Decimals split in parts.
pub fn split_times(
    alloc: Global,
    decimals: &DecimalArray,
    times: usize,
) -> Result<Told, AllocError> {
    let mut told = split_once(alloc, decimals)?;
    for _ in 1..times {
        told = split_once(alloc, decimals)?;
    }
    Ok(told)
}

/// Parts put together.
pub fn assemble_times(alloc: Global, parts: &Columns, times: usize) -> Result<Told, AllocError> {
    let mut told = assemble_once(alloc, parts)?;
    for _ in 1..times {
        told = assemble_once(alloc, parts)?;
    }
    Ok(told)
}

/// Row by row whether the decimals are below a constant.
pub fn below_times(
    alloc: Global,
    parts: &DecimalByteParts,
    bound: &Array,
    times: usize,
) -> Result<Told, AllocError> {
    if parts.len() != bound.len() {
        return Err(AllocError);
    }
    if !parts.dtype().same_apart_from_nullability(&bound.dtype()) {
        return Err(AllocError);
    }
    let mut told = below_once(alloc, parts, bound)?;
    for _ in 1..times {
        told = below_once(alloc, parts, bound)?;
    }
    Ok(told)
}

/// Row by row whether the decimals lie between bounds.
pub fn between_times(
    alloc: Global,
    parts: &DecimalByteParts,
    lower: &Array,
    upper: &Array,
    times: usize,
) -> Result<Told, AllocError> {
    if parts.len() != lower.len() {
        return Err(AllocError);
    }
    if !parts.dtype().same_apart_from_nullability(&lower.dtype()) {
        return Err(AllocError);
    }
    if parts.len() != upper.len() {
        return Err(AllocError);
    }
    if !parts.dtype().same_apart_from_nullability(&upper.dtype()) {
        return Err(AllocError);
    }
    let mut told = between_once(alloc, parts, lower, upper)?;
    for _ in 1..times {
        told = between_once(alloc, parts, lower, upper)?;
    }
    Ok(told)
}

/// The rows that the mask keeps.
pub fn filter_times(
    alloc: Global,
    parts: &DecimalByteParts,
    mask: &Mask,
    times: usize,
) -> Result<Told, AllocError> {
    if parts.len() != mask.len() {
        return Err(AllocError);
    }
    let mut told = filter_once(alloc, parts, mask)?;
    for _ in 1..times {
        told = filter_once(alloc, parts, mask)?;
    }
    Ok(told)
}

/// The rows at the places.
pub fn take_times(
    alloc: Global,
    parts: &DecimalByteParts,
    places: &Array,
    times: usize,
) -> Result<Told, AllocError> {
    if !places.names_rows(parts.len()) {
        return Err(AllocError);
    }
    let mut told = take_once(alloc, parts, places)?;
    for _ in 1..times {
        told = take_once(alloc, parts, places)?;
    }
    Ok(told)
}
