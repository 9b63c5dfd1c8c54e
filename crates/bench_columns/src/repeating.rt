// Calls that are made so many times, at least once.
ghost use Rattle.std.specs.Prelude.{◌≡◌, length};
ghost use Rattle.vortex_array.specs.ColumnOf.{column_of};
ghost use Rattle.vortex_array_kinds.specs.StringValues.{is_text_type};

use crate::once::{cast_once, compare_once, filter_once, like_once, slice_once, take_once};
use crate::telling::Told;
use std::alloc::{AllocError, Global};
use vortex_array::{Array, CompareOperator, DType};
use vortex_buffer::Mask;

/// The rows that the mask keeps.
pub fn filter_times(
    alloc: Global,
    rows: &Array,
    mask: &Mask,
    times: usize,
) -> Result<Told, AllocError> {
    if rows.len() != mask.len() {
        return Err(AllocError);
    }
    let mut told = filter_once(alloc, rows, mask)?;
    for _ in 1..times {
        told = filter_once(alloc, rows, mask)?;
    }
    Ok(told)
}

/// The rows from one place up to another.
pub fn slice_times(
    alloc: Global,
    rows: &Array,
    start: usize,
    end: usize,
    times: usize,
) -> Result<Told, AllocError> {
    if start > end || end > rows.len() {
        return Err(AllocError);
    }
    let mut told = slice_once(alloc, rows, start, end)?;
    for _ in 1..times {
        told = slice_once(alloc, rows, start, end)?;
    }
    Ok(told)
}

/// The rows at the places.
pub fn take_times(
    alloc: Global,
    rows: &Array,
    places: &Array,
    times: usize,
) -> Result<Told, AllocError> {
    if !places.names_rows(rows.len()) {
        return Err(AllocError);
    }
    let mut told = take_once(alloc, rows, places)?;
    for _ in 1..times {
        told = take_once(alloc, rows, places)?;
    }
    Ok(told)
}

/// The same rows in another type.
pub fn cast_times(
    alloc: Global,
    rows: &Array,
    dtype: &DType,
    times: usize,
) -> Result<Told, AllocError> {
    let mut told = cast_once(alloc, rows, dtype)?;
    for _ in 1..times {
        told = cast_once(alloc, rows, dtype)?;
    }
    Ok(told)
}

/// Row by row whether the left side is below the right.
pub fn below_times(
    alloc: Global,
    left: &Array,
    right: &Array,
    times: usize,
) -> Result<Told, AllocError> {
    if left.len() != right.len() {
        return Err(AllocError);
    }
    if !left.dtype().same_apart_from_nullability(&right.dtype()) {
        return Err(AllocError);
    }
    let mut told = compare_once(alloc, left, right, CompareOperator::Lt)?;
    for _ in 1..times {
        told = compare_once(alloc, left, right, CompareOperator::Lt)?;
    }
    Ok(told)
}

/// Row by row whether the text matches the pattern.
pub fn like_times(
    alloc: Global,
    texts: &Array,
    patterns: &Array,
    times: usize,
) -> Result<Told, AllocError> {
    if texts.len() != patterns.len() {
        return Err(AllocError);
    }
    if !is_text(texts) || !is_text(patterns) {
        return Err(AllocError);
    }
    let mut told = like_once(alloc, texts, patterns)?;
    for _ in 1..times {
        told = like_once(alloc, texts, patterns)?;
    }
    Ok(told)
}

// Whether a column is one of texts.
fn is_text(rows: &Array) -> bool
    ensures { result ≡ is_text_type (column_of rows.now).dtype }
{
    matches!(rows.dtype(), DType::Utf8(_))
}
