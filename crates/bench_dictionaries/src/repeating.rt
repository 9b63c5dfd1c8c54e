// Calls on a dictionary that are made so many times, at least once.
ghost use Rattle.std.specs.Prelude.{◌≡◌};
ghost use Rattle.vortex_array.specs.ColumnOf.{column_of};
ghost use Rattle.vortex_array_kinds.specs.StringValues.{is_text_type};

use crate::once::{
    apply_once, below_once, cast_once, decode_once, extremes_once, fill_once, filter_once,
    like_once, slice_once, take_once,
};
use crate::telling::Told;
use std::alloc::{AllocError, Global};
use vortex_array::{Array, CompareTo, DType, Scalar};
use vortex_buffer::Mask;
use vortex_dict::DictArray;

/// The rows as a plain array.
pub fn decode_times(alloc: Global, dict: &DictArray, times: usize) -> Result<Told, AllocError> {
    let mut told = decode_once(alloc, dict)?;
    for _ in 1..times {
        told = decode_once(alloc, dict)?;
    }
    Ok(told)
}

/// Row by row whether the dictionary is below a constant.
pub fn below_times(
    alloc: Global,
    dict: &DictArray,
    bound: &Array,
    times: usize,
) -> Result<Told, AllocError> {
    if dict.len() != bound.len() {
        return Err(AllocError);
    }
    if !dict.dtype().same_apart_from_nullability(&bound.dtype()) {
        return Err(AllocError);
    }
    let mut told = below_once(alloc, dict, bound)?;
    for _ in 1..times {
        told = below_once(alloc, dict, bound)?;
    }
    Ok(told)
}

/// Row by row whether the text matches the pattern.
pub fn like_times(
    alloc: Global,
    dict: &DictArray,
    patterns: &Array,
    times: usize,
) -> Result<Told, AllocError> {
    if dict.len() != patterns.len() {
        return Err(AllocError);
    }
    if !is_text(dict.dtype()) || !is_text(patterns.dtype()) {
        return Err(AllocError);
    }
    let mut told = like_once(alloc, dict, patterns)?;
    for _ in 1..times {
        told = like_once(alloc, dict, patterns)?;
    }
    Ok(told)
}

/// Whether a type is one of texts.
pub fn is_text(dtype: DType) -> bool
    ensures { result ≡ is_text_type dtype }
{
    matches!(dtype, DType::Utf8(_))
}

/// Row by row whether the test holds.
pub fn apply_times(
    alloc: Global,
    dict: &DictArray,
    test: &mut CompareTo,
    times: usize,
) -> Result<Told, AllocError> {
    let mut told = apply_once(alloc, dict, test)?;
    for _ in 1..times {
        told = apply_once(alloc, dict, test)?;
    }
    Ok(told)
}

/// The rows that the mask keeps.
pub fn filter_times(
    alloc: Global,
    dict: &DictArray,
    mask: &Mask,
    times: usize,
) -> Result<Told, AllocError> {
    if dict.len() != mask.len() {
        return Err(AllocError);
    }
    let mut told = filter_once(alloc, dict, mask)?;
    for _ in 1..times {
        told = filter_once(alloc, dict, mask)?;
    }
    Ok(told)
}

/// The rows at the places.
pub fn take_times(
    alloc: Global,
    dict: &DictArray,
    places: &Array,
    times: usize,
) -> Result<Told, AllocError> {
    if !places.names_rows(dict.len()) {
        return Err(AllocError);
    }
    let mut told = take_once(alloc, dict, places)?;
    for _ in 1..times {
        told = take_once(alloc, dict, places)?;
    }
    Ok(told)
}

/// The rows from one place up to another.
pub fn slice_times(
    alloc: Global,
    dict: &DictArray,
    start: usize,
    end: usize,
    times: usize,
) -> Result<Told, AllocError> {
    if start > end || end > dict.len() {
        return Err(AllocError);
    }
    let mut told = slice_once(alloc, dict, start, end)?;
    for _ in 1..times {
        told = slice_once(alloc, dict, start, end)?;
    }
    Ok(told)
}

/// The rows, of a type.
pub fn cast_times(
    alloc: Global,
    dict: &DictArray,
    dtype: &DType,
    times: usize,
) -> Result<Told, AllocError> {
    let mut told = cast_once(alloc, dict, dtype)?;
    for _ in 1..times {
        told = cast_once(alloc, dict, dtype)?;
    }
    Ok(told)
}

/// The rows, and the fill in the place of nulls.
pub fn fill_times(
    alloc: Global,
    dict: &DictArray,
    fill: &Scalar,
    times: usize,
) -> Result<Told, AllocError> {
    if fill.is_null() {
        return Err(AllocError);
    }
    if !dict.dtype().same_apart_from_nullability(&fill.dtype()) {
        return Err(AllocError);
    }
    let mut told = fill_once(alloc, dict, fill)?;
    for _ in 1..times {
        told = fill_once(alloc, dict, fill)?;
    }
    Ok(told)
}

/// The least and the greatest row.
pub fn extremes_times(alloc: Global, dict: &DictArray, times: usize) -> Result<Told, AllocError> {
    let mut told = extremes_once(alloc, dict)?;
    for _ in 1..times {
        told = extremes_once(alloc, dict)?;
    }
    Ok(told)
}
