// The same calls on a decoded column, once and so many times.
ghost use Rattle.std.specs.Prelude.{◌≡◌, ◌≤◌, IsTrue, is_some, length};
ghost use Rattle.vortex_buffer.specs.Mask.{mask_bits};
ghost use Rattle.vortex_array.specs.ColumnOf.{column_of};
ghost use Rattle.vortex_array_kinds.specs.StringValues.{is_text_type};
ghost use Rattle.vortex_array_select.specs.Selected.{NamesRows};
ghost use Rattle.vortex_array_types.specs.Typed.{same_apart_from_nullability};

use crate::repeating::is_text;
use crate::telling::{Told, told_answers, told_extremes, told_of};
use std::alloc::{AllocError, Global};
use vortex_array::{Array, CompareOperator, DType, Scalar};
use vortex_buffer::Mask;

// Row by row whether the column is below a constant.
fn below_once(alloc: Global, rows: &Array, bound: &Array) -> Result<Told, AllocError>
    requires same_length { length (column_of rows.now).rows ≡ length (column_of bound.now).rows }
    requires same_type { IsTrue (same_apart_from_nullability (column_of rows.now).dtype (column_of bound.now).dtype) }
{
    match rows.compare(alloc, bound, CompareOperator::Lt) {
        Ok(answers) => told_answers(alloc, &answers),
        Err(e) => Err(e),
    }
}

/// Row by row whether the column is below a constant.
pub fn below_in_column(
    alloc: Global,
    rows: &Array,
    bound: &Array,
    times: usize,
) -> Result<Told, AllocError> {
    if rows.len() != bound.len() {
        return Err(AllocError);
    }
    if !rows.dtype().same_apart_from_nullability(&bound.dtype()) {
        return Err(AllocError);
    }
    let mut told = below_once(alloc, rows, bound)?;
    for _ in 1..times {
        told = below_once(alloc, rows, bound)?;
    }
    Ok(told)
}

// Row by row whether the text matches the pattern.
fn like_once(alloc: Global, texts: &Array, patterns: &Array) -> Result<Told, AllocError>
    requires same_length { length (column_of texts.now).rows ≡ length (column_of patterns.now).rows }
    requires texts { IsTrue (is_text_type (column_of texts.now).dtype) }
    requires patterns { IsTrue (is_text_type (column_of patterns.now).dtype) }
{
    match texts.like(alloc, patterns) {
        Ok(answers) => told_answers(alloc, &answers),
        Err(e) => Err(e),
    }
}

/// Row by row whether the text matches the pattern.
pub fn like_in_column(
    alloc: Global,
    texts: &Array,
    patterns: &Array,
    times: usize,
) -> Result<Told, AllocError> {
    if texts.len() != patterns.len() {
        return Err(AllocError);
    }
    if !is_text(texts.dtype()) || !is_text(patterns.dtype()) {
        return Err(AllocError);
    }
    let mut told = like_once(alloc, texts, patterns)?;
    for _ in 1..times {
        told = like_once(alloc, texts, patterns)?;
    }
    Ok(told)
}

// The rows that the mask keeps.
fn filter_once(alloc: Global, rows: &Array, mask: &Mask) -> Result<Told, AllocError>
    requires { length (mask_bits mask.now) ≡ length (column_of rows.now).rows }
{
    match rows.filter(alloc, mask) {
        Ok(kept) => Ok(told_of(&kept)),
        Err(e) => Err(e),
    }
}

/// The rows that the mask keeps.
pub fn filter_in_column(
    alloc: Global,
    rows: &Array,
    mask: &Mask,
    times: usize,
) -> Result<Told, AllocError> {
    if rows.len() != mask.len() {
        return Err(AllocError);
    }
    let mut told = filter_once(alloc, rows, mask)?;
    for _ in 1..times {
        told = filter_once(alloc, rows, mask)?;
    }
    Ok(told)
}

// The rows at the places.
fn take_once(alloc: Global, rows: &Array, places: &Array) -> Result<Told, AllocError>
    requires { NamesRows (column_of places.now) (length (column_of rows.now).rows) }
{
    match rows.take(alloc, places) {
        Ok(part) => Ok(told_of(&part)),
        Err(e) => Err(e),
    }
}

/// The rows at the places.
pub fn take_in_column(
    alloc: Global,
    rows: &Array,
    places: &Array,
    times: usize,
) -> Result<Told, AllocError> {
    if !places.names_rows(rows.len()) {
        return Err(AllocError);
    }
    let mut told = take_once(alloc, rows, places)?;
    for _ in 1..times {
        told = take_once(alloc, rows, places)?;
    }
    Ok(told)
}

// The rows from one place up to another.
fn slice_once(alloc: Global, rows: &Array, start: usize, end: usize) -> Result<Told, AllocError>
    requires order { start ≤ end }
    requires within { end ≤ length (column_of rows.now).rows }
{
    match rows.slice(alloc, start..end) {
        Ok(part) => Ok(told_of(&part)),
        Err(e) => Err(e),
    }
}

/// The rows from one place up to another.
pub fn slice_in_column(
    alloc: Global,
    rows: &Array,
    start: usize,
    end: usize,
    times: usize,
) -> Result<Told, AllocError> {
    if start > end || end > rows.len() {
        return Err(AllocError);
    }
    let mut told = slice_once(alloc, rows, start, end)?;
    for _ in 1..times {
        told = slice_once(alloc, rows, start, end)?;
    }
    Ok(told)
}

// The rows, of a type. A refusal is told as want of memory.
fn cast_once(alloc: Global, rows: &Array, dtype: &DType) -> Result<Told, AllocError> {
    match rows.cast(alloc, dtype) {
        Ok(rows) => Ok(told_of(&rows)),
        Err(_) => Err(AllocError),
    }
}

/// The rows, of a type.
pub fn cast_in_column(
    alloc: Global,
    rows: &Array,
    dtype: &DType,
    times: usize,
) -> Result<Told, AllocError> {
    let mut told = cast_once(alloc, rows, dtype)?;
    for _ in 1..times {
        told = cast_once(alloc, rows, dtype)?;
    }
    Ok(told)
}

// The rows, and the fill in the place of nulls.
fn fill_once(alloc: Global, rows: &Array, fill: &Scalar) -> Result<Told, AllocError>
    requires value { IsTrue (is_some fill.now.value) }
    requires same_type { IsTrue (same_apart_from_nullability (column_of rows.now).dtype fill.now.dtype) }
{
    match rows.fill_null(alloc, fill) {
        Ok(rows) => Ok(told_of(&rows)),
        Err(e) => Err(e),
    }
}

/// The rows, and the fill in the place of nulls.
pub fn fill_in_column(
    alloc: Global,
    rows: &Array,
    fill: &Scalar,
    times: usize,
) -> Result<Told, AllocError> {
    if fill.is_null() {
        return Err(AllocError);
    }
    if !rows.dtype().same_apart_from_nullability(&fill.dtype()) {
        return Err(AllocError);
    }
    let mut told = fill_once(alloc, rows, fill)?;
    for _ in 1..times {
        told = fill_once(alloc, rows, fill)?;
    }
    Ok(told)
}

// The least and the greatest row.
fn extremes_once(alloc: Global, rows: &Array) -> Result<Told, AllocError> {
    match rows.min_max(alloc) {
        Ok(found) => Ok(told_extremes(rows.len(), &found)),
        Err(e) => Err(e),
    }
}

/// The least and the greatest row.
pub fn extremes_in_column(alloc: Global, rows: &Array, times: usize) -> Result<Told, AllocError> {
    let mut told = extremes_once(alloc, rows)?;
    for _ in 1..times {
        told = extremes_once(alloc, rows)?;
    }
    Ok(told)
}
