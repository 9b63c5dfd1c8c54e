// The same calls on plain decimals, once and so many times.
ghost use Rattle.std.specs.Prelude.{◌≡◌, IsTrue, length};
ghost use Rattle.vortex_buffer.specs.Mask.{mask_bits};
ghost use Rattle.vortex_array.specs.ColumnOf.{column_of};
ghost use Rattle.vortex_array_select.specs.Selected.{NamesRows};
ghost use Rattle.vortex_array_types.specs.Typed.{same_apart_from_nullability};

use crate::once::HALF_OPEN;
use crate::telling::{Told, told_answers, told_of};
use std::alloc::{AllocError, Global};
use vortex_array::{Array, CompareOperator};
use vortex_buffer::Mask;

// Row by row whether the column is below a constant.
fn below_once(alloc: Global, rows: &Array, bound: &Array) -> Result<Told, AllocError>
    requires same_length { length (column_of rows.now).rows ≡ length (column_of bound.now).rows }
    requires same_type { IsTrue (same_apart_from_nullability (column_of rows.now).dtype (column_of bound.now).dtype) }
{
    match rows.compare(alloc, bound, CompareOperator::Lt) {
        Ok(answers) => told_answers(alloc, &answers),
        Err(e) => Err(e),
    }
}

/// Row by row whether the column is below a constant.
pub fn below_in_column(
    alloc: Global,
    rows: &Array,
    bound: &Array,
    times: usize,
) -> Result<Told, AllocError> {
    if rows.len() != bound.len() {
        return Err(AllocError);
    }
    if !rows.dtype().same_apart_from_nullability(&bound.dtype()) {
        return Err(AllocError);
    }
    let mut told = below_once(alloc, rows, bound)?;
    for _ in 1..times {
        told = below_once(alloc, rows, bound)?;
    }
    Ok(told)
}

// Row by row whether the column lies between bounds.
fn between_once(
    alloc: Global,
    rows: &Array,
    lower: &Array,
    upper: &Array,
) -> Result<Told, AllocError>
    requires lower_length { length (column_of rows.now).rows ≡ length (column_of lower.now).rows }
    requires lower_type { IsTrue (same_apart_from_nullability (column_of rows.now).dtype (column_of lower.now).dtype) }
    requires upper_length { length (column_of rows.now).rows ≡ length (column_of upper.now).rows }
    requires upper_type { IsTrue (same_apart_from_nullability (column_of rows.now).dtype (column_of upper.now).dtype) }
{
    match rows.between(alloc, lower, upper, &HALF_OPEN) {
        Ok(answers) => told_answers(alloc, &answers),
        Err(e) => Err(e),
    }
}

/// Row by row whether the column lies between bounds.
pub fn between_in_column(
    alloc: Global,
    rows: &Array,
    lower: &Array,
    upper: &Array,
    times: usize,
) -> Result<Told, AllocError> {
    if rows.len() != lower.len() {
        return Err(AllocError);
    }
    if !rows.dtype().same_apart_from_nullability(&lower.dtype()) {
        return Err(AllocError);
    }
    if rows.len() != upper.len() {
        return Err(AllocError);
    }
    if !rows.dtype().same_apart_from_nullability(&upper.dtype()) {
        return Err(AllocError);
    }
    let mut told = between_once(alloc, rows, lower, upper)?;
    for _ in 1..times {
        told = between_once(alloc, rows, lower, upper)?;
    }
    Ok(told)
}

// The rows that the mask keeps.
fn filter_once(alloc: Global, rows: &Array, mask: &Mask) -> Result<Told, AllocError>
    requires { length (mask_bits mask.now) ≡ length (column_of rows.now).rows }
{
    match rows.filter(alloc, mask) {
        Ok(kept) => Ok(told_of(&kept)),
        Err(e) => Err(e),
    }
}

/// The rows that the mask keeps.
pub fn filter_in_column(
    alloc: Global,
    rows: &Array,
    mask: &Mask,
    times: usize,
) -> Result<Told, AllocError> {
    if rows.len() != mask.len() {
        return Err(AllocError);
    }
    let mut told = filter_once(alloc, rows, mask)?;
    for _ in 1..times {
        told = filter_once(alloc, rows, mask)?;
    }
    Ok(told)
}

// The rows at the places.
fn take_once(alloc: Global, rows: &Array, places: &Array) -> Result<Told, AllocError>
    requires { NamesRows (column_of places.now) (length (column_of rows.now).rows) }
{
    match rows.take(alloc, places) {
        Ok(part) => Ok(told_of(&part)),
        Err(e) => Err(e),
    }
}

/// The rows at the places.
pub fn take_in_column(
    alloc: Global,
    rows: &Array,
    places: &Array,
    times: usize,
) -> Result<Told, AllocError> {
    if !places.names_rows(rows.len()) {
        return Err(AllocError);
    }
    let mut told = take_once(alloc, rows, places)?;
    for _ in 1..times {
        told = take_once(alloc, rows, places)?;
    }
    Ok(told)
}
