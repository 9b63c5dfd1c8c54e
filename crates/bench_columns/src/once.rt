// Each call once. A function here owns one answer, tells of it and drops it.
ghost use Rattle.std.specs.Prelude.{◌≡◌, ◌≤◌, IsTrue, length};
ghost use Rattle.vortex_buffer.specs.Mask.{mask_bits};
ghost use Rattle.vortex_array.specs.ColumnOf.{column_of};
ghost use Rattle.vortex_array_kinds.specs.StringValues.{is_text_type};
ghost use Rattle.vortex_array_select.specs.Selected.{NamesRows};
ghost use Rattle.vortex_array_types.specs.Typed.{same_apart_from_nullability};

use crate::telling::{Told, told_answers, told_of};
use std::alloc::{AllocError, Global};
use vortex_array::{Array, CompareOperator, DType};
use vortex_buffer::Mask;

/// The rows that the mask keeps.
pub fn filter_once(alloc: Global, rows: &Array, mask: &Mask) -> Result<Told, AllocError>
    requires { length (mask_bits mask.now) ≡ length (column_of rows.now).rows }
{
    match rows.filter(alloc, mask) {
        Ok(kept) => Ok(told_of(&kept)),
        Err(e) => Err(e),
    }
}

/// The rows from one place up to another.
pub fn slice_once(alloc: Global, rows: &Array, start: usize, end: usize) -> Result<Told, AllocError>
    requires order { start ≤ end }
    requires within { end ≤ length (column_of rows.now).rows }
{
    match rows.slice(alloc, start..end) {
        Ok(part) => Ok(told_of(&part)),
        Err(e) => Err(e),
    }
}

/// The rows at the places.
pub fn take_once(alloc: Global, rows: &Array, places: &Array) -> Result<Told, AllocError>
    requires { NamesRows (column_of places.now) (length (column_of rows.now).rows) }
{
    match rows.take(alloc, places) {
        Ok(part) => Ok(told_of(&part)),
        Err(e) => Err(e),
    }
}

/// The same rows in another type. A row that does not fit it is told as want of memory.
pub fn cast_once(alloc: Global, rows: &Array, dtype: &DType) -> Result<Told, AllocError> {
    match rows.cast(alloc, dtype) {
        Ok(cast) => Ok(told_of(&cast)),
        Err(_) => Err(AllocError),
    }
}

/// Row by row whether the operator holds of the left side and the right.
pub fn compare_once(
    alloc: Global,
    left: &Array,
    right: &Array,
    operator: CompareOperator,
) -> Result<Told, AllocError>
    requires same_length { length (column_of left.now).rows ≡ length (column_of right.now).rows }
    requires same_type { IsTrue (same_apart_from_nullability (column_of left.now).dtype (column_of right.now).dtype) }
{
    match left.compare(alloc, right, operator) {
        Ok(answers) => told_answers(alloc, &answers),
        Err(e) => Err(e),
    }
}

/// Row by row whether the text matches the pattern.
pub fn like_once(alloc: Global, texts: &Array, patterns: &Array) -> Result<Told, AllocError>
    requires same_length { length (column_of texts.now).rows ≡ length (column_of patterns.now).rows }
    requires texts { IsTrue (is_text_type (column_of texts.now).dtype) }
    requires patterns { IsTrue (is_text_type (column_of patterns.now).dtype) }
{
    match texts.like(alloc, patterns) {
        Ok(answers) => told_answers(alloc, &answers),
        Err(e) => Err(e),
    }
}
