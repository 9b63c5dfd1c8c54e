// Each call on a dictionary once. A function here owns one answer, tells of it and drops it.
ghost use Rattle.std.specs.Prelude.{◌≡◌, ◌≤◌, IsTrue, is_some, length};
ghost use Rattle.vortex_buffer.specs.Mask.{mask_bits};
ghost use Rattle.vortex_array.specs.ColumnOf.{column_of};
ghost use Rattle.vortex_array_kinds.specs.StringValues.{is_text_type};
ghost use Rattle.vortex_array_select.specs.Selected.{NamesRows};
ghost use Rattle.vortex_array_types.specs.Typed.{same_apart_from_nullability};
ghost use Rattle.vortex_dict.specs.Decoded.{dict_column};

use crate::telling::{
    Told, told_answers, told_dictionary, told_extremes, told_filled, told_of, told_slice,
};
use std::alloc::{AllocError, Global};
use vortex_array::{Array, CompareOperator, CompareTo, DType, Scalar};
use vortex_buffer::Mask;
use vortex_dict::DictArray;

/// The rows as a plain array.
pub fn decode_once(alloc: Global, dict: &DictArray) -> Result<Told, AllocError> {
    match dict.canonicalize(alloc) {
        Ok(rows) => Ok(told_of(&rows)),
        Err(e) => Err(e),
    }
}

/// Row by row whether the dictionary is below a constant. Where it does not answer, that is told as want of memory.
pub fn below_once(alloc: Global, dict: &DictArray, bound: &Array) -> Result<Told, AllocError>
    requires same_length { length (dict_column dict.now).rows ≡ length (column_of bound.now).rows }
    requires same_type { IsTrue (same_apart_from_nullability (dict_column dict.now).dtype (column_of bound.now).dtype) }
{
    match dict.compare(alloc, bound, CompareOperator::Lt) {
        Ok(Some(answers)) => told_answers(alloc, &answers),
        Ok(None) => Err(AllocError),
        Err(e) => Err(e),
    }
}

/// Row by row whether the text matches the pattern, as a dictionary. Where there is none, that is told as want of memory.
pub fn like_once(alloc: Global, dict: &DictArray, patterns: &Array) -> Result<Told, AllocError>
    requires same_length { length (dict_column dict.now).rows ≡ length (column_of patterns.now).rows }
    requires texts { IsTrue (is_text_type (dict_column dict.now).dtype) }
    requires patterns { IsTrue (is_text_type (column_of patterns.now).dtype) }
{
    match dict.like(alloc, patterns) {
        Ok(Some(answers)) => Ok(told_dictionary(&answers)),
        Ok(None) => Err(AllocError),
        Err(e) => Err(e),
    }
}

/// Row by row whether the test holds.
pub fn apply_once(
    alloc: Global,
    dict: &DictArray,
    test: &mut CompareTo,
) -> Result<Told, AllocError> {
    match dict.apply(alloc, test) {
        Ok(answers) => told_answers(alloc, &answers),
        Err(e) => Err(e),
    }
}

/// The rows that the mask keeps.
pub fn filter_once(alloc: Global, dict: &DictArray, mask: &Mask) -> Result<Told, AllocError>
    requires { length (mask_bits mask.now) ≡ length (dict_column dict.now).rows }
{
    match dict.filter(alloc, mask) {
        Ok(kept) => Ok(told_dictionary(&kept)),
        Err(e) => Err(e),
    }
}

/// The rows at the places.
pub fn take_once(alloc: Global, dict: &DictArray, places: &Array) -> Result<Told, AllocError>
    requires { NamesRows (column_of places.now) (length (dict_column dict.now).rows) }
{
    match dict.take(alloc, places) {
        Ok(part) => Ok(told_dictionary(&part)),
        Err(e) => Err(e),
    }
}

/// The rows from one place up to another.
pub fn slice_once(
    alloc: Global,
    dict: &DictArray,
    start: usize,
    end: usize,
) -> Result<Told, AllocError>
    requires order { start ≤ end }
    requires within { end ≤ length (dict_column dict.now).rows }
{
    match dict.slice(alloc, start..end) {
        Ok(part) => Ok(told_slice(&part)),
        Err(e) => Err(e),
    }
}

/// The rows, of a type. A refusal is told as want of memory.
pub fn cast_once(alloc: Global, dict: &DictArray, dtype: &DType) -> Result<Told, AllocError> {
    match dict.cast(alloc, dtype) {
        Ok(rows) => Ok(told_dictionary(&rows)),
        Err(_) => Err(AllocError),
    }
}

/// The rows, and the fill in the place of nulls.
pub fn fill_once(alloc: Global, dict: &DictArray, fill: &Scalar) -> Result<Told, AllocError>
    requires value { IsTrue (is_some fill.now.value) }
    requires same_type { IsTrue (same_apart_from_nullability (dict_column dict.now).dtype fill.now.dtype) }
{
    match dict.fill_null(alloc, fill) {
        Ok(rows) => Ok(told_filled(&rows)),
        Err(e) => Err(e),
    }
}

/// The least and the greatest row.
pub fn extremes_once(alloc: Global, dict: &DictArray) -> Result<Told, AllocError> {
    match dict.min_max(alloc) {
        Ok(found) => Ok(told_extremes(dict.len(), &found)),
        Err(e) => Err(e),
    }
}
