// Each call on decimals in parts once. A function here owns one answer, tells of it and drops it.
ghost use Rattle.std.specs.Prelude.{◌≡◌, IsTrue, length};
ghost use Rattle.vortex_buffer.specs.Mask.{mask_bits};
ghost use Rattle.vortex_array.specs.ColumnOf.{column_of};
ghost use Rattle.vortex_array_select.specs.Selected.{NamesRows};
ghost use Rattle.vortex_array_types.specs.Typed.{same_apart_from_nullability};
ghost use Rattle.vortex_decimal_byte_parts.specs.Columns.{parts_column};

use crate::building::{Columns, assembled};
use crate::telling::{Told, told_answers, told_decimals, told_parts, told_split};
use std::alloc::{AllocError, Global};
use vortex_array::{Array, BetweenOptions, CompareOperator, DecimalArray, StrictComparison};
use vortex_buffer::Mask;
use vortex_decimal_byte_parts::{DecimalByteParts, split_decimal};

/// Bounds, of which the lower is let in and the upper is not.
pub const HALF_OPEN: BetweenOptions = BetweenOptions {
    lower_strict: StrictComparison::NonStrict,
    upper_strict: StrictComparison::Strict,
};

/// Decimals split in parts.
pub fn split_once(alloc: Global, decimals: &DecimalArray) -> Result<Told, AllocError> {
    match split_decimal(alloc, decimals) {
        Ok(parts) => Ok(told_split(&parts)),
        Err(e) => Err(e),
    }
}

/// Parts put together.
pub fn assemble_once(alloc: Global, parts: &Columns) -> Result<Told, AllocError> {
    match assembled(alloc, parts) {
        Ok(decimals) => Ok(told_decimals(&decimals)),
        Err(e) => Err(e),
    }
}

/// Row by row whether the decimals are below a constant. Where there is no answer, that is told as want of memory.
pub fn below_once(
    alloc: Global,
    parts: &DecimalByteParts,
    bound: &Array,
) -> Result<Told, AllocError>
    requires same_length { length (parts_column parts.now).rows ≡ length (column_of bound.now).rows }
    requires same_type { IsTrue (same_apart_from_nullability (parts_column parts.now).dtype (column_of bound.now).dtype) }
{
    match parts.compare(alloc, bound, CompareOperator::Lt) {
        Ok(Some(answers)) => told_answers(alloc, &answers),
        Ok(None) => Err(AllocError),
        Err(e) => Err(e),
    }
}

/// Row by row whether the decimals lie between bounds. Where there is no answer, that is told as want of memory.
pub fn between_once(
    alloc: Global,
    parts: &DecimalByteParts,
    lower: &Array,
    upper: &Array,
) -> Result<Told, AllocError>
    requires lower_length { length (parts_column parts.now).rows ≡ length (column_of lower.now).rows }
    requires lower_type { IsTrue (same_apart_from_nullability (parts_column parts.now).dtype (column_of lower.now).dtype) }
    requires upper_length { length (parts_column parts.now).rows ≡ length (column_of upper.now).rows }
    requires upper_type { IsTrue (same_apart_from_nullability (parts_column parts.now).dtype (column_of upper.now).dtype) }
{
    match parts.between(alloc, lower, upper, &HALF_OPEN) {
        Ok(Some(answers)) => told_answers(alloc, &answers),
        Ok(None) => Err(AllocError),
        Err(e) => Err(e),
    }
}

/// The rows that the mask keeps.
pub fn filter_once(alloc: Global, parts: &DecimalByteParts, mask: &Mask) -> Result<Told, AllocError>
    requires { length (mask_bits mask.now) ≡ length (parts_column parts.now).rows }
{
    match parts.filter(alloc, mask) {
        Ok(kept) => Ok(told_parts(&kept)),
        Err(e) => Err(e),
    }
}

/// The rows at the places. Where there is no answer, that is told as want of memory.
pub fn take_once(
    alloc: Global,
    parts: &DecimalByteParts,
    places: &Array,
) -> Result<Told, AllocError>
    requires { NamesRows (column_of places.now) (length (parts_column parts.now).rows) }
{
    match parts.take(alloc, places) {
        Ok(Some(part)) => Ok(told_parts(&part)),
        Ok(None) => Err(AllocError),
        Err(e) => Err(e),
    }
}
