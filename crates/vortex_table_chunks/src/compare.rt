// Chunks compared and bounded, value by value in a dictionary and part by part in parts.
ghost use Rattle.std.specs.Prelude.{◌≡◌, IfOk, IsTrue, length};
ghost use Rattle.vortex_array_types.specs.Typed.{same_apart_from_nullability};
ghost use Rattle.vortex_array_types.specs.Truth.{lower_operator, upper_operator};
ghost use Rattle.vortex_array_kinds.specs.Truths.{bounded, compared};
ghost use Rattle.vortex_array.specs.ColumnOf.{bool_column, column_of};
ghost use Rattle.vortex_dict.specs.Decoded.{dict_column};
ghost use Rattle.vortex_decimal_byte_parts.specs.Columns.{parts_column};
ghost use Rattle.vortex_table_chunks.specs.ChunkOf.{chunk_column};

use crate::chunk::Chunk;
use crate::forms::assembled;
use std::alloc::{AllocError, Global};
use vortex_array::{Array, BetweenOptions, BoolArray, CompareOperator, StrictComparison};
use vortex_decimal_byte_parts::DecimalByteParts;
use vortex_dict::DictArray;

/// Row by row whether the operator holds of a chunk and an array of the same length and, apart from nullability, of the same
/// type. Null where a row is null.
pub(crate) fn compared_with(
    alloc: Global,
    chunk: &Chunk,
    other: &Array,
    operator: CompareOperator,
) -> Result<BoolArray, AllocError>
    requires same_length { length (chunk_column chunk.now).rows ≡ length (column_of other.now).rows }
    requires same_type { IsTrue (same_apart_from_nullability (chunk_column chunk.now).dtype (column_of other.now).dtype) }
    ensures { IfOk result (λ a. bool_column a ≡ compared operator (chunk_column chunk.now) (column_of other.now)) }
{
    match chunk {
        Chunk::Plain(array) => array.compare(alloc, other, operator),
        Chunk::Dict(dict) => dict_compared(alloc, dict, other, operator),
        Chunk::Parts(parts) => parts_compared(alloc, parts, other, operator),
    }
}

// A dictionary compared: decoded where its values cannot be compared one by one.
fn dict_compared(
    alloc: Global,
    dict: &DictArray,
    other: &Array,
    operator: CompareOperator,
) -> Result<BoolArray, AllocError>
    requires same_length { length (dict_column dict.now).rows ≡ length (column_of other.now).rows }
    requires same_type { IsTrue (same_apart_from_nullability (dict_column dict.now).dtype (column_of other.now).dtype) }
    ensures { IfOk result (λ a. bool_column a ≡ compared operator (dict_column dict.now) (column_of other.now)) }
{
    match dict.compare(alloc, other, operator)? {
        Some(answers) => Ok(answers),
        None => decoded_compared(alloc, dict, other, operator),
    }
}

// A dictionary compared row by row.
fn decoded_compared(
    alloc: Global,
    dict: &DictArray,
    other: &Array,
    operator: CompareOperator,
) -> Result<BoolArray, AllocError>
    requires same_length { length (dict_column dict.now).rows ≡ length (column_of other.now).rows }
    requires same_type { IsTrue (same_apart_from_nullability (dict_column dict.now).dtype (column_of other.now).dtype) }
    ensures { IfOk result (λ a. bool_column a ≡ compared operator (dict_column dict.now) (column_of other.now)) }
{
    let rows = dict.canonicalize(alloc)?;
    let answers = rows.compare(alloc, other, operator)?;
    Ok(answers)
}

// Decimals in parts compared: put together where that does not go part by part.
fn parts_compared(
    alloc: Global,
    parts: &DecimalByteParts,
    other: &Array,
    operator: CompareOperator,
) -> Result<BoolArray, AllocError>
    requires same_length { length (parts_column parts.now).rows ≡ length (column_of other.now).rows }
    requires same_type { IsTrue (same_apart_from_nullability (parts_column parts.now).dtype (column_of other.now).dtype) }
    ensures { IfOk result (λ a. bool_column a ≡ compared operator (parts_column parts.now) (column_of other.now)) }
{
    match parts.compare(alloc, other, operator)? {
        Some(answers) => Ok(answers),
        None => assembled_compared(alloc, parts, other, operator),
    }
}

// Decimals in parts compared row by row.
fn assembled_compared(
    alloc: Global,
    parts: &DecimalByteParts,
    other: &Array,
    operator: CompareOperator,
) -> Result<BoolArray, AllocError>
    requires same_length { length (parts_column parts.now).rows ≡ length (column_of other.now).rows }
    requires same_type { IsTrue (same_apart_from_nullability (parts_column parts.now).dtype (column_of other.now).dtype) }
    ensures { IfOk result (λ a. bool_column a ≡ compared operator (parts_column parts.now) (column_of other.now)) }
{
    let rows = assembled(alloc, parts)?;
    let answers = rows.compare(alloc, other, operator)?;
    Ok(answers)
}

/// Row by row whether a chunk's value lies between its bounds, each bound itself left out where it is strict. All three have
/// one length and, apart from nullability, one type. Null where a row of the three is null.
pub(crate) fn bounded_by(
    alloc: Global,
    chunk: &Chunk,
    lower: &Array,
    upper: &Array,
    options: &BetweenOptions,
) -> Result<BoolArray, AllocError>
    requires lower_length { length (chunk_column chunk.now).rows ≡ length (column_of lower.now).rows }
    requires lower_type { IsTrue (same_apart_from_nullability (chunk_column chunk.now).dtype (column_of lower.now).dtype) }
    requires upper_length { length (chunk_column chunk.now).rows ≡ length (column_of upper.now).rows }
    requires upper_type { IsTrue (same_apart_from_nullability (chunk_column chunk.now).dtype (column_of upper.now).dtype) }
    ensures { IfOk result (λ a. bool_column a ≡ bounded options.now (chunk_column chunk.now) (column_of lower.now) (column_of upper.now)) }
{
    match chunk {
        Chunk::Plain(array) => array.between(alloc, lower, upper, options),
        Chunk::Dict(dict) => dict_bounded(alloc, dict, lower, upper, options),
        Chunk::Parts(parts) => parts_bounded(alloc, parts, lower, upper, options),
    }
}

// A dictionary between its bounds: compared with both.
fn dict_bounded(
    alloc: Global,
    dict: &DictArray,
    lower: &Array,
    upper: &Array,
    options: &BetweenOptions,
) -> Result<BoolArray, AllocError>
    requires lower_length { length (dict_column dict.now).rows ≡ length (column_of lower.now).rows }
    requires lower_type { IsTrue (same_apart_from_nullability (dict_column dict.now).dtype (column_of lower.now).dtype) }
    requires upper_length { length (dict_column dict.now).rows ≡ length (column_of upper.now).rows }
    requires upper_type { IsTrue (same_apart_from_nullability (dict_column dict.now).dtype (column_of upper.now).dtype) }
    ensures { IfOk result (λ a. bool_column a ≡ bounded options.now (dict_column dict.now) (column_of lower.now) (column_of upper.now)) }
{
    let above = dict_compared(alloc, dict, lower, operator_below(options.lower_strict))?;
    let below = dict_compared(alloc, dict, upper, operator_above(options.upper_strict))?;
    let between = above.both_true(alloc, &below)?;
    Ok(between)
}

// How a value is compared with its lower bound.
fn operator_below(strict: StrictComparison) -> CompareOperator
    ensures { result ≡ lower_operator strict }
{
    match strict {
        StrictComparison::Strict => CompareOperator::Gt,
        StrictComparison::NonStrict => CompareOperator::Gte,
    }
}

// How a value is compared with its upper bound.
fn operator_above(strict: StrictComparison) -> CompareOperator
    ensures { result ≡ upper_operator strict }
{
    match strict {
        StrictComparison::Strict => CompareOperator::Lt,
        StrictComparison::NonStrict => CompareOperator::Lte,
    }
}

// Decimals in parts between their bounds: put together where that does not go part by part.
fn parts_bounded(
    alloc: Global,
    parts: &DecimalByteParts,
    lower: &Array,
    upper: &Array,
    options: &BetweenOptions,
) -> Result<BoolArray, AllocError>
    requires lower_length { length (parts_column parts.now).rows ≡ length (column_of lower.now).rows }
    requires lower_type { IsTrue (same_apart_from_nullability (parts_column parts.now).dtype (column_of lower.now).dtype) }
    requires upper_length { length (parts_column parts.now).rows ≡ length (column_of upper.now).rows }
    requires upper_type { IsTrue (same_apart_from_nullability (parts_column parts.now).dtype (column_of upper.now).dtype) }
    ensures { IfOk result (λ a. bool_column a ≡ bounded options.now (parts_column parts.now) (column_of lower.now) (column_of upper.now)) }
{
    match parts.between(alloc, lower, upper, options)? {
        Some(answers) => Ok(answers),
        None => assembled_bounded(alloc, parts, lower, upper, options),
    }
}

// Decimals in parts between their bounds, row by row.
fn assembled_bounded(
    alloc: Global,
    parts: &DecimalByteParts,
    lower: &Array,
    upper: &Array,
    options: &BetweenOptions,
) -> Result<BoolArray, AllocError>
    requires lower_length { length (parts_column parts.now).rows ≡ length (column_of lower.now).rows }
    requires lower_type { IsTrue (same_apart_from_nullability (parts_column parts.now).dtype (column_of lower.now).dtype) }
    requires upper_length { length (parts_column parts.now).rows ≡ length (column_of upper.now).rows }
    requires upper_type { IsTrue (same_apart_from_nullability (parts_column parts.now).dtype (column_of upper.now).dtype) }
    ensures { IfOk result (λ a. bool_column a ≡ bounded options.now (parts_column parts.now) (column_of lower.now) (column_of upper.now)) }
{
    let rows = assembled(alloc, parts)?;
    let answers = rows.between(alloc, lower, upper, options)?;
    Ok(answers)
}
