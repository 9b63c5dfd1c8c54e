// What is asked of a chunk alone: a pattern, whether a row is null, and the truth value that it is.
ghost use Rattle.std.specs.Prelude.{◌≡◌, IfOk, IsTrue, Some, is_none, is_some, length, map, not, replicate};
ghost use Rattle.vortex_buffer.specs.Mask.{mask_bits};
ghost use Rattle.vortex_array_types.specs.declared.scalar.Value.TheVariants as value;
ghost use Rattle.vortex_array_types.specs.Seen.{value_seen};
ghost use Rattle.vortex_array_types.specs.Truth.{both, is_like, truth_value};
ghost use Rattle.vortex_array_types.specs.Typed.{is_truth_value};
ghost use Rattle.vortex_array_kinds.specs.StringValues.{is_text_type};
ghost use Rattle.vortex_array_kinds.specs.Kinds.{constant_column};
ghost use Rattle.vortex_array_kinds.specs.Truths.{answer_in, answers};
ghost use Rattle.vortex_array.specs.ColumnOf.{bool_column, column_of, is_plain};
ghost use Rattle.vortex_table_chunks.specs.ChunkOf.{chunk_column};

use crate::chunk::Chunk;
use crate::leaves::leaf;
use std::alloc::{AllocError, Global};
use vortex_array::{
    Array, BoolArray, ConstantArray, DType, LikePattern, LikeTo, Nullability, Scalar, Validity,
    ValueRef,
};
use vortex_array_compare::{equal_answers, null_answers};
use vortex_buffer::{BitBuffer, Mask};

/// So many rows that are equal to this one.
pub(crate) fn repeated(alloc: Global, row: &Scalar, len: usize) -> Result<Array, AllocError>
    ensures { IfOk result (λ a. column_of a ≡ constant_column (record { scalar = row.now; len = len })) }
{
    let scalar = row.try_clone(alloc)?;
    Ok(Array::Constant(ConstantArray::new(scalar, len)))
}

/// Row by row whether a text matches the pattern, and null where one of both is null. A dictionary is asked by its values.
pub(crate) fn liked_by(
    alloc: Global,
    chunk: &Chunk,
    pattern: &Scalar,
) -> Result<BoolArray, AllocError>
    requires texts { IsTrue (is_text_type (chunk_column chunk.now).dtype) }
    requires patterns { IsTrue (is_text_type pattern.now.dtype) }
    ensures { IfOk result (λ a. answers (bool_column a) ≡ map (λ row. both is_like row pattern.now.value) (chunk_column chunk.now).rows) }
{
    match chunk {
        Chunk::Plain(array) => array_liked(alloc, array, pattern),
        _ => asked_whether_like(alloc, chunk, pattern),
    }
}

// The same of an array.
fn array_liked(alloc: Global, array: &Array, pattern: &Scalar) -> Result<BoolArray, AllocError>
    requires texts { IsTrue (is_text_type (column_of array.now).dtype) }
    requires patterns { IsTrue (is_text_type pattern.now.dtype) }
    ensures { IfOk result (λ a. answers (bool_column a) ≡ map (λ row. both is_like row pattern.now.value) (column_of array.now).rows) }
{
    let patterns = repeated(alloc, pattern, array.len())?;
    let answers = array.like(alloc, &patterns)?;
    Ok(answers)
}

// The same by asking whether each value matches.
fn asked_whether_like(
    alloc: Global,
    chunk: &Chunk,
    pattern: &Scalar,
) -> Result<BoolArray, AllocError>
    requires { IsTrue (is_text_type pattern.now.dtype) }
    ensures { IfOk result (λ a. answers (bool_column a) ≡ map (λ row. both is_like row pattern.now.value) (chunk_column chunk.now).rows) }
{
    match pattern.value_ref() {
        Some(ValueRef::Utf8(text)) => asked_of_pattern(alloc, chunk, text),
        Some(_) => unreachable!(),
        None => null_answers(alloc, chunk.len()),
    }
}

// The same for the text of a pattern.
fn asked_of_pattern(alloc: Global, chunk: &Chunk, text: &str) -> Result<BoolArray, AllocError>
    ensures { IfOk result (λ a. answers (bool_column a) ≡ map (λ row. both is_like row (Some (value.Utf8 text.now))) (chunk_column chunk.now).rows) }
{
    let pattern = LikePattern::new(alloc, text)?;
    let mut test = LikeTo::new(pattern);
    let answers = leaf(alloc, chunk, &mut test)?;
    Ok(answers)
}

/// Row by row whether a row is null, which is never null.
pub(crate) fn null_rows(alloc: Global, chunk: &Chunk) -> Result<BoolArray, AllocError>
    ensures { IfOk result (λ a. answers (bool_column a) ≡ map (λ row. Some (is_none row)) (chunk_column chunk.now).rows) }
{
    let present = present_rows(alloc, chunk)?;
    let nulls = other_bits(alloc, &present)?;
    Ok(BoolArray::new(nulls, Validity::NonNullable))
}

// The rows of a chunk that are not null.
fn present_rows(alloc: Global, chunk: &Chunk) -> Result<Mask, AllocError>
    ensures { IfOk result (λ mask. mask_bits mask ≡ map is_some (chunk_column chunk.now).rows) }
{
    match chunk {
        Chunk::Plain(array) => array.validity_mask(alloc),
        Chunk::Dict(dict) => dict.validity_mask(alloc),
        Chunk::Parts(parts) => parts.validity_mask(alloc),
    }
}

// The bits of the rows that a mask does not keep.
fn other_bits(alloc: Global, mask: &Mask) -> Result<BitBuffer, AllocError>
    ensures { IfOk result (λ bits. bits ≡ map not (mask_bits mask.now)) }
{
    match mask {
        Mask::AllTrue(len) => BitBuffer::new_unset(alloc, *len),
        Mask::AllFalse(len) => Validity::AllValid.to_bits(alloc, *len),
        Mask::Values(bits) => bits.not(alloc),
    }
}

/// The truth values that the rows are.
pub(crate) fn truth_rows(alloc: Global, chunk: &Chunk) -> Result<BoolArray, AllocError>
    requires { IsTrue (is_truth_value (Some (chunk_column chunk.now).dtype)) }
    ensures { IfOk result (λ a. answers (bool_column a) ≡ map answer_in (chunk_column chunk.now).rows) }
{
    match chunk {
        Chunk::Plain(Array::Bool(rows)) => rows.try_clone(alloc),
        _ => decoded_truths(alloc, chunk),
    }
}

// The same of a chunk in any form.
fn decoded_truths(alloc: Global, chunk: &Chunk) -> Result<BoolArray, AllocError>
    requires { IsTrue (is_truth_value (Some (chunk_column chunk.now).dtype)) }
    ensures { IfOk result (λ a. answers (bool_column a) ≡ map answer_in (chunk_column chunk.now).rows) }
{
    let rows = chunk.decode(alloc)?;
    let truths = bools_of(&rows).try_clone(alloc)?;
    Ok(truths)
}

// The truth values of a plain array.
fn bools_of(array: &Array) -> &BoolArray
    requires plain { IsTrue (is_plain array.now) }
    requires kind { IsTrue (is_truth_value (Some (column_of array.now).dtype)) }
    ensures { bool_column result.now ≡ column_of array.now }
{
    match array {
        Array::Bool(rows) => rows,
        Array::Primitive(_) => unreachable!(),
        Array::Decimal(_) => unreachable!(),
        Array::VarBinView(_) => unreachable!(),
        Array::Constant(_) => unreachable!(),
    }
}

/// So many rows of a truth value or null.
pub(crate) fn repeated_truth(
    alloc: Global,
    row: &Scalar,
    len: usize,
) -> Result<BoolArray, AllocError>
    ensures { IfOk result (λ a. answers (bool_column a) ≡ replicate len (answer_in row.now.value)) }
{
    match truth_of(row) {
        Some(truth) => equal_answers(alloc, truth, Nullability::Nullable, len),
        None => null_answers(alloc, len),
    }
}

// The truth value that a row is, or none where it is null or another value.
fn truth_of(row: &Scalar) -> Option<bool>
    ensures { result ≡ answer_in row.now.value }
{
    match row.value_ref() {
        Some(value) => truth_in(value),
        None => None,
    }
}

// The truth value that a value is.
fn truth_in(value: ValueRef<'_>) -> Option<bool>
    ensures { result ≡ truth_value (value_seen value.entry) }
{
    match value {
        ValueRef::Bool(truth) => Some(truth),
        _ => None,
    }
}

/// So many rows that tell whether a row is null.
pub(crate) fn repeated_null(
    alloc: Global,
    row: &Scalar,
    len: usize,
) -> Result<BoolArray, AllocError>
    ensures { IfOk result (λ a. answers (bool_column a) ≡ replicate len (Some (is_none row.now.value))) }
{
    equal_answers(alloc, row.is_null(), Nullability::NonNullable, len)
}
