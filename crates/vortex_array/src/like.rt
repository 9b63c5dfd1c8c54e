// Columns of texts matched with patterns.
ghost use Rattle.std.specs.Prelude.{◌≡◌, ◌==◌, IfOk, IsTrue, None, Some, length, option_map, replicate};
ghost use Rattle.vortex_array_types.specs.Row.{fits_type, nullability};
ghost use Rattle.vortex_array_types.specs.Seen.{value_seen};
ghost use Rattle.vortex_array_types.specs.declared.scalar.Value.TheVariants as value;
ghost use Rattle.vortex_array_kinds.specs.StringValues.{is_text_type};
ghost use Rattle.vortex_array_kinds.specs.Truths.{either, liked};
ghost use Rattle.vortex_array_compare.specs.Repeated.{repeated};
ghost use Rattle.vortex_array.specs.ColumnOf.{bool_column, column_of, constant_column, string_column};

use crate::arrays::Array;
use std::alloc::{AllocError, Global};
use vortex_array_compare::{
    either_nullability, equal_answers, like_pattern, like_patterns, null_answers,
    text_like_patterns,
};
use vortex_array_kinds::{BoolArray, ConstantArray, VarBinViewArray};
use vortex_array_predicates::text_matches;
use vortex_array_types::{DType, ValueRef};

impl Array {
    /// Row by row whether the text matches the pattern, of two columns of texts of one length. Null where a row is null. In
    /// a pattern `%` stands for any characters or none, `_` for any one, and a backslash for the character behind it.
    pub fn like(&self, alloc: Global, pattern: &Array) -> Result<BoolArray, AllocError>
        requires same_length { length (column_of self.now).rows ≡ length (column_of pattern.now).rows }
        requires texts { IsTrue (is_text_type (column_of self.now).dtype) }
        requires patterns { IsTrue (is_text_type (column_of pattern.now).dtype) }
        ensures { IfOk result (λ a. bool_column a ≡ liked (column_of self.now) (column_of pattern.now)) }
    {
        match pattern {
            Array::Bool(_) => unreachable!(),
            Array::Primitive(_) => unreachable!(),
            Array::Decimal(_) => unreachable!(),
            Array::VarBinView(patterns) => like_each(alloc, self, patterns),
            Array::Constant(pattern) => like_constant(alloc, self, pattern),
        }
    }
}

// A value of a column of texts, as text.
fn text_of(dtype: DType, lent: ValueRef<'_>) -> &str
    requires fits { IsTrue (fits_type dtype (Some (value_seen lent))) }
    requires texts { IsTrue (is_text_type dtype) }
    ensures { value.Utf8 result.now ≡ value_seen lent.entry }
{
    match lent {
        ValueRef::Utf8(text) => text,
        ValueRef::Bool(_) => unreachable!(),
        ValueRef::Int(_) => unreachable!(),
        ValueRef::Decimal(_) => unreachable!(),
        ValueRef::Binary(_) => unreachable!(),
    }
}

// The text that each row is, or none where each is null.
fn equal_text(texts: &ConstantArray) -> Option<&str>
    requires { IsTrue (is_text_type (constant_column texts.now).dtype) }
    ensures value { option_map (λ text. value.Utf8 text.now) result ≡ texts.now.scalar.value }
    ensures fits { IsTrue (fits_type texts.now.scalar.dtype texts.now.scalar.value) }
{
    match texts.scalar().value_ref() {
        Some(value) => Some(text_of(texts.dtype(), value)),
        None => None,
    }
}

// Texts matched with a column of patterns.
fn like_each(
    alloc: Global,
    texts: &Array,
    patterns: &VarBinViewArray,
) -> Result<BoolArray, AllocError>
    requires same_length { length (column_of texts.now).rows ≡ length (string_column patterns.now).rows }
    requires texts { IsTrue (is_text_type (column_of texts.now).dtype) }
    requires patterns { IsTrue (is_text_type (string_column patterns.now).dtype) }
    ensures { IfOk result (λ a. bool_column a ≡ liked (column_of texts.now) (string_column patterns.now)) }
{
    match texts {
        Array::Bool(_) => unreachable!(),
        Array::Primitive(_) => unreachable!(),
        Array::Decimal(_) => unreachable!(),
        Array::VarBinView(texts) => like_patterns(alloc, texts, patterns),
        Array::Constant(text) => equal_text_like(alloc, text, patterns),
    }
}

// Equal texts matched with a column of patterns.
fn equal_text_like(
    alloc: Global,
    text: &ConstantArray,
    patterns: &VarBinViewArray,
) -> Result<BoolArray, AllocError>
    requires same_length { length (constant_column text.now).rows ≡ length (string_column patterns.now).rows }
    requires texts { IsTrue (is_text_type (constant_column text.now).dtype) }
    requires patterns { IsTrue (is_text_type (string_column patterns.now).dtype) }
    ensures { IfOk result (λ a. bool_column a ≡ liked (constant_column text.now) (string_column patterns.now)) }
{
    let nullability = text.dtype().nullability();
    match equal_text(text) {
        Some(own) => text_like_patterns(alloc, own, nullability, patterns),
        None => null_answers(alloc, text.len()),
    }
}

// Texts matched with equal patterns.
fn like_constant(
    alloc: Global,
    texts: &Array,
    constant: &ConstantArray,
) -> Result<BoolArray, AllocError>
    requires same_length { length (column_of texts.now).rows ≡ length (constant_column constant.now).rows }
    requires texts { IsTrue (is_text_type (column_of texts.now).dtype) }
    requires patterns { IsTrue (is_text_type (constant_column constant.now).dtype) }
    ensures { IfOk result (λ a. bool_column a ≡ liked (column_of texts.now) (constant_column constant.now)) }
{
    let dtype = constant.dtype();
    match equal_text(constant) {
        Some(pattern) => like_one(alloc, texts, dtype, pattern),
        None => null_answers(alloc, constant.len()),
    }
}

// Texts matched with one pattern, of a type with nulls or without.
fn like_one(
    alloc: Global,
    texts: &Array,
    dtype: DType,
    pattern: &str,
) -> Result<BoolArray, AllocError>
    requires { IsTrue (is_text_type (column_of texts.now).dtype) }
    ensures { IfOk result (λ a. bool_column a ≡ liked (column_of texts.now) (repeated dtype (value.Utf8 pattern.now) (length (column_of texts.now).rows))) }
{
    match texts {
        Array::Bool(_) => unreachable!(),
        Array::Primitive(_) => unreachable!(),
        Array::Decimal(_) => unreachable!(),
        Array::VarBinView(texts) => like_pattern(alloc, texts, pattern, dtype.nullability()),
        Array::Constant(text) => equal_text_like_one(alloc, text, dtype, pattern),
    }
}

// Equal texts matched with one pattern, of a type with nulls or without.
fn equal_text_like_one(
    alloc: Global,
    text: &ConstantArray,
    dtype: DType,
    pattern: &str,
) -> Result<BoolArray, AllocError>
    requires { IsTrue (is_text_type (constant_column text.now).dtype) }
    ensures { IfOk result (λ a. bool_column a ≡ liked (constant_column text.now) (repeated dtype (value.Utf8 pattern.now) (length (constant_column text.now).rows))) }
{
    let nullability = either_nullability(text.dtype(), dtype);
    match equal_text(text) {
        Some(own) => equal_answers(alloc, text_matches(own, pattern), nullability, text.len()),
        None => null_answers(alloc, text.len()),
    }
}
