// Columns compared, bounded and matched with patterns, and values that are tested.
use crate::asking::test;
use crate::columns::column;
use crate::shown::shown;
use crate::stop::Stop;
use crate::words::cut;
use std::alloc::Global;
use vortex_array::{Array, BetweenOptions, CompareOperator, DType, StrictComparison};

/// The answer of a call that compares rows of a column.
pub(crate) fn answer(
    alloc: Global,
    call: &str,
    array: &Array,
    words: &str,
) -> Result<String, Stop> {
    match call {
        "compare" => compare(alloc, array, words),
        "between" => between(alloc, array, words),
        "like" => like(alloc, array, words),
        _ => test(alloc, array, words),
    }
}

/// An operator by its sign.
pub(crate) fn operator(word: &str) -> Result<CompareOperator, Stop> {
    match word {
        "=" => Ok(CompareOperator::Eq),
        "!=" => Ok(CompareOperator::NotEq),
        ">" => Ok(CompareOperator::Gt),
        ">=" => Ok(CompareOperator::Gte),
        "<" => Ok(CompareOperator::Lt),
        "<=" => Ok(CompareOperator::Lte),
        _ => Err(Stop::NotUnderstood),
    }
}

/// Whether bounds belong to what they bound: `[` and `]` do, `(` and `)` do not.
pub(crate) fn bounds(word: &str) -> Result<BetweenOptions, Stop> {
    let (lower_strict, upper_strict) = match word {
        "[]" => (StrictComparison::NonStrict, StrictComparison::NonStrict),
        "(]" => (StrictComparison::Strict, StrictComparison::NonStrict),
        "[)" => (StrictComparison::NonStrict, StrictComparison::Strict),
        "()" => (StrictComparison::Strict, StrictComparison::Strict),
        _ => return Err(Stop::NotUnderstood),
    };
    Ok(BetweenOptions {
        lower_strict,
        upper_strict,
    })
}

fn compare(alloc: Global, array: &Array, words: &str) -> Result<String, Stop> {
    let (sign, other) = cut(words);
    let operator = operator(sign)?;
    let other = column(alloc, other)?;
    compared(alloc, array, &other, operator)
}

fn compared(
    alloc: Global,
    left: &Array,
    right: &Array,
    operator: CompareOperator,
) -> Result<String, Stop> {
    if left.len() != right.len() {
        return Err(Stop::NoSuchCall);
    }
    if !left.dtype().same_apart_from_nullability(&right.dtype()) {
        return Err(Stop::NoSuchCall);
    }
    let answers = Array::Bool(left.compare(alloc, right, operator)?);
    shown(alloc, &answers)
}

fn between(alloc: Global, array: &Array, words: &str) -> Result<String, Stop> {
    let (signs, words) = cut(words);
    let options = bounds(signs)?;
    let (lower, upper) = cut(words);
    let lower = column(alloc, lower)?;
    bounded_below(alloc, array, &lower, upper, &options)
}

fn bounded_below(
    alloc: Global,
    array: &Array,
    lower: &Array,
    upper: &str,
    options: &BetweenOptions,
) -> Result<String, Stop> {
    let upper = column(alloc, upper)?;
    bounded(alloc, array, lower, &upper, options)
}

fn bounded(
    alloc: Global,
    array: &Array,
    lower: &Array,
    upper: &Array,
    options: &BetweenOptions,
) -> Result<String, Stop> {
    if array.len() != lower.len() || array.len() != upper.len() {
        return Err(Stop::NoSuchCall);
    }
    if !array.dtype().same_apart_from_nullability(&lower.dtype()) {
        return Err(Stop::NoSuchCall);
    }
    if !array.dtype().same_apart_from_nullability(&upper.dtype()) {
        return Err(Stop::NoSuchCall);
    }
    let answers = Array::Bool(array.between(alloc, lower, upper, options)?);
    shown(alloc, &answers)
}

fn like(alloc: Global, array: &Array, words: &str) -> Result<String, Stop> {
    let patterns = column(alloc, words)?;
    matched(alloc, array, &patterns)
}

fn matched(alloc: Global, texts: &Array, patterns: &Array) -> Result<String, Stop> {
    if texts.len() != patterns.len() {
        return Err(Stop::NoSuchCall);
    }
    let DType::Utf8(_) = texts.dtype() else {
        return Err(Stop::NoSuchCall);
    };
    let DType::Utf8(_) = patterns.dtype() else {
        return Err(Stop::NoSuchCall);
    };
    let answers = Array::Bool(texts.like(alloc, patterns)?);
    shown(alloc, &answers)
}
