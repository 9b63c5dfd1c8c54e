// Tests of single values: comparisons with constants, bounds, and patterns.
use crate::columns::scalar;
use crate::comparing::{bounds, operator};
use crate::stop::Stop;
use crate::words::{cut, letters, yes_or_no};
use std::alloc::Global;
use vortex_array::{Array, BetweenTo, CompareTo, LikePattern, LikeTo, Predicate, Scalar, ValueRef};

/// Whether a text matches a pattern.
pub(crate) fn matches(alloc: Global, words: &str) -> Result<String, Stop> {
    let (pattern, text) = cut(words);
    let pattern = LikePattern::new(alloc, letters(pattern))?;
    Ok(yes_or_no(pattern.matches(letters(text))).to_string(alloc)?)
}

// What a test answers of a row: `1` or `0`, and `-` of null, of which nothing is asked.
fn asked<P: Predicate>(test: &mut P, row: Option<ValueRef<'_>>) -> char {
    match row {
        Some(value) => { if test.test(value) { '1' } else { '0' } }
        None => '-',
    }
}

// What a test answers of each row.
fn asked_of<P: Predicate>(alloc: Global, array: &Array, mut test: P) -> Result<String, Stop> {
    let mut text = String::new(alloc);
    for i in 0..array.len() {
        text.push(asked(&mut test, array.value_at(i)))?;
    }
    Ok(text)
}

fn test_compare(alloc: Global, array: &Array, words: &str) -> Result<String, Stop> {
    let (sign, word) = cut(words);
    let operator = operator(sign)?;
    let constant = scalar(alloc, word)?;
    if constant.is_null() {
        return Err(Stop::NoSuchCall);
    }
    asked_of(alloc, array, CompareTo::new(operator, constant))
}

fn test_between(alloc: Global, array: &Array, words: &str) -> Result<String, Stop> {
    let (signs, words) = cut(words);
    let options = bounds(signs)?;
    let (lower, upper) = cut(words);
    let lower = scalar(alloc, lower)?;
    let upper = scalar(alloc, upper)?;
    if lower.is_null() || upper.is_null() {
        return Err(Stop::NoSuchCall);
    }
    asked_of(alloc, array, BetweenTo::new(options, lower, upper))
}

fn test_like(alloc: Global, array: &Array, words: &str) -> Result<String, Stop> {
    let pattern = LikePattern::new(alloc, letters(words))?;
    asked_of(alloc, array, LikeTo::new(pattern))
}

/// What a test of values answers of each row.
pub(crate) fn test(alloc: Global, array: &Array, words: &str) -> Result<String, Stop> {
    let (kind, words) = cut(words);
    match kind {
        "compare" => test_compare(alloc, array, words),
        "between" => test_between(alloc, array, words),
        "like" => test_like(alloc, array, words),
        _ => Err(Stop::NotUnderstood),
    }
}
