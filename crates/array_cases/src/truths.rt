// Columns of truth values in three values.
use crate::columns::column;
use crate::shown::{shown, shown_mask};
use crate::stop::Stop;
use std::alloc::Global;
use vortex_array::{Array, BoolArray};

/// The answer of a call on a plain column of truth values.
pub(crate) fn answer(
    alloc: Global,
    call: &str,
    array: &Array,
    words: &str,
) -> Result<String, Stop> {
    let Array::Bool(array) = array else {
        return Err(Stop::NoSuchCall);
    };
    match call {
        "negate" => negate(alloc, array),
        "true_mask" => true_mask(alloc, array),
        _ => with_column(alloc, call, array, words),
    }
}

fn negate(alloc: Global, array: &BoolArray) -> Result<String, Stop> {
    let answers = Array::Bool(array.negate(alloc)?);
    shown(alloc, &answers)
}

fn true_mask(alloc: Global, array: &BoolArray) -> Result<String, Stop> {
    let mask = array.true_mask(alloc)?;
    shown_mask(alloc, &mask)
}

// The answer of a call with a second column.
fn with_column(alloc: Global, call: &str, array: &BoolArray, words: &str) -> Result<String, Stop> {
    let other = column(alloc, words)?;
    joined(alloc, call, array, &other)
}

fn joined(alloc: Global, call: &str, left: &BoolArray, right: &Array) -> Result<String, Stop> {
    let Array::Bool(right) = right else {
        return Err(Stop::NoSuchCall);
    };
    let answers = Array::Bool(joined_truths(alloc, call, left, right)?);
    shown(alloc, &answers)
}

fn joined_truths(
    alloc: Global,
    call: &str,
    left: &BoolArray,
    right: &BoolArray,
) -> Result<BoolArray, Stop> {
    if left.len() != right.len() {
        return Err(Stop::NoSuchCall);
    }
    match call {
        "kleene_and" => Ok(left.kleene_and(alloc, right)?),
        "kleene_or" => Ok(left.kleene_or(alloc, right)?),
        "both_true" => Ok(left.both_true(alloc, right)?),
        _ => Err(Stop::NotUnderstood),
    }
}
