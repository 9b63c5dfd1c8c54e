// Casts, fills, the least and the greatest value, and orders.
use crate::columns::scalar;
use crate::shown::{push_scalar, shown};
use crate::stop::Stop;
use crate::types::dtype;
use std::alloc::{AllocError, Global};
use vortex_array::{Array, CastError, MinMax, Scalar};

/// The answer of a call on the values of a column.
pub(crate) fn answer(
    alloc: Global,
    call: &str,
    array: &Array,
    words: &str,
) -> Result<String, Stop> {
    match call {
        "cast" => cast(alloc, array, words),
        "fill_null" => fill_null(alloc, array, words),
        "min_max" => min_max(alloc, array),
        _ => Ok(orders(array).to_string(alloc)?),
    }
}

// Why a cast is refused.
fn refusal(alloc: Global, error: CastError) -> Result<String, AllocError> {
    match error {
        CastError::Unsupported => "unsupported".to_string(alloc),
        CastError::HasNull { row } => format!(in alloc; "row {row} is null"),
        CastError::DoesNotFit { row } => format!(in alloc; "row {row} does not fit"),
        CastError::OutOfMemory => Err(AllocError),
    }
}

fn cast(alloc: Global, array: &Array, words: &str) -> Result<String, Stop> {
    let dtype = dtype(words)?;
    match array.cast(alloc, &dtype) {
        Ok(cast) => shown(alloc, &cast),
        Err(error) => Ok(refusal(alloc, error)?),
    }
}

fn fill_null(alloc: Global, array: &Array, words: &str) -> Result<String, Stop> {
    let fill = scalar(alloc, words)?;
    filled(alloc, array, &fill)
}

fn filled(alloc: Global, array: &Array, fill: &Scalar) -> Result<String, Stop> {
    if fill.is_null() {
        return Err(Stop::NoSuchCall);
    }
    if !array.dtype().same_apart_from_nullability(&fill.dtype()) {
        return Err(Stop::NoSuchCall);
    }
    let filled = array.fill_null(alloc, fill)?;
    shown(alloc, &filled)
}

fn min_max(alloc: Global, array: &Array) -> Result<String, Stop> {
    let found = array.min_max(alloc)?;
    match found.as_ref() {
        Some(found) => ends(alloc, found),
        None => Ok("none".to_string(alloc)?),
    }
}

// The least and the greatest value.
fn ends(alloc: Global, found: &MinMax) -> Result<String, Stop> {
    let mut text = String::new(alloc);
    push_scalar(&mut text, alloc, &found.min)?;
    text.push_str(" to ")?;
    push_scalar(&mut text, alloc, &found.max)?;
    Ok(text)
}

// What holds of the rows.
fn orders(array: &Array) -> &'static str {
    match (
        array.is_constant(),
        array.is_sorted(),
        array.is_strict_sorted(),
    ) {
        (true, true, true) => "constant, sorted, strictly sorted",
        (true, true, false) => "constant, sorted",
        (true, false, true) => "constant, strictly sorted",
        (true, false, false) => "constant",
        (false, true, true) => "sorted, strictly sorted",
        (false, true, false) => "sorted",
        (false, false, true) => "strictly sorted",
        (false, false, false) => "in no order",
    }
}
