// Calls on one column that read it: its type, its rows, copies.
use crate::shown::{push_dtype, push_row, shown, shown_mask, shown_scalar};
use crate::stop::Stop;
use crate::words::{count, yes_or_no};
use crate::{comparing, keeping, parts, truths, values};
use std::alloc::Global;
use vortex_array::Array;

/// The answer of a call on a column.
pub(crate) fn answer(
    alloc: Global,
    call: &str,
    array: &Array,
    words: &str,
) -> Result<String, Stop> {
    match call {
        "len" => len(alloc, array),
        "dtype" => dtype(alloc, array),
        "is_valid" => is_valid(alloc, array, words),
        "value_at" => value_at(alloc, array, words),
        "scalar_at" => scalar_at(alloc, array, words),
        "validity_mask" => validity_mask(alloc, array),
        "try_clone" => copy(alloc, array),
        "into_nullable" => into_nullable(alloc, array),
        "kept" => keeping::kept(alloc, array),
        _ => further(alloc, call, array, words),
    }
}

// The answer of a call of another subject.
fn further(alloc: Global, call: &str, array: &Array, words: &str) -> Result<String, Stop> {
    match call {
        "slice" | "filter" | "take" | "names_rows" => parts::answer(alloc, call, array, words),
        "compare" | "between" | "like" | "test" => comparing::answer(alloc, call, array, words),
        "cast" | "fill_null" | "min_max" | "orders" => values::answer(alloc, call, array, words),
        _ => truths::answer(alloc, call, array, words),
    }
}

// Whether each form of the length says the same, and how long the column is.
fn len(alloc: Global, array: &Array) -> Result<String, Stop> {
    let len = array.len();
    let is_empty = yes_or_no(array.is_empty());
    Ok(format!(in alloc; "{len}, empty: {is_empty}")?)
}

fn dtype(alloc: Global, array: &Array) -> Result<String, Stop> {
    let mut text = String::new(alloc);
    push_dtype(&mut text, alloc, array.dtype())?;
    Ok(text)
}

fn is_valid(alloc: Global, array: &Array, words: &str) -> Result<String, Stop> {
    let place = count(words)?;
    if place >= array.len() {
        return Err(Stop::NoSuchCall);
    }
    Ok(yes_or_no(array.is_valid(place)).to_string(alloc)?)
}

fn value_at(alloc: Global, array: &Array, words: &str) -> Result<String, Stop> {
    let place = count(words)?;
    if place >= array.len() {
        return Err(Stop::NoSuchCall);
    }
    let mut text = String::new(alloc);
    push_row(&mut text, alloc, array.value_at(place))?;
    Ok(text)
}

fn scalar_at(alloc: Global, array: &Array, words: &str) -> Result<String, Stop> {
    let place = count(words)?;
    if place >= array.len() {
        return Err(Stop::NoSuchCall);
    }
    let scalar = array.scalar_at(alloc, place)?;
    shown_scalar(alloc, &scalar)
}

fn validity_mask(alloc: Global, array: &Array) -> Result<String, Stop> {
    let mask = array.validity_mask(alloc)?;
    shown_mask(alloc, &mask)
}

fn copy(alloc: Global, array: &Array) -> Result<String, Stop> {
    let copy = array.try_clone(alloc)?;
    shown(alloc, &copy)
}

// The form of a copy whose type has nulls.
fn into_nullable(alloc: Global, array: &Array) -> Result<String, Stop> {
    let nullable = array.try_clone(alloc)?.into_nullable();
    shown(alloc, &nullable)
}
