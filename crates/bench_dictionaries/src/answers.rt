// Answers of dictionaries row by row. Each function owns one thing.
use crate::building::{Lent, dictionary, equal_rows, text_scalar, value_like};
use crate::plain::{below_in_column, like_in_column};
use crate::repeating::{apply_times, below_times, like_times};
use crate::telling::{Told, nothing};
use std::alloc::{AllocError, Global};
use vortex_array::{Array, CompareOperator, CompareTo, Scalar};
use vortex_dict::DictArray;

// Whether the rows are below a bound, decoded before.
fn below_decoded(
    alloc: Global,
    dict: &DictArray,
    bound: &Array,
    times: usize,
) -> Result<Told, AllocError> {
    match dict.canonicalize(alloc) {
        Ok(rows) => below_in_column(alloc, &rows, bound, times),
        Err(e) => Err(e),
    }
}

// Whether the rows are below a bound.
fn below_bound(
    alloc: Global,
    lent: Lent<'_>,
    bound: &Array,
    decoded: usize,
    times: usize,
) -> Result<Told, AllocError> {
    let dict = dictionary(alloc, lent)?;
    if decoded == 0 {
        below_times(alloc, &dict, bound, times)
    } else {
        below_decoded(alloc, &dict, bound, times)
    }
}

// Whether the rows are below a value.
fn below(
    alloc: Global,
    lent: Lent<'_>,
    number: u64,
    text: &[u8],
    decoded: usize,
    times: usize,
) -> Result<Told, AllocError> {
    let bound = equal_rows(value_like(alloc, lent, number, text)?, lent.rows());
    below_bound(alloc, lent, &bound, decoded, times)
}

/// Whether the rows are below a value, the text or the number.
#[unsafe(no_mangle)]
pub extern "C" fn bench_dictionary_below(
    alloc: Global,
    narrow: &[u8],
    wide: &[u32],
    numbers: &[u64],
    bytes: &[u8],
    ends: &[usize],
    number: u64,
    text: &[u8],
    decoded: usize,
    times: usize,
) -> Told {
    let lent = Lent {
        narrow,
        wide,
        numbers,
        bytes,
        ends,
    };
    below(alloc, lent, number, text, decoded, times).unwrap_or(nothing())
}

// Whether the texts match patterns, decoded before.
fn like_decoded(
    alloc: Global,
    dict: &DictArray,
    patterns: &Array,
    times: usize,
) -> Result<Told, AllocError> {
    match dict.canonicalize(alloc) {
        Ok(rows) => like_in_column(alloc, &rows, patterns, times),
        Err(e) => Err(e),
    }
}

// Whether the texts match patterns.
fn like_patterns(
    alloc: Global,
    lent: Lent<'_>,
    patterns: &Array,
    decoded: usize,
    times: usize,
) -> Result<Told, AllocError> {
    let dict = dictionary(alloc, lent)?;
    if decoded == 0 {
        like_times(alloc, &dict, patterns, times)
    } else {
        like_decoded(alloc, &dict, patterns, times)
    }
}

// Whether the texts match a pattern.
fn like(
    alloc: Global,
    lent: Lent<'_>,
    pattern: &[u8],
    decoded: usize,
    times: usize,
) -> Result<Told, AllocError> {
    let patterns = equal_rows(text_scalar(alloc, pattern)?, lent.rows());
    like_patterns(alloc, lent, &patterns, decoded, times)
}

/// Whether the texts match a pattern.
#[unsafe(no_mangle)]
pub extern "C" fn bench_dictionary_like(
    alloc: Global,
    narrow: &[u8],
    wide: &[u32],
    bytes: &[u8],
    ends: &[usize],
    pattern: &[u8],
    decoded: usize,
    times: usize,
) -> Told {
    let lent = Lent {
        narrow,
        wide,
        numbers: &[],
        bytes,
        ends,
    };
    like(alloc, lent, pattern, decoded, times).unwrap_or(nothing())
}

// Whether a test holds of the rows.
fn tested(
    alloc: Global,
    lent: Lent<'_>,
    test: &mut CompareTo,
    times: usize,
) -> Result<Told, AllocError> {
    match dictionary(alloc, lent) {
        Ok(dict) => apply_times(alloc, &dict, test, times),
        Err(e) => Err(e),
    }
}

// Whether the test that a value is below a bound holds of the rows.
fn apply(alloc: Global, lent: Lent<'_>, bound: Scalar, times: usize) -> Result<Told, AllocError> {
    if bound.is_null() {
        return Err(AllocError);
    }
    let mut test = CompareTo::new(CompareOperator::Lt, bound);
    tested(alloc, lent, &mut test, times)
}

/// Whether the test that a value is below another, the text or the number, holds of the rows.
#[unsafe(no_mangle)]
pub extern "C" fn bench_dictionary_apply(
    alloc: Global,
    narrow: &[u8],
    wide: &[u32],
    numbers: &[u64],
    bytes: &[u8],
    ends: &[usize],
    number: u64,
    text: &[u8],
    times: usize,
) -> Told {
    let lent = Lent {
        narrow,
        wide,
        numbers,
        bytes,
        ends,
    };
    match value_like(alloc, lent, number, text) {
        Ok(bound) => apply(alloc, lent, bound, times).unwrap_or(nothing()),
        Err(_) => nothing(),
    }
}
