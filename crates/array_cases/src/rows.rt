// The rows of a plain column, as words.
use crate::stop::Stop;
use crate::words::{count, truth};
use std::alloc::Global;
use vortex_array::{Nullability, Validity};
use vortex_buffer::BitBuffer;
use vortex_compute::collect_bits;

/// How many rows a case may have.
const MOST_ROWS: usize = 100000;

/// A row: whether it is null, and what stands in its place.
#[derive(Clone, Copy)]
pub(crate) struct Row<'a> {
    pub(crate) is_null: bool,
    pub(crate) word: &'a str,
}

/// How the nulls of a plain column are kept.
#[derive(Clone, Copy)]
pub(crate) enum Nulls {
    NotInType,
    ByBits,
    InNoRow,
    InEachRow,
}

impl Nulls {
    /// Whether the type has nulls.
    pub(crate) fn nullability(self) -> Nullability {
        match self {
            Nulls::NotInType => Nullability::NonNullable,
            _ => Nullability::Nullable,
        }
    }
}

/// A name, and how the nulls are kept, which the mark behind it says.
pub(crate) fn marked(name: &str) -> (&str, Nulls) {
    if let Some(name) = name.strip_suffix('?') {
        return (name, Nulls::ByBits);
    }
    if let Some(name) = name.strip_suffix('+') {
        return (name, Nulls::InNoRow);
    }
    if let Some(name) = name.strip_suffix('!') {
        return (name, Nulls::InEachRow);
    }
    (name, Nulls::NotInType)
}

/// One row.
pub(crate) fn row_of(word: &str) -> Row<'_> {
    if word == "-" {
        return Row {
            is_null: true,
            word: "",
        };
    }
    match word.strip_prefix('~') {
        Some(word) => Row {
            is_null: true,
            word,
        },
        None => Row {
            is_null: false,
            word,
        },
    }
}

// The rows with commas between them.
fn listed<'a>(alloc: Global, words: &'a str) -> Result<Vec<Row<'a>>, Stop> {
    let mut rows = Vec::new(alloc);
    if words.is_empty() {
        return Ok(rows);
    }
    for word in words.split(',') {
        rows.push(row_of(word))?;
    }
    Ok(rows)
}

// Rows repeated until there are so many.
fn repeated<'a>(alloc: Global, rows: &[Row<'a>], len: usize) -> Result<Vec<Row<'a>>, Stop> {
    if rows.is_empty() || len > MOST_ROWS {
        return Err(Stop::NotUnderstood);
    }
    let mut all = Vec::with_capacity(alloc, len)?;
    for i in 0..len {
        all.push(rows[i % rows.len()])?;
    }
    Ok(all)
}

/// The rows that words stand for.
pub(crate) fn rows<'a>(alloc: Global, words: &'a str) -> Result<Vec<Row<'a>>, Stop> {
    match words.split_once('@') {
        Some((words, len)) => {
            let rows = listed(alloc, words)?;
            repeated(alloc, rows.as_slice(), count(len)?)
        }
        None => listed(alloc, words),
    }
}

// Which rows are not null, as bits.
fn valid_bits(alloc: Global, rows: &[Row<'_>]) -> Result<BitBuffer, Stop> {
    let mut valid = Vec::with_capacity(alloc, rows.len())?;
    for row in rows {
        valid.push(!row.is_null)?;
    }
    let bits = collect_bits(alloc, valid.as_slice(), |is_valid: bool| is_valid)?;
    Ok(bits)
}

// Rows none of which is null.
fn without_nulls(rows: &[Row<'_>], validity: Validity) -> Result<Validity, Stop> {
    for row in rows {
        if row.is_null {
            return Err(Stop::NotUnderstood);
        }
    }
    Ok(validity)
}

/// Which rows are not null, in one of the four forms.
pub(crate) fn validity(alloc: Global, nulls: Nulls, rows: &[Row<'_>]) -> Result<Validity, Stop> {
    match nulls {
        Nulls::NotInType => without_nulls(rows, Validity::NonNullable),
        Nulls::InNoRow => without_nulls(rows, Validity::AllValid),
        Nulls::InEachRow => Ok(Validity::AllInvalid),
        Nulls::ByBits => Ok(Validity::Bits(valid_bits(alloc, rows)?)),
    }
}

// The truths of a word of `1` and `0`.
fn truths(alloc: Global, word: &str) -> Result<Vec<bool>, Stop> {
    let mut truths = Vec::new(alloc);
    for letter in word.as_bytes() {
        truths.push(*letter == b'1')?;
    }
    Ok(truths)
}

// Truths repeated until there are so many.
fn repeated_truths(alloc: Global, truths: &[bool], len: usize) -> Result<Vec<bool>, Stop> {
    if truths.is_empty() || len > MOST_ROWS {
        return Err(Stop::NotUnderstood);
    }
    let mut all = Vec::with_capacity(alloc, len)?;
    for i in 0..len {
        all.push(truths[i % truths.len()])?;
    }
    Ok(all)
}

// The truths that a word stands for.
fn all_truths(alloc: Global, word: &str) -> Result<Vec<bool>, Stop> {
    match word.split_once('@') {
        Some((word, len)) => {
            let truths = truths(alloc, word)?;
            repeated_truths(alloc, truths.as_slice(), count(len)?)
        }
        None => truths(alloc, word),
    }
}

/// The bits of a word of `1` and `0`.
pub(crate) fn bits(alloc: Global, word: &str) -> Result<BitBuffer, Stop> {
    let truths = all_truths(alloc, word)?;
    let bits = collect_bits(alloc, truths.as_slice(), |truth: bool| truth)?;
    Ok(bits)
}

// The truth in the place of a row. What holds no word is 0.
fn row_truth(row: Row<'_>) -> Result<bool, Stop> {
    if row.word.is_empty() {
        return Ok(false);
    }
    truth(row.word)
}

fn row_truths(alloc: Global, rows: &[Row<'_>]) -> Result<Vec<bool>, Stop> {
    let mut truths = Vec::with_capacity(alloc, rows.len())?;
    for row in rows {
        truths.push(row_truth(*row)?)?;
    }
    Ok(truths)
}

/// The bits of rows of truth values.
pub(crate) fn row_bits(alloc: Global, rows: &[Row<'_>]) -> Result<BitBuffer, Stop> {
    let truths = row_truths(alloc, rows)?;
    let bits = collect_bits(alloc, truths.as_slice(), |truth: bool| truth)?;
    Ok(bits)
}
