// What a call gave, as its caller checks it. Telling it costs next to nothing beside the call.
use std::alloc::{AllocError, Global};
use vortex_array::{Array, BoolArray, MinMax, Validity, ValueRef};
use vortex_dict::{DictArray, DictFilled, DictSlice};

/// What a call gave. Both parts are 0 where memory was wanting.
#[repr(C)]
#[derive(Clone, Copy)]
pub struct Told {
    /// How many rows there are.
    pub rows: usize,
    /// Of answers as a column, how many are true; of other rows, the first, the middle and the last as one number.
    pub value: u64,
}

/// What is told of no rows.
pub fn nothing() -> Told {
    Told { rows: 0, value: 0 }
}

// The number of a row, how many bytes it has, or whether it is true, and 0 where it is null.
fn number_in(value: Option<ValueRef<'_>>) -> u64 {
    match value {
        Some(ValueRef::Int(number)) => u64::try_from(number).unwrap_or(1),
        Some(ValueRef::Utf8(text)) => text.len() as u64,
        Some(ValueRef::Bool(true)) => 1,
        _ => 0,
    }
}

// The number of the row at a place.
fn number_at(rows: &Array, i: usize) -> u64 {
    if i >= rows.len() {
        return 0;
    }
    number_in(rows.value_at(i))
}

// The number of the row of a dictionary at a place.
fn row_at(dict: &DictArray, i: usize) -> u64 {
    number_at(dict.values(), number_at(dict.codes(), i) as usize)
}

/// What is told of a column.
pub fn told_of(rows: &Array) -> Told {
    let len = rows.len();
    let first = number_at(rows, 0);
    let middle = number_at(rows, len / 2);
    let last = number_at(rows, len.saturating_sub(1));
    Told {
        rows: len,
        value: first.wrapping_add(middle).wrapping_add(last),
    }
}

/// What is told of a dictionary.
pub fn told_dictionary(dict: &DictArray) -> Told {
    let len = dict.len();
    let first = row_at(dict, 0);
    let middle = row_at(dict, len / 2);
    let last = row_at(dict, len.saturating_sub(1));
    Told {
        rows: len,
        value: first.wrapping_add(middle).wrapping_add(last),
    }
}

/// What is told of a part of a dictionary. Of equal rows it is their number alone.
pub fn told_slice(part: &DictSlice) -> Told {
    match part {
        DictSlice::Dict(dict) => told_dictionary(dict),
        DictSlice::Constant(rows) => Told {
            rows: rows.len(),
            value: 0,
        },
    }
}

/// What is told of a dictionary that was filled.
pub fn told_filled(rows: &DictFilled) -> Told {
    match rows {
        DictFilled::Dict(dict) => told_dictionary(dict),
        DictFilled::Plain(rows) => told_of(rows),
    }
}

/// What is told of so many rows by the least and the greatest of them: both as one number.
pub fn told_extremes(rows: usize, found: &Option<MinMax>) -> Told {
    let value = match found {
        Some(extremes) => {
            let least = number_in(extremes.min.value_ref());
            least.wrapping_add(number_in(extremes.max.value_ref()))
        }
        None => 0,
    };
    Told { rows, value }
}

/// What is told of answers.
pub fn told_answers(alloc: Global, answers: &BoolArray) -> Result<Told, AllocError> {
    let count = match answers.validity() {
        Validity::NonNullable | Validity::AllValid => answers.bits().count(),
        Validity::AllInvalid => 0,
        Validity::Bits(valid) => answers.bits().and(alloc, valid)?.count(),
    };
    Ok(Told {
        rows: answers.len(),
        value: count as u64,
    })
}
