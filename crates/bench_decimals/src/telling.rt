// What a call gave, as its caller checks it. Telling it costs next to nothing beside the call.
use std::alloc::{AllocError, Global};
use vortex_array::{Array, BoolArray, DecimalArray, Scalar, Validity, ValueRef};
use vortex_decimal_byte_parts::{DecimalByteParts, DecimalParts};

/// What a call gave. Both parts are 0 where memory was wanting.
#[repr(C)]
#[derive(Clone, Copy)]
pub struct Told {
    /// How many rows there are.
    pub rows: usize,
    /// Of answers, how many are true; of numbers, the first, the middle and the last as one number of 64 bits.
    pub value: u64,
}

/// What is told of no rows.
pub fn nothing() -> Told {
    Told { rows: 0, value: 0 }
}

// What is told of three numbers.
fn told_three(rows: usize, first: u64, middle: u64, last: u64) -> Told {
    Told {
        rows,
        value: first.wrapping_add(middle).wrapping_add(last),
    }
}

// The last 64 bits of a number.
fn last_bits(number: i128) -> u64 {
    number.rem_euclid(18446744073709551616) as u64
}

// The last 64 bits of a number, and 0 where the row is null.
fn bits_in(value: Option<ValueRef<'_>>) -> u64 {
    match value {
        Some(ValueRef::Int(number)) => last_bits(number),
        Some(ValueRef::Decimal(number)) => last_bits(number),
        _ => 0,
    }
}

// The last bits of the row of a column at a place.
fn bits_at(rows: &Array, i: usize) -> u64 {
    if i >= rows.len() {
        return 0;
    }
    bits_in(rows.value_at(i))
}

// The last bits of a row.
fn bits_of(row: &Scalar) -> u64 {
    bits_in(row.value_ref())
}

// The last bits of the row of parts at a place.
fn row_at(parts: &DecimalByteParts, i: usize) -> u64 {
    if i >= parts.len() {
        return 0;
    }
    bits_of(&parts.scalar_at(i))
}

// The last bits of the row of decimals at a place.
fn number_at(rows: &DecimalArray, i: usize) -> u64 {
    if i >= rows.len() {
        return 0;
    }
    bits_in(rows.value_at(i))
}

/// What is told of a column.
pub fn told_of(rows: &Array) -> Told {
    let len = rows.len();
    let last = bits_at(rows, len.saturating_sub(1));
    told_three(len, bits_at(rows, 0), bits_at(rows, len / 2), last)
}

/// What is told of decimals.
pub fn told_decimals(rows: &DecimalArray) -> Told {
    let len = rows.len();
    let last = number_at(rows, len.saturating_sub(1));
    told_three(len, number_at(rows, 0), number_at(rows, len / 2), last)
}

/// What is told of decimals in parts.
pub fn told_parts(parts: &DecimalByteParts) -> Told {
    let len = parts.len();
    let last = row_at(parts, len.saturating_sub(1));
    told_three(len, row_at(parts, 0), row_at(parts, len / 2), last)
}

/// What is told of parts: the most significant ones and the lower ones as one number.
pub fn told_split(parts: &DecimalParts) -> Told {
    let high = told_of(&parts.msp);
    match parts.lower_parts.first() {
        Some(lower) => Told {
            rows: high.rows,
            value: high.value.wrapping_add(told_of(lower).value),
        },
        None => high,
    }
}

/// What is told of answers.
pub fn told_answers(alloc: Global, answers: &BoolArray) -> Result<Told, AllocError> {
    let count = match answers.validity() {
        Validity::NonNullable | Validity::AllValid => answers.bits().count(),
        Validity::AllInvalid => 0,
        Validity::Bits(valid) => answers.bits().and(alloc, valid)?.count(),
    };
    Ok(Told {
        rows: answers.len(),
        value: count as u64,
    })
}
