// Columns, scalars and masks as text.
use crate::stop::Stop;
use std::alloc::{AllocError, Global};
use vortex_array::{Array, DType, DecimalDType, PType, Scalar, ValueRef};
use vortex_buffer::{BitBuffer, Mask};

/// The name of a width of whole numbers.
fn width_name(width: PType) -> &'static str {
    match width {
        PType::U8 => "u8",
        PType::U16 => "u16",
        PType::U32 => "u32",
        PType::U64 => "u64",
        PType::I8 => "i8",
        PType::I16 => "i16",
        PType::I32 => "i32",
        PType::I64 => "i64",
    }
}

fn push_digits(text: &mut String, alloc: Global, digits: DecimalDType) -> Result<(), AllocError> {
    let precision = digits.precision();
    let scale = digits.scale();
    text.push_str(format!(in alloc; "decimal({precision},{scale})")?.as_str())
}

// The name of a type without nulls.
fn push_name(text: &mut String, alloc: Global, dtype: DType) -> Result<(), AllocError> {
    match dtype {
        DType::Bool(_) => text.push_str("bool"),
        DType::Primitive(width, _) => text.push_str(width_name(width)),
        DType::Decimal(digits, _) => push_digits(text, alloc, digits),
        DType::Utf8(_) => text.push_str("utf8"),
        DType::Binary(_) => text.push_str("binary"),
    }
}

/// Adds a type to a text, `?` behind one with nulls.
pub(crate) fn push_dtype(text: &mut String, alloc: Global, dtype: DType) -> Result<(), AllocError> {
    push_name(text, alloc, dtype)?;
    if dtype.is_nullable() {
        text.push('?')?;
    }
    Ok(())
}

/// Adds a number to a text.
pub(crate) fn push_number(
    text: &mut String,
    alloc: Global,
    number: i128,
) -> Result<(), AllocError> {
    text.push_str(format!(in alloc; "{number}")?.as_str())
}

// A hexadecimal digit.
fn digit(half: u8) -> char {
    match half {
        0..=9 => (b'0' + half) as char,
        10..=15 => (b'a' + (half - 10)) as char,
        _ => '?',
    }
}

fn push_octets(text: &mut String, bytes: &[u8]) -> Result<(), AllocError> {
    if bytes.is_empty() {
        return text.push_str("''");
    }
    for byte in bytes {
        text.push(digit(*byte >> 4))?;
        text.push(digit(*byte & 15))?;
    }
    Ok(())
}

/// Adds a row to a text.
pub(crate) fn push_row(
    text: &mut String,
    alloc: Global,
    row: Option<ValueRef<'_>>,
) -> Result<(), AllocError> {
    match row {
        None => text.push('-'),
        Some(ValueRef::Bool(truth)) => text.push(if truth { '1' } else { '0' }),
        Some(ValueRef::Int(number)) => push_number(text, alloc, number),
        Some(ValueRef::Decimal(number)) => push_number(text, alloc, number),
        Some(ValueRef::Utf8(letters)) => text.push_str(if letters.is_empty() {
            "''"
        } else {
            letters
        }),
        Some(ValueRef::Binary(bytes)) => push_octets(text, bytes),
    }
}

fn are_same_values(left: ValueRef<'_>, right: ValueRef<'_>) -> bool {
    match (left, right) {
        (ValueRef::Bool(a), ValueRef::Bool(b)) => a == b,
        (ValueRef::Int(a), ValueRef::Int(b)) => a == b,
        (ValueRef::Decimal(a), ValueRef::Decimal(b)) => a == b,
        (ValueRef::Utf8(a), ValueRef::Utf8(b)) => a == b,
        (ValueRef::Binary(a), ValueRef::Binary(b)) => a == b,
        _ => false,
    }
}

fn are_same(left: Option<ValueRef<'_>>, right: Option<ValueRef<'_>>) -> bool {
    match (left, right) {
        (None, None) => true,
        (Some(left), Some(right)) => are_same_values(left, right),
        _ => false,
    }
}

// Whether the row at a place is the one behind it, too.
fn comes_again(array: &Array, i: usize) -> bool {
    if i >= array.len() {
        return false;
    }
    let behind = i + 1;
    behind < array.len() && are_same(array.value_at(i), array.value_at(behind))
}

// So many equal rows.
fn push_run(
    text: &mut String,
    alloc: Global,
    row: Option<ValueRef<'_>>,
    run: usize,
) -> Result<(), AllocError> {
    push_row(text, alloc, row)?;
    if run > 1 {
        text.push_str(format!(in alloc; "^{run}")?.as_str())?;
    }
    Ok(())
}

// The rows, with commas between them, and the number of equal rows in a line behind the first of them.
fn push_rows(text: &mut String, alloc: Global, array: &Array) -> Result<(), AllocError> {
    let mut between = "";
    let mut run = 1usize;
    for i in 0..array.len() {
        if comes_again(array, i) {
            run = run.saturating_add(1);
        } else {
            text.push_str(between)?;
            push_run(text, alloc, array.value_at(i), run)?;
            between = ",";
            run = 1;
        }
    }
    Ok(())
}

// What is told before the rows: the type, and of equal rows how many there are.
fn push_head(text: &mut String, alloc: Global, array: &Array) -> Result<(), AllocError> {
    push_dtype(text, alloc, array.dtype())?;
    if let Array::Constant(equal) = array {
        let len = equal.len();
        text.push_str(format!(in alloc; "*{len}")?.as_str())?;
    }
    text.push(':')
}

/// Adds a column to a text.
pub(crate) fn push_column(
    text: &mut String,
    alloc: Global,
    array: &Array,
) -> Result<(), AllocError> {
    push_head(text, alloc, array)?;
    push_rows(text, alloc, array)
}

/// A column.
pub(crate) fn shown(alloc: Global, array: &Array) -> Result<String, Stop> {
    let mut text = String::new(alloc);
    push_column(&mut text, alloc, array)?;
    Ok(text)
}

/// Adds a scalar to a text, as `i32=3`.
pub(crate) fn push_scalar(
    text: &mut String,
    alloc: Global,
    scalar: &Scalar,
) -> Result<(), AllocError> {
    push_dtype(text, alloc, scalar.dtype())?;
    text.push('=')?;
    push_row(text, alloc, scalar.value_ref())
}

/// A scalar, as `i32=3`.
pub(crate) fn shown_scalar(alloc: Global, scalar: &Scalar) -> Result<String, Stop> {
    let mut text = String::new(alloc);
    push_scalar(&mut text, alloc, scalar)?;
    Ok(text)
}

/// Adds bits to a text, `1` for one that is set.
pub(crate) fn push_bits(text: &mut String, bits: &BitBuffer) -> Result<(), AllocError> {
    for i in 0..bits.len() {
        text.push(if bits.value(i) { '1' } else { '0' })?;
    }
    Ok(())
}

/// The bits of a mask, `1` for one that is set.
pub(crate) fn shown_mask(alloc: Global, mask: &Mask) -> Result<String, Stop> {
    let mut text = String::new(alloc);
    for i in 0..mask.len() {
        text.push(if mask.value(i) { '1' } else { '0' })?;
    }
    Ok(text)
}
