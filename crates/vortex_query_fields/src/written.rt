// The texts of values.
ghost use Rattle.std.specs.Prelude.{◌≡◌, ◌≤◌, ◌++◌, IfOk, IsTrue, OnOk, decimal, option_map};
ghost use Rattle.vortex_array_types.specs.Seen.{value_seen};
ghost use Rattle.vortex_query_fields.specs.Written.{behind_point, decimal_text, field_text as text_of, filled, has_text, scale_of as scale_number, sign, truth_text, value_text, whole_text};

use crate::decimals::scale_in;
use crate::hex::push_hex;
use crate::powers::power_of_ten;
use itoa::Buffer as Digits;
use std::alloc::{AllocError, Global};
use vortex_array_types::{DType, ValueRef};
use vortex_buffer::Buffer;

// Appends a number in digits.
fn push_digits(text: &mut Vec<u8>, number: u128) -> Result<(), AllocError>
    ensures { OnOk result (text.new.items ≡ text.old.items ++ decimal number) }
{
    let mut digits = Digits::new();
    text.extend_from_slice(digits.format(number).as_bytes())
}

// Appends digits with zeros before them.
fn push_filled(text: &mut Vec<u8>, width: usize, number: u128) -> Result<(), AllocError>
    ensures { OnOk result (text.new.items ≡ text.old.items ++ filled width number) }
{
    let mut buffer = Digits::new();
    let digits = buffer.format(number).as_bytes();
    for _ in 0..width.saturating_sub(digits.len()) {
        text.push(b'0')?;
    }
    text.extend_from_slice(digits)?;
    Ok(())
}

// Appends the point and the digits behind it.
fn push_part(text: &mut Vec<u8>, scale: u32, number: u128) -> Result<(), AllocError>
    requires { scale ≤ 38 }
    ensures { OnOk result (text.new.items ≡ text.old.items ++ behind_point scale number) }
{
    if scale == 0 {
        return Ok(());
    }
    text.push(b'.')?;
    push_filled(text, scale as usize, number % power_of_ten(scale))
}

// Appends the sign of a number, where it is negative.
fn push_sign(text: &mut Vec<u8>, number: i128) -> Result<(), AllocError>
    ensures { OnOk result (text.new.items ≡ text.old.items ++ sign number) }
{
    if number < 0 {
        text.push(b'-')?;
    }
    Ok(())
}

// Appends a whole number.
fn push_whole(text: &mut Vec<u8>, number: i128) -> Result<(), AllocError>
    ensures { OnOk result (text.new.items ≡ text.old.items ++ whole_text number) }
{
    push_sign(text, number)?;
    push_digits(text, number.unsigned_abs())
}

// Appends an unscaled number with its point.
fn push_decimal(text: &mut Vec<u8>, scale: u32, number: i128) -> Result<(), AllocError>
    requires { scale ≤ 38 }
    ensures { OnOk result (text.new.items ≡ text.old.items ++ decimal_text scale number) }
{
    let size = number.unsigned_abs();
    push_sign(text, number)?;
    push_digits(text, size / power_of_ten(scale))?;
    push_part(text, scale, size)
}

// Appends a truth.
fn push_truth(text: &mut Vec<u8>, truth: bool) -> Result<(), AllocError>
    ensures { OnOk result (text.new.items ≡ text.old.items ++ truth_text truth) }
{
    if truth {
        text.extend_from_slice(b"true")
    } else {
        text.extend_from_slice(b"false")
    }
}

// How many digits of a type stand behind the point.
fn scale_of(dtype: &DType) -> u32
    requires { IsTrue (has_text dtype.now) }
    ensures value { result ≡ scale_number dtype.now }
    ensures most { result ≤ 38 }
{
    match dtype {
        DType::Decimal(digits, _) => match scale_in(*digits) {
            Some(scale) => scale,
            None => unreachable!(),
        },
        _ => 0,
    }
}

// Appends a value of a type.
fn push_value(text: &mut Vec<u8>, dtype: &DType, value: ValueRef<'_>) -> Result<(), AllocError>
    requires { IsTrue (has_text dtype.now) }
    ensures { OnOk result (text.new.items ≡ text.old.items ++ value_text dtype.now (value_seen value.entry)) }
{
    match value {
        ValueRef::Bool(truth) => push_truth(text, truth),
        ValueRef::Int(number) => push_whole(text, number),
        ValueRef::Decimal(number) => push_decimal(text, scale_of(dtype), number),
        ValueRef::Utf8(letters) => text.extend_from_slice(letters.as_bytes()),
        ValueRef::Binary(bytes) => push_hex(text, bytes),
    }
}

/// Appends the field of a row, a value or null: nothing for null, lower-case hexadecimal digits for bytes, whole numbers
/// without leading zeros, and decimals with a point and exactly as many digits behind it as the type has. A decimal type has
/// 0 to 38 digits behind the point; numbers may be any.
pub fn push_field(
    text: &mut Vec<u8>,
    dtype: &DType,
    value: Option<ValueRef<'_>>,
) -> Result<(), AllocError>
    requires { IsTrue (has_text dtype.now) }
    ensures { OnOk result (text.new.items ≡ text.old.items ++ text_of dtype.now (option_map value_seen value.entry)) }
{
    match value {
        Some(value) => push_value(text, dtype, value),
        None => Ok(()),
    }
}

/// The field of a row, before it is quoted.
pub fn field_text(
    alloc: Global,
    dtype: &DType,
    value: Option<ValueRef<'_>>,
) -> Result<Buffer<u8>, AllocError>
    requires { IsTrue (has_text dtype.now) }
    ensures { IfOk result (λ text. text ≡ text_of dtype.now (option_map value_seen value.entry)) }
{
    let mut text = Vec::new(alloc);
    push_field(&mut text, dtype, value)?;
    Ok(Buffer::from_vec(text))
}
