// The names of types.
ghost use Rattle.std.specs.Prelude.{◌≡◌, ◌++◌, ◌<◌, ◌==◌, IfSome, IsTrue, OnOk, codes, decimal, length, option_map, position, unsigned_abs};
ghost use Rattle.vortex_query_fields.specs.Decimals.{is_scale};
ghost use Rattle.vortex_query_fields.specs.Written.{has_text};
ghost use Rattle.vortex_query_fields.specs.Types.{before_last as front_of, count_spelled, decimal_of, decimal_type_spelled, digits_type as digits_type_of, kind_spelled, kind_text, type_spelled, type_text, width_spelled, width_text, word_spelled};

use crate::decimals::scale_in;
use crate::digits::many_digits;
use itoa::Buffer;
use std::alloc::AllocError;
use vortex_array_types::{DType, DecimalDType, Nullability, PType};

// The width that has this name.
fn width_in(text: &[u8]) -> Option<PType>
    ensures { result ≡ width_spelled text.now }
{
    match text {
        b"u8" => Some(PType::U8),
        b"u16" => Some(PType::U16),
        b"u32" => Some(PType::U32),
        b"u64" => Some(PType::U64),
        b"i8" => Some(PType::I8),
        b"i16" => Some(PType::I16),
        b"i32" => Some(PType::I32),
        b"i64" => Some(PType::I64),
        _ => None,
    }
}

// The type of one word that has this name.
fn word_in(text: &[u8]) -> Option<DType>
    ensures { result ≡ word_spelled text.now }
{
    if text == b"bool".as_slice() {
        return Some(DType::Bool(Nullability::NonNullable));
    }
    if text == b"utf8".as_slice() {
        return Some(DType::Utf8(Nullability::NonNullable));
    }
    if text == b"binary".as_slice() {
        return Some(DType::Binary(Nullability::NonNullable));
    }
    None
}

// What stands before a last byte of this kind.
fn before_last(text: &[u8], byte: u8) -> Option<&[u8]>
    requires { 0 < byte }
    ensures { option_map (λ front. front.now) result ≡ front_of byte text.now }
{
    if text.is_empty() || text[text.len() - 1] != byte {
        return None;
    }
    Some(&text[..text.len() - 1])
}

// A number up to 38, in digits without leading zeros.
fn count_in(digits: &[u8]) -> Option<u8>
    ensures value { result ≡ count_spelled digits.now }
    ensures small { IfSome result (λ n. n < 39) }
{
    if digits.is_empty() || digits.len() > 1 && digits[0] == b'0' {
        return None;
    }
    match many_digits(digits) {
        Some(number) => {
            if number < 39 {
                Some(number as u8)
            } else {
                None
            }
        }
        None => None,
    }
}

// A type of at least one digit.
fn decimal_type(precision: Option<u8>, scale: Option<u8>) -> Option<DType>
    requires precision { IfSome precision (λ n. n < 39) }
    requires scale { IfSome scale (λ n. n < 39) }
    ensures { result ≡ decimal_of precision scale }
{
    let (Some(precision), Some(scale)) = (precision, scale) else {
        return None;
    };
    match DecimalDType::try_new(precision, scale as i8) {
        Ok(digits) => Some(DType::Decimal(digits, Nullability::NonNullable)),
        Err(_) => None,
    }
}

// The place of the first space.
fn space_in(text: &[u8]) -> Option<usize>
    ensures place { result ≡ position (λ b. b == 32) text.now }
    ensures within { IfSome result (λ at. at < length text.now) }
{
    text.iter().position(|byte| *byte == b' ')
}

// How many digits there are, a space, and how many of them stand behind the point.
fn digits_type(text: &[u8]) -> Option<DType>
    ensures { result ≡ digits_type_of text.now }
{
    match space_in(text) {
        Some(at) => decimal_type(count_in(&text[..at]), count_in(&text[at + 1..])),
        None => None,
    }
}

// The decimal type that has this name.
fn decimal_type_in(text: &[u8]) -> Option<DType>
    ensures { result ≡ decimal_type_spelled text.now }
{
    match text.strip_prefix(b"decimal(") {
        Some(rest) => match before_last(rest, b')') {
            Some(digits) => digits_type(digits),
            None => None,
        },
        None => None,
    }
}

// The type without nulls that has this name.
fn kind_in(text: &[u8]) -> Option<DType>
    ensures { result ≡ kind_spelled text.now }
{
    match width_in(text) {
        Some(width) => Some(DType::Primitive(width, Nullability::NonNullable)),
        None => match word_in(text) {
            Some(word) => Some(word),
            None => decimal_type_in(text),
        },
    }
}

/// The type that has this name: one of `u8 u16 u32 u64 i8 i16 i32 i64 bool utf8 binary`, or `decimal(P S)` with P of 1 to 38
/// and S of 0 to 38 in digits without leading zeros; a `?` behind it tells of nulls.
pub fn type_in(text: &[u8]) -> Option<DType>
    ensures { result ≡ type_spelled text.now }
{
    match before_last(text, b'?') {
        Some(kind) => match kind_in(kind) {
            Some(kind) => Some(kind.into_nullable()),
            None => None,
        },
        None => kind_in(text),
    }
}

// The name of a width.
fn width_name(width: PType) -> &'static [u8]
    ensures { result.now ≡ width_text width }
{
    match width {
        PType::U8 => b"u8",
        PType::U16 => b"u16",
        PType::U32 => b"u32",
        PType::U64 => b"u64",
        PType::I8 => b"i8",
        PType::I16 => b"i16",
        PType::I32 => b"i32",
        PType::I64 => b"i64",
    }
}

/// Appends a number below 256 in digits.
fn push_count(text: &mut Vec<u8>, number: u32) -> Result<(), AllocError>
    ensures { OnOk result (text.new.items ≡ text.old.items ++ decimal number) }
{
    let mut buffer = Buffer::new();
    text.extend_from_slice(buffer.format(number).as_bytes())
}

// Appends the name of a decimal type.
fn push_decimal(text: &mut Vec<u8>, digits: DecimalDType) -> Result<(), AllocError>
    requires { IsTrue (is_scale digits.scale) }
    ensures { OnOk result (text.new.items ≡ text.old.items ++ codes "decimal(" ++ decimal digits.precision ++ codes " " ++ decimal (unsigned_abs digits.scale) ++ codes ")") }
{
    let Some(scale) = scale_in(digits) else {
        unreachable!()
    };
    text.extend_from_slice(b"decimal(")?;
    push_count(text, digits.precision() as u32)?;
    text.extend_from_slice(b" ")?;
    push_count(text, scale)?;
    text.extend_from_slice(b")")
}

// Appends the name of a type, without its nulls.
fn push_kind(text: &mut Vec<u8>, dtype: &DType) -> Result<(), AllocError>
    requires { IsTrue (has_text dtype.now) }
    ensures { OnOk result (text.new.items ≡ text.old.items ++ kind_text dtype.now) }
{
    match dtype {
        DType::Bool(_) => text.extend_from_slice(b"bool"),
        DType::Primitive(width, _) => text.extend_from_slice(width_name(*width)),
        DType::Decimal(digits, _) => push_decimal(text, *digits),
        DType::Utf8(_) => text.extend_from_slice(b"utf8"),
        DType::Binary(_) => text.extend_from_slice(b"binary"),
    }
}

/// Appends the name of a type. A decimal has 0 to 38 digits behind the point.
pub fn push_type(text: &mut Vec<u8>, dtype: &DType) -> Result<(), AllocError>
    requires { IsTrue (has_text dtype.now) }
    ensures { OnOk result (text.new.items ≡ text.old.items ++ type_text dtype.now) }
{
    push_kind(text, dtype)?;
    if dtype.is_nullable() {
        text.extend_from_slice(b"?")?;
    }
    Ok(())
}
