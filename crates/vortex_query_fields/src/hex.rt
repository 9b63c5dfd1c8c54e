// Bytes as pairs of hexadecimal digits.
ghost use Rattle.std.specs.Prelude.{◌≡◌, ◌++◌, ◌<◌, ◌≤◌, Some, None, IfOk, IfSome, IsFalse, IsTrue, OnOk, drop, length, option_map, take, if◌then◌else◌};
ghost use Rattle.std.specs.Char.{digit_char, digit_value, is_ascii_hexdigit};
ghost use Rattle.vortex_query_fields.specs.Hex.{hex_spelled, hex_text, pair_spelled};

use std::alloc::AllocError;

// The number of a hexadecimal digit, in either case.
fn digit_in(digit: u8) -> Option<u8>
    ensures value { result ≡ (if is_ascii_hexdigit digit then Some (digit_value digit) else None) }
    ensures small { IfSome result (λ n. n < 16) }
{
    match digit {
        b'0'..=b'9' => Some(digit - b'0'),
        b'a'..=b'f' => Some(digit - b'a' + 10),
        b'A'..=b'F' => Some(digit - b'A' + 10),
        _ => None,
    }
}

// The byte of two hexadecimal digits.
fn pair_in(high: u8, low: u8) -> Option<u8>
    ensures { result ≡ pair_spelled high low }
{
    match (digit_in(high), digit_in(low)) {
        (Some(high), Some(low)) => Some(high * 16 + low),
        _ => None,
    }
}

// What stands behind the first two bytes.
fn behind_pair(bytes: &[u8]) -> &[u8]
    requires { 2 ≤ length bytes.now }
    ensures { result.now ≡ drop 2 bytes.now }
{
    &bytes[2..]
}

// Appends the bytes of pairs as far as they are digits, and tells whether all are.
fn push_pairs(bytes: &mut Vec<u8>, pairs: &[u8]) -> Result<bool, AllocError>
    ensures spelled { IfOk result (λ whole. IsTrue whole → option_map (λ more. bytes.old.items ++ more) (hex_spelled pairs.now) ≡ Some bytes.new.items) }
    ensures none { IfOk result (λ whole. IsFalse whole → hex_spelled pairs.now ≡ None) }
    ensures before { IfOk result (λ _. take (length bytes.old.items) bytes.new.items ≡ bytes.old.items) }
{
    let mut rest = pairs;
    while rest.len() >= 2 {
        match pair_in(rest[0], rest[1]) {
            Some(byte) => bytes.push(byte)?,
            None => return Ok(false),
        }
        rest = behind_pair(rest);
    }
    Ok(rest.is_empty())
}

/// Appends the bytes that a field spells, none or more pairs of hexadecimal digits in either case, and tells whether it
/// spells any. Where it spells none, the list stays as it is.
pub fn push_bytes_in(bytes: &mut Vec<u8>, field: &[u8]) -> Result<bool, AllocError>
    ensures spelled { IfOk result (λ found. option_map (λ more. bytes.old.items ++ more) (hex_spelled field.now) ≡ (if found then Some bytes.new.items else None)) }
    ensures same { IfOk result (λ found. IsFalse found → bytes.new.items ≡ bytes.old.items) }
{
    let before = bytes.len();
    let whole = push_pairs(bytes, field)?;
    if !whole {
        bytes.truncate(before);
    }
    Ok(whole)
}

// A hexadecimal digit in lower case.
fn digit_of(number: u8) -> u8
    requires { number < 16 }
    ensures { result ≡ digit_char number }
{
    if number < 10 {
        b'0' + number
    } else {
        b'a' + (number - 10)
    }
}

/// Appends bytes in lower-case hexadecimal digits.
pub fn push_hex(text: &mut Vec<u8>, bytes: &[u8]) -> Result<(), AllocError>
    ensures { OnOk result (text.new.items ≡ text.old.items ++ hex_text bytes.now) }
{
    for byte in bytes {
        text.push(digit_of(*byte / 16))?;
        text.push(digit_of(*byte % 16))?;
    }
    Ok(())
}
