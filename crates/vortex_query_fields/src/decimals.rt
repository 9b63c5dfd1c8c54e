// Decimals: their unscaled numbers.
ghost use Rattle.std.specs.Prelude.{◌≡◌, ◌≤◌, ◌<◌, ◌^◌, ◌*◌, ◌==◌, IfSome, Some, int_le, length, pos, position, unsigned_abs, if◌then◌else◌, None};
ghost use Rattle.vortex_query_fields.specs.Numbers.{below, digits_spelled, number_after, signed_spelled};
ghost use Rattle.vortex_query_fields.specs.Decimals.{decimal_spelled, is_scale, pointed as pointed_of, size_spelled, unpointed as unpointed_of};

use crate::digits::few_digits;
use crate::powers::power_of_ten;
use vortex_array_types::DecimalDType;

// The number of more digits, after those that gave `start`, where it has 128 bits at most.
fn more_digits(start: u128, bytes: &[u8]) -> Option<u128>
    ensures { result ≡ below (2 ^ 128) (number_after start bytes.now) }
{
    let mut number = start;
    for byte in bytes {
        if !byte.is_ascii_digit() {
            return None;
        }
        let digit = (*byte - b'0') as u128;
        number = number.checked_mul(10)?.checked_add(digit)?;
    }
    Some(number)
}

// The number of 1 to 39 digits, where it has 128 bits at most.
fn whole_digits(bytes: &[u8]) -> Option<u128>
    ensures { result ≡ below (2 ^ 128) (digits_spelled bytes.now) }
{
    if bytes.is_empty() || bytes.len() > 39 {
        return None;
    }
    if bytes.len() <= 19 {
        return match few_digits(0, 0, bytes) {
            Some(number) => Some(number as u128),
            None => None,
        };
    }
    more_digits(0, bytes)
}

// The number with so many zeros behind it, where it has at most so many digits.
#[tactic(auto, using(crate::proofs::Tens::ten_fits))]
fn scaled(number: u128, zeros: u32, precision: u32) -> Option<u128>
    requires zeros { zeros ≤ 38 }
    requires precision { precision ≤ 38 }
    ensures value { result ≡ below (10 ^ precision) (Some (number * 10 ^ zeros)) }
    ensures small { IfSome result (λ n. n < 10 ^ 38) }
{
    let scaled = number.checked_mul(power_of_ten(zeros))?;
    if scaled < power_of_ten(precision) {
        Some(scaled)
    } else {
        None
    }
}

// Digits alone.
fn unpointed(whole: &[u8], precision: u32, scale: u32) -> Option<u128>
    requires precision { precision ≤ 38 }
    requires scale { scale ≤ 38 }
    ensures value { result ≡ unpointed_of precision scale whole.now }
    ensures small { IfSome result (λ n. n < 10 ^ 38) }
{
    match whole_digits(whole) {
        Some(number) => scaled(number, scale, precision),
        None => None,
    }
}

// Digits before a point and digits behind it.
fn pointed(whole: &[u8], part: &[u8], precision: u32, scale: u32) -> Option<u128>
    requires precision { precision ≤ 38 }
    requires scale { scale ≤ 38 }
    ensures value { result ≡ pointed_of precision scale whole.now part.now }
    ensures small { IfSome result (λ n. n < 10 ^ 38) }
{
    if part.is_empty() || part.len() > scale as usize {
        return None;
    }
    let zeros = scale - part.len() as u32;
    match whole_digits(whole) {
        Some(number) => match more_digits(number, part) {
            Some(number) => scaled(number, zeros, precision),
            None => None,
        },
        None => None,
    }
}

// The place of the first point.
fn point_in(bytes: &[u8]) -> Option<usize>
    ensures place { result ≡ position (λ b. b == 46) bytes.now }
    ensures within { IfSome result (λ at. at < length bytes.now) }
{
    bytes.iter().position(|byte| *byte == b'.')
}

// Digits that may have a point.
fn size_in(bytes: &[u8], precision: u32, scale: u32) -> Option<u128>
    requires precision { precision ≤ 38 }
    requires scale { scale ≤ 38 }
    ensures value { result ≡ size_spelled precision scale bytes.now }
    ensures small { IfSome result (λ n. n < 10 ^ 38) }
{
    match point_in(bytes) {
        Some(at) => pointed(&bytes[..at], &bytes[at + 1..], precision, scale),
        None => unpointed(bytes, precision, scale),
    }
}

/// How many digits stand behind the point, where these are 0 to 38.
pub fn scale_in(digits: DecimalDType) -> Option<u32>
    ensures value { result ≡ (if is_scale digits.scale then Some (unsigned_abs digits.scale) else None) }
    ensures most { IfSome result (λ scale. scale ≤ 38) }
{
    let scale = digits.scale();
    if scale >= 0 && scale <= 38 {
        Some(scale as u32)
    } else {
        None
    }
}

// The unscaled number with its sign.
fn signed_in(field: &[u8], precision: u32, scale: u32) -> Option<i128>
    requires precision { precision ≤ 38 }
    requires scale { scale ≤ 38 }
    ensures { result ≡ signed_spelled (size_spelled precision scale) field.now }
{
    match field.strip_prefix(b"-") {
        Some(rest) => match size_in(rest, precision, scale) {
            Some(number) => Some(-(number as i128)),
            None => None,
        },
        None => match size_in(field, precision, scale) {
            Some(number) => Some(number as i128),
            None => None,
        },
    }
}

/// The unscaled number that a field of a decimal type spells: an optional `-`, 1 to 39 digits, and a point with further
/// digits, as many as the type has behind it or fewer. Its size is below ten to the type's precision. A type with fewer
/// than 0 or more than 38 digits behind the point has no fields.
pub fn decimal_in(field: &[u8], digits: DecimalDType) -> Option<i128>
    ensures { result ≡ decimal_spelled digits field.now }
{
    match scale_in(digits) {
        Some(scale) => signed_in(field, digits.precision() as u32, scale),
        None => None,
    }
}
