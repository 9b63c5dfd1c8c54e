// Whole numbers.
ghost use Rattle.std.specs.Prelude.{◌≡◌, ◌^◌, Some, IfSome, is_some, nat_le, neg_ℤ, option_map, pos};
ghost use Rattle.vortex_array_types.specs.Row.{in_width};
ghost use Rattle.vortex_query_fields.specs.Numbers.{where_in, whole_spelled};

use crate::digits::digits;
use vortex_array_kinds::PrimitiveWidth;

// The number of this size, below zero or zero, where it has 64 bits.
fn negated(size: u64) -> Option<i64>
    ensures value { IfSome result (λ number. number ≡ neg_ℤ (pos size)) }
    ensures within { is_some result ≡ nat_le size (2 ^ 63) }
{
    if size < 9223372036854775808 {
        return Some(-(size as i64));
    }
    if size == 9223372036854775808 {
        Some(i64::MIN)
    } else {
        None
    }
}

// The item of the number of this size, below zero or zero.
fn behind_minus<N: PrimitiveWidth>(size: u64) -> Option<N>
    ensures { option_map N.number result ≡ where_in (in_width N.width) (Some (neg_ℤ (pos size))) }
{
    match negated(size) {
        Some(number) => N::from_signed(number),
        None => None,
    }
}

// The item of the number of this size.
#[inline]
fn without_sign<N: PrimitiveWidth>(size: u64) -> Option<N>
    ensures { option_map N.number result ≡ where_in (in_width N.width) (Some (pos size)) }
{
    N::from_unsigned(size)
}

/// The whole number that a field spells, as an item of the native type: an optional `-` and 1 to 39 digits, in range.
#[inline]
pub fn number_in<N: PrimitiveWidth>(field: &[u8]) -> Option<N>
    ensures { option_map N.number result ≡ whole_spelled N.width field.now }
{
    match field.strip_prefix(b"-") {
        Some(rest) => match digits(rest) {
            Some(size) => behind_minus(size),
            None => None,
        },
        None => match digits(field) {
            Some(size) => without_sign(size),
            None => None,
        },
    }
}
