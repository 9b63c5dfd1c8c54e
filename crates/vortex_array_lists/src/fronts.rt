// The front of a list of bytes as a number, by which most lists are compared: of two lists whose fronts differ, the one with
// the lesser front comes first. Only where the fronts are equal are further bytes looked at.
ghost use Rattle.std.specs.Prelude.{◌≡◌, ◌≤◌, ◌-◌, ◌*◌, ◌/◌, ◌^◌, length, slice_index, slice_range};
ghost use Rattle.std.specs.Cmp.Lexicographic.{slice_cmp};
ghost use Rattle.std.specs.Ordering.{is_eq, nat_cmp};
ghost use Rattle.vortex_array_lists.specs.Fronts.{front_number};

use std::cmp::Ordering;

/// The first eight bytes as a number, the first of them the greatest, with zeros for those behind the end.
#[inline(never)]
pub fn front_of(bytes: &[u8]) -> u64
    ensures { result ≡ front_number bytes.now }
{
    u64::from_be_bytes([
        byte_or_zero(bytes, 0),
        byte_or_zero(bytes, 1),
        byte_or_zero(bytes, 2),
        byte_or_zero(bytes, 3),
        byte_or_zero(bytes, 4),
        byte_or_zero(bytes, 5),
        byte_or_zero(bytes, 6),
        byte_or_zero(bytes, 7),
    ])
}

// The byte at a place, zero behind the end.
fn byte_or_zero(bytes: &[u8], i: usize) -> u8
    ensures { result ≡ slice_index bytes.now i }
{
    if i < bytes.len() { bytes[i] } else { 0 }
}

// Eight bytes as a number, which is one load.
#[inline(always)]
fn word_of(eight: &[u8]) -> u64
    requires { length eight.now ≡ 8 }
    ensures { result ≡ front_number eight.now }
{
    u64::from_be_bytes([
        eight[0], eight[1], eight[2], eight[3], eight[4], eight[5], eight[6], eight[7],
    ])
}

// All bits of a word behind its first so many bytes.
#[inline(always)]
fn bits_behind(count: usize) -> u64
    ensures { result ≡ 2 ^ (64 - 8 * count) - 1 }
{
    if count < 8 {
        u64::MAX >> (8 * count)
    } else {
        0
    }
}

// A word of which only the first so many bytes are kept.
#[inline(always)]
fn kept_bytes(word: u64, count: usize) -> u64
    ensures { result ≡ word / 2 ^ (64 - 8 * count) * 2 ^ (64 - 8 * count) }
{
    word & !bits_behind(count)
}

// The front of the bytes between two places. Where eight bytes are left from the first place on it is one load and a mask.
#[inline(always)]
pub(crate) fn front_between(bytes: &[u8], start: usize, end: usize) -> u64
    requires order { start ≤ end }
    requires within { end ≤ length bytes.now }
    ensures { result ≡ front_number (slice_range bytes.now start end) }
{
    if bytes.len() - start < 8 {
        return front_of(&bytes[start..end]);
    }
    kept_bytes(word_of(&bytes[start..start + 8]), end - start)
}

// How two lists of one front stand: by what is behind it, and where one of them ends before, by their lengths.
#[inline(never)]
fn order_behind(list: &[u8], other: &[u8]) -> Ordering
    requires { front_number list.now ≡ front_number other.now }
    ensures { result ≡ slice_cmp nat_cmp list.now other.now }
{
    if list.len().min(other.len()) <= 8 {
        return list.len().cmp(&other.len());
    }
    list[8..].cmp(&other[8..])
}

// Whether two lists of one front and one length are equal.
#[inline(always)]
fn equal_behind(list: &[u8], other: &[u8]) -> bool
    requires front { front_number list.now ≡ front_number other.now }
    requires len { length list.now ≡ length other.now }
    ensures { result ≡ is_eq (slice_cmp nat_cmp list.now other.now) }
{
    if other.len() <= 8 {
        return true;
    }
    list[8..] == other[8..]
}

// How the bytes between two places stand to a list of this front.
#[inline(always)]
pub(crate) fn order_between(
    bytes: &[u8],
    start: usize,
    end: usize,
    other: &[u8],
    front: u64,
) -> Ordering
    requires order { start ≤ end }
    requires within { end ≤ length bytes.now }
    requires front { front ≡ front_number other.now }
    ensures { result ≡ slice_cmp nat_cmp (slice_range bytes.now start end) other.now }
{
    let own = front_between(bytes, start, end);
    if own != front {
        return own.cmp(&front);
    }
    order_behind(&bytes[start..end], other)
}

// Whether the bytes between two places are a list of this front. The lengths are asked first.
#[inline(always)]
pub(crate) fn equal_between(
    bytes: &[u8],
    start: usize,
    end: usize,
    other: &[u8],
    front: u64,
) -> bool
    requires order { start ≤ end }
    requires within { end ≤ length bytes.now }
    requires front { front ≡ front_number other.now }
    ensures { result ≡ is_eq (slice_cmp nat_cmp (slice_range bytes.now start end) other.now) }
{
    if end - start != other.len() {
        return false;
    }
    if front_between(bytes, start, end) != front {
        return false;
    }
    equal_behind(&bytes[start..end], other)
}
