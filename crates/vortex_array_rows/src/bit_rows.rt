// Parts of a list of bits, and the bits at places.
ghost use Rattle.std.specs.Prelude.{◌≡◌, ◌<◌, ◌≤◌, true, false, cond, All, IfOk, drop, length, map, slice_index_or, slice_range, take};
ghost use Rattle.std.specs.Simd.Lanes.{mask_l};
ghost use Rattle.vortex_buffer.specs.Bits.{word_of};
ghost use Rattle.vortex_array_rows.specs.Taken.{SetPlacesBelow, taken_or};

use crate::places::RowIndex;
use std::alloc::Global;
use vortex_buffer::{AllocError, BitBuffer, Buffer};
use vortex_compute::{IndexedSource, collect_lane_bits};

// The bits at places, as lanes.
#[derive(Drop)]
struct BitsAt<'a, P: RowIndex> {
    bits: &'a BitBuffer,
    places: &'a [P],
    ghost within: { All (λ place. place < length bits.now) (map P.place places.now) },
}

impl<P: RowIndex> IndexedSource for BitsAt<'_, P> {
    type Item = bool;

    ghost lanes = { λ s. map (λ place. slice_index_or s.bits.now place false) (map P.place s.places.now) };

    #[inline(always)]
    fn len(&self) -> usize {
        self.places.len()
    }

    #[inline(always)]
    fn get(&self, i: usize) -> bool {
        let place = self.places[i];
        self.bits.value(place.place())
    }
}

// The bits at the places whose own bit is set, as lanes. Any other lane is not set.
#[derive(Drop)]
struct BitsAtOr<'a, P: RowIndex> {
    bits: &'a BitBuffer,
    places: &'a [P],
    valid: &'a BitBuffer,
    ghost same_length: { length places.now ≡ length valid.now },
    ghost within: { SetPlacesBelow (length bits.now) (map P.place places.now) valid.now },
}

impl<P: RowIndex> IndexedSource for BitsAtOr<'_, P> {
    type Item = bool;

    ghost lanes = { λ s. taken_or false s.bits.now (map P.place s.places.now) s.valid.now };

    #[inline(always)]
    fn len(&self) -> usize {
        self.places.len()
    }

    #[inline(always)]
    fn get(&self, i: usize) -> bool {
        bit_or_unset(self.bits, self.places[i], self.valid.value(i))
    }
}

// The bit at a place that is valid, else one that is not set.
#[inline(always)]
fn bit_or_unset<P: RowIndex>(bits: &BitBuffer, place: P, valid: bool) -> bool
    requires within { valid ≡ true → P.place place < length bits.now }
    ensures { result ≡ cond valid (slice_index_or bits.now (P.place place) false) false }
{
    valid && bits.value(place.place())
}

/// The bits from `start` up to `end`, without it.
pub fn slice_bits(
    alloc: Global,
    bits: &BitBuffer,
    start: usize,
    end: usize,
) -> Result<BitBuffer, AllocError>
    requires order { start ≤ end }
    requires within { end ≤ length bits.now }
    ensures ok { IfOk result (λ part. part ≡ slice_range bits.now start end) }
{
    let len = end - start;
    let count = len.div_ceil(64);
    let mut words = Vec::with_capacity(alloc, count)?;
    for k in 0..count {
        words.push(word_at(bits, start + 64 * k))?;
    }
    // The last word may reach past the end: the bits there are cleared.
    Ok(BitBuffer::from_words(Buffer::from_vec(words), len))
}

// The 64 bits from a place on, as a word. Bits past the end are 0.
#[inline(always)]
fn word_at(bits: &BitBuffer, place: usize) -> u64
    ensures { result ≡ mask_l (take 64 (drop place bits.now)) }
{
    let k = place / 64;
    let low = word_or_unset(bits, k) as u128;
    let high = word_or_unset(bits, k + 1) as u128;
    let both = low + (high << 64);
    ((both >> (place % 64)) % (1 << 64)) as u64
}

// Word `k`, or a word of no set bit past the end.
#[inline(always)]
fn word_or_unset(bits: &BitBuffer, k: usize) -> u64
    ensures { result ≡ word_of bits.now k }
{
    if k < bits.len().div_ceil(64) {
        bits.word(k)
    } else {
        0
    }
}

/// The bits at the places, in the order of the places. A place may come again.
pub fn take_bits<P: RowIndex>(
    alloc: Global,
    bits: &BitBuffer,
    places: &[P],
) -> Result<BitBuffer, AllocError>
    requires within { All (λ place. place < length bits.now) (map P.place places.now) }
    ensures ok { IfOk result (λ taken. taken ≡ map (λ place. slice_index_or bits.now place false) (map P.place places.now)) }
{
    let taken = collect_lane_bits(alloc, &BitsAt { bits, places }, |bit: bool| bit)?;
    Ok(taken)
}

/// The bits at the places whose own bit is set; the others' are not set. A place whose bit is not set may be any number.
pub fn take_bits_or<P: RowIndex>(
    alloc: Global,
    bits: &BitBuffer,
    places: &[P],
    valid: &BitBuffer,
) -> Result<BitBuffer, AllocError>
    requires same_length { length places.now ≡ length valid.now }
    requires within { SetPlacesBelow (length bits.now) (map P.place places.now) valid.now }
    ensures ok { IfOk result (λ taken. taken ≡ taken_or false bits.now (map P.place places.now) valid.now) }
{
    let lanes = BitsAtOr {
        bits,
        places,
        valid,
    };
    let taken = collect_lane_bits(alloc, &lanes, |bit: bool| bit)?;
    Ok(taken)
}
