// Lanes and bits that the tests share, and what is expected of them.
use std::alloc::{AllocError, Global};
use vortex_array_rows::RowIndex;
use vortex_buffer::{BitBuffer, Buffer, Mask};

/// Lengths about the ends of words.
pub(crate) const LENGTHS: [usize; 9] = [0, 1, 63, 64, 65, 127, 128, 129, 200];

/// Four words with every bit set.
pub(crate) const ALL: [u64; 4] = [u64::MAX, u64::MAX, u64::MAX, u64::MAX];

/// Four words with no bit set.
pub(crate) const NONE: [u64; 4] = [0, 0, 0, 0];

/// Four words with about half of their bits set.
pub(crate) const HALF: [u64; 4] = [
    0x9e37_79b9_7f4a_7c15,
    0xbf58_476d_1ce4_e5b9,
    0x94d0_49bb_1331_11eb,
    0x5555_5555_5555_5555,
];

/// Four words of another kind each.
pub(crate) const OTHER: [u64; 4] = [0xffff_ffff_0000_0000, 0, u64::MAX, 5];

/// The bits that both `HALF` and `OTHER` have.
pub(crate) const BOTH: [u64; 4] = [0x9e37_79b9_0000_0000, 0, 0x94d0_49bb_1331_11eb, 5];

/// The bits that `HALF` has not.
pub(crate) const NOT_HALF: [u64; 4] = [
    0x61c8_8646_80b5_83ea,
    0x40a7_b892_e31b_1a46,
    0x6b2f_b644_ecce_ee14,
    0xaaaa_aaaa_aaaa_aaaa,
];

/// So many lanes: their numbers below the limit, 1000 more from there on, and 7 behind them.
pub(crate) fn lanes_of(len: usize, limit: usize) -> [u64; 200] {
    let mut lanes = [7u64; 200];
    for i in 0..len.min(200) {
        lanes[i] = if i < limit {
            i as u64
        } else {
            (i as u64).wrapping_add(1000)
        };
    }
    lanes
}

/// How many lanes are asked: all, or those to the end of the group of 64 of the first that refuses.
pub(crate) fn asked(len: usize, first: usize) -> u64 {
    if first < len {
        len.min((first / 64).saturating_mul(64).saturating_add(64)) as u64
    } else {
        len as u64
    }
}

/// Bit `i` of four words.
pub(crate) fn bit(words: &[u64; 4], i: usize) -> bool {
    i < 256 && (words[i / 64] >> (i % 64)) & 1 == 1
}

/// The first bits of four words, at most 256.
pub(crate) fn bits_of(
    alloc: Global,
    words: &[u64; 4],
    len: usize,
) -> Result<BitBuffer, AllocError> {
    let words = Buffer::from_slice(alloc, words.as_slice())?;
    Ok(BitBuffer::from_words(words, len.min(256)))
}

/// A mask of the first of these bits: of the form that keeps all rows, or none, where the words are so.
pub(crate) fn mask_of(alloc: Global, words: &[u64; 4], len: usize) -> Result<Mask, AllocError> {
    if words[0] == u64::MAX {
        return Ok(Mask::new_true(len));
    }
    if words[0] == 0 {
        return Ok(Mask::new_false(len));
    }
    match bits_of(alloc, words, len) {
        Ok(bits) => Ok(Mask::from_buffer(bits)),
        Err(e) => Err(e),
    }
}

/// Whether these are so many bits, the first of four words, and no bit is set past the end of the last word.
pub(crate) fn are_words(bits: &BitBuffer, words: &[u64; 4], len: usize) -> bool {
    let mut count = 0usize;
    for i in 0..bits.len() {
        if bits.value(i) != bit(words, i) {
            return false;
        }
        count = count.saturating_add(bit(words, i) as usize);
    }
    let mut ones = 0usize;
    for k in 0..bits.len().div_ceil(64) {
        ones = ones.saturating_add(bits.word(k).count_ones() as usize);
    }
    bits.len() == len && bits.count() == count && ones == count
}

/// Whether so many bits of the words are the first of four words, 0 from there to the end of the word, and all further
/// words 7.
pub(crate) fn is_packed(words: &[u64; 5], want: &[u64; 4], len: usize) -> bool {
    for i in 0..320usize {
        let expected = if i < len {
            bit(want, i)
        } else {
            i / 64 >= len.div_ceil(64) && i % 64 < 3
        };
        if ((words[i / 64] >> (i % 64)) & 1 == 1) != expected {
            return false;
        }
    }
    true
}

/// Whether the values are those at the places, and 9 where there is no such place.
pub(crate) fn are_values_at<P: RowIndex>(given: &[u64], values: &[u64], places: &[P]) -> bool {
    if given.len() != places.len() {
        return false;
    }
    for i in 0..places.len() {
        let place = places[i].place();
        let expected = if place < values.len() {
            values[place]
        } else {
            9
        };
        if given[i] != expected {
            return false;
        }
    }
    true
}

/// The places from one on.
pub(crate) fn places_from(start: usize) -> [usize; 200] {
    let mut places = [0usize; 200];
    for i in 0..200usize {
        places[i] = start.saturating_add(i);
    }
    places
}

/// The places of the first bits that are set, and how many they are.
pub(crate) fn set_places(words: &[u64; 4], len: usize) -> ([usize; 200], usize) {
    let mut places = [0usize; 200];
    let mut count = 0usize;
    for i in 0..len.min(200) {
        if bit(words, i) && count < 200 {
            places[count] = i;
            count += 1;
        }
    }
    (places, count)
}

/// So many rows, of which those from a start to an end are cut out.
pub(crate) const PARTS: [(usize, usize, usize); 14] = [
    (0, 0, 0),
    (1, 0, 1),
    (63, 1, 63),
    (64, 0, 64),
    (64, 63, 64),
    (65, 1, 65),
    (65, 64, 65),
    (127, 63, 127),
    (128, 64, 128),
    (129, 1, 66),
    (200, 0, 200),
    (200, 64, 129),
    (200, 65, 193),
    (200, 100, 100),
];
