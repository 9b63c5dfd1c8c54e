// Kernels that pack truths into words, comparisons with a constant, and bits that are collected.
use crate::samples::{HALF, LENGTHS, are_words, bit, is_packed, lanes_of};
use std::alloc::Global;
use vortex_buffer::{Buffer, CompareOperator};
use vortex_compute::{
    Lanes, bit_buffer_from_words, collect_bits, collect_lane_bits, collect_zip_bits,
    compare_i64_bits, compare_u64_bits, compare_words_bits, map_bits_into,
};

// Whether the bit of a lane's number is set.
fn is_half(lane: u64) -> bool {
    bit(&HALF, lane as usize)
}

fn packs(lanes: &[u64; 200], len: usize) -> bool {
    if len > 200 {
        return false;
    }
    let mut words = [7u64; 5];
    map_bits_into(&Lanes::new(&lanes[..len]), &mut words, is_half);
    is_packed(&words, &HALF, len)
}

fn collects(alloc: Global, lanes: &[u64; 200], len: usize) -> bool {
    if len > 200 {
        return false;
    }
    let of_values = match collect_bits(alloc, &lanes[..len], is_half) {
        Ok(bits) => are_words(&bits, &HALF, len),
        Err(_) => false,
    };
    let of_lanes = match collect_lane_bits(alloc, &Lanes::new(&lanes[..len]), is_half) {
        Ok(bits) => are_words(&bits, &HALF, len),
        Err(_) => false,
    };
    of_values && of_lanes
}

fn collects_pairs(alloc: Global, lanes: &[u64; 200], others: &[u64; 200], len: usize) -> bool {
    if len > 200 {
        return false;
    }
    let both = |left: u64, right: u64| is_half(left) && right == 1007;
    match collect_zip_bits(alloc, &lanes[..len], &others[..len], both) {
        Ok(bits) => are_words(&bits, &[1 << 7 & HALF[0], 0, 0, 0], len),
        Err(_) => false,
    }
}

fn collects_words(alloc: Global, words: &[u64; 4], len: usize) -> bool {
    match Buffer::from_slice(alloc, words.as_slice()) {
        Ok(copy) => are_words(&bit_buffer_from_words(copy, len.min(256)), words, len),
        Err(_) => false,
    }
}

fn collects_each(alloc: Global, len: usize) -> bool {
    let lanes = lanes_of(200, 200);
    packs(&lanes, len)
        && collects(alloc, &lanes, len)
        && collects_pairs(alloc, &lanes, &lanes_of(200, 0), len)
        && collects_words(alloc, &HALF, len)
}

// Numbers from 0 on with 78, and from -100 on with -22.
fn compares_numbers(len: usize, operator: CompareOperator, want: &[u64; 4]) -> bool {
    if len > 200 {
        return false;
    }
    let unsigned = lanes_of(200, 200);
    let mut signed = [0i64; 200];
    for i in 0..200usize {
        signed[i] = (i % 200) as i64 - 100;
    }
    let mut words = [7u64; 5];
    compare_u64_bits(&unsigned[..len], 78, operator, &mut words);
    let mut others = [7u64; 5];
    compare_i64_bits(&signed[..len], -22, operator, &mut others);
    is_packed(&words, want, len) && is_packed(&others, want, len)
}

// High words from -2 to 1, and 50 low words for each of which many have the highest bit, with -2^64 + 28 * 2^58.
fn compares_words(len: usize, operator: CompareOperator, want: &[u64; 4]) -> bool {
    if len > 200 {
        return false;
    }
    let mut high = [0i64; 200];
    let mut low = [0u64; 200];
    for i in 0..200usize {
        high[i] = (i / 50 % 4) as i64 - 2;
        low[i] = ((i % 50) as u64) << 58;
    }
    let mut words = [7u64; 5];
    compare_words_bits(
        &high[..len],
        &low[..len],
        -10376293541461622784,
        operator,
        &mut words,
    );
    is_packed(&words, want, len)
}

// Which numbers stand so to the one in place 78, where they ascend.
const BESIDE_78: [(CompareOperator, [u64; 4]); 6] = [
    (CompareOperator::Eq, [0, 0x4000, 0, 0]),
    (
        CompareOperator::NotEq,
        [u64::MAX, 0xffff_ffff_ffff_bfff, u64::MAX, u64::MAX],
    ),
    (
        CompareOperator::Gt,
        [0, 0xffff_ffff_ffff_8000, u64::MAX, u64::MAX],
    ),
    (
        CompareOperator::Gte,
        [0, 0xffff_ffff_ffff_c000, u64::MAX, u64::MAX],
    ),
    (CompareOperator::Lt, [u64::MAX, 0x3fff, 0, 0]),
    (CompareOperator::Lte, [u64::MAX, 0x7fff, 0, 0]),
];

fn compares_each(len: usize) -> bool {
    for (operator, want) in BESIDE_78.iter() {
        if !compares_numbers(len, *operator, want) || !compares_words(len, *operator, want) {
            return false;
        }
    }
    true
}

#[test]
fn truths_are_packed_and_collected(rt: HostRuntime) {
    for len in LENGTHS {
        assert!(rt; collects_each(rt.alloc(), len), "{len} lanes");
        assert!(rt; compares_each(len), "{len} numbers");
    }
}
