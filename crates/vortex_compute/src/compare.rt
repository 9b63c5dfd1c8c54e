// Comparisons of every lane with a constant, packed into words. The operator is looked at once, outside the loop.
ghost use Rattle.std.specs.Prelude.{FitsSigned, ◌≡◌, ◌<◌, ◌≤◌, ◌^◌, pos, length, map};
ghost use Rattle.std.specs.Int.{w64};
ghost use Rattle.std.specs.List.{zip};
ghost use Rattle.vortex_buffer.specs.Bits.{words_for, packed_over};
ghost use Rattle.vortex_compute.specs.Compare.{compares, pair_number};
ghost use Rattle.vortex_buffer.specs.declared.compare_operator.CompareOperator.TheVariants as operators;

use crate::packing::map_bits_into;
use crate::source::{LaneZip, Lanes};
use vortex_buffer::CompareOperator;

/// Bit `i` of the words becomes whether the operator holds between value `i` and the constant. Exactly as many words are
/// written as the values take: bits past the last value are 0 in the last of them, and further words stay.
#[inline]
pub fn compare_u64_bits(values: &[u64], constant: u64, operator: CompareOperator, words: &mut [u64])
    requires room { words_for (length values.now) ≤ length words.old }
    ensures written { words.new ≡ packed_over (map (λ value. compares operator (pos value) (pos constant)) values.now) words.old }
{
    let lanes = Lanes::new(values);
    match operator {
        CompareOperator::Eq => map_bits_into(&lanes, words, |value: u64| value == constant),
        CompareOperator::NotEq => map_bits_into(&lanes, words, |value: u64| value != constant),
        CompareOperator::Gt => map_bits_into(&lanes, words, |value: u64| value > constant),
        CompareOperator::Gte => map_bits_into(&lanes, words, |value: u64| value >= constant),
        CompareOperator::Lt => u64_below(values, constant, words),
        CompareOperator::Lte => u64_at_most(values, constant, words),
    }
}

// Bit `i` of the words becomes whether value `i` is less than the constant.
#[inline(always)]
fn u64_below(values: &[u64], constant: u64, words: &mut [u64])
    requires room { words_for (length values.now) ≤ length words.old }
    ensures written { words.new ≡ packed_over (map (λ value. compares operators.Lt (pos value) (pos constant)) values.now) words.old }
{
    let lanes = Lanes::new(values);
    map_bits_into(&lanes, words, |value: u64| value < constant)
}

// Bit `i` of the words becomes whether value `i` is at most the constant.
#[inline(always)]
fn u64_at_most(values: &[u64], constant: u64, words: &mut [u64])
    requires room { words_for (length values.now) ≤ length words.old }
    ensures written { words.new ≡ packed_over (map (λ value. compares operators.Lte (pos value) (pos constant)) values.now) words.old }
{
    let lanes = Lanes::new(values);
    map_bits_into(&lanes, words, |value: u64| value <= constant)
}

/// Bit `i` of the words becomes whether the operator holds between value `i` and the constant. Exactly as many words are
/// written as the values take: bits past the last value are 0 in the last of them, and further words stay.
#[inline]
pub fn compare_i64_bits(values: &[i64], constant: i64, operator: CompareOperator, words: &mut [u64])
    requires room { words_for (length values.now) ≤ length words.old }
    ensures written { words.new ≡ packed_over (map (λ value. compares operator value constant) values.now) words.old }
{
    let lanes = Lanes::new(values);
    match operator {
        CompareOperator::Eq => map_bits_into(&lanes, words, |value: i64| value == constant),
        CompareOperator::NotEq => map_bits_into(&lanes, words, |value: i64| value != constant),
        CompareOperator::Gt => map_bits_into(&lanes, words, |value: i64| value > constant),
        CompareOperator::Gte => map_bits_into(&lanes, words, |value: i64| value >= constant),
        CompareOperator::Lt => i64_below(values, constant, words),
        CompareOperator::Lte => i64_at_most(values, constant, words),
    }
}

// Bit `i` of the words becomes whether value `i` is less than the constant.
#[inline(always)]
fn i64_below(values: &[i64], constant: i64, words: &mut [u64])
    requires room { words_for (length values.now) ≤ length words.old }
    ensures written { words.new ≡ packed_over (map (λ value. compares operators.Lt value constant) values.now) words.old }
{
    let lanes = Lanes::new(values);
    map_bits_into(&lanes, words, |value: i64| value < constant)
}

// Bit `i` of the words becomes whether value `i` is at most the constant.
#[inline(always)]
fn i64_at_most(values: &[i64], constant: i64, words: &mut [u64])
    requires room { words_for (length values.now) ≤ length words.old }
    ensures written { words.new ≡ packed_over (map (λ value. compares operators.Lte value constant) values.now) words.old }
{
    let lanes = Lanes::new(values);
    map_bits_into(&lanes, words, |value: i64| value <= constant)
}

// The signed word and the unsigned word below it that a number is made of.
#[inline(always)]
fn words_of_number(number: i128) -> (i64, u64)
    ensures number { pair_number result.0 result.1 ≡ number }
    ensures high { FitsSigned w64 result.0 }
    ensures low { result.1 < 2 ^ 64 }
{
    let high = (number >> 64) as i64;
    let low = number.rem_euclid(1 << 64) as u64;
    (high, low)
}

/// Bit `i` of the words becomes whether the operator holds between the number `msp[i] * 2^64 + lower[i]` and the
/// constant. Words are written as by the comparisons of single values. The order is taken word by word: no number of
/// 128 bits is made.
#[inline]
pub fn compare_words_bits(
    msp: &[i64],
    lower: &[u64],
    constant: i128,
    operator: CompareOperator,
    words: &mut [u64],
)
    requires same_length { length msp.now ≡ length lower.now }
    requires room { words_for (length msp.now) ≤ length words.old }
    ensures written { words.new ≡ packed_over (map (λ pair. compares operator (pair_number pair.0 pair.1) constant) (zip msp.now lower.now)) words.old }
{
    let (high, low) = words_of_number(constant);
    let lanes = LaneZip::new(Lanes::new(msp), Lanes::new(lower));
    match operator {
        CompareOperator::Eq => map_bits_into(&lanes, words, |pair: (i64, u64)| {
            (pair.0 == high) & (pair.1 == low)
        }),
        CompareOperator::NotEq => map_bits_into(&lanes, words, |pair: (i64, u64)| {
            (pair.0 != high) | (pair.1 != low)
        }),
        CompareOperator::Gt => words_above(msp, lower, constant, words),
        CompareOperator::Gte => words_at_least(msp, lower, constant, words),
        CompareOperator::Lt => words_below(msp, lower, constant, words),
        CompareOperator::Lte => words_at_most(msp, lower, constant, words),
    }
}

// Bit `i` of the words becomes whether number `i` is greater than the constant.
#[inline(always)]
fn words_above(msp: &[i64], lower: &[u64], constant: i128, words: &mut [u64])
    requires same_length { length msp.now ≡ length lower.now }
    requires room { words_for (length msp.now) ≤ length words.old }
    ensures written { words.new ≡ packed_over (map (λ pair. compares operators.Gt (pair_number pair.0 pair.1) constant) (zip msp.now lower.now)) words.old }
{
    let (high, low) = words_of_number(constant);
    let lanes = LaneZip::new(Lanes::new(msp), Lanes::new(lower));
    map_bits_into(&lanes, words, |pair: (i64, u64)| {
        (pair.0 > high) | ((pair.0 == high) & (pair.1 > low))
    })
}

// Bit `i` of the words becomes whether number `i` is at least the constant.
#[inline(always)]
fn words_at_least(msp: &[i64], lower: &[u64], constant: i128, words: &mut [u64])
    requires same_length { length msp.now ≡ length lower.now }
    requires room { words_for (length msp.now) ≤ length words.old }
    ensures written { words.new ≡ packed_over (map (λ pair. compares operators.Gte (pair_number pair.0 pair.1) constant) (zip msp.now lower.now)) words.old }
{
    let (high, low) = words_of_number(constant);
    let lanes = LaneZip::new(Lanes::new(msp), Lanes::new(lower));
    map_bits_into(&lanes, words, |pair: (i64, u64)| {
        (pair.0 > high) | ((pair.0 == high) & (pair.1 >= low))
    })
}

// Bit `i` of the words becomes whether number `i` is less than the constant.
#[inline(always)]
fn words_below(msp: &[i64], lower: &[u64], constant: i128, words: &mut [u64])
    requires same_length { length msp.now ≡ length lower.now }
    requires room { words_for (length msp.now) ≤ length words.old }
    ensures written { words.new ≡ packed_over (map (λ pair. compares operators.Lt (pair_number pair.0 pair.1) constant) (zip msp.now lower.now)) words.old }
{
    let (high, low) = words_of_number(constant);
    let lanes = LaneZip::new(Lanes::new(msp), Lanes::new(lower));
    map_bits_into(&lanes, words, |pair: (i64, u64)| {
        (pair.0 < high) | ((pair.0 == high) & (pair.1 < low))
    })
}

// Bit `i` of the words becomes whether number `i` is at most the constant.
#[inline(always)]
fn words_at_most(msp: &[i64], lower: &[u64], constant: i128, words: &mut [u64])
    requires same_length { length msp.now ≡ length lower.now }
    requires room { words_for (length msp.now) ≤ length words.old }
    ensures written { words.new ≡ packed_over (map (λ pair. compares operators.Lte (pair_number pair.0 pair.1) constant) (zip msp.now lower.now)) words.old }
{
    let (high, low) = words_of_number(constant);
    let lanes = LaneZip::new(Lanes::new(msp), Lanes::new(lower));
    map_bits_into(&lanes, words, |pair: (i64, u64)| {
        (pair.0 < high) | ((pair.0 == high) & (pair.1 <= low))
    })
}
