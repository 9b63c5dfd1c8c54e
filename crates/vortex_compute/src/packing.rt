// Kernels whose answers are truths: 64 of them are packed into a word, least significant bit first.
ghost use Rattle.std.specs.Prelude.{◌≡◌, ◌<◌, ◌≤◌, ◌+◌, ◌*◌, ◌^◌, All, IfOk, length, take, drop};
ghost use Rattle.std.specs.List.{AllZip, zip};
ghost use Rattle.vortex_buffer.specs.Bits.{bits_of, words_for};
ghost use Rattle.vortex_compute.specs.Answers.{MapsBits};
ghost use Rattle.vortex_compute.specs.Groups.{PackedGroup};

use crate::source::{IndexedSource, LaneZip, Lanes};
use std::alloc::Global;
use vortex_buffer::{AllocError, BitBuffer, Buffer};

// The answers to the lanes from `base` on, at most 64 of them, as a word.
#[inline(always)]
fn pack_group<S: IndexedSource, F: Fn(S::Item) -> bool>(
    values: &S,
    f: &F,
    base: usize,
    count: usize,
) -> u64
    requires callable { All (F.pre f.now) (S.lanes values.now) }
    requires within { base + count ≤ length (S.lanes values.now) }
    requires small { count ≤ 64 }
    requires fits { base + count < 2 ^ 64 }
    ensures { PackedGroup (F.post f.now) (take count (drop base (S.lanes values.now))) result }
{
    let mut word = 0u64;
    for bit in 0..count {
        word |= (f(values.get(base + bit)) as u64) << bit;
    }
    word
}

/// Bit `i` of the words becomes the answer of `f` to lane `i`, least significant bit first. Exactly as many words are
/// written as the lanes take: bits past the last lane are 0 in the last of them, and further words stay.
#[inline]
pub fn map_bits_into<S: IndexedSource, F: Fn(S::Item) -> bool>(values: &S, words: &mut [u64], f: F)
    requires callable { All (F.pre f) (S.lanes values.now) }
    requires room { words_for (length (S.lanes values.now)) ≤ length words.old }
    ensures written { MapsBits (F.post f) (S.lanes values.now) words.old words.new }
{
    let len = values.len();
    let whole = len / 64;
    for k in 0..whole {
        words[k] = pack_group(values, &f, 64 * k, 64);
    }
    let rest = len % 64;
    if rest != 0 {
        words[whole] = pack_group(values, &f, 64 * whole, rest);
    }
}

/// The first `len` bits of these words, least significant bit first.
#[inline]
pub fn bit_buffer_from_words(words: Buffer<u64>, len: usize) -> BitBuffer
    requires { len ≤ length words * 64 }
    ensures bits { result ≡ bits_of len words }
    ensures len { length result ≡ len }
{
    BitBuffer::from_words(words, len)
}

/// A buffer whose bit `i` is the answer of `f` to lane `i` of any source.
#[inline]
pub fn collect_lane_bits<S: IndexedSource, F: Fn(S::Item) -> bool>(
    alloc: Global,
    values: &S,
    f: F,
) -> Result<BitBuffer, AllocError>
    requires { All (F.pre f) (S.lanes values.now) }
    ensures ok { IfOk result (AllZip (F.post f) (S.lanes values.now)) }
{
    let len = values.len();
    let mut words = Vec::from_elem(alloc, 0u64, len.div_ceil(64))?;
    map_bits_into(values, &mut words, f);
    Ok(BitBuffer::from_words(Buffer::from_vec(words), len))
}

/// A buffer whose bit `i` is the answer of `f` to value `i`.
#[inline]
pub fn collect_bits<T: Copy, F: Fn(T) -> bool>(
    alloc: Global,
    values: &[T],
    f: F,
) -> Result<BitBuffer, AllocError>
    requires { All (F.pre f) values.now }
    ensures ok { IfOk result (AllZip (F.post f) values.now) }
{
    let bits = collect_lane_bits(alloc, &Lanes::new(values), f)?;
    Ok(bits)
}

/// A buffer whose bit `i` is the answer of `f` to the values `i` of two slices of one length.
#[inline]
pub fn collect_zip_bits<T: Copy, F: Fn(T, T) -> bool>(
    alloc: Global,
    lhs: &[T],
    rhs: &[T],
    f: F,
) -> Result<BitBuffer, AllocError>
    requires callable { All (λ pair. F.pre f pair.0 pair.1) (zip lhs.now rhs.now) }
    requires same_length { length lhs.now ≡ length rhs.now }
    ensures ok { IfOk result (AllZip (λ pair bit. F.post f pair.0 pair.1 bit) (zip lhs.now rhs.now)) }
{
    let pairs = LaneZip::new(Lanes::new(lhs), Lanes::new(rhs));
    let both = |pair: (T, T)|
        requires { F.pre f pair.0 pair.1 }
        ensures { F.post f pair.0 pair.1 result }
    { f(pair.0, pair.1) };
    let bits = collect_lane_bits(alloc, &pairs, both)?;
    Ok(bits)
}
