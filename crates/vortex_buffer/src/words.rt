// Work on the words of a list of bits, one word at a time.
ghost use Rattle.std.specs.Prelude.{◌≡◌, ◌+◌, ◌*◌, ◌≤◌, ◌<◌, ◌++◌, ◌∷◌, [], All, bit_and, bit_or, false, length, replicate, IfOk, OnErr, OnOk, count_by, map};
ghost use Rattle.std.specs.Int.{bit_not, w64};
ghost use Rattle.std.specs.List.{zip};
ghost use Rattle.vortex_buffer.specs.Bits.{bits_of, word_bit, words_for, HoldsBits};
ghost use Rattle.vortex_buffer.specs.Mask.{bits_at};

use std::alloc::{AllocError, Global};

// The words of `len` bits of which none is set.
pub(crate) fn unset_words(alloc: Global, len: usize) -> Result<Vec<u64>, AllocError>
    ensures { IfOk result (λ v. v.items ≡ replicate (words_for len) 0) }
{
    Ok(Vec::from_elem(alloc, 0u64, len.div_ceil(64))?)
}

// How many of the first `len` bits are set. The spare bits are 0, so that whole words can be counted.
pub(crate) fn count_set(words: &[u64], len: usize) -> usize
    requires { HoldsBits len words.now }
    ensures { result ≡ count_by (λ bit. bit) (bits_of len words.now) }
{
    let mut total = 0usize;
    for word in words {
        total += word.count_ones() as usize;
    }
    total
}

// The words of two lists of bits, each pair joined by and.
pub(crate) fn and_words(alloc: Global, xs: &[u64], ys: &[u64]) -> Result<Vec<u64>, AllocError>
    requires { length xs.now ≡ length ys.now }
    ensures { IfOk result (λ v. v.items ≡ map (λ p. bit_and p.0 p.1) (zip xs.now ys.now)) }
{
    xs.iter().zip(ys.iter()).map(|(x, y)| x & y).collect(alloc)
}

// The words of two lists of bits, each pair joined by or.
pub(crate) fn or_words(alloc: Global, xs: &[u64], ys: &[u64]) -> Result<Vec<u64>, AllocError>
    requires { length xs.now ≡ length ys.now }
    ensures { IfOk result (λ v. v.items ≡ map (λ p. bit_or p.0 p.1) (zip xs.now ys.now)) }
{
    xs.iter().zip(ys.iter()).map(|(x, y)| x | y).collect(alloc)
}

// Each word with all its bits turned over, spare ones too.
pub(crate) fn not_words(alloc: Global, xs: &[u64]) -> Result<Vec<u64>, AllocError>
    ensures { IfOk result (λ v. v.items ≡ map (λ x. bit_not w64 x) xs.now) }
{
    xs.iter().map(|x| !x).collect(alloc)
}

// The same words again.
pub(crate) fn copy_words(alloc: Global, words: &[u64]) -> Result<Vec<u64>, AllocError>
    ensures { IfOk result (λ v. v.items ≡ words.now) }
{
    Ok(Vec::from_slice(alloc, words)?)
}

// Sets the bits past the first `len` to 0.
pub(crate) fn clear_spare(words: &mut [u64], len: usize)
    requires { length words.old ≡ words_for len }
    ensures bits { bits_of len words.new ≡ bits_of len words.old }
    ensures holds { HoldsBits len words.new }
{
    let spare = len % 64;
    if spare != 0 {
        let last = len / 64;
        words[last] &= (1 << spare) - 1;
    }
}

// Keeps the words of the first `len` bits, and sets the bits past them to 0.
pub(crate) fn keep_bits(words: &mut Vec<u64>, len: usize)
    requires { len ≤ length words.old.items * 64 }
    ensures bits { bits_of len words.new.items ≡ bits_of len words.old.items }
    ensures holds { HoldsBits len words.new.items }
{
    words.truncate(len.div_ceil(64));
    clear_spare(words, len);
}

// Makes room for a bit behind the first `len`, where none is set yet. Where memory is wanting, nothing has changed.
fn make_room(words: &mut Vec<u64>, len: usize) -> Result<(), AllocError>
    requires { HoldsBits len words.old.items }
    ensures bits { OnOk result (bits_of len words.new.items ≡ bits_of len words.old.items) }
    ensures unset { OnOk result (word_bit words.new.items len ≡ false) }
    ensures holds { OnOk result (HoldsBits (len + 1) words.new.items) }
    ensures kept { OnErr result (words.new.items ≡ words.old.items) }
{
    if len % 64 != 0 {
        return Ok(());
    }
    words.push(0)?;
    Ok(())
}

// Puts a bit behind the first `len`, where there is room for it.
fn put_bit(words: &mut [u64], len: usize, bit: bool)
    requires holds { HoldsBits (len + 1) words.old }
    requires unset { word_bit words.old len ≡ false }
    ensures put { bits_of (len + 1) words.new ≡ bits_of len words.old ++ bit ∷ [] }
    ensures holds { HoldsBits (len + 1) words.new }
{
    words[len / 64] |= (bit as u64) << (len % 64);
}

// Puts a bit behind the first `len`. Where memory is wanting, nothing has changed.
pub(crate) fn push_bit(words: &mut Vec<u64>, len: usize, bit: bool) -> Result<(), AllocError>
    requires { HoldsBits len words.old.items }
    ensures pushed { OnOk result (bits_of (len + 1) words.new.items ≡ bits_of len words.old.items ++ bit ∷ []) }
    ensures holds { OnOk result (HoldsBits (len + 1) words.new.items) }
    ensures kept { OnErr result (words.new.items ≡ words.old.items) }
{
    make_room(words, len)?;
    put_bit(words, len, bit);
    Ok(())
}

// Sets the bits at the places.
pub(crate) fn set_places(words: &mut [u64], len: usize, places: &[usize])
    requires room { length words.old ≡ words_for len }
    requires within { All (λ place. place < len) places.now }
    requires unset { bits_of len words.old ≡ replicate len false }
    ensures { bits_of len words.new ≡ bits_at len places.now }
{
    for place in places {
        words[*place / 64] |= 1 << (*place % 64);
    }
}
