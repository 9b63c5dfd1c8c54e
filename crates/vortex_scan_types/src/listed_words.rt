// Words of rows in which the bits of the listed places are set or cleared. All other bits are written a word at a time.
ghost use Rattle.std.specs.Prelude.{◌≡◌, ℕ, ◌+◌, ◌*◌, ◌&&◌, ◌||◌, All, length, map, not, replicate, IfOk};
ghost use Rattle.std.specs.List.{range_with_len};
ghost use Rattle.vortex_buffer.specs.Bits.{word_bit, words_for};
ghost use Rattle.vortex_scan_types.specs.Members.{is_listed};
ghost use Rattle.vortex_scan_types.specs.Listed.{LiesWithin};

use std::alloc::{AllocError, Global};
use vortex_buffer::{BitBuffer, Buffer};

// So many words as the bits take, each of them this one.
fn equal_words(alloc: Global, word: u64, len: usize) -> Result<Vec<u64>, AllocError>
    ensures { IfOk result (λ v. v.items ≡ replicate (words_for len) word) }
{
    Ok(Vec::from_elem(alloc, word, len.div_ceil(64))?)
}

// Sets the bits of the listed places, counted from the start.
fn set_listed(words: &mut [u64], start: u64, listed: &[u64])
    requires { All (LiesWithin start (64 * length words.old)) listed.now }
    ensures { (i : ℕ) → word_bit words.new i ≡ (word_bit words.old i || is_listed listed.now (start + i)) }
{
    for place in listed {
        let i = (*place - start) as usize;
        words[i / 64] |= 1 << (i % 64);
    }
}

// Clears the bits of the listed places, counted from the start.
fn clear_listed(words: &mut [u64], start: u64, listed: &[u64])
    requires { All (LiesWithin start (64 * length words.old)) listed.now }
    ensures { (i : ℕ) → word_bit words.new i ≡ (word_bit words.old i && not (is_listed listed.now (start + i))) }
{
    for place in listed {
        let i = (*place - start) as usize;
        words[i / 64] &= !(1 << (i % 64));
    }
}

// The bits of rows from the start on, set at the listed places.
pub(crate) fn listed_bits(
    alloc: Global,
    listed: &[u64],
    start: u64,
    len: usize,
) -> Result<BitBuffer, AllocError>
    requires { All (LiesWithin start len) listed.now }
    ensures { IfOk result (λ bits. bits ≡ map (λ place. is_listed listed.now place) (range_with_len start len)) }
{
    let mut words = equal_words(alloc, 0, len)?;
    set_listed(&mut words, start, listed);
    Ok(BitBuffer::from_words(Buffer::from_vec(words), len))
}

// The bits of rows from the start on, set at all places but the listed ones.
pub(crate) fn other_bits(
    alloc: Global,
    listed: &[u64],
    start: u64,
    len: usize,
) -> Result<BitBuffer, AllocError>
    requires { All (LiesWithin start len) listed.now }
    ensures { IfOk result (λ bits. bits ≡ map (λ place. not (is_listed listed.now place)) (range_with_len start len)) }
{
    let mut words = equal_words(alloc, u64::MAX, len)?;
    clear_listed(&mut words, start, listed);
    Ok(BitBuffer::from_words(Buffer::from_vec(words), len))
}
