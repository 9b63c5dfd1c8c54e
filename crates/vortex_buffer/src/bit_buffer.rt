// Bits in words of 64, least significant bit first.
ghost use Rattle.std.specs.Prelude.{◌≡◌, ◌<◌, ◌≤◌, ◌*◌, ◌++◌, ◌∷◌, ◌&&◌, ◌||◌, [], false, length, slice_index_or, take, IfOk, OnErr, OnOk, count_by, not, map, replicate};
ghost use Rattle.std.specs.Simd.Lanes.{zip2};
ghost use Rattle.vortex_buffer.specs.Bits.{bits_of, word_of, words_for};

use crate::buffer::Buffer;
use crate::words::{
    and_words, clear_spare, copy_words, count_set, keep_bits, not_words, or_words, push_bit,
    unset_words,
};
use std::alloc::{AllocError, Global};
use std::marker::Model;

/// A list of bits, kept in words of 64 bits, least significant bit first. It grows and shrinks at its end alone.
/// Contracts see the list of its bits; `bits_of` reads words as bits, and `word_of` bits as words.
pub struct BitBuffer {
    words: Vec<u64>,
    len: usize,
}

impl Drop for BitBuffer {
    fn drop(self) {
        let BitBuffer {
            words: _words,
            len: _len,
        } = self;
    }
}

impl Model for BitBuffer {
    ghost use Rattle.std.specs.Prelude.{List, Bool};
    ghost use Rattle.vortex_buffer.specs.Bits.{bits_of, HoldsBits};

    ghost Value = { List Bool };

    ghost view = { λ b. bits_of b.len b.words.items };

    ghost invariant = { λ b. HoldsBits b.len b.words.items };
}

impl BitBuffer {
    /// `len` bits, none of them set.
    pub fn new_unset(alloc: Global, len: usize) -> Result<BitBuffer, AllocError>
        ensures { IfOk result (λ bits. bits ≡ replicate len false) }
    {
        let words = unset_words(alloc, len)?;
        Ok(BitBuffer { words, len })
    }

    /// The first `len` bits of these words. Words past them are let go, and spare bits are cleared.
    pub fn from_words(words: Buffer<u64>, len: usize) -> BitBuffer
        requires { len ≤ length words * 64 }
        ensures bits { result ≡ bits_of len words }
        ensures len { length result ≡ len }
    {
        let mut words = words.into_vec();
        keep_bits(&mut words, len);
        BitBuffer { words, len }
    }

    /// Puts a bit behind the others. Where memory is wanting, nothing has changed.
    pub fn push(&mut self, bit: bool) -> Result<(), AllocError>
        ensures pushed { OnOk result (self.new ≡ self.old ++ bit ∷ []) }
        ensures kept { OnErr result (self.new ≡ self.old) }
    {
        if self.len == usize::MAX {
            return Err(AllocError);
        }
        push_bit(&mut self.words, self.len, bit)?;
        self.len += 1;
        Ok(())
    }

    /// Keeps the first `len` bits. It takes no memory.
    pub fn truncate(&mut self, len: usize)
        requires { len ≤ length self.old }
        ensures { self.new ≡ take len self.old }
    {
        keep_bits(&mut self.words, len);
        self.len = len;
    }

    /// How many bits there are.
    pub fn len(&self) -> usize
        ensures { result ≡ length self.now }
    {
        self.len
    }

    /// Bit `i`.
    #[inline]
    pub fn value(&self, i: usize) -> bool
        requires { i < length self.now }
        ensures { result ≡ slice_index_or self.now i false }
    {
        (self.words[i / 64] >> (i % 64)) & 1 == 1
    }

    /// Word `k`: the bits from `64 * k` on, least significant first. Bits past the end are 0.
    #[inline]
    pub fn word(&self, k: usize) -> u64
        requires { k < words_for (length self.now) }
        ensures { result ≡ word_of self.now k }
    {
        self.words[k]
    }

    /// How many bits are set.
    pub fn count(&self) -> usize
        ensures { result ≡ count_by (λ bit. bit) self.now }
    {
        count_set(self.words.as_slice(), self.len)
    }

    /// The bits that are set here and in a buffer of the same length.
    pub fn and(&self, alloc: Global, other: &BitBuffer) -> Result<BitBuffer, AllocError>
        requires { length self.now ≡ length other.now }
        ensures { IfOk result (λ bits. bits ≡ zip2 ◌&&◌ self.now other.now) }
    {
        let words = and_words(alloc, self.words.as_slice(), other.words.as_slice())?;
        Ok(BitBuffer {
            words,
            len: self.len,
        })
    }

    /// The bits that are set here or in a buffer of the same length.
    pub fn or(&self, alloc: Global, other: &BitBuffer) -> Result<BitBuffer, AllocError>
        requires { length self.now ≡ length other.now }
        ensures { IfOk result (λ bits. bits ≡ zip2 ◌||◌ self.now other.now) }
    {
        let words = or_words(alloc, self.words.as_slice(), other.words.as_slice())?;
        Ok(BitBuffer {
            words,
            len: self.len,
        })
    }

    /// Each bit turned over.
    pub fn not(&self, alloc: Global) -> Result<BitBuffer, AllocError>
        ensures { IfOk result (λ bits. bits ≡ map not self.now) }
    {
        let mut words = not_words(alloc, self.words.as_slice())?;
        clear_spare(&mut words, self.len);
        Ok(BitBuffer {
            words,
            len: self.len,
        })
    }

    /// A second buffer of the same bits.
    pub fn try_clone(&self, alloc: Global) -> Result<BitBuffer, AllocError>
        ensures { IfOk result (λ bits. bits ≡ self.now) }
    {
        let words = copy_words(alloc, self.words.as_slice())?;
        Ok(BitBuffer {
            words,
            len: self.len,
        })
    }
}
