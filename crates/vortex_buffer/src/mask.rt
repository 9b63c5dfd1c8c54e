// Which rows are kept, one bit a row.
ghost use Rattle.std.specs.Prelude.{◌≡◌, ◌<◌, ◌&&◌, All, false, true, length, slice_index_or, IfOk, count_by, not, map, replicate};
ghost use Rattle.std.specs.List.{list_all};
ghost use Rattle.std.specs.Simd.Lanes.{zip2};
ghost use Rattle.vortex_buffer.specs.Mask.{mask_bits, bits_at};

use crate::bit_buffer::BitBuffer;
use crate::buffer::Buffer;
use crate::words::{set_places, unset_words};
use std::alloc::{AllocError, Global};

/// Which rows are kept, one bit a row. The definition `mask_bits` reads a mask as its bits.
pub enum Mask {
    /// So many rows, all of them kept.
    AllTrue(usize),
    /// So many rows, none of them kept.
    AllFalse(usize),
    /// The rows whose bit is set.
    Values(BitBuffer),
}

impl Drop for Mask {
    fn drop(self) {
        match self {
            Mask::AllTrue(_part) => {}
            Mask::AllFalse(_part) => {}
            Mask::Values(_part) => {}
        }
    }
}

impl Mask {
    /// A mask that keeps all of `len` rows.
    pub fn new_true(len: usize) -> Mask
        ensures { mask_bits result ≡ replicate len true }
    {
        Mask::AllTrue(len)
    }

    /// A mask that keeps none of `len` rows.
    pub fn new_false(len: usize) -> Mask
        ensures { mask_bits result ≡ replicate len false }
    {
        Mask::AllFalse(len)
    }

    /// A mask of these bits.
    pub fn from_buffer(bits: BitBuffer) -> Mask
        ensures { mask_bits result ≡ bits }
    {
        Mask::Values(bits)
    }

    /// A mask of `len` rows that keeps exactly the rows at the indices. Each index is below `len`.
    /// Callers hand them strictly ascending; the mask is the same in any order.
    pub fn from_indices(alloc: Global, len: usize, indices: &[usize]) -> Result<Mask, AllocError>
        requires { All (λ i. i < len) indices.now }
        ensures ok { IfOk result (λ mask. mask_bits mask ≡ bits_at len indices.now) }
        ensures len { IfOk result (λ mask. length (mask_bits mask) ≡ len) }
    {
        let mut words = unset_words(alloc, len)?;
        set_places(&mut words, len, indices);
        let bits = BitBuffer::from_words(Buffer::from_vec(words), len);
        Ok(Mask::Values(bits))
    }

    /// How many rows there are.
    pub fn len(&self) -> usize
        ensures { result ≡ length (mask_bits self.now) }
    {
        match self {
            Mask::AllTrue(len) | Mask::AllFalse(len) => *len,
            Mask::Values(bits) => bits.len(),
        }
    }

    /// Whether row `i` is kept.
    pub fn value(&self, i: usize) -> bool
        requires { i < length (mask_bits self.now) }
        ensures { result ≡ slice_index_or (mask_bits self.now) i false }
    {
        match self {
            Mask::AllTrue(_) => true,
            Mask::AllFalse(_) => false,
            Mask::Values(bits) => bits.value(i),
        }
    }

    /// How many rows are kept.
    pub fn true_count(&self) -> usize
        ensures { result ≡ count_by (λ bit. bit) (mask_bits self.now) }
    {
        match self {
            Mask::AllTrue(len) => *len,
            Mask::AllFalse(_) => 0,
            Mask::Values(bits) => bits.count(),
        }
    }

    /// Whether every row is kept, by the bits: true of a mask of no rows.
    pub fn all_true(&self) -> bool
        ensures { result ≡ list_all (λ bit. bit) (mask_bits self.now) }
    {
        self.true_count() == self.len()
    }

    /// Whether no row is kept, by the bits: true of a mask of no rows.
    pub fn all_false(&self) -> bool
        ensures { result ≡ list_all not (mask_bits self.now) }
    {
        self.true_count() == 0
    }

    /// The rows that this mask and another of the same length keep.
    pub fn and(&self, alloc: Global, other: &Mask) -> Result<Mask, AllocError>
        requires { length (mask_bits self.now) ≡ length (mask_bits other.now) }
        ensures { IfOk result (λ mask. mask_bits mask ≡ zip2 ◌&&◌ (mask_bits self.now) (mask_bits other.now)) }
    {
        match (self, other) {
            (Mask::AllTrue(_), _) => other.try_clone(alloc),
            (Mask::AllFalse(len), _) => Ok(Mask::AllFalse(*len)),
            (Mask::Values(_), Mask::AllTrue(_)) => self.try_clone(alloc),
            (Mask::Values(_), Mask::AllFalse(len)) => Ok(Mask::AllFalse(*len)),
            (Mask::Values(bits), Mask::Values(others)) => {
                let both = bits.and(alloc, others)?;
                Ok(Mask::Values(both))
            }
        }
    }

    /// The rows that this mask does not keep.
    pub fn not(&self, alloc: Global) -> Result<Mask, AllocError>
        ensures { IfOk result (λ mask. mask_bits mask ≡ map not (mask_bits self.now)) }
    {
        match self {
            Mask::AllTrue(len) => Ok(Mask::AllFalse(*len)),
            Mask::AllFalse(len) => Ok(Mask::AllTrue(*len)),
            Mask::Values(bits) => Ok(Mask::Values(bits.not(alloc)?)),
        }
    }

    /// A second mask of the same rows.
    pub fn try_clone(&self, alloc: Global) -> Result<Mask, AllocError>
        ensures { IfOk result (λ mask. mask_bits mask ≡ mask_bits self.now) }
    {
        match self {
            Mask::AllTrue(len) => Ok(Mask::AllTrue(*len)),
            Mask::AllFalse(len) => Ok(Mask::AllFalse(*len)),
            Mask::Values(bits) => Ok(Mask::Values(bits.try_clone(alloc)?)),
        }
    }
}
