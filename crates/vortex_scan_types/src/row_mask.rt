// Masks of rows that stand one after another.
ghost use Rattle.std.specs.Prelude.{◌≡◌, ◌+◌, ◌^◌, ◌<◌, length, IfOk};
ghost use Rattle.vortex_buffer.specs.Mask.{mask_bits};
ghost use Rattle.vortex_scan_types.specs.RowMasks.{rows_of};

use std::alloc::{AllocError, Global};
use std::marker::Model;
use std::ops::Range;
use vortex_buffer::Mask;

/// Which rows of a range are chosen: the number of its first row, and a bit a row. Contracts see both.
pub struct RowMask {
    row_offset: u64,
    mask: Mask,
}

impl Drop for RowMask {
    fn drop(self) {
        let RowMask {
            row_offset: _row_offset,
            mask: _mask,
        } = self;
    }
}

impl Model for RowMask {
    ghost use Rattle.std.specs.Prelude.{◌+◌, ◌^◌, ◌<◌, length};
    ghost use Rattle.vortex_buffer.specs.Mask.{mask_bits};
    ghost use Rattle.vortex_scan_types.specs.RowMasks.{MaskedRows};

    ghost Value = { MaskedRows };

    ghost view = { λ m. record { row_offset = m.row_offset; mask = m.mask } };

    ghost invariant = { λ m. m.row_offset + length (mask_bits m.mask) < 2 ^ 64 };
}

impl RowMask {
    /// The mask of the rows from a number on, as many as the mask has bits. Their end fits 64 bits.
    pub fn new(row_offset: u64, mask: Mask) -> RowMask
        requires { row_offset + length (mask_bits mask) < 2 ^ 64 }
        ensures { result ≡ record { row_offset = row_offset; mask = mask } }
    {
        RowMask { row_offset, mask }
    }

    /// The rows that have a bit, by their numbers.
    pub fn row_range(&self) -> Range<u64>
        ensures { result ≡ rows_of self.now }
    {
        self.row_offset..self.row_offset + self.mask.len() as u64
    }

    /// The bits of these rows.
    pub fn mask(&self) -> &Mask
        ensures { result.now ≡ self.now.mask }
    {
        &self.mask
    }

    /// A second mask of the same rows with the same bits.
    pub fn try_clone(&self, alloc: Global) -> Result<RowMask, AllocError>
        ensures offset { IfOk result (λ m. m.row_offset ≡ self.now.row_offset) }
        ensures bits { IfOk result (λ m. mask_bits m.mask ≡ mask_bits self.now.mask) }
    {
        let mask = self.mask.try_clone(alloc)?;
        Ok(RowMask {
            row_offset: self.row_offset,
            mask,
        })
    }
}
