// Parts of truth values.
use crate::select::SelectValues;
use crate::taken::take_bits_under;
use std::alloc::{AllocError, Global};
use vortex_array_kinds::Validity;
use vortex_array_rows::{RowIndex, filter_bits, slice_bits};
use vortex_buffer::{BitBuffer, Mask};

impl SelectValues for BitBuffer {
    fn slice_values(
        &self,
        alloc: Global,
        start: usize,
        end: usize,
    ) -> Result<BitBuffer, AllocError> {
        let part = slice_bits(alloc, self, start, end)?;
        Ok(part)
    }

    fn filter_values(&self, alloc: Global, mask: &Mask) -> Result<BitBuffer, AllocError> {
        let kept = filter_bits(alloc, self, mask)?;
        Ok(kept)
    }

    fn take_values<P: RowIndex>(
        &self,
        alloc: Global,
        places: &[P],
        nulls: &Validity,
    ) -> Result<BitBuffer, AllocError> {
        let part = take_bits_under(alloc, self, places, nulls)?;
        Ok(part)
    }
}
