// Parts of texts and of bytes. The bytes of a part are copied once.
use crate::select::SelectValues;
use crate::taken::take_lists_under;
use std::alloc::{AllocError, Global};
use vortex_array_kinds::{Strings, Validity};
use vortex_array_rows::{RowIndex, filter_lists};
use vortex_buffer::Mask;

impl SelectValues for Strings {
    fn slice_values(&self, alloc: Global, start: usize, end: usize) -> Result<Strings, AllocError> {
        let part = self.lists().slice(alloc, start, end)?;
        Ok(Strings::new(self.kind(), part))
    }

    fn filter_values(&self, alloc: Global, mask: &Mask) -> Result<Strings, AllocError> {
        let kept = filter_lists(alloc, self.lists(), mask)?;
        Ok(Strings::new(self.kind(), kept))
    }

    fn take_values<P: RowIndex>(
        &self,
        alloc: Global,
        places: &[P],
        nulls: &Validity,
    ) -> Result<Strings, AllocError> {
        let part = take_lists_under(alloc, self.lists(), places, nulls)?;
        Ok(Strings::new(self.kind(), part))
    }
}
