// Parts of plain arrays: a part of the values under a part of the validity.
use crate::select::{Select, SelectValues, Take};
use crate::validities::{filter_validity, slice_validity, take_validity};
use std::alloc::{AllocError, Global};
use vortex_array_kinds::{PlainArray, Validity};
use vortex_array_rows::RowIndex;
use vortex_buffer::Mask;

impl<V: SelectValues> Select for PlainArray<V> {
    fn slice(&self, alloc: Global, start: usize, end: usize) -> Result<PlainArray<V>, AllocError> {
        let values = self.stored().slice_values(alloc, start, end)?;
        let validity = slice_validity(alloc, self, start, end)?;
        Ok(PlainArray::new(values, validity))
    }

    fn filter(&self, alloc: Global, mask: &Mask) -> Result<PlainArray<V>, AllocError> {
        let values = self.stored().filter_values(alloc, mask)?;
        let validity = filter_validity(alloc, self, mask)?;
        Ok(PlainArray::new(values, validity))
    }
}

impl<V: SelectValues> Take for PlainArray<V> {
    fn take<P: RowIndex>(
        &self,
        alloc: Global,
        places: &[P],
        nulls: &Validity,
    ) -> Result<PlainArray<V>, AllocError> {
        let values = self.stored().take_values(alloc, places, nulls)?;
        let validity = take_validity(alloc, self, places, nulls)?;
        Ok(PlainArray::new(values, validity))
    }
}
