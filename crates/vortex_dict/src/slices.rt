// Parts of dictionaries: rows in a line, those that a mask keeps, and those at indices. Codes are taken, and values stay.
ghost use Rattle.std.specs.Prelude.{◌≡◌, ◌≤◌, ◌<◌, ◌&&◌, IfOk, IsFalse, length, nat_lt, not};
ghost use Rattle.vortex_buffer.specs.Mask.{mask_bits};
ghost use Rattle.vortex_array_kinds.specs.Kinds.{constant_column};
ghost use Rattle.vortex_array_select.specs.Selected.{NamesRows, filtered, sliced, taken};
ghost use Rattle.vortex_array.specs.ColumnOf.{column_of, is_plain};
ghost use Rattle.vortex_dict.specs.Decoded.{dict_column};
ghost use Rattle.vortex_dict.specs.Sliced.{is_equal_rows, slice_column};

use crate::dict::DictArray;
use std::alloc::{AllocError, Global};
use std::ops::Range;
use vortex_array::{Array, ConstantArray};
use vortex_buffer::Mask;

/// The rows of a range of a dictionary.
pub enum DictSlice {
    /// A dictionary of the same values.
    Dict(DictArray),
    /// Equal rows: the codes are equal rows, and there is one.
    Constant(ConstantArray),
}

impl Drop for DictSlice {
    fn drop(self) {
        match self {
            DictSlice::Dict(_part) => {}
            DictSlice::Constant(_part) => {}
        }
    }
}

impl DictArray {
    /// The rows of a range, in their order. They are kept as equal rows exactly where the codes are and the range is not
    /// empty.
    pub fn slice(&self, alloc: Global, range: Range<usize>) -> Result<DictSlice, AllocError>
        requires order { range.start ≤ range.end }
        requires within { range.end ≤ length (dict_column self.now).rows }
        ensures column { IfOk result (λ part. slice_column part ≡ sliced range.start range.end (dict_column self.now)) }
        ensures form { IfOk result (λ part. is_equal_rows part ≡ (not (is_plain self.now.codes) && nat_lt range.start range.end)) }
    {
        let start = range.start;
        let end = range.end;
        if gives_equal_rows(self.codes(), start, end) {
            let rows = equal_slice(alloc, self, start, end)?;
            return Ok(DictSlice::Constant(rows));
        }
        let part = slice_codes(alloc, self, start, end)?;
        Ok(DictSlice::Dict(part))
    }

    /// The rows that the mask keeps, in their order. The values stay.
    pub fn filter(&self, alloc: Global, mask: &Mask) -> Result<DictArray, AllocError>
        requires { length (mask_bits mask.now) ≡ length (dict_column self.now).rows }
        ensures column { IfOk result (λ kept. dict_column kept ≡ filtered (mask_bits mask.now) (dict_column self.now)) }
        ensures values { IfOk result (λ kept. kept.values ≡ self.now.values) }
    {
        let codes = self.codes().filter(alloc, mask)?;
        let values = self.values().try_clone(alloc)?;
        Ok(DictArray::new(codes, values))
    }

    /// The rows at the indices, in the order of the indices; null where an index is null. An index may come again. The
    /// indices are a column of unsigned whole numbers, each null or below the number of rows. The values stay.
    pub fn take(&self, alloc: Global, indices: &Array) -> Result<DictArray, AllocError>
        requires { NamesRows (column_of indices.now) (length (dict_column self.now).rows) }
        ensures column { IfOk result (λ part. dict_column part ≡ taken (column_of indices.now) (dict_column self.now)) }
        ensures values { IfOk result (λ part. part.values ≡ self.now.values) }
    {
        let codes = self.codes().take(alloc, indices)?;
        let values = self.values().try_clone(alloc)?;
        Ok(DictArray::new(codes, values))
    }
}

// Whether a slice of rows with these codes is kept as equal rows.
fn gives_equal_rows(codes: &Array, start: usize, end: usize) -> bool
    ensures { result ≡ (not (is_plain codes.now) && nat_lt start end) }
{
    match codes {
        Array::Constant(_) => start < end,
        _ => false,
    }
}

// The rows from `start` up to `end`, without it, where there is one and all codes are equal.
fn equal_slice(
    alloc: Global,
    dict: &DictArray,
    start: usize,
    end: usize,
) -> Result<ConstantArray, AllocError>
    requires equal { IsFalse (is_plain dict.now.codes) }
    requires order { start < end }
    requires within { end ≤ length (dict_column dict.now).rows }
    ensures { IfOk result (λ part. constant_column part ≡ sliced start end (dict_column dict.now)) }
{
    let row = dict.scalar_at(alloc, start)?;
    Ok(ConstantArray::new(row, end - start))
}

// The rows from `start` up to `end`, without it, as a dictionary.
fn slice_codes(
    alloc: Global,
    dict: &DictArray,
    start: usize,
    end: usize,
) -> Result<DictArray, AllocError>
    requires order { start ≤ end }
    requires within { end ≤ length (dict_column dict.now).rows }
    ensures { IfOk result (λ part. dict_column part ≡ sliced start end (dict_column dict.now)) }
{
    let codes = dict.codes().slice(alloc, start..end)?;
    let values = dict.values().try_clone(alloc)?;
    Ok(DictArray::new(codes, values))
}
