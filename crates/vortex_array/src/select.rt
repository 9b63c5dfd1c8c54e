// Parts of arrays: rows in a line, those that a mask keeps, and those at indices.
ghost use Rattle.std.specs.Prelude.{◌≡◌, ◌≤◌, All, IfOk, length};
ghost use Rattle.std.specs.List.{AllZip};
ghost use Rattle.vortex_buffer.specs.Mask.{mask_bits};
ghost use Rattle.vortex_array.specs.ColumnOf.{column_of, is_plain as is_plain_array};
ghost use Rattle.vortex_array.specs.Batch.{HasRows};
ghost use Rattle.vortex_array.specs.Head.{IsHeadOf};
ghost use Rattle.vortex_array_select.specs.Selected.{filtered, sliced};

use crate::arrays::{Array, same_kind};
use crate::batch::RecordBatch;
use std::alloc::{AllocError, Global};
use std::ops::Range;
use vortex_array_select::Select;
use vortex_buffer::Mask;

impl Array {
    /// The rows of a range, in their order. A plain array stays one.
    pub fn slice(&self, alloc: Global, range: Range<usize>) -> Result<Array, AllocError>
        requires order { range.start ≤ range.end }
        requires within { range.end ≤ length (column_of self.now).rows }
        ensures column { IfOk result (λ part. column_of part ≡ sliced range.start range.end (column_of self.now)) }
        ensures plain { IfOk result (λ part. is_plain_array part ≡ is_plain_array self.now) }
    {
        let start = range.start;
        let end = range.end;
        same_kind!(self, array => array.slice(alloc, start, end))
    }

    /// The rows that the mask keeps, in their order. A plain array stays one.
    pub fn filter(&self, alloc: Global, mask: &Mask) -> Result<Array, AllocError>
        requires { length (mask_bits mask.now) ≡ length (column_of self.now).rows }
        ensures column { IfOk result (λ kept. column_of kept ≡ filtered (mask_bits mask.now) (column_of self.now)) }
        ensures plain { IfOk result (λ kept. is_plain_array kept ≡ is_plain_array self.now) }
    {
        same_kind!(self, array => array.filter(alloc, mask))
    }
}

impl RecordBatch {
    /// The first `k` rows of each column, in the columns' order. A plain array stays one.
    pub fn head(&self, alloc: Global, k: usize) -> Result<RecordBatch, AllocError>
        requires { k ≤ self.now.rows }
        ensures rows { IfOk result (λ b. b.rows ≡ k) }
        ensures columns { IfOk result (λ b. AllZip (IsHeadOf k) self.now.columns b.columns) }
    {
        let columns = heads(alloc, self.rows(), self.columns(), k)?;
        match RecordBatch::try_new(k, columns) {
            Ok(head) => Ok(head),
            Err(_) => unreachable!(),
        }
    }
}

// The first `k` rows of columns of so many rows.
fn heads(alloc: Global, rows: usize, columns: &[Array], k: usize) -> Result<Vec<Array>, AllocError>
    requires short { k ≤ rows }
    requires same_length { All (HasRows rows) columns.now }
    ensures { IfOk result (λ heads. AllZip (IsHeadOf k) columns.now heads.items) }
{
    let mut heads = Vec::with_capacity(alloc, columns.len())?;
    for column in columns {
        heads.push(column.slice(alloc, 0..k)?)?;
    }
    Ok(heads)
}
