// Calls on a dictionary and the same calls on a column of its type and rows: where both answer, the answers have one type
// and the same rows. Each law is a contract over both calls, read off theirs.
ghost use Rattle.std.specs.Prelude.{◌≡◌, ◌≤◌, IfOk, IfSome, IsTrue, length};
ghost use Rattle.vortex_buffer.specs.Mask.{mask_bits};
ghost use Rattle.vortex_array_types.specs.Typed.{same_apart_from_nullability};
ghost use Rattle.vortex_array_select.specs.Selected.{NamesRows};
ghost use Rattle.vortex_array.specs.ColumnOf.{bool_column, column_of};
ghost use Rattle.vortex_dict.specs.Decoded.{dict_column};
ghost use Rattle.vortex_dict.specs.Sliced.{slice_column};

use crate::dict::DictArray;
use crate::slices::DictSlice;
use std::alloc::{AllocError, Global};
use std::ops::Range;
use vortex_array::{Array, BoolArray, CompareOperator};
use vortex_buffer::Mask;

/// The rows of a range of a dictionary and of its decoded column are the same.
pub fn slice_both(
    alloc: Global,
    dict: &DictArray,
    decoded: &Array,
    range: Range<usize>,
) -> Result<(DictSlice, Array), AllocError>
    requires decoded { column_of decoded.now ≡ dict_column dict.now }
    requires order { range.start ≤ range.end }
    requires within { range.end ≤ length (dict_column dict.now).rows }
    ensures { IfOk result (λ both. slice_column both.0 ≡ column_of both.1) }
{
    let start = range.start;
    let end = range.end;
    let part = dict.slice(alloc, start..end)?;
    let rows = decoded.slice(alloc, start..end)?;
    Ok((part, rows))
}

/// The rows that a mask keeps of a dictionary and of its decoded column are the same.
pub fn filter_both(
    alloc: Global,
    dict: &DictArray,
    decoded: &Array,
    mask: &Mask,
) -> Result<(DictArray, Array), AllocError>
    requires decoded { column_of decoded.now ≡ dict_column dict.now }
    requires same_length { length (mask_bits mask.now) ≡ length (dict_column dict.now).rows }
    ensures { IfOk result (λ both. dict_column both.0 ≡ column_of both.1) }
{
    let kept = dict.filter(alloc, mask)?;
    let rows = decoded.filter(alloc, mask)?;
    Ok((kept, rows))
}

/// The rows at indices of a dictionary and of its decoded column are the same.
pub fn take_both(
    alloc: Global,
    dict: &DictArray,
    decoded: &Array,
    indices: &Array,
) -> Result<(DictArray, Array), AllocError>
    requires decoded { column_of decoded.now ≡ dict_column dict.now }
    requires indices { NamesRows (column_of indices.now) (length (dict_column dict.now).rows) }
    ensures { IfOk result (λ both. dict_column both.0 ≡ column_of both.1) }
{
    let part = dict.take(alloc, indices)?;
    let rows = decoded.take(alloc, indices)?;
    Ok((part, rows))
}

/// A comparison of a dictionary that answers, and that of its decoded column, are the same.
pub fn compare_both(
    alloc: Global,
    dict: &DictArray,
    decoded: &Array,
    rhs: &Array,
    operator: CompareOperator,
) -> Result<(Option<BoolArray>, BoolArray), AllocError>
    requires decoded { column_of decoded.now ≡ dict_column dict.now }
    requires same_length { length (dict_column dict.now).rows ≡ length (column_of rhs.now).rows }
    requires same_type { IsTrue (same_apart_from_nullability (dict_column dict.now).dtype (column_of rhs.now).dtype) }
    ensures { IfOk result (λ both. IfSome both.0 (λ answers. bool_column answers ≡ bool_column both.1)) }
{
    let answers = dict.compare(alloc, rhs, operator)?;
    let truths = decoded.compare(alloc, rhs, operator)?;
    Ok((answers, truths))
}
