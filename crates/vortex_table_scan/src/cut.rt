// Batches in order of scope, and up to a limit.
ghost use Rattle.std.specs.Prelude.{◌≡◌, ◌≢◌, ◌≤◌, Some, false, true, IfOk, IsPermutation, OnOk};
ghost use Rattle.vortex_table_scan.specs.Cut.{AreInOrder, CutWithin, IsCutOf, JoinsWithin};

use std::alloc::{AllocError, Global};
use vortex_scan_types::Batch;

/// The first rows of a batch, under its root, scope and place.
fn cut_batch(alloc: Global, batch: Batch, rows: usize) -> Result<Batch, AllocError>
    requires { rows ≤ batch.array.rows }
    ensures { IfOk result (IsCutOf rows batch) }
{
    let head = batch.array().head(alloc, rows)?;
    Ok(batch.with_array(head))
}

/// Whether no more rows are wanted, so many being left of a limit.
pub(crate) fn is_reached(left: Option<u64>) -> bool
    ensures yes { result ≡ true → left ≡ Some 0 }
    ensures no { result ≡ false → left ≢ Some 0 }
{
    match left {
        None => false,
        Some(left) => left == 0,
    }
}

/// A batch joins others, whole or its first rows, as far as so many rows are left; the answer is how many are left then.
pub(crate) fn push_within(
    alloc: Global,
    batches: &mut Vec<Batch>,
    batch: Batch,
    left: Option<u64>,
) -> Result<Option<u64>, AllocError>
    ensures { IfOk result (JoinsWithin batch left batches.old.items batches.new.items) }
{
    let rows = batch.array().rows();
    match left {
        None => {
            batches.push(batch)?;
            Ok(None)
        }
        Some(left) if rows as u64 <= left => {
            batches.push(batch)?;
            Ok(Some(left - rows as u64))
        }
        Some(left) => {
            batches.push(cut_batch(alloc, batch, left as usize)?)?;
            Ok(Some(0))
        }
    }
}

/// Puts batches in order of scope, by the standard sort.
pub(crate) fn sort_by_scope(batches: &mut Vec<Batch>) -> Result<(), AllocError>
    ensures same { IsPermutation batches.old.items batches.new.items }
    ensures order { OnOk result (AreInOrder batches.new.items) }
{
    batches.sort_by_key(|batch| (batch.scope().file_ordinal, batch.scope().rows.start))
}

/// The batches that hold the first rows within a limit, the last of them cut.
pub(crate) fn keep_first(
    alloc: Global,
    batches: Vec<Batch>,
    limit: Option<u64>,
) -> Result<Vec<Batch>, AllocError>
    ensures { IfOk result (λ kept. CutWithin limit batches.items kept.items) }
{
    let mut kept = Vec::new(alloc);
    let mut left = limit;
    'batches: for batch in batches {
        if !is_reached(left) {
            left = push_within(alloc, &mut kept, batch, left)?;
        }
    }
    Ok(kept)
}
