// The scan of one partition of one column: ask for the chunks of its splits, and keep what is kept of each.
ghost use Rattle.std.specs.Prelude.{◌≡◌, ◌<◌, ◌≤◌, ◌+◌, ◌^◌, All, Bool, IfOk, OnErr, OnOk, length, filter, List, None, ℕ, Some, [], ◌∷◌, ◌++◌, map, sum_by};
ghost use Rattle.vortex_array.specs.ColumnOf.{column_of};
ghost use Rattle.std.specs.List.{AllZip};
ghost use Rattle.vortex_io.specs.Memory.{MemoryState};
ghost use Rattle.vortex_array_types.specs.Order.{accepts};
ghost use Rattle.vortex_table.specs.Built.{u64_type};
ghost use Rattle.vortex_table.specs.ChunkOf.{chunk_column};
ghost use Rattle.vortex_table_types.specs.Described.{total_rows};
ghost use Rattle.vortex_table.specs.Given.{given};
ghost use Rattle.vortex_table.specs.State.{ArrivesInOrder, Stands};
ghost use Rattle.vortex_table.specs.Kept.{passes};
ghost use Rattle.vortex_table.specs.Fetching.{asked_for, fetched, journals_after, split_request, split_requests, waits_for};
ghost use Rattle.vortex_table.specs.Scanning.{AreOfFirstRoot, CompletesOldest, FirstHolds, HasNumbers, IsExtended, after_split, batch_if, column_numbers, kept_batches, oldest_column, scope_at, table_batches, u64_column, waited};

use crate::built::Comparison;
use crate::chunk::Chunk;
use crate::numbers::{lent_numbers, read_numbers};
use std::alloc::{AllocError, Global};
use std::cmp::Ordering;
use vortex_array::{Array, CompareOperator, PlainArray, PrimitiveBuffer, RecordBatch, Validity};
use vortex_buffer::Buffer;
use vortex_io::{
    Completion, IoBatch, IoError, IoIntent, IoOwnerId, IoRequest, IoRequestId, IoResult, IoSource,
    IoTarget, MemorySource,
};
use vortex_scan_types::{Batch, Place, RootId, WorkScope};
use vortex_table_types::{PartitionDesc, SplitDesc};

// A copy of all numbers.
fn copied(alloc: Global, values: &[u64]) -> Result<Vec<u64>, AllocError>
    ensures { IfOk result (λ v. v.items ≡ filter (passes None) values.now) }
{
    let all = Vec::from_slice(alloc, values)?;
    Ok(all)
}

// The numbers that stand to the constant so that the test holds, in order. The test is the comparison's operator.
fn kept_by<F: Fn(Ordering) -> bool>(
    alloc: Global,
    comparison: Comparison,
    values: &[u64],
    test: F,
) -> Result<Vec<u64>, AllocError>
    requires callable { F.IsAlwaysCallable test }
    requires operator { (order : _) (holds : Bool) → F.post test order holds → holds ≡ accepts comparison.operator order }
    ensures { IfOk result (λ v. v.items ≡ filter (passes (Some comparison)) values.now) }
{
    let mut kept = Vec::new(alloc);
    for value in values {
        if test(value.cmp(&comparison.constant)) {
            kept.push(*value)?;
        }
    }
    Ok(kept)
}

// The numbers that a comparison keeps, in order. The operator is looked at once.
fn compared(alloc: Global, comparison: Comparison, values: &[u64]) -> Result<Vec<u64>, AllocError>
    ensures { IfOk result (λ v. v.items ≡ filter (passes (Some comparison)) values.now) }
{
    match comparison.operator {
        CompareOperator::Eq => kept_by(alloc, comparison, values, |order| order.is_eq()),
        CompareOperator::NotEq => kept_by(alloc, comparison, values, |order| order.is_ne()),
        CompareOperator::Gt => kept_by(alloc, comparison, values, |order| order.is_gt()),
        CompareOperator::Gte => kept_by(alloc, comparison, values, |order| order.is_ge()),
        CompareOperator::Lt => kept_by(alloc, comparison, values, |order| order.is_lt()),
        CompareOperator::Lte => kept_by(alloc, comparison, values, |order| order.is_le()),
    }
}

// The numbers that are kept, in order.
fn kept_of(alloc: Global, keep: &Option<Comparison>, values: &[u64]) -> Result<Vec<u64>, AllocError>
    ensures { IfOk result (λ v. v.items ≡ filter (passes keep.now) values.now) }
{
    match keep {
        None => copied(alloc, values),
        Some(comparison) => compared(alloc, *comparison, values),
    }
}

// The numbers of a column that are kept, in order, where its rows are read one by one.
fn kept_rows(
    alloc: Global,
    keep: &Option<Comparison>,
    array: &Array,
) -> Result<Vec<u64>, AllocError>
    requires { (column_of array.now).dtype ≡ u64_type }
    ensures { IfOk result (λ v. v.items ≡ filter (passes keep.now) (column_numbers (column_of array.now))) }
{
    let numbers = read_numbers(alloc, array)?;
    let kept = kept_of(alloc, keep, numbers.as_slice())?;
    Ok(kept)
}

// The numbers of a column that are kept, in order.
fn kept_in(alloc: Global, keep: &Option<Comparison>, array: &Array) -> Result<Vec<u64>, AllocError>
    requires { (column_of array.now).dtype ≡ u64_type }
    ensures { IfOk result (λ v. v.items ≡ filter (passes keep.now) (column_numbers (column_of array.now))) }
{
    if let Some(numbers) = lent_numbers(array) {
        let kept = kept_of(alloc, keep, numbers)?;
        return Ok(kept);
    }
    kept_rows(alloc, keep, array)
}

// The array of a chunk.
fn array_of(chunk: &Chunk) -> &Array
    ensures { column_of result.now ≡ chunk_column chunk.now }
{
    match chunk {
        Chunk::Plain(array) => array,
    }
}

// Waits for the oldest outstanding fetch.
fn wait_oldest(source: &mut MemorySource<Chunk>) -> Result<Completion<Chunk>, AllocError>
    requires some { 0 < length source.old.outstanding }
    requires arrives { ArrivesInOrder source.old }
    ensures ok { IfOk result (CompletesOldest source.old source.new) }
    ensures waited { OnOk result (source.new ≡ waited source.old) }
    ensures err { OnErr result (source.new ≡ source.old) }
{
    match source.wait() {
        Ok(completion) => Ok(completion),
        Err(_) => Err(AllocError),
    }
}

// Waits for the oldest outstanding fetch, of a chunk of numbers, and keeps what is kept of them.
fn next_kept(
    alloc: Global,
    source: &mut MemorySource<Chunk>,
    keep: &Option<Comparison>,
) -> Result<Vec<u64>, AllocError>
    requires arrives { ArrivesInOrder source.old }
    requires asked { (numbers : List ℕ) × (oldest_column source.old.chunks source.old.outstanding ≡ Some (u64_column numbers)) }
    ensures kept { IfOk result (λ v. (numbers : List ℕ) → oldest_column source.old.chunks source.old.outstanding ≡ Some (u64_column numbers) → v.items ≡ filter (passes keep.now) numbers) }
    ensures waited { OnOk result (source.new ≡ waited source.old) }
    ensures stands { IsExtended source.old source.new }
{
    let completion = wait_oldest(source)?;
    match completion.result {
        IoResult::Chunk(chunk) => {
            let kept = kept_in(alloc, keep, array_of(&chunk))?;
            Ok(kept)
        }
        IoResult::Size(_) => unreachable!(),
    }
}

// The record batch of these numbers.
fn record_of(alloc: Global, kept: Vec<u64>) -> Result<RecordBatch, AllocError>
    ensures rows { IfOk result (λ b. b.rows ≡ length kept.items) }
    ensures columns { IfOk result (λ b. map column_of b.columns ≡ u64_column kept.items ∷ []) }
{
    let rows = kept.as_slice().len();
    let values = PrimitiveBuffer::U64(Buffer::from_vec(kept));
    let array = Array::Primitive(PlainArray::new(values, Validity::NonNullable));
    let mut columns = Vec::new(alloc);
    columns.push(array)?;
    match RecordBatch::try_new(rows, columns) {
        Ok(batch) => Ok(batch),
        Err(_) => unreachable!(),
    }
}

// The place of a split's work: behind the root's, by its rank among the splits that have rows.
fn place_of(alloc: Global, rank: u64) -> Result<Place, AllocError>
    ensures { IfOk result (λ place. place ≡ 0 ∷ rank ∷ []) }
{
    let mut numbers = Vec::new(alloc);
    numbers.push(0)?;
    numbers.push(rank)?;
    Ok(Place::from_vec(numbers))
}

// Puts the batch of these numbers of a split behind others, if there are any.
fn push_batch(
    alloc: Global,
    batches: &mut Vec<Batch>,
    scope: WorkScope,
    rank: u64,
    kept: Vec<u64>,
) -> Result<(), AllocError>
    ensures batches { OnOk result (map given batches.new.items ≡ map given batches.old.items ++ batch_if scope kept.items) }
    ensures roots { OnOk result (scope.file_ordinal ≡ 0 → AreOfFirstRoot batches.old.items → AreOfFirstRoot batches.new.items) }
{
    if kept.as_slice().is_empty() {
        return Ok(());
    }
    let array = record_of(alloc, kept)?;
    let place = place_of(alloc, rank)?;
    batches.push(Batch {
        root: RootId(0),
        scope,
        place,
        array,
    })?;
    Ok(())
}

// Scans a split that begins at this row: waits for its chunk if it has rows, and puts its batch behind others.
fn scan_split(
    alloc: Global,
    split: &SplitDesc,
    start: u64,
    rank: u64,
    source: &mut MemorySource<Chunk>,
    keep: &Option<Comparison>,
    batches: &mut Vec<Batch>,
) -> Result<(), AllocError>
    requires fits { start + split.now.rows < 2 ^ 64 }
    requires arrives { ArrivesInOrder source.old }
    requires fetched { 0 < split.now.rows → (numbers : List ℕ) × (oldest_column source.old.chunks source.old.outstanding ≡ Some (u64_column numbers)) }
    ensures batches { OnOk result ((numbers : List ℕ) → length numbers ≡ split.now.rows → (0 < split.now.rows → oldest_column source.old.chunks source.old.outstanding ≡ Some (u64_column numbers))
        → map given batches.new.items ≡ map given batches.old.items ++ batch_if (scope_at start split.now) (filter (passes keep.now) numbers)) }
    ensures roots { OnOk result (AreOfFirstRoot batches.old.items → AreOfFirstRoot batches.new.items) }
    ensures source { OnOk result (source.new ≡ after_split split.now source.old) }
    ensures stands { IsExtended source.old source.new }
{
    if split.rows == 0 {
        return Ok(());
    }
    let kept = next_kept(alloc, source, keep)?;
    let scope = WorkScope {
        file_ordinal: 0,
        rows: start..start + split.rows,
    };
    push_batch(alloc, batches, scope, rank, kept)
}

// Scans the splits of the one partition, whose chunks were asked for in order.
fn scan_splits(
    alloc: Global,
    splits: &[SplitDesc],
    source: &mut MemorySource<Chunk>,
    keep: &Option<Comparison>,
) -> Result<Vec<Batch>, AllocError>
    requires fits { sum_by (λ split. split.rows) splits.now < 2 ^ 64 }
    requires arrives { ArrivesInOrder source.old }
    requires held { (numbers : List (List ℕ)) × HasNumbers source.old.chunks splits.now numbers }
    requires asked { source.old.outstanding ≡ asked_for splits.now }
    ensures batches { IfOk result (λ v. (numbers : List (List ℕ)) → HasNumbers source.old.chunks splits.now numbers → map given v.items ≡ kept_batches keep.now 0 splits.now numbers) }
    ensures roots { IfOk result (λ v. AreOfFirstRoot v.items) }
    ensures waited { OnOk result (source.new.journal ≡ source.old.journal ++ waits_for (split_requests 0 splits.now)) }
    ensures stands { IsExtended source.old source.new }
{
    let mut batches = Vec::new(alloc);
    let mut start = 0u64;
    let mut rank = 0u64;
    for split in splits {
        scan_split(alloc, split, start, rank, source, keep, &mut batches)?;
        start += split.rows;
        rank = rank.saturating_add(u64::from(split.rows > 0));
    }
    Ok(batches)
}

// A request for the chunk of each split that has rows.
fn requests_of(alloc: Global, splits: &[SplitDesc]) -> Result<IoBatch, AllocError>
    ensures { IfOk result (λ batch. batch ≡ split_requests 0 splits.now) }
{
    let mut batch = IoBatch::new(alloc);
    for split in 0..splits.len() {
        if splits[split].rows > 0 {
            batch.push(request_of(split as u64))?;
        }
    }
    Ok(batch)
}

// The request for the one chunk of a split.
fn request_of(split: u64) -> IoRequest
    ensures { result ≡ split_request split }
{
    IoRequest {
        intent: IoIntent::Fetch,
        request: IoRequestId(split),
        target: IoTarget::Chunk { split, column: 0 },
    }
}

/// Scans the one partition of a table: asks for the chunks of all its splits, and then waits for each.
pub(crate) fn scan_partition(
    alloc: Global,
    splits: &[SplitDesc],
    source: &mut MemorySource<Chunk>,
    keep: &Option<Comparison>,
) -> Result<Vec<Batch>, AllocError>
    requires fits { sum_by (λ split. split.rows) splits.now < 2 ^ 64 }
    requires arrives { ArrivesInOrder source.old }
    requires held { (numbers : List (List ℕ)) × HasNumbers source.old.chunks splits.now numbers }
    requires idle { source.old.outstanding ≡ [] }
    ensures batches { IfOk result (λ v. (numbers : List (List ℕ)) → HasNumbers source.old.chunks splits.now numbers → map given v.items ≡ kept_batches keep.now 0 splits.now numbers) }
    ensures roots { IfOk result (λ v. AreOfFirstRoot v.items) }
    ensures fetched { OnOk result (source.new.journal ≡ source.old.journal ++ fetched splits.now) }
    ensures stands { IsExtended source.old source.new }
    ensures idle { source.new.outstanding ≡ [] }
{
    let answer = fetch_and_scan(alloc, splits, source, keep);
    source.clear();
    answer
}

// Asks for the chunks of all splits, and then scans them.
fn fetch_and_scan(
    alloc: Global,
    splits: &[SplitDesc],
    source: &mut MemorySource<Chunk>,
    keep: &Option<Comparison>,
) -> Result<Vec<Batch>, AllocError>
    requires fits { sum_by (λ split. split.rows) splits.now < 2 ^ 64 }
    requires arrives { ArrivesInOrder source.old }
    requires held { (numbers : List (List ℕ)) × HasNumbers source.old.chunks splits.now numbers }
    requires idle { source.old.outstanding ≡ [] }
    ensures batches { IfOk result (λ v. (numbers : List (List ℕ)) → HasNumbers source.old.chunks splits.now numbers → map given v.items ≡ kept_batches keep.now 0 splits.now numbers) }
    ensures roots { IfOk result (λ v. AreOfFirstRoot v.items) }
    ensures fetched { OnOk result (source.new.journal ≡ source.old.journal ++ fetched splits.now) }
    ensures stands { IsExtended source.old source.new }
{
    let batch = requests_of(alloc, splits)?;
    match source.submit(IoOwnerId(0), batch) {
        Ok(()) => {}
        Err(IoError::OutOfMemory) => return Err(AllocError),
        Err(IoError::Fault) => unreachable!(),
    }
    let batches = scan_splits(alloc, splits, source, keep)?;
    Ok(batches)
}

/// Scans the only partition of a table, if there is one, over its source.
pub(crate) fn scan_sources(
    alloc: Global,
    partitions: &[PartitionDesc],
    sources: &mut Vec<MemorySource<Chunk>>,
    keep: &Option<Comparison>,
) -> Result<Vec<Batch>, AllocError>
    requires one { length partitions.now ≤ 1 }
    requires paired { length sources.old.items ≡ length partitions.now }
    requires fits { total_rows partitions.now < 2 ^ 64 }
    requires idle { All (λ (s : MemoryState Chunk). s.outstanding ≡ []) sources.old.items }
    requires arrives { All ArrivesInOrder sources.old.items }
    requires held { FirstHolds partitions.now sources.old.items }
    ensures batches { IfOk result (λ v. map given v.items ≡ table_batches keep.now partitions.now sources.old.items) }
    ensures roots { IfOk result (λ v. AreOfFirstRoot v.items) }
    ensures fetched { OnOk result (map (λ (s : MemoryState Chunk). s.journal) sources.new.items ≡ journals_after partitions.now sources.old.items) }
    ensures stands { AllZip Stands sources.old.items sources.new.items }
{
    match partitions {
        [] => Ok(Vec::new(alloc)),
        [partition, ..] => {
            let source = &mut sources[0];
            scan_partition(alloc, partition.splits.as_slice(), source, keep)
        }
    }
}
