// Morsels of tables: each fetches the needed chunks of its split at once, waits for them, and gives the split's chosen rows.
ghost use Rattle.std.specs.Prelude.{◌≡◌, ◌≢◌, [], IfNone, IfOk, IfSome, Ok, Option, None, Some, false, length, slice_get, true};
ghost use Rattle.vortex_buffer.specs.Mask.{mask_bits};
ghost use Rattle.vortex_array_types.specs.declared.column.ColumnDesc.{ColumnDesc as Described};
ghost use Rattle.vortex_io.specs.declared.ids.IoRequestId.{IoRequestId};
ghost use Rattle.vortex_table_chunks.specs.ChunkOf.{chunk_column};
ghost use Rattle.vortex_table_chunks.specs.Rows.{FitColumns, IsPartOf, IsPartOrMissing};
ghost use Rattle.vortex_table_planner.specs.Morsels.{IsMorsel, IsWanted, MorselComputes, MorselTakes, chunk_request, handed, is_among, is_awaited, is_free, is_missing, is_ready, lacks, morsel_names, morsel_state, new_morsel, no_chunks, requests_of};
ghost use Rattle.vortex_table_planner.specs.Owing.{Differs};

use crate::errors::PlanError;
use crate::phase::Phase;
use crate::wanted::Wanted;
use std::alloc::{AllocError, Global};
use std::marker::Model;
use vortex_array::ColumnDesc;
use vortex_buffer::Mask;
use vortex_io::{IoBatch, IoConsumer, IoIntent, IoRequest, IoRequestId, IoResult, IoTarget};
use vortex_scan::{Morsel, MorselOutput, State};
use vortex_table_chunks::{Chunk, chosen_batch};

/// A morsel of one split: it fetches the chunks of the needed columns, all at once, waits for them, and gives the split's chosen
/// rows in one batch, if there are any. It fails where a chunk that came differs from its description, and by want of memory.
pub struct ChunkMorsel {
    alloc: Global,
    wanted: Wanted,
    rows: Mask,
    split: u64,
    chunks: Vec<Option<Chunk>>,
    step: Phase,
}

impl Drop for ChunkMorsel {
    fn drop(self) {
        let ChunkMorsel {
            alloc: _alloc,
            wanted: _wanted,
            rows: _rows,
            split: _split,
            chunks: _chunks,
            step: _step,
        } = self;
    }
}

impl Model for ChunkMorsel {
    ghost use Rattle.std.specs.Coded.{codes};
    ghost use Rattle.vortex_array_types.specs.contracts.filter.Filter as filter;
    ghost use Rattle.vortex_buffer.specs.Mask.{mask_bits};
    ghost use Rattle.vortex_table_planner.specs.Morsels.{IsMorsel, MorselState};

    ghost Value = { MorselState };

    ghost coded = { Prim.hlevel (codes, filter.the_row.coded) };

    ghost view = { λ m. record { wanted = m.wanted; bits = mask_bits m.rows; split = m.split; chunks = m.chunks.items; step = m.step } };

    ghost invariant = { λ m. IsMorsel (record { wanted = m.wanted; bits = mask_bits m.rows; split = m.split; chunks = m.chunks.items; step = m.step }) };
}

// A place for the chunk of each column.
fn places(alloc: Global, columns: &[ColumnDesc]) -> Result<Vec<Option<Chunk>>, AllocError>
    ensures { IfOk result (λ v. v.items ≡ no_chunks columns.now) }
{
    let mut chunks = Vec::with_capacity(alloc, columns.len())?;
    for _column in columns {
        chunks.push(None)?;
    }
    Ok(chunks)
}

// The fetch of a column's chunk.
fn fetch_of(split: u64, column: u64) -> IoRequest
    ensures { result ≡ chunk_request split column }
{
    IoRequest {
        intent: IoIntent::Fetch,
        request: IoRequestId(column),
        target: IoTarget::Chunk { split, column },
    }
}

// The fetches of the chunks of these columns.
fn fetches_of(alloc: Global, split: u64, needed: &[u64]) -> Result<IoBatch, AllocError>
    ensures { IfOk result (λ batch. batch ≡ requests_of split needed.now) }
{
    let mut batch = IoBatch::new(alloc);
    for column in needed {
        batch.push(fetch_of(split, *column))?;
    }
    Ok(batch)
}

// Whether a column is listed.
fn is_listed(listed: &[u64], column: u64) -> bool
    ensures { result ≡ is_among listed.now column }
{
    listed.contains(&column)
}

// Whether there is a place for a column's chunk, and none in it.
fn is_free_at(chunks: &[Option<Chunk>], column: u64) -> bool
    ensures { result ≡ is_free (slice_get chunks.now column) }
{
    let Ok(place) = usize::try_from(column) else {
        return false;
    };
    place < chunks.len() && chunks[place].is_none()
}

// Whether a column's chunk is missing.
#[tactic(auto, using(crate::proofs::Loops::missing_is, crate::proofs::Loops::missing_past))]
fn is_missing_at(chunks: &[Option<Chunk>], column: u64) -> bool
    ensures { result ≡ is_missing chunks.now column }
{
    let place = column as usize;
    if place >= chunks.len() {
        return true;
    }
    chunks[place].is_none()
}

// Whether the chunk of a needed column is missing.
fn is_short_of(needed: &[u64], chunks: &[Option<Chunk>]) -> bool
    ensures { result ≡ lacks needed.now chunks.now }
{
    for column in needed {
        if is_missing_at(chunks, *column) {
            return true;
        }
    }
    false
}

// Whether a chunk has so many rows and the column's type.
fn is_as_described(rows: usize, column: &ColumnDesc, chunk: &Chunk) -> bool
    ensures yes { result ≡ true → IsPartOf rows column.now chunk.now }
    ensures no { result ≡ false → Differs rows column.now (chunk_column chunk.now) }
{
    chunk.len() == rows && chunk.dtype() == column.dtype
}

// Whether a chunk was given, and differs from its description.
fn is_unlike(rows: usize, column: &ColumnDesc, chunk: &Option<Chunk>) -> bool
    ensures yes { result ≡ true → (given : Chunk) × (chunk.now ≡ Some given) × Differs rows column.now (chunk_column given) }
    ensures no { result ≡ false → IsPartOrMissing rows column.now chunk.now }
{
    match chunk {
        None => false,
        Some(given) => !is_as_described(rows, column, given),
    }
}

// The first column whose chunk was given and differs from its description.
fn first_mismatch(rows: usize, columns: &[ColumnDesc], chunks: &[Option<Chunk>]) -> Option<usize>
    requires { length chunks.now ≡ length columns.now }
    ensures none { IfNone result (FitColumns rows columns.now chunks.now) }
    ensures some { IfSome result (λ place. (column : Described) × (chunk : Chunk) × (slice_get columns.now place ≡ Some column) × (slice_get chunks.now place ≡ Some (Some chunk)) × Differs rows column (chunk_column chunk)) }
{
    for place in 0..columns.len() {
        if is_unlike(rows, &columns[place], &chunks[place]) {
            return Some(place);
        }
    }
    None
}

impl ChunkMorsel {
    /// A morsel of a split, the bits saying which of its rows are selected. It takes the room for all chunks of the split.
    pub(crate) fn try_new(
        alloc: Global,
        wanted: &Wanted,
        rows: Mask,
        split: u64,
    ) -> Result<ChunkMorsel, AllocError>
        requires { IsWanted wanted.now }
        ensures { IfOk result (λ m. m ≡ new_morsel wanted.now (mask_bits rows) split) }
    {
        let wanted = wanted.try_clone(alloc)?;
        let chunks = places(alloc, wanted.columns.as_slice())?;
        Ok(ChunkMorsel {
            alloc,
            wanted,
            rows,
            split,
            chunks,
            step: Phase::Fresh,
        })
    }

    // Fetches the needed chunks, and waits.
    fn ask(&mut self) -> Result<MorselOutput, PlanError>
        requires fresh { self.old.step ≡ Phase.Fresh }
        requires some { self.old.wanted.needed ≢ [] }
        ensures { MorselComputes self.old result self.new }
    {
        let batch = fetches_of(self.alloc, self.split, self.wanted.needed.as_slice())?;
        self.step = Phase::Asking;
        Ok(MorselOutput::NeedsIO(batch))
    }

    // Gives the rows, if there are any.
    fn give(&mut self) -> Result<MorselOutput, PlanError>
        requires { is_ready self.old.step self.old.wanted.needed ≡ true }
        ensures { MorselComputes self.old result self.new }
    {
        let columns = self.wanted.columns.as_slice();
        let chunks = self.chunks.as_slice();
        if let Some(place) = first_mismatch(self.rows.len(), columns, chunks) {
            return Err(PlanError::ChunkMismatch {
                split: self.split,
                column: place as u64,
            });
        }
        let array = chosen_batch(
            self.alloc,
            columns,
            chunks,
            &self.rows,
            &self.wanted.filter,
            &self.wanted.projection,
        )?;
        self.step = Phase::Done;
        if array.rows() == 0 {
            Ok(MorselOutput::Done)
        } else {
            Ok(MorselOutput::Batch(array))
        }
    }

    // Whether the chunk of a column is awaited.
    fn awaits(&self, column: u64) -> bool
        ensures { result ≡ is_awaited self.now column }
    {
        self.step == Phase::Asking
            && is_listed(self.wanted.needed.as_slice(), column)
            && is_free_at(self.chunks.as_slice(), column)
    }

    // Takes the chunk of a column, where it is awaited.
    fn take_chunk(&mut self, column: u64, chunk: Chunk)
        ensures { self.new ≡ handed self.old column (IoResult.Chunk chunk) }
    {
        if !self.awaits(column) {
            return;
        }
        self.chunks[column as usize] = Some(chunk);
        if !is_short_of(self.wanted.needed.as_slice(), self.chunks.as_slice()) {
            self.step = Phase::Ready;
        }
    }
}

impl IoConsumer for ChunkMorsel {
    type Payload = Chunk;

    ghost takes = { MorselTakes };

    ghost names = { morsel_names };

    fn set_io_result(&mut self, request: IoRequestId, outcome: IoResult<Chunk>)
        ensures takes { MorselTakes self.old request outcome self.new }
        ensures names { (number : IoRequestId) → morsel_names self.new number ≡ morsel_names self.old number }
    {
        match outcome {
            IoResult::Chunk(chunk) => self.take_chunk(request.0, chunk),
            IoResult::Size(_size) => {}
        }
    }
}

impl Morsel for ChunkMorsel {
    ghost use Rattle.vortex_table_planner.specs.MorselRules.{morsel_follows_plan, morsel_is_orderly, morsel_owes};
    ghost use Rattle.vortex_table_planner.specs.Morsels.{IsSound, MorselComputes, has_plain_columns, is_fresh, is_want, morsel_asked, morsel_owed, morsel_permits, morsel_plan, morsel_state, morsel_work};

    type Error = PlanError;

    ghost state_is = { morsel_state };

    ghost computes = { MorselComputes };

    ghost tells = { Unit {0} };

    ghost owed = { morsel_owed };

    ghost orderly = { IsSound };

    ghost asked = { morsel_asked };

    ghost work = { morsel_work };

    ghost is_memory = { is_want };

    ghost permits = { morsel_permits };

    ghost plans = { Unit {0} };

    ghost plan = { morsel_plan };

    ghost fresh = { is_fresh };

    ghost gives_such = { has_plain_columns };

    fn state(&self) -> State {
        match self.step {
            Phase::Fresh => State::NeedsCompute,
            Phase::Asking => State::Waiting,
            Phase::Ready => State::NeedsCompute,
            Phase::Done => State::Done,
        }
    }

    fn compute(&mut self) -> Result<MorselOutput, PlanError> {
        match self.step {
            Phase::Fresh => {
                if self.wanted.needed.is_empty() {
                    self.give()
                } else {
                    self.ask()
                }
            }
            Phase::Ready => self.give(),
            _ => unreachable!(),
        }
    }

    ghost owes = { λ _. morsel_owes };

    ghost is_orderly = { morsel_is_orderly };

    ghost follows_plan = { λ _. morsel_follows_plan };
}
