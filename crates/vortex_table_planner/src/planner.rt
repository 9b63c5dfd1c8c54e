// Planners of tables: each makes the morsels of a partition's live splits, in order.
ghost use Rattle.std.specs.Prelude.{◌≡◌, ◌≢◌, ◌<◌, ◌≤◌, ◌+◌, ◌*◌, ◌∷◌, [], IfOk, Option, length, map, refl, true, ℕ};
ghost use Rattle.vortex_buffer.specs.Mask.{mask_bits};
ghost use Rattle.vortex_io.specs.Source.{Content};
ghost use Rattle.vortex_io.specs.declared.ids.IoRequestId.{IoRequestId};
ghost use Rattle.vortex_scan_types.specs.Members.{in_some_range, places_of};
ghost use Rattle.vortex_scan_types.specs.Valid.{ValidRequest};
ghost use Rattle.vortex_table_types.specs.Described.{IsDescribed};
ghost use Rattle.vortex_table_types.specs.Table.{FitsPartition};
ghost use Rattle.vortex_table_chunks.specs.ChunkOf.{content_of};
ghost use Rattle.vortex_table_planner.specs.Live.{partition_plan};
ghost use Rattle.vortex_table_planner.specs.Morsels.{is_want, new_morsel};
ghost use Rattle.vortex_table_planner.specs.declared.errors.PlanError.{PlanError as Failure};
ghost use Rattle.vortex_table_planner.specs.Owing.{IsMismatch, partition_owed};
ghost use Rattle.vortex_table_planner.specs.Planners.{PlannerTakes, new_planner, picked_bits, planner_asked, planner_names, planner_orderly, planner_owed, planner_permits, planner_plan, planner_state, planner_work, wanted_by};

use crate::errors::PlanError;
use crate::live::{LiveSplit, is_inside, live_splits};
use crate::morsel::ChunkMorsel;
use crate::needed::needed_columns;
use crate::wanted::{Wanted, columns_copied, filter_copied};
use std::alloc::{AllocError, Global};
use std::marker::Model;
use std::ops::Range;
use vortex_array::ColumnDesc;
use vortex_buffer::{BitBuffer, Items, Mask};
use vortex_io::{IoConsumer, IoRequestId, IoResult};
use vortex_scan::{Planner, PlannerOutput, State};
use vortex_scan_types::{ScanRequest, Selection};
use vortex_table_chunks::Chunk;
use vortex_table_types::PartitionDesc;

/// A planner of one partition: it makes a morsel for each split in which range and selection leave a row, in order, and none else.
pub struct TablePlanner {
    alloc: Global,
    wanted: Wanted,
    row_range: Option<Range<u64>>,
    selection: Selection,
    splits: Vec<LiveSplit>,
    next: usize,
}

impl Drop for TablePlanner {
    fn drop(self) {
        let TablePlanner {
            alloc: _alloc,
            wanted: _wanted,
            row_range: _row_range,
            selection: _selection,
            splits: _splits,
            next: _next,
        } = self;
    }
}

impl Model for TablePlanner {
    ghost use Rattle.std.specs.Coded.{codes};
    ghost use Rattle.vortex_array_types.specs.contracts.filter.Filter as filter;
    ghost use Rattle.std.specs.Prelude.{◌≤◌, drop, length};
    ghost use Rattle.vortex_table_planner.specs.Morsels.{IsWanted};
    ghost use Rattle.vortex_table_planner.specs.Planners.{PlannerState};

    ghost Value = { PlannerState };

    ghost coded = { Prim.hlevel (codes, filter.the_row.coded) };

    ghost view = { λ p. record { wanted = p.wanted; row_range = p.row_range; selection = p.selection; left = drop p.next p.splits.items } };

    ghost invariant = { λ p. IsWanted p.wanted × (p.next ≤ length p.splits.items) };
}

// Of the rows, which ones lie in the range.
#[tactic(auto, using(crate::proofs::Loops::bits_more))]
fn range_bits(
    alloc: Global,
    range: &Option<Range<u64>>,
    rows: &Range<u64>,
) -> Result<BitBuffer, AllocError>
    ensures { IfOk result (λ bits. bits ≡ map (in_some_range range.now) (places_of rows.now)) }
{
    let mut bits = BitBuffer::new_unset(alloc, 0)?;
    for row in rows.start..rows.end {
        bits.push(is_inside(range, row))?;
    }
    Ok(bits)
}

// Whether all of the rows lie in the range.
fn covers(range: &Option<Range<u64>>, rows: &Range<u64>) -> bool
    ensures { result ≡ true → (row : ℕ) → rows.now.start ≤ row → row < rows.now.end → in_some_range range.now row ≡ true }
{
    match range {
        None => true,
        Some(range) => range.start <= rows.start && rows.end <= range.end,
    }
}

// Of the rows, which ones are selected.
fn picked_rows(
    alloc: Global,
    range: &Option<Range<u64>>,
    selection: &Selection,
    rows: &Range<u64>,
) -> Result<Mask, AllocError>
    ensures { IfOk result (λ mask. mask_bits mask ≡ picked_bits range.now selection.now rows.now) }
{
    let selected = selection.row_mask(alloc, rows)?;
    let chosen = selected.mask();
    if covers(range, rows) {
        let copy = chosen.try_clone(alloc)?;
        return Ok(copy);
    }
    let bits = range_bits(alloc, range, rows)?;
    let inside = Mask::from_buffer(bits);
    let both = inside.and(alloc, chosen)?;
    Ok(both)
}

// The range again, where there is one.
fn range_copied(range: &Option<Range<u64>>) -> Option<Range<u64>>
    ensures { result ≡ range.now }
{
    match range {
        None => None,
        Some(range) => Some(range.start..range.end),
    }
}

// What a request wants of every split.
fn wanted_of(
    alloc: Global,
    columns: &[ColumnDesc],
    request: &ScanRequest,
) -> Result<Wanted, AllocError>
    ensures { IfOk result (λ wanted. wanted ≡ wanted_by columns.now request.now) }
{
    let needed = needed_columns(alloc, columns, &request.projection, &request.filter)?;
    let columns = columns_copied(alloc, columns)?;
    let projection = request.projection.try_clone(alloc)?;
    let filter = filter_copied(alloc, &request.filter)?;
    Ok(Wanted {
        columns,
        filter,
        projection,
        needed: Items::from_vec(needed),
    })
}

impl TablePlanner {
    // A planner of a partition with this number.
    fn made(
        alloc: Global,
        columns: &[ColumnDesc],
        partition: &PartitionDesc,
        index: u64,
        request: &ScanRequest,
    ) -> Result<TablePlanner, AllocError>
        requires described { IsDescribed columns.now (partition.now ∷ []) 1 }
        requires valid { ValidRequest columns.now request.now }
        ensures { IfOk result (λ p. p ≡ new_planner columns.now index partition.now request.now) }
    {
        let wanted = wanted_of(alloc, columns, request)?;
        let splits = live_splits(alloc, partition.splits.as_slice(), index, request)?;
        let selection = request.selection.try_clone(alloc)?;
        Ok(TablePlanner {
            alloc,
            wanted,
            row_range: range_copied(&request.row_range),
            selection,
            splits,
            next: 0,
        })
    }

    // The morsel of a split with these rows.
    fn morsel_of(&self, rows: &Range<u64>, split: u64) -> Result<ChunkMorsel, AllocError>
        ensures { IfOk result (λ m. m ≡ new_morsel self.now.wanted (picked_bits self.now.row_range self.now.selection rows.now) split) }
    {
        let picked = picked_rows(self.alloc, &self.row_range, &self.selection, rows)?;
        let morsel = ChunkMorsel::try_new(self.alloc, &self.wanted, picked, split)?;
        Ok(morsel)
    }

    /// A planner of a partition with this number. These columns with this partition alone make a table, and the request is valid
    /// for them.
    ///
    /// It tells what it owes over each content that fits the partition: for each split in which there are chosen rows, in order,
    /// all of them, in columns of the projected columns' types. It tells its plan: for each split in which a row is selected, in
    /// order, the chunks of the needed columns, each once. It is orderly, with a work of six at most for each split and one
    /// besides, and a content permits it, besides want of memory, a mismatch alone, at a place of such a split and such a column
    /// where the content's chunk differs from its description.
    pub fn try_new(
        alloc: Global,
        columns: &[ColumnDesc],
        partition: &PartitionDesc,
        index: u64,
        request: &ScanRequest,
    ) -> Result<TablePlanner, AllocError>
        requires described { IsDescribed columns.now (partition.now ∷ []) 1 }
        requires valid { ValidRequest columns.now request.now }
        ensures owed { IfOk result (λ p. (content : Content Chunk) → FitsPartition partition.now (content_of content) → planner_owed p content ≡ partition_owed columns.now index partition.now request.now (content_of content)) }
        ensures plan { IfOk result (λ p. (told : Option (Content Chunk)) → planner_plan p told ≡ partition_plan columns.now index partition.now request.now) }
        ensures orderly { IfOk result planner_orderly }
        ensures work { IfOk result (λ p. planner_work p ≤ 6 * length partition.now.splits + 1) }
        ensures asked { IfOk result (λ p. planner_asked p ≡ []) }
        ensures acts { IfOk result (λ p. planner_state p ≢ State.Waiting) }
        ensures permits { IfOk result (λ p. (content : Content Chunk) (split column : ℕ) → planner_permits p content (PlanError.ChunkMismatch split column) → IsMismatch columns.now index partition.now request.now (content_of content) split column) }
        ensures suits { IfOk result (λ p. (content : Content Chunk) (failure : Failure) → FitsPartition partition.now (content_of content) → planner_permits p content failure → is_want failure ≡ true) }
    {
        let planner = TablePlanner::made(alloc, columns, partition, index, request)?;
        Ok(planner)
    }
}

impl IoConsumer for TablePlanner {
    type Payload = Chunk;

    ghost takes = { PlannerTakes };

    ghost names = { planner_names };

    fn set_io_result(&mut self, request: IoRequestId, outcome: IoResult<Chunk>)
        ensures takes { PlannerTakes self.old request outcome self.new }
        ensures names { (number : IoRequestId) → planner_names self.new number ≡ planner_names self.old number }
    {
        let _ = request;
        let _outcome = outcome;
    }
}

impl Planner for TablePlanner {
    ghost use Rattle.vortex_table_planner.specs.Morsels.{is_want};
    ghost use Rattle.vortex_table_planner.specs.PlannerRules.{planner_follows_plan, planner_is_orderly, planner_owes};
    ghost use Rattle.vortex_table_planner.specs.Planners.{PlannerComputes, planner_asked, planner_orderly, planner_owed, planner_permits, planner_plan, planner_state, planner_work};

    type Error = PlanError;

    type Morsel = ChunkMorsel;

    ghost state_is = { planner_state };

    ghost computes = { PlannerComputes };

    ghost tells = { Unit {0} };

    ghost owed = { planner_owed };

    ghost orderly = { planner_orderly };

    ghost asked = { planner_asked };

    ghost work = { planner_work };

    ghost is_memory = { is_want };

    ghost permits = { planner_permits };

    ghost plans = { Unit {0} };

    ghost plan = { planner_plan };

    fn state(&self) -> State {
        State::NeedsCompute
    }

    fn compute(&mut self) -> Result<PlannerOutput<TablePlanner, ChunkMorsel>, PlanError> {
        if self.next == self.splits.len() {
            return Ok(PlannerOutput::Done);
        }
        let live = &self.splits[self.next];
        let scope = live.scope.copy();
        let split = live.split;
        let morsel = self.morsel_of(&scope.rows, split)?;
        self.next += 1;
        Ok(PlannerOutput::Morsel(scope, morsel))
    }

    ghost owes = { λ _. planner_owes };

    ghost is_orderly = { planner_is_orderly };

    ghost same_memory = { λ error. refl };

    ghost follows_plan = { λ _. planner_follows_plan };
}
