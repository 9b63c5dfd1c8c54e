// The sources of a table, scanned: a run over those of the chosen partitions, and every source back in its place.
ghost use Rattle.std.specs.Prelude.{◌≡◌, ◌≤◌, ◌⊎◌, ℕ, [], List, None, Option, false, IfErr, IfOk, length, map, vec_capacity, vec_len};
ghost use Rattle.vortex_io.specs.Source.{Content};
ghost use Rattle.vortex_scan.specs.Bag.{work_owed};
ghost use Rattle.vortex_scan.specs.Driving.{StopsRun};
ghost use Rattle.vortex_scan.specs.Fits.{LiveFits};
ghost use Rattle.vortex_scan.specs.RunState.{RunState};
ghost use Rattle.vortex_scan.specs.Seats.{work_seats};
ghost use Rattle.vortex_scan.specs.declared.errors.RunError.{RunError};
ghost use Rattle.vortex_scan.specs.declared.worker.Work.{Work};
ghost use Rattle.vortex_scan_types.specs.Valid.{ValidRequest};
ghost use Rattle.vortex_table_planner.specs.Morsels.{MorselState, has_plain_columns, is_fresh, morsel_owed, morsel_plan};
ghost use Rattle.vortex_table_planner.specs.Planners.{PlannerState, planner_owed, planner_plan};
ghost use Rattle.vortex_table_planner.specs.declared.errors.PlanError.{PlanError as Failure};
ghost use Rattle.vortex_table_chunks.specs.declared.chunk.Chunk.{Chunk as Held};
ghost use Rattle.vortex_table_scan.specs.Causes.{HasCause};
ghost use Rattle.vortex_table_scan.specs.Given.{ArePlain, AreRanked, given};
ghost use Rattle.vortex_table_scan.specs.Journals.{KeepJournals};
ghost use Rattle.vortex_table_scan.specs.Over.{AreBack, AreHonest, SurelyStand, question};
ghost use Rattle.vortex_table_scan.specs.Refusals.{IsNamed};
ghost use Rattle.vortex_table_scan.specs.Taking.{Cancels, Finishes, Refuses, Takes, Trims, stop_at};
ghost use Rattle.vortex_table_scan.specs.Went.{Went};
ghost use Rattle.vortex_table_types.specs.Answers.{Answers};
ghost use Rattle.vortex_table_types.specs.Described.{IsTable};

use crate::cut::{keep_first, sort_by_scope};
use crate::errors::ScanError;
use crate::put_back::put_back;
use crate::refusals::scan_error;
use crate::roots::admit_all;
use crate::rounds::gather;
use std::alloc::{AllocError, Global};
use vortex_array::ColumnDesc;
use vortex_io::IoSource;
use vortex_scan::{Run, Work, Worker};
use vortex_scan_types::{Batch, RootId, ScanRequest};
use vortex_table_chunks::Chunk;
use vortex_table_planner::{ChunkMorsel, TablePlanner};
use vortex_table_types::PartitionDesc;

/// What scanning sources came to: the sources, and the batches or why there are none.
#[derive(Drop)]
pub(crate) struct Scanned<S> {
    pub(crate) sources: Vec<S>,
    pub(crate) answer: Result<Vec<Batch>, ScanError>,
}

// Cancels all live roots, of so many partitions at most.
fn cancel_all<S: IoSource<Payload = Chunk>>(run: &mut Run<TablePlanner, S>, partitions: u64)
    ensures { Cancels S.IoSource run.old.live.slots run.new.live.slots }
{
    'roots: for root in 0..partitions {
        run.cancel(RootId(root));
    }
}

// All batches in order of scope, up to the limit.
fn in_order(
    alloc: Global,
    batches: Vec<Batch>,
    limit: Option<u64>,
) -> Result<Vec<Batch>, AllocError>
    ensures { IfOk result (λ kept. Trims limit batches.items kept.items) }
{
    let mut batches = batches;
    sort_by_scope(&mut batches)?;
    keep_first(alloc, batches, limit)
}

// The limit at which the run stops: none where the order is wanted, since then all batches come first.
fn stop_limit(request: &ScanRequest) -> Option<u64>
    ensures { result ≡ stop_at request.now.ordered request.now.limit }
{
    if request.ordered { None } else { request.limit }
}

// What the request gets of the batches that came. An ordered scan puts them in order and trims them; another cancels what is still live.
fn finish<S: IoSource<Payload = Chunk>>(
    alloc: Global,
    run: &mut Run<TablePlanner, S>,
    request: &ScanRequest,
    partitions: u64,
    batches: Vec<Batch>,
) -> Result<Vec<Batch>, AllocError>
    ensures cancels { IfOk result (λ _. Cancels S.IoSource run.old.live.slots run.new.live.slots) }
    ensures finishes { IfOk result (λ kept. Finishes request.now.ordered request.now.limit batches.items kept.items) }
    ensures err { IfErr result (λ _. run.new ≡ run.old) }
{
    if request.ordered {
        return in_order(alloc, batches, request.limit);
    }
    cancel_all(run, partitions);
    Ok(batches)
}

// Takes the run as far as the request needs it. An ordered scan takes all batches, puts them in order and trims them; another stops at its limit, and cancels
// what is live then.
fn take_batches<S: IoSource<Payload = Chunk>>(
    alloc: Global,
    run: &mut Run<TablePlanner, S>,
    request: &ScanRequest,
    partitions: u64,
) -> Result<Vec<Batch>, ScanError>
    requires well { run.old.failed ≡ false }
    requires fits { LiveFits S.IoSource run.old.live }
    requires meets { (failure : RunError Failure) (new : RunState (Work PlannerState MorselState) S) → StopsRun ⟦<Work<TablePlanner, ChunkMorsel> as Worker>⟧ S.IoSource (Unit {0}) failure run.old new → IsNamed request.now partitions failure }
    ensures ok { IfOk result (λ batches. Takes ⟦<Work<TablePlanner, ChunkMorsel> as Worker>⟧ S.IoSource (work_owed planner_owed morsel_owed) (Unit {0}) (Unit {0}) (work_seats planner_plan morsel_plan is_fresh) has_plain_columns request.now batches.items run.old run.new) }
    ensures err { IfErr result (λ error. Refuses ⟦<Work<TablePlanner, ChunkMorsel> as Worker>⟧ S.IoSource (Unit {0}) (Unit {0}) (work_seats planner_plan morsel_plan is_fresh) request.now partitions error run.old run.new) }
{
    match gather(alloc, run, stop_limit(request)) {
        Ok(batches) => match finish(alloc, run, request, partitions, batches) {
            Ok(batches) => Ok(batches),
            Err(_) => Err(ScanError::OutOfMemory),
        },
        Err(error) => Err(scan_error(request, partitions, error)),
    }
}

// What the run gives for the request, where all roots were admitted. Otherwise memory was wanting.
fn run_admitted<S: IoSource<Payload = Chunk>>(
    alloc: Global,
    run: &mut Run<TablePlanner, S>,
    request: &ScanRequest,
    partitions: u64,
    stopped: Option<u64>,
) -> Result<Vec<Batch>, ScanError>
    requires well { run.old.failed ≡ false }
    requires fits { LiveFits S.IoSource run.old.live }
    requires meets { stopped ≡ None → (failure : RunError Failure) (new : RunState (Work PlannerState MorselState) S) → StopsRun ⟦<Work<TablePlanner, ChunkMorsel> as Worker>⟧ S.IoSource (Unit {0}) failure run.old new → IsNamed request.now partitions failure }
    ensures ok { IfOk result (λ batches. (stopped ≡ None) × Takes ⟦<Work<TablePlanner, ChunkMorsel> as Worker>⟧ S.IoSource (work_owed planner_owed morsel_owed) (Unit {0}) (Unit {0}) (work_seats planner_plan morsel_plan is_fresh) has_plain_columns request.now batches.items run.old run.new) }
    ensures err { IfErr result (λ error. Refuses ⟦<Work<TablePlanner, ChunkMorsel> as Worker>⟧ S.IoSource (Unit {0}) (Unit {0}) (work_seats planner_plan morsel_plan is_fresh) request.now partitions error run.old run.new) }
    ensures stops { IfErr result (λ error. (stopped ≡ None) ⊎ (error ≡ ScanError.OutOfMemory)) }
{
    match stopped {
        None => take_batches(alloc, run, request, partitions),
        Some(_) => Err(ScanError::OutOfMemory),
    }
}

// Room for so many sources, twice.
fn rooms<S: Drop>(alloc: Global, count: usize) -> Result<(Vec<S>, Vec<S>), AllocError>
    ensures none { IfOk result (λ rooms. (rooms.0.items ≡ []) × (rooms.1.items ≡ [])) }
    ensures room { IfOk result (λ rooms. (count ≤ vec_capacity rooms.0) × (count ≤ vec_capacity rooms.1)) }
{
    let home = Vec::with_capacity(alloc, count)?;
    let others = Vec::with_capacity(alloc, count)?;
    Ok((home, others))
}

// Admits the roots, takes the run forward, and puts the sources back: into one list, where others wait in another meanwhile. There is room in both.
fn scan_within<S: IoSource<Payload = Chunk>>(
    alloc: Global,
    columns: &[ColumnDesc],
    partitions: &[PartitionDesc],
    sources: Vec<S>,
    request: &ScanRequest,
    steps: u64,
    home: Vec<S>,
    others: Vec<S>,
) -> Scanned<S>
    requires table { IsTable S.outstanding columns.now partitions.now sources.items }
    requires valid { ValidRequest columns.now request.now }
    requires none { (home.items ≡ []) × (others.items ≡ []) }
    requires room { (vec_len sources ≤ vec_capacity home) × (vec_len sources ≤ vec_capacity others) }
    ensures { (stopped : Option ℕ) × (begun : RunState (Work PlannerState MorselState) S) × (ended : RunState (Work PlannerState MorselState) S)
        × Went S.IoSource columns.now partitions.now request.now steps stopped sources.items result.sources.items begun ended
        × IfOk result.answer (λ batches. (stopped ≡ None) × Takes ⟦<Work<TablePlanner, ChunkMorsel> as Worker>⟧ S.IoSource (work_owed planner_owed morsel_owed) (Unit {0}) (Unit {0}) (work_seats planner_plan morsel_plan is_fresh) has_plain_columns request.now batches.items begun ended)
        × IfErr result.answer (λ error. Refuses ⟦<Work<TablePlanner, ChunkMorsel> as Worker>⟧ S.IoSource (Unit {0}) (Unit {0}) (work_seats planner_plan morsel_plan is_fresh) request.now (length sources.items) error begun ended × ((stopped ≡ None) ⊎ (error ≡ ScanError.OutOfMemory))) }
{
    let count = sources.len() as u64;
    let mut others = others;
    let mut run = Run::<TablePlanner, S>::new(alloc).with_step_limit(steps);
    let stopped = admit_all(
        alloc,
        &mut run,
        columns,
        partitions,
        request,
        sources,
        &mut others,
    );
    let answer = run_admitted(alloc, &mut run, request, count, stopped);
    let admitted = run.take_sources();
    let sources = put_back(home, request, stopped, count, admitted, others);
    Scanned { sources, answer }
}

/// Scans the sources of a table, one for each partition. They come back in their places, whatever the answer.
pub(crate) fn scan_sources<S: IoSource<Payload = Chunk>>(
    alloc: Global,
    columns: &[ColumnDesc],
    partitions: &[PartitionDesc],
    sources: Vec<S>,
    request: &ScanRequest,
    steps: u64,
) -> Scanned<S>
    requires table { IsTable S.outstanding columns.now partitions.now sources.items }
    requires valid { ValidRequest columns.now request.now }
    ensures rows { IfOk result.answer (λ v. (told : List (Content Held)) → AreHonest S.IoSource partitions.now told sources.items result.sources.items
        → Answers (question (record { columns = columns.now; partitions = partitions.now; sources = sources.items }) told request.now) (map given v.items)) }
    ensures roots { IfOk result.answer (λ v. AreRanked request.now v.items) }
    ensures plain { IfOk result.answer (λ v. ArePlain v.items) }
    ensures cause { IfErr result.answer (HasCause S.IoSource request.now steps (record { columns = columns.now; partitions = partitions.now; sources = sources.items })
        (record { columns = columns.now; partitions = partitions.now; sources = result.sources.items })) }
    ensures sources { AreBack S.IoSource sources.items result.sources.items }
    ensures sure { SurelyStand S.IoSource partitions.now sources.items result.sources.items }
    ensures journals { KeepJournals S.IoSource request.now (record { columns = columns.now; partitions = partitions.now; sources = sources.items })
        (record { columns = columns.now; partitions = partitions.now; sources = result.sources.items }) }
{
    match rooms(alloc, sources.len()) {
        Ok((home, others)) => scan_within(
            alloc, columns, partitions, sources, request, steps, home, others,
        ),
        Err(_) => Scanned {
            sources,
            answer: Err(ScanError::OutOfMemory),
        },
    }
}
