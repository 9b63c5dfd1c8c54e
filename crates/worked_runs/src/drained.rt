// Runs that are taken to their end. What they give and how they fail follows from the clauses of `Run` alone, whatever their planners are.
ghost use Rattle.std.specs.Prelude.{◌≡◌, ◌+◌, ◌≤◌, ◌⊎◌, ◌++◌, ◌∷◌, [], Bool, false, Some, IfOk, IfErr, count_by, length, min};
ghost use Rattle.vortex_io.specs.Source.{Content};
ghost use Rattle.vortex_scan.specs.Bag.{entries_of, work_owed};
ghost use Rattle.vortex_scan.specs.InOrder.{IsOrderly, IsOrderlyRoot, work_left};
ghost use Rattle.vortex_scan.specs.Owed.{Entry};
ghost use Rattle.vortex_scan.specs.RunState.{RunState};
ghost use Rattle.vortex_scan.specs.declared.worker.Work.{Work};
ghost use Rattle.worked_runs.specs.Drained.{FailsWithin, GivesAll, IsEmpty, IsInOrder, IsTaken};
ghost use Rattle.worked_runs.specs.Lister.{HasNoRows, owed_below};

use crate::lister::{Lister, scope_of};
use crate::pieces::Cell;
use crate::surveyor::Surveyor;
use std::alloc::Global;
use vortex_io::{IoError, IoSource, MemorySource};
use vortex_scan::{Batch, Planner, Progress, Run, RunError, Work, Worker};

// One batch more.
fn keep<E>(batches: &mut Vec<Batch>, batch: Batch) -> Result<(), RunError<E>>
    ensures ok { IfOk result (λ _. batches.new.items ≡ batches.old.items ++ batch ∷ []) }
    ensures err { IfErr result (λ error. error ≡ RunError.OutOfMemory) }
{
    match batches.push(batch) {
        Ok(()) => Ok(()),
        Err(_) => Err(RunError::OutOfMemory),
    }
}

// Takes a run on to its next answer, and waits where it has to. The answer is whether an item may be live.
fn take_on<P: Planner, S: IoSource<Payload = P::Payload>>(
    run: &mut Run<P, S>,
    batches: &mut Vec<Batch>,
) -> Result<bool, RunError<P::Error>>
    requires tells { P.tells × P.Morsel.tells }
    requires honest { (source : S) → S.lies source ≡ 0 }
    ensures taken { IfOk result (λ _. (begun : RunState (Work P P.Morsel) S) → IsTaken ⟦<Work<P, P::Morsel> as Worker>⟧ S.IoSource (work_owed P.owed P.Morsel.owed) begun batches.old.items run.old
        → IsTaken ⟦<Work<P, P::Morsel> as Worker>⟧ S.IoSource (work_owed P.owed P.Morsel.owed) begun batches.new.items run.new) }
    ensures emptied { IfOk result (λ more. more ≡ false → IsEmpty (work_owed P.owed P.Morsel.owed) run.new.live) }
    ensures in_order { IfErr result (λ error. (begun : RunState (Work P P.Morsel) S) → IsTaken ⟦<Work<P, P::Morsel> as Worker>⟧ S.IoSource (work_owed P.owed P.Morsel.owed) begun batches.old.items run.old
        → begun.visits + work_left ⟦<Work<P, P::Morsel> as Worker>⟧ begun.live.items ≤ begun.limit → IsInOrder error) }
    ensures permitted { IfErr result (λ error. (begun : RunState (Work P P.Morsel) S) → IsTaken ⟦<Work<P, P::Morsel> as Worker>⟧ S.IoSource (work_owed P.owed P.Morsel.owed) begun batches.old.items run.old
        → FailsWithin ⟦<Work<P, P::Morsel> as Worker>⟧ S.IoSource error begun.live) }
{
    match run.advance() {
        Ok(Progress::Batch(batch)) => {
            keep(batches, batch)?;
            Ok(true)
        }
        Ok(Progress::RootDone(_)) => Ok(true),
        Ok(Progress::Idle) => Ok(false),
        Ok(Progress::Waiting) => match run.wait_any() {
            Ok(()) => Ok(true),
            Err(error) => Err(error),
        },
        Err(error) => Err(error),
    }
}

/// Takes a run on until no item is live, for a thousand answers at most.
pub fn drain<P: Planner, S: IoSource<Payload = P::Payload>>(
    alloc: Global,
    run: &mut Run<P, S>,
) -> Result<Vec<Batch>, RunError<P::Error>>
    requires tells { P.tells × P.Morsel.tells }
    requires honest { (source : S) → S.lies source ≡ 0 }
    requires orderly { IsOrderly ⟦<Work<P, P::Morsel> as Worker>⟧ run.old.live }
    requires limit { run.old.visits + work_left ⟦<Work<P, P::Morsel> as Worker>⟧ run.old.live.items ≤ run.old.limit }
    ensures all { IfOk result (λ batches. GivesAll S.IoSource (work_owed P.owed P.Morsel.owed) batches.items run.old.live) }
    ensures in_order { IfErr result IsInOrder }
    ensures permitted { IfErr result (λ error. FailsWithin ⟦<Work<P, P::Morsel> as Worker>⟧ S.IoSource error run.old.live) }
{
    let mut batches = Vec::new(alloc);
    for _ in 0..1000u64 {
        match take_on(run, &mut batches) {
            Ok(true) => {}
            Ok(false) => return Ok(batches),
            Err(error) => return Err(error),
        }
    }
    Err(RunError::RunFailed)
}

/// What one root gives over its source, visited no oftener than its work allows: what it owed, each entry as often as owed.
pub fn give_all<P: Planner, S: IoSource<Payload = P::Payload>>(
    alloc: Global,
    root: P,
    steps: u64,
    source: S,
) -> Result<Vec<Batch>, RunError<P::Error>>
    requires tells { P.tells × P.Morsel.tells }
    requires honest { (source : S) → S.lies source ≡ 0 }
    requires orderly { IsOrderlyRoot ⟦<Work<P, P::Morsel> as Worker>⟧ (Work.Planner root) }
    requires steps { P.work root ≤ steps }
    requires idle { S.outstanding source ≡ [] }
    ensures all { IfOk result (λ batches. (content : Content P.Payload) → S.content source ≡ Some content → (test : Entry → Bool) → count_by test (entries_of batches.items) ≡ count_by test (P.owed root content)) }
    ensures in_order { IfErr result IsInOrder }
    ensures permitted { IfErr result (λ error. (content : Content P.Payload) → S.content source ≡ Some content → (failure : P.Error) → error ≡ RunError.Planner (record { 0 = 0 }) failure → P.permits root content failure) }
{
    let mut run = Run::new(alloc).with_step_limit(steps);
    match run.admit(root, scope_of(0), source) {
        Ok(_) => {}
        Err(_) => return Err(RunError::OutOfMemory),
    }
    match drain(alloc, &mut run) {
        Ok(batches) => Ok(batches),
        Err(error) => Err(error),
    }
}

/// What a surveyor gives over a source in memory: the rows of its splits, each once.
pub fn survey(
    alloc: Global,
    limit: u64,
    source: MemorySource<Cell>,
) -> Result<Vec<Batch>, RunError<IoError>>
    requires small { limit ≤ 1000 }
    requires idle { source.outstanding ≡ [] }
    ensures all { IfOk result (λ batches. (test : Entry → Bool) → count_by test (entries_of batches.items) ≡ count_by test (owed_below (λ cell. cell.value) source.chunks (min (length source.chunks) limit))) }
    ensures in_order { IfErr result IsInOrder }
    ensures fault { IfErr result (λ error. error ≡ RunError.Planner (record { 0 = 0 }) IoError.Fault →
        HasNoRows (λ cell. cell.value) source.chunks (min (length source.chunks) limit) ⊎ (min (length source.chunks) limit ≡ 0)) }
{
    let steps = limit * 4 + 4;
    match give_all(alloc, Surveyor::new(alloc, limit), steps, source) {
        Ok(batches) => Ok(batches),
        Err(error) => Err(error),
    }
}

/// What a lister gives over a source in memory: the rows of its splits, each once.
pub fn list(
    alloc: Global,
    splits: u64,
    source: MemorySource<Cell>,
) -> Result<Vec<Batch>, RunError<IoError>>
    requires small { splits ≤ 1000 }
    requires idle { source.outstanding ≡ [] }
    ensures all { IfOk result (λ batches. (test : Entry → Bool) → count_by test (entries_of batches.items) ≡ count_by test (owed_below (λ cell. cell.value) source.chunks splits)) }
    ensures in_order { IfErr result IsInOrder }
    ensures fault { IfErr result (λ error. error ≡ RunError.Planner (record { 0 = 0 }) IoError.Fault → HasNoRows (λ cell. cell.value) source.chunks splits) }
{
    let steps = splits * 4 + 1;
    match give_all(alloc, Lister::new(alloc, splits), steps, source) {
        Ok(batches) => Ok(batches),
        Err(error) => Err(error),
    }
}
