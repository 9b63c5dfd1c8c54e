// A run of several roots, taken forward until nothing is live or enough rows came.
ghost use Rattle.std.specs.Prelude.{◌≡◌, ◌⊎◌, [], false, IfErr, IfOk, Some, true};
ghost use Rattle.vortex_scan.specs.Bag.{work_owed};
ghost use Rattle.vortex_scan.specs.Driving.{KeepsRun, StopsRun, VisitsMore};
ghost use Rattle.vortex_scan.specs.Fits.{LiveFits};
ghost use Rattle.vortex_scan.specs.Seats.{work_seats};
ghost use Rattle.vortex_scan.specs.declared.worker.Work.{Work};
ghost use Rattle.vortex_table_scan.specs.Gathering.{Gathers};
ghost use Rattle.vortex_table_scan.specs.Rounds.{GoesOn, KeepsPlaces, LeavesPlaces, given_by, is_over, is_waiting};

use crate::cut::{is_reached, push_within};
use std::alloc::Global;
use vortex_io::IoSource;
use vortex_scan::{Planner, Progress, Run, RunError, Work, Worker};
use vortex_scan_types::Batch;

/// What one round came to.
#[derive(Drop)]
pub(crate) enum Round {
    /// All items waited, and something was delivered.
    Waited,
    /// A batch.
    Gave(Batch),
    /// A root is done.
    Ended,
    /// Nothing is live.
    Over,
}

impl Round {
    // Whether all items waited.
    fn is_wait(&self) -> bool
        ensures { result ≡ is_waiting self.now }
    {
        match self {
            Round::Waited => true,
            Round::Gave(_) => false,
            Round::Ended => false,
            Round::Over => false,
        }
    }
}

// One round: the run goes on until it answers, and then waits where all items wait.
fn one_round<P: Planner, S: IoSource<Payload = P::Payload>>(
    run: &mut Run<P, S>,
) -> Result<Round, RunError<P::Error>>
    requires well { run.old.failed ≡ false }
    requires fits { LiveFits S.IoSource run.old.live }
    ensures keeps { IfOk result (λ came. KeepsRun ⟦<Work<P, P::Morsel> as Worker>⟧ S.IoSource (work_owed P.owed P.Morsel.owed) (P.tells × P.Morsel.tells) (given_by came) run.old run.new) }
    ensures stops { IfErr result (λ error. StopsRun ⟦<Work<P, P::Morsel> as Worker>⟧ S.IoSource (P.tells × P.Morsel.tells) error run.old run.new) }
    ensures places { P.plans → P.Morsel.plans → IfOk result (λ came. KeepsPlaces S.IoSource (work_seats P.plan P.Morsel.plan P.Morsel.fresh) P.Morsel.gives_such (given_by came) run.old.live run.new.live) }
    ensures leaves { P.plans → P.Morsel.plans → IfErr result (λ _. LeavesPlaces S.IoSource (work_seats P.plan P.Morsel.plan P.Morsel.fresh) run.old.live run.new.live) }
    ensures proceeds { IfOk result (λ came. GoesOn came run.old run.new) }
    ensures over { IfOk result (λ came. is_over came ≡ true → run.new.live.items ≡ []) }
{
    match run.advance() {
        Ok(Progress::Batch(batch)) => Ok(Round::Gave(batch)),
        Ok(Progress::RootDone(_root)) => Ok(Round::Ended),
        Ok(Progress::Idle) => Ok(Round::Over),
        Ok(Progress::Waiting) => match run.wait_any() {
            Ok(()) => Ok(Round::Waited),
            Err(error) => Err(error),
        },
        Err(error) => Err(error),
    }
}

// Rounds until a visit is made or nothing is live.
fn some_rounds<P: Planner, S: IoSource<Payload = P::Payload>>(
    run: &mut Run<P, S>,
) -> Result<Round, RunError<P::Error>>
    requires well { run.old.failed ≡ false }
    requires fits { LiveFits S.IoSource run.old.live }
    ensures keeps { IfOk result (λ came. KeepsRun ⟦<Work<P, P::Morsel> as Worker>⟧ S.IoSource (work_owed P.owed P.Morsel.owed) (P.tells × P.Morsel.tells) (given_by came) run.old run.new) }
    ensures stops { IfErr result (λ error. StopsRun ⟦<Work<P, P::Morsel> as Worker>⟧ S.IoSource (P.tells × P.Morsel.tells) error run.old run.new) }
    ensures places { P.plans → P.Morsel.plans → IfOk result (λ came. KeepsPlaces S.IoSource (work_seats P.plan P.Morsel.plan P.Morsel.fresh) P.Morsel.gives_such (given_by came) run.old.live run.new.live) }
    ensures leaves { P.plans → P.Morsel.plans → IfErr result (λ _. LeavesPlaces S.IoSource (work_seats P.plan P.Morsel.plan P.Morsel.fresh) run.old.live run.new.live) }
    ensures more { IfOk result (λ came. is_over came ≡ false → VisitsMore run.old run.new) }
    ensures over { IfOk result (λ came. is_over came ≡ true → run.new.live.items ≡ []) }
{
    let before = run.visits();
    'waits: loop {
        let came = match one_round(run) {
            Ok(came) => came,
            Err(error) => return Err(error),
        };
        if !came.is_wait() || run.visits() != before {
            return Ok(came);
        }
    }
}

/// Rounds until nothing is live, or until so many rows came: the batches that came, the last of them cut at the limit.
pub(crate) fn gather<P: Planner, S: IoSource<Payload = P::Payload>>(
    alloc: Global,
    run: &mut Run<P, S>,
    limit: Option<u64>,
) -> Result<Vec<Batch>, RunError<P::Error>>
    requires well { run.old.failed ≡ false }
    requires fits { LiveFits S.IoSource run.old.live }
    ensures gathers { IfOk result (λ batches. Gathers ⟦<Work<P, P::Morsel> as Worker>⟧ S.IoSource (work_owed P.owed P.Morsel.owed) (P.tells × P.Morsel.tells) (P.plans × P.Morsel.plans)
        (work_seats P.plan P.Morsel.plan P.Morsel.fresh) P.Morsel.gives_such limit batches.items run.old run.new) }
    ensures stops { IfErr result (λ error. StopsRun ⟦<Work<P, P::Morsel> as Worker>⟧ S.IoSource (P.tells × P.Morsel.tells) error run.old run.new) }
    ensures leaves { P.plans → P.Morsel.plans → IfErr result (λ _. LeavesPlaces S.IoSource (work_seats P.plan P.Morsel.plan P.Morsel.fresh) run.old.live run.new.live) }
{
    let mut batches = Vec::new(alloc);
    let mut left = limit;
    'rounds: loop {
        if is_reached(left) {
            return Ok(batches);
        }
        match some_rounds(run) {
            Ok(Round::Waited) => {}
            Ok(Round::Ended) => {}
            Ok(Round::Over) => return Ok(batches),
            Ok(Round::Gave(batch)) => match push_within(alloc, &mut batches, batch, left) {
                Ok(now) => left = now,
                Err(_) => return Err(RunError::OutOfMemory),
            },
            Err(error) => return Err(error),
        }
    }
}
