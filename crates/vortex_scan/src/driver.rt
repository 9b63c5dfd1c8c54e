// One root over one source, taken to its end.
ghost use Rattle.std.specs.Prelude.{◌≡◌, ◌≤◌, ◌^◌, ◌-◌, ◌⊎◌, ◌∷◌, [], true, false, length, IfOk, IfErr};
ghost use Rattle.vortex_scan.specs.Bag.{work_owed};
ghost use Rattle.vortex_scan.specs.Driving.{Breaks, ComesTo, DrivesToEnd, DrivesToFailure, Driving, FailsAsRoot, FaultsByCause, GivesOwed, IsNoFault, KeepsRun, LacksMemoryAlone, LiesAlone, Proceeds, Returns, RoundFails, Rounds, StopsInOrder, StopsRun, VisitsMore, begun, given_by, is_last, is_wait, no_rows};
ghost use Rattle.vortex_scan.specs.Fits.{LiveFits};
ghost use Rattle.vortex_scan.specs.InOrder.{IsOrderlyRoot};
ghost use Rattle.vortex_scan.specs.Sources.{Clears, ClearsEach, KeepsEach};
ghost use Rattle.vortex_scan.specs.declared.worker.Work.{Work};

use crate::errors::{AdmitError, Progress, Refused, RunError};
use crate::planner::Planner;
use crate::run::Run;
use crate::sources;
use crate::worker::{Work, Worker};
use std::alloc::Global;
use std::marker::Model;
use vortex_io::IoSource;
use vortex_scan_types::{Batch, WorkScope};

/// A source for one root, at which nothing is outstanding. Contracts see the source, and the limit of visits.
pub struct Driver<S: IoSource> {
    alloc: Global,
    source: S,
    limit: u64,
}

impl<S: IoSource> Drop for Driver<S> {
    fn drop(self) {
        let Driver {
            alloc: _alloc,
            source: _source,
            limit: _limit,
        } = self;
    }
}

impl<S: IoSource> Model for Driver<S> {
    ghost use Rattle.std.specs.Prelude.{◌≡◌, []};
    ghost use Rattle.vortex_scan.specs.Driving.{Driving};

    ghost Value = { Driving S };

    ghost view = { λ d. record { source = d.source; limit = d.limit } };

    ghost invariant = { λ d. S.outstanding d.source ≡ [] };
}

/// What a driver came to: its source, and the batches or why there are none.
#[derive(Drop)]
pub struct DriverRun<S, E> {
    /// The source, at which nothing is outstanding.
    pub source: S,
    /// The batches in the order in which they came.
    pub answer: Result<Vec<Batch>, RunError<E>>,
}

/// What one round came to.
#[derive(Drop)]
pub(crate) enum Round {
    /// All items waited, and something was delivered.
    Waited,
    /// A batch.
    Gave(Batch),
    /// The root is done, or nothing is live.
    Ended,
}

impl Round {
    // Whether all items waited.
    fn is_wait(&self) -> bool
        ensures { result ≡ is_wait self.now }
    {
        match self {
            Round::Waited => true,
            Round::Gave(_) => false,
            Round::Ended => false,
        }
    }
}

// The scope of the root.
fn no_rows() -> WorkScope
    ensures { result ≡ no_rows }
{
    WorkScope {
        file_ordinal: 0,
        rows: 0..0,
    }
}

// A run of one root.
fn begin<P: Planner, S: IoSource<Payload = P::Payload>>(
    alloc: Global,
    limit: u64,
    root: P,
    source: S,
) -> Result<Run<P, S>, Refused<P, S>>
    requires idle { S.outstanding source ≡ [] }
    ensures ok { IfOk result (λ run. run ≡ begun (Work.Planner root) (record { source = source; limit = limit })) }
    ensures most { IfOk result (λ _. limit ≤ 2 ^ 64 - 1) }
    ensures err { IfErr result (λ refused. (refused.source ≡ source) × (refused.error ≡ AdmitError.OutOfMemory)) }
{
    let mut run = Run::<P, S>::new(alloc).with_step_limit(limit);
    match run.admit(root, no_rows(), source) {
        Ok(_id) => Ok(run),
        Err(refused) => Err(refused),
    }
}

// One round: the run goes on until it answers, and then waits where all items wait.
fn one_round<P: Planner, S: IoSource<Payload = P::Payload>>(
    run: &mut Run<P, S>,
) -> Result<Round, RunError<P::Error>>
    requires well { run.old.failed ≡ false }
    requires fits { LiveFits S.IoSource run.old.live }
    requires one { length run.old.live.slots ≡ 1 }
    ensures ok { IfOk result (λ came. Rounds ⟦<Work<P, P::Morsel> as Worker>⟧ S.IoSource P.Payload.Payload came run.old run.new) }
    ensures err { IfErr result (λ error. RoundFails ⟦<Work<P, P::Morsel> as Worker>⟧ S.IoSource P.Payload.Payload run.old run.new error) }
    ensures keeps { IfOk result (λ came. KeepsRun ⟦<Work<P, P::Morsel> as Worker>⟧ S.IoSource (work_owed P.owed P.Morsel.owed) (P.tells × P.Morsel.tells) (given_by came) run.old run.new) }
    ensures stops { IfErr result (λ error. StopsRun ⟦<Work<P, P::Morsel> as Worker>⟧ S.IoSource (P.tells × P.Morsel.tells) error run.old run.new) }
    ensures proceeds { IfOk result (λ came. Proceeds came run.old run.new) }
    ensures over { IfOk result (λ came. is_last came ≡ true → run.new.live.items ≡ []) }
{
    match run.advance() {
        Ok(Progress::Batch(batch)) => Ok(Round::Gave(batch)),
        Ok(Progress::RootDone(_root)) => Ok(Round::Ended),
        Ok(Progress::Idle) => Ok(Round::Ended),
        Ok(Progress::Waiting) => match run.wait_any() {
            Ok(()) => Ok(Round::Waited),
            Err(error) => Err(error),
        },
        Err(error) => Err(error),
    }
}

// Rounds until a visit is made or the run ends.
fn some_rounds<P: Planner, S: IoSource<Payload = P::Payload>>(
    run: &mut Run<P, S>,
) -> Result<Round, RunError<P::Error>>
    requires well { run.old.failed ≡ false }
    requires fits { LiveFits S.IoSource run.old.live }
    requires one { length run.old.live.slots ≡ 1 }
    ensures ok { IfOk result (λ came. ComesTo ⟦<Work<P, P::Morsel> as Worker>⟧ S.IoSource P.Payload.Payload [] came run.old run.new) }
    ensures err { IfErr result (λ error. Breaks ⟦<Work<P, P::Morsel> as Worker>⟧ S.IoSource P.Payload.Payload error run.old run.new) }
    ensures keeps { IfOk result (λ came. KeepsRun ⟦<Work<P, P::Morsel> as Worker>⟧ S.IoSource (work_owed P.owed P.Morsel.owed) (P.tells × P.Morsel.tells) (given_by came) run.old run.new) }
    ensures stops { IfErr result (λ error. StopsRun ⟦<Work<P, P::Morsel> as Worker>⟧ S.IoSource (P.tells × P.Morsel.tells) error run.old run.new) }
    ensures more { IfOk result (λ came. is_last came ≡ false → VisitsMore run.old run.new) }
    ensures over { IfOk result (λ came. is_last came ≡ true → run.new.live.items ≡ []) }
{
    let before = run.visits();
    'waits: loop {
        let came = match one_round(run) {
            Ok(came) => came,
            Err(error) => return Err(error),
        };
        if !came.is_wait() || run.visits() != before {
            return Ok(came);
        }
    }
}

// All rounds, and the batches that come.
fn all_rounds<P: Planner, S: IoSource<Payload = P::Payload>>(
    alloc: Global,
    run: &mut Run<P, S>,
) -> Result<Vec<Batch>, RunError<P::Error>>
    requires well { run.old.failed ≡ false }
    requires fits { LiveFits S.IoSource run.old.live }
    requires one { length run.old.live.slots ≡ 1 }
    ensures ok { IfOk result (λ batches. ComesTo ⟦<Work<P, P::Morsel> as Worker>⟧ S.IoSource P.Payload.Payload batches.items Round.Ended run.old run.new) }
    ensures err { IfErr result (λ error. (error ≡ RunError.OutOfMemory) ⊎ Breaks ⟦<Work<P, P::Morsel> as Worker>⟧ S.IoSource P.Payload.Payload error run.old run.new) }
    ensures keeps { IfOk result (λ batches. KeepsRun ⟦<Work<P, P::Morsel> as Worker>⟧ S.IoSource (work_owed P.owed P.Morsel.owed) (P.tells × P.Morsel.tells) batches.items run.old run.new) }
    ensures stops { IfErr result (λ error. StopsRun ⟦<Work<P, P::Morsel> as Worker>⟧ S.IoSource (P.tells × P.Morsel.tells) error run.old run.new) }
    ensures over { IfOk result (λ _. run.new.live.items ≡ []) }
    ensures sources { KeepsEach S.IoSource run.old.live.slots run.new.live.slots }
{
    let mut batches = Vec::new(alloc);
    'rounds: loop {
        match some_rounds(run) {
            Ok(Round::Waited) => {}
            Ok(Round::Gave(batch)) => match batches.push(batch) {
                Ok(()) => {}
                Err(_) => return Err(RunError::OutOfMemory),
            },
            Ok(Round::Ended) => return Ok(batches),
            Err(error) => return Err(error),
        }
    }
}

// The source of a run that has one.
fn end<P: Planner, S: IoSource<Payload = P::Payload>>(run: Run<P, S>) -> S
    requires one { length run.live.slots ≡ 1 }
    ensures { ClearsEach S.IoSource run.live.slots (result ∷ []) }
{
    let mut run = run;
    let mut sources = run.take_sources();
    let Some(source) = sources.pop() else {
        unreachable!()
    };
    source
}

impl<S: IoSource> Driver<S> {
    /// A driver over this source, which is cleared. Its visits have no limit of their own.
    pub fn new(alloc: Global, io: S) -> Driver<S>
        ensures source { Clears S.IoSource io result.source }
        ensures limit { result.limit ≡ 2 ^ 64 - 1 }
    {
        let mut source = io;
        sources::clear(&mut source);
        Driver {
            alloc,
            source,
            limit: u64::MAX,
        }
    }

    /// The driver with this limit of visits.
    pub fn with_step_limit(self, steps: u64) -> Driver<S>
        ensures { result ≡ record self { limit = steps } }
    {
        let mut driver = self;
        driver.limit = steps;
        driver
    }

    /// Takes a run of the root to its end: until the root is done or nothing is live, waiting where all items wait. The answer is the batches in the order in
    /// which they came. The source comes back cleared, whatever the answer.
    pub fn run<P: Planner<Payload = S::Payload>>(self, root: P) -> DriverRun<S, P::Error>
        ensures source { Returns S.IoSource self.source result.source }
        ensures ok { IfOk result.answer (λ batches. DrivesToEnd ⟦<Work<P, P::Morsel> as Worker>⟧ S.IoSource S.Payload.Payload (Work.Planner root) batches.items self result.source) }
        ensures err { IfErr result.answer (λ error. DrivesToFailure ⟦<Work<P, P::Morsel> as Worker>⟧ S.IoSource S.Payload.Payload (Work.Planner root) error self result.source) }
        ensures own { IfErr result.answer (λ error. IsNoFault error) }
        ensures bag { P.tells → P.Morsel.tells → IfOk result.answer (λ batches. GivesOwed S.IoSource (P.owed root) batches.items self.source result.source) }
        ensures cause { IfErr result.answer (λ error. FaultsByCause S.IoSource error self.source result.source) }
        ensures unexpected { IfErr result.answer (λ error. LiesAlone S.IoSource error self.source result.source) }
        ensures disorder { IfErr result.answer (λ error. IsOrderlyRoot ⟦<Work<P, P::Morsel> as Worker>⟧ (Work.Planner root) → StopsInOrder error self.limit (P.work root)) }
        ensures permits { P.tells → P.Morsel.tells → IfErr result.answer (λ error. FailsAsRoot ⟦<Work<P, P::Morsel> as Worker>⟧ S.IoSource (Work.Planner root) error self.source result.source) }
        ensures unhindered { P.tells → P.Morsel.tells → IfErr result.answer (λ error. LacksMemoryAlone ⟦<Work<P, P::Morsel> as Worker>⟧ S.IoSource P.is_memory (Work.Planner root) self.limit error self.source result.source) }
    {
        let Driver {
            alloc,
            source,
            limit,
        } = self;
        match begin(alloc, limit, root, source) {
            Ok(run) => {
                let mut run = run;
                let answer = all_rounds(alloc, &mut run);
                let source = end(run);
                DriverRun { source, answer }
            }
            Err(refused) => {
                let Refused {
                    planner: _planner,
                    source,
                    error: _error,
                } = refused;
                DriverRun {
                    source,
                    answer: Err(RunError::OutOfMemory),
                }
            }
        }
    }
}
