// Runs, and what is asked of them.
ghost use Rattle.std.specs.Prelude.{◌≡◌, ◌≢◌, ◌↔◌, ℕ, ◌+◌, ◌-◌, ◌^◌, ◌<◌, ◌≤◌, ◌⊎◌, ◌++◌, ◌∷◌, [], true, false, length, slice_get, Ok, Some, None, IfOk, IfErr, MatchResult, vec_len, vec_capacity};
ghost use Rattle.std.specs.List.{AllByRecursion};
ghost use Rattle.vortex_scan.specs.RunState.{Live, RunState, live_count, live_with, liveness, new_run};
ghost use Rattle.vortex_scan.specs.Steps.{CancelsLive, Delivers, WaitsFor, admitted};
ghost use Rattle.vortex_scan.specs.Fails.{DeliverFails, WaitFails};
ghost use Rattle.vortex_scan.specs.Asking.{AskingFails, AsksOnce, IsAsking, IsFirstAsking, root_at};
ghost use Rattle.vortex_scan.specs.Going.{Advances};
ghost use Rattle.vortex_scan.specs.InOrder.{AddsWork, FailsAsPermitted, GivesInOrder, IsInOrder, IsOrderlyRoot, PermitsNoMore, PermitsNoMoreGiven, StaysOrderly, WorksOff};
ghost use Rattle.vortex_scan.specs.InStep.{LiesByCause, StaysInStep};
ghost use Rattle.vortex_scan.specs.Seats.{AddsNoWait, AddsNothing, AddsSeats, FaultsNoSure, IsBrought, IsTold, KeepsFresh, KeepsSeats, NoneFresh, SpendsAtMost, SpendsSeats, SurelyStands, TakesSeat, WaitsOnce, work_seats};
ghost use Rattle.vortex_scan.specs.Sources.{ClearsEach, KeepsEach};
ghost use Rattle.vortex_scan.specs.Visits.{asked_count};
ghost use Rattle.vortex_scan.specs.Whole.{AreQuiet, AsksEnough, FailsByCause, IsAtRest, TellsRoots};
ghost use Rattle.vortex_scan.specs.Bag.{AddsToBag, IsEmptied, KeepsBag, KeepsBagGiven, batches_of, work_owed};
ghost use Rattle.vortex_scan.specs.Calls.{AdvanceRefuses, IsRefusedFor, PollRefuses, Refuses};
ghost use Rattle.vortex_scan.specs.declared.worker.Work.{Work};

use crate::admit::admit_root;
use crate::ask::{ask_once, first_asking, wait_for};
use crate::counting::count_live;
use crate::counts::Counts;
use crate::deliver::deliver;
use crate::errors::{AdmitError, Progress, Refused, RunError};
use crate::item::{Item, Slot};
use crate::morsel::Morsel;
use crate::planner::Planner;
use crate::sources;
use crate::taking::{clear_all, forget};
use crate::turn::go_on;
use crate::worker::{Work, Worker};
use std::alloc::Global;
use std::marker::Model;
use vortex_io::{Completion, IoOwnerId, IoSource};
use vortex_scan_types::{RootId, WorkScope};

/// Roots of work over their sources. Contracts see its state.
pub struct Run<P: Planner, S: IoSource<Payload = P::Payload>> {
    alloc: Global,
    items: Vec<Item<Work<P, P::Morsel>>>,
    slots: Vec<Slot<S>>,
    // Room for all sources, so that handing them back takes no memory.
    room: Vec<S>,
    next_owner: u64,
    next_root: u64,
    counts: Counts,
    failed: bool,
}

impl<P: Planner, S: IoSource<Payload = P::Payload>> Drop for Run<P, S> {
    fn drop(self) {
        let Run {
            alloc: _alloc,
            items: _items,
            slots: _slots,
            room: _room,
            next_owner: _next_owner,
            next_root: _next_root,
            counts: _counts,
            failed: _failed,
        } = self;
    }
}

impl<P: Planner, S: IoSource<Payload = P::Payload>> Model for Run<P, S> {
    ghost use Rattle.std.specs.Prelude.{◌≡◌, [], false, length, vec_capacity};
    ghost use Rattle.vortex_scan.specs.declared.worker.Work.{Work};
    ghost use Rattle.vortex_scan.specs.RunState.{RunState, live_with};
    ghost use Rattle.vortex_scan.specs.Fits.{RunHolds};
    ghost use Rattle.vortex_scan.specs.Seats.{ArePlanned, IsMorsel};
    ghost use Rattle.vortex_scan.specs.Works.{work_names, work_state};

    ghost Value = { RunState (Work P P.Morsel) S };

    ghost view = { λ r. record { live = live_with r.items.items r.slots.items r.next_owner; next_root = r.next_root; visits = r.counts.visits; since = r.counts.since; limit = r.counts.limit; failed = r.failed } };

    ghost invariant = { λ r. RunHolds (work_names P.names P.Morsel.names) (P.tells × P.Morsel.tells) (P.plans × P.Morsel.plans)
        (ArePlanned (work_state P.state_is P.Morsel.state_is) IsMorsel) S.IoSource r.room.items (vec_capacity r.room)
        (record { live = live_with r.items.items r.slots.items r.next_owner; next_root = r.next_root; visits = r.counts.visits; since = r.counts.since; limit = r.counts.limit; failed = r.failed }) };
}

impl<P: Planner, S: IoSource<Payload = P::Payload>> Run<P, S> {
    /// A run without roots, whose visits have no limit of their own.
    pub fn new(alloc: Global) -> Run<P, S>
        ensures { result ≡ new_run }
    {
        Run {
            alloc,
            items: Vec::new(alloc),
            slots: Vec::new(alloc),
            room: Vec::new(alloc),
            next_owner: 0,
            next_root: 0,
            counts: Counts {
                visits: 0,
                since: None,
                limit: u64::MAX,
            },
            failed: false,
        }
    }

    /// The run with this limit of visits.
    pub fn with_step_limit(self, steps: u64) -> Run<P, S>
        ensures { result ≡ record self { limit = steps } }
    {
        let mut run = self;
        run.counts.limit = steps;
        run
    }

    /// How many roots are live: admitted, and neither done nor cancelled.
    pub fn live_roots(&self) -> usize
        ensures { result ≡ live_count self.now.live.slots }
    {
        count_live(&self.slots)
    }

    /// How many visits were made.
    pub fn visits(&self) -> u64
        ensures { result ≡ self.now.visits }
    {
        self.counts.visits
    }

    /// Admits a root over its source. Nothing is outstanding there. On a refusal the run is as it was, and both come back.
    pub fn admit(&mut self, root: P, scope: WorkScope, io: S) -> Result<RootId, Refused<P, S>>
        requires idle { S.outstanding io ≡ [] }
        ensures ok { IfOk result (λ id. (id.0 ≡ self.old.next_root) × (self.new ≡ admitted self.old (Work.Planner root) scope io)) }
        ensures err { IfErr result (λ refused. (self.new ≡ self.old) × (refused.planner ≡ root) × (refused.source ≡ io)) }
        ensures in_step { IfOk result (λ _. StaysInStep S.IoSource self.old.live self.new.live) }
        ensures bag { IfOk result (λ id. AddsToBag (work_owed P.owed P.Morsel.owed) id.0 scope (Work.Planner root) self.old.live self.new.live) }
        ensures orderly { IfOk result (λ _. IsOrderlyRoot ⟦<Work<P, P::Morsel> as Worker>⟧ (Work.Planner root) → StaysOrderly ⟦<Work<P, P::Morsel> as Worker>⟧ self.old.live self.new.live) }
        ensures work { IfOk result (λ _. AddsWork ⟦<Work<P, P::Morsel> as Worker>⟧ (Work.Planner root) self.old self.new) }
        ensures seats { IfOk result (λ id. AddsSeats (work_seats P.plan P.Morsel.plan P.Morsel.fresh) id scope (Work.Planner root) self.old.live self.new.live) }
        ensures fresh { IfOk result (λ _. KeepsFresh (λ _ _. Unit {0}) S.IoSource (work_seats P.plan P.Morsel.plan P.Morsel.fresh) self.old.live self.new.live) }
        ensures journals { IfOk result (λ _. AddsNothing S.IoSource self.old.live.slots self.new.live.slots) }
        ensures sure { IfOk result (λ _. FaultsNoSure S.IoSource self.old.live.slots self.new.live.slots) }
        ensures run_failed { IsRefusedFor AdmitError.RunFailed result ↔ (self.old.failed ≡ true) }
        ensures ids_exhausted { IsRefusedFor AdmitError.IdsExhausted result ↔ ((self.old.failed ≡ false) × ((self.old.next_root ≡ 2 ^ 64 - 1) ⊎ (self.old.live.next_owner ≡ 2 ^ 64 - 1))) }
    {
        match admit_root(
            self.alloc,
            self.failed,
            &mut self.items,
            &mut self.slots,
            &mut self.room,
            self.next_root,
            self.next_owner,
            root,
            scope,
            io,
        ) {
            Ok(()) => {
                let id = RootId(self.next_root);
                self.next_root += 1;
                self.next_owner += 1;
                Ok(id)
            }
            Err(refused) => Err(refused),
        }
    }

    /// Drops a root's work and clears its source. Nothing changes where the root is not live.
    pub fn cancel(&mut self, root: RootId)
        ensures step { CancelsLive S.IoSource root (slice_get self.old.live.slots root.0) self.old.live self.new.live }
        ensures kept { self.new ≡ record self.old { live = self.new.live } }
        ensures in_step { StaysInStep S.IoSource self.old.live self.new.live }
        ensures orderly { StaysOrderly ⟦<Work<P, P::Morsel> as Worker>⟧ self.old.live self.new.live }
        ensures work { WorksOff ⟦<Work<P, P::Morsel> as Worker>⟧ self.old self.new }
        ensures seats { KeepsSeats (λ _ _. Unit {0}) (work_seats P.plan P.Morsel.plan P.Morsel.fresh) self.old.live self.new.live }
        ensures journals { AddsNothing S.IoSource self.old.live.slots self.new.live.slots }
        ensures sure { FaultsNoSure S.IoSource self.old.live.slots self.new.live.slots }
    {
        forget(&mut self.items, &mut self.slots, root);
    }

    /// Clears each source and hands all back in order of admission. All work is dropped, and the run has failed.
    pub fn take_sources(&mut self) -> Vec<S>
        ensures cleared { ClearsEach S.IoSource self.old.live.slots result.items }
        ensures state { self.new ≡ record self.old { live = live_with [] [] self.old.live.next_owner; failed = true } }
    {
        let items = std::mem::replace(&mut self.items, Vec::new(self.alloc));
        let slots = std::mem::replace(&mut self.slots, Vec::new(self.alloc));
        let mut sources = std::mem::replace(&mut self.room, Vec::new(self.alloc));
        self.failed = true;
        clear_all(slots, &mut sources);
        sources
    }

    /// Delivers a completion to the root's item that expects it.
    pub fn complete(
        &mut self,
        root: RootId,
        completion: Completion<P::Payload>,
    ) -> Result<(), RunError<P::Error>>
        ensures ok { IfOk result (λ _. (self.old.failed ≡ false) × Delivers ⟦<Work<P, P::Morsel> as Worker>⟧ root completion self.old.live.items self.new.live.items
            × (self.new ≡ record self.old { live = record self.old.live { items = self.new.live.items } })) }
        ensures err { IfErr result (λ error. Refuses self.old self.new error (DeliverFails ⟦<Work<P, P::Morsel> as Worker>⟧ root completion self.old.live.items error)) }
        ensures sources { self.new.live.slots ≡ self.old.live.slots }
        ensures bag { P.tells → P.Morsel.tells → IfOk result (λ _. KeepsBagGiven P.Payload.means (work_owed P.owed P.Morsel.owed) root completion self.old.live self.new.live) }
        ensures orderly { IfOk result (λ _. StaysOrderly ⟦<Work<P, P::Morsel> as Worker>⟧ self.old.live self.new.live) }
        ensures work { IfOk result (λ _. WorksOff ⟦<Work<P, P::Morsel> as Worker>⟧ self.old self.new) }
        ensures disorder { IfErr result (λ error. IsInOrder ⟦<Work<P, P::Morsel> as Worker>⟧ error self.old) }
        ensures permitted { P.tells → P.Morsel.tells → IfOk result (λ _. PermitsNoMoreGiven ⟦<Work<P, P::Morsel> as Worker>⟧ P.Payload.means root completion self.old.live self.new.live) }
        ensures seats { P.plans → P.Morsel.plans → IfOk result (λ _. KeepsSeats (IsBrought (P.tells × P.Morsel.tells) P.Payload.means root completion self.old.live.items) (work_seats P.plan P.Morsel.plan P.Morsel.fresh) self.old.live self.new.live) }
        ensures fetched { P.plans → P.Morsel.plans → IfOk result (λ _. SpendsSeats (IsBrought (P.tells × P.Morsel.tells) P.Payload.means root completion self.old.live.items) S.IoSource (work_seats P.plan P.Morsel.plan P.Morsel.fresh) self.old.live self.new.live) }
        ensures fresh { P.plans → P.Morsel.plans → IfOk result (λ _. KeepsFresh (IsBrought (P.tells × P.Morsel.tells) P.Payload.means root completion self.old.live.items) S.IoSource (work_seats P.plan P.Morsel.plan P.Morsel.fresh) self.old.live self.new.live) }
    {
        if self.failed {
            return Err(RunError::RunFailed);
        }
        match deliver(&mut self.items, root, completion) {
            Ok(()) => Ok(()),
            Err(error) => {
                self.failed = true;
                Err(error)
            }
        }
    }

    /// Asks each live root's source once, in order of admission, and delivers what comes. The answer is false exactly where none gave anything. It is
    /// refused where no root is live, which does not fail the run.
    pub fn poll_completion(&mut self) -> Result<bool, RunError<P::Error>>
        ensures ok { IfOk result (λ came. (self.old.failed ≡ false) × (live_count self.old.live.slots ≢ 0)
            × AsksOnce ⟦<Work<P, P::Morsel> as Worker>⟧ S.IoSource P.Payload.Payload (length self.old.live.slots) self.old.live self.new.live came
            × (self.new ≡ record self.old { live = self.new.live })) }
        ensures err { IfErr result (λ error. PollRefuses self.old self.new error (AskingFails ⟦<Work<P, P::Morsel> as Worker>⟧ S.IoSource P.Payload.Payload self.old.live self.new.live error)) }
        ensures sources { KeepsEach S.IoSource self.old.live.slots self.new.live.slots }
        ensures quiet { IfOk result (λ came. came ≡ false → AreQuiet S.IoSource self.old.live.slots self.new.live.slots × (self.new.live.items ≡ self.old.live.items)) }
        ensures fewer { IfOk result (λ came. came ≡ true → asked_count self.new.live.items < asked_count self.old.live.items) }
        ensures cause { IfErr result (λ error. FailsByCause S.IoSource error self.old.live.slots self.new.live.slots) }
        ensures unexpected { IfErr result (λ error. LiesByCause S.IoSource error self.old.live self.new.live.slots) }
        ensures in_step { IfOk result (λ _. StaysInStep S.IoSource self.old.live self.new.live) }
        ensures roots { IfOk result (λ _. liveness self.new.live.slots ≡ liveness self.old.live.slots) }
        ensures bag { P.tells → P.Morsel.tells → IfOk result (λ _. KeepsBag S.IoSource (work_owed P.owed P.Morsel.owed) [] self.old.live self.new.live) }
        ensures orderly { IfOk result (λ _. StaysOrderly ⟦<Work<P, P::Morsel> as Worker>⟧ self.old.live self.new.live) }
        ensures work { IfOk result (λ _. WorksOff ⟦<Work<P, P::Morsel> as Worker>⟧ self.old self.new) }
        ensures disorder { IfErr result (λ error. IsInOrder ⟦<Work<P, P::Morsel> as Worker>⟧ error self.old) }
        ensures permitted { P.tells → P.Morsel.tells → IfOk result (λ _. PermitsNoMore ⟦<Work<P, P::Morsel> as Worker>⟧ S.IoSource self.old.live self.new.live) }
        ensures seats { P.plans → P.Morsel.plans → IfOk result (λ _. KeepsSeats (IsTold (P.tells × P.Morsel.tells) S.IoSource self.old.live.slots self.new.live.slots) (work_seats P.plan P.Morsel.plan P.Morsel.fresh) self.old.live self.new.live) }
        ensures fetched { P.plans → P.Morsel.plans → IfOk result (λ _. SpendsSeats (IsTold (P.tells × P.Morsel.tells) S.IoSource self.old.live.slots self.new.live.slots) S.IoSource (work_seats P.plan P.Morsel.plan P.Morsel.fresh) self.old.live self.new.live) }
        ensures fresh { P.plans → P.Morsel.plans → IfOk result (λ _. KeepsFresh (IsTold (P.tells × P.Morsel.tells) S.IoSource self.old.live.slots self.new.live.slots) S.IoSource (work_seats P.plan P.Morsel.plan P.Morsel.fresh) self.old.live self.new.live) }
        ensures journals { AddsNothing S.IoSource self.old.live.slots self.new.live.slots }
        ensures sure { FaultsNoSure S.IoSource self.old.live.slots self.new.live.slots }
    {
        if self.failed {
            return Err(RunError::RunFailed);
        }
        if count_live(&self.slots) == 0 {
            return Err(RunError::NoLiveRoot);
        }
        match ask_once(&mut self.items, &mut self.slots) {
            Ok(came) => Ok(came),
            Err(error) => {
                self.failed = true;
                Err(error)
            }
        }
    }

    /// Waits for the source of the first root, in order of admission, that has a live item with an outstanding fetch, and delivers what comes. The run
    /// has not failed, and there is such an item.
    pub fn wait_any(&mut self) -> Result<(), RunError<P::Error>>
        requires well { self.old.failed ≡ false }
        requires asking { (root : ℕ) × IsAsking self.old.live.items root }
        ensures ok { IfOk result (λ _. (root : ℕ) × IsFirstAsking self.old.live.items root
            × WaitsFor ⟦<Work<P, P::Morsel> as Worker>⟧ S.IoSource P.Payload.Payload (root_at root) self.old.live self.new.live × (self.new ≡ record self.old { live = self.new.live })) }
        ensures err { IfErr result (λ error. (root : ℕ) × IsFirstAsking self.old.live.items root
            × WaitFails ⟦<Work<P, P::Morsel> as Worker>⟧ S.IoSource P.Payload.Payload (root_at root) self.old.live self.new.live error × (self.new.failed ≡ true)) }
        ensures sources { KeepsEach S.IoSource self.old.live.slots self.new.live.slots }
        ensures cause { IfErr result (λ error. FailsByCause S.IoSource error self.old.live.slots self.new.live.slots) }
        ensures unexpected { IfErr result (λ error. LiesByCause S.IoSource error self.old.live self.new.live.slots) }
        ensures in_step { IfOk result (λ _. StaysInStep S.IoSource self.old.live self.new.live) }
        ensures roots { IfOk result (λ _. liveness self.new.live.slots ≡ liveness self.old.live.slots) }
        ensures bag { P.tells → P.Morsel.tells → IfOk result (λ _. KeepsBag S.IoSource (work_owed P.owed P.Morsel.owed) [] self.old.live self.new.live) }
        ensures orderly { IfOk result (λ _. StaysOrderly ⟦<Work<P, P::Morsel> as Worker>⟧ self.old.live self.new.live) }
        ensures work { IfOk result (λ _. WorksOff ⟦<Work<P, P::Morsel> as Worker>⟧ self.old self.new) }
        ensures disorder { IfErr result (λ error. IsInOrder ⟦<Work<P, P::Morsel> as Worker>⟧ error self.old) }
        ensures permitted { P.tells → P.Morsel.tells → IfOk result (λ _. PermitsNoMore ⟦<Work<P, P::Morsel> as Worker>⟧ S.IoSource self.old.live self.new.live) }
        ensures seats { P.plans → P.Morsel.plans → IfOk result (λ _. KeepsSeats (IsTold (P.tells × P.Morsel.tells) S.IoSource self.old.live.slots self.new.live.slots) (work_seats P.plan P.Morsel.plan P.Morsel.fresh) self.old.live self.new.live) }
        ensures fetched { P.plans → P.Morsel.plans → IfOk result (λ _. SpendsSeats (IsTold (P.tells × P.Morsel.tells) S.IoSource self.old.live.slots self.new.live.slots) S.IoSource (work_seats P.plan P.Morsel.plan P.Morsel.fresh) self.old.live self.new.live) }
        ensures fresh { P.plans → P.Morsel.plans → IfOk result (λ _. KeepsFresh (IsTold (P.tells × P.Morsel.tells) S.IoSource self.old.live.slots self.new.live.slots) S.IoSource (work_seats P.plan P.Morsel.plan P.Morsel.fresh) self.old.live self.new.live) }
        ensures journals { WaitsOnce S.IoSource self.old.live.slots self.new.live.slots }
        ensures sure { FaultsNoSure S.IoSource self.old.live.slots self.new.live.slots }
    {
        let Some(root) = first_asking(&self.items) else {
            unreachable!()
        };
        match wait_for(&mut self.items, &mut self.slots, root) {
            Ok(()) => Ok(()),
            Err(error) => {
                self.failed = true;
                Err(error)
            }
        }
    }

    /// Goes on until an item gives a batch, a root is done, or no item is ready once all sources were asked. The ready item with the least key is visited
    /// each time; all sources are asked at first, after 64 visits, and where no item is ready.
    pub fn advance(&mut self) -> Result<Progress, RunError<P::Error>>
        ensures waiting { IfOk result (λ answer. answer ≡ Progress.Waiting → (self.new.failed ≡ false) × ((root : ℕ) × IsAsking self.new.live.items root)) }
        ensures ok { IfOk result (λ answer. (self.old.failed ≡ false) × Advances ⟦<Work<P, P::Morsel> as Worker>⟧ S.IoSource P.Payload.Payload self.old self.new answer) }
        ensures err { IfErr result (λ error. AdvanceRefuses ⟦<Work<P, P::Morsel> as Worker>⟧ S.IoSource P.Payload.Payload self.old self.new error) }
        ensures sources { KeepsEach S.IoSource self.old.live.slots self.new.live.slots }
        ensures rests { IfOk result (λ answer. answer ≡ Progress.Waiting → IsAtRest S.IoSource self.old.live self.new.live) }
        ensures idle { (result ≡ Ok Progress.Idle) ↔ ((self.old.failed ≡ false) × (self.old.live.items ≡ [])) }
        ensures roots { IfOk result (λ answer. TellsRoots answer self.old.live self.new.live) }
        ensures asking { AsksEnough S.IoSource self.old self.new }
        ensures cause { IfErr result (λ error. FailsByCause S.IoSource error self.old.live.slots self.new.live.slots) }
        ensures unexpected { IfErr result (λ error. LiesByCause S.IoSource error self.old.live self.new.live.slots) }
        ensures in_step { IfOk result (λ _. StaysInStep S.IoSource self.old.live self.new.live) }
        ensures bag { P.tells → P.Morsel.tells → IfOk result (λ answer. KeepsBag S.IoSource (work_owed P.owed P.Morsel.owed) (batches_of answer) self.old.live self.new.live) }
        ensures emptied { IfOk result (λ answer. IsEmptied (work_owed P.owed P.Morsel.owed) answer self.new.live) }
        ensures order { IfOk result (λ answer. GivesInOrder answer self.new.live.items) }
        ensures orderly { IfOk result (λ _. StaysOrderly ⟦<Work<P, P::Morsel> as Worker>⟧ self.old.live self.new.live) }
        ensures work { IfOk result (λ _. WorksOff ⟦<Work<P, P::Morsel> as Worker>⟧ self.old self.new) }
        ensures disorder { IfErr result (λ error. IsInOrder ⟦<Work<P, P::Morsel> as Worker>⟧ error self.old) }
        ensures permits { P.tells → P.Morsel.tells → IfErr result (λ error. FailsAsPermitted ⟦<Work<P, P::Morsel> as Worker>⟧ S.IoSource error self.old.live self.new.live) }
        ensures permitted { P.tells → P.Morsel.tells → IfOk result (λ _. PermitsNoMore ⟦<Work<P, P::Morsel> as Worker>⟧ S.IoSource self.old.live self.new.live) }
        ensures seats { P.plans → P.Morsel.plans → IfOk result (λ _. KeepsSeats (IsTold (P.tells × P.Morsel.tells) S.IoSource self.old.live.slots self.new.live.slots) (work_seats P.plan P.Morsel.plan P.Morsel.fresh) self.old.live self.new.live) }
        ensures seated { P.plans → P.Morsel.plans → IfOk result (λ answer. AllByRecursion (TakesSeat (IsTold (P.tells × P.Morsel.tells) S.IoSource self.old.live.slots self.new.live.slots) (work_seats P.plan P.Morsel.plan P.Morsel.fresh) P.Morsel.gives_such self.old.live) (batches_of answer)) }
        ensures fetched { P.plans → P.Morsel.plans → IfOk result (λ _. SpendsSeats (IsTold (P.tells × P.Morsel.tells) S.IoSource self.old.live.slots self.new.live.slots) S.IoSource (work_seats P.plan P.Morsel.plan P.Morsel.fresh) self.old.live self.new.live) }
        ensures fresh { P.plans → P.Morsel.plans → IfOk result (λ _. KeepsFresh (IsTold (P.tells × P.Morsel.tells) S.IoSource self.old.live.slots self.new.live.slots) S.IoSource (work_seats P.plan P.Morsel.plan P.Morsel.fresh) self.old.live self.new.live) }
        ensures fetched_at_most { P.plans → P.Morsel.plans → IfErr result (λ _. SpendsAtMost (IsTold (P.tells × P.Morsel.tells) S.IoSource self.old.live.slots self.new.live.slots) S.IoSource (work_seats P.plan P.Morsel.plan P.Morsel.fresh) self.old.live self.new.live) }
        ensures none_fresh { P.plans → P.Morsel.plans → IfOk result (λ answer. answer ≡ Progress.Waiting → NoneFresh (work_seats P.plan P.Morsel.plan P.Morsel.fresh) self.new.live.items) }
        ensures journals { AddsNoWait S.IoSource self.old.live.slots self.new.live.slots }
        ensures sure { P.plans → P.Morsel.plans → SurelyStands S.IoSource (work_seats P.plan P.Morsel.plan P.Morsel.fresh) self.old.live self.new.live.slots }
    {
        if self.failed {
            return Err(RunError::RunFailed);
        }
        match go_on(
            self.alloc,
            &mut self.items,
            &mut self.slots,
            &mut self.next_owner,
            &mut self.counts,
        ) {
            Ok(answer) => Ok(answer),
            Err(error) => {
                self.failed = true;
                Err(error)
            }
        }
    }
}
