// Planners that tell a plan: a reader for each split below a number. They keep all rules of planners.
ghost use Rattle.std.specs.Prelude.{◌≡◌, refl};
ghost use Rattle.vortex_io.specs.declared.ids.IoRequestId.{IoRequestId};
ghost use Rattle.worked_runs.specs.Lister.{ListerTakes, lister_names, scope_of};

use crate::pieces::Cell;
use crate::reader::Reader;
use std::alloc::Global;
use std::marker::Model;
use vortex_io::{IoConsumer, IoError, IoRequestId, IoResult};
use vortex_scan::{Planner, PlannerOutput, State, WorkScope};

/// A planner that makes a reader for each split below a number, the last one first.
pub struct Lister {
    alloc: Global,
    left: u64,
}

impl Drop for Lister {
    fn drop(self) {
        let Lister {
            alloc: _alloc,
            left: _left,
        } = self;
    }
}

impl Model for Lister {
    ghost use Rattle.worked_runs.specs.Lister.{ListerState};

    ghost Value = { ListerState };

    ghost view = { λ p. record { left = p.left } };
}

/// The scope of a split: one row of a partition of its own.
pub fn scope_of(split: u64) -> WorkScope
    ensures { result ≡ scope_of split }
{
    WorkScope {
        file_ordinal: split,
        rows: 0..1,
    }
}

impl Lister {
    /// A planner of so many splits.
    pub fn new(alloc: Global, splits: u64) -> Lister
        ensures { result ≡ record { left = splits } }
    {
        Lister {
            alloc,
            left: splits,
        }
    }
}

impl IoConsumer for Lister {
    type Payload = Cell;

    ghost takes = { ListerTakes };

    ghost names = { lister_names };

    fn set_io_result(&mut self, request: IoRequestId, outcome: IoResult<Cell>)
        ensures takes { ListerTakes self.old request outcome self.new }
        ensures names { (number : IoRequestId) → lister_names self.new number ≡ lister_names self.old number }
    {
        let _ = request;
        let _outcome = outcome;
    }
}

impl Planner for Lister {
    ghost use Rattle.worked_runs.specs.Lister.{ListerComputes, lister_asked, lister_owed, lister_permits, lister_plan, lister_state, lister_work};
    ghost use Rattle.worked_runs.specs.ListerRules.{lister_follows_plan, lister_is_orderly, lister_owes};
    ghost use Rattle.worked_runs.specs.Reader.{is_want};

    type Error = IoError;

    type Morsel = Reader;

    ghost state_is = { lister_state };

    ghost computes = { ListerComputes };

    ghost tells = { Unit {0} };

    ghost owed = { lister_owed (λ cell. cell.value) };

    ghost orderly = { λ _. Unit {0} };

    ghost asked = { lister_asked };

    ghost work = { lister_work };

    ghost is_memory = { is_want };

    ghost permits = { lister_permits (λ cell. cell.value) };

    ghost plans = { Unit {0} };

    ghost plan = { lister_plan };

    fn state(&self) -> State {
        State::NeedsCompute
    }

    fn compute(&mut self) -> Result<PlannerOutput<Lister, Reader>, IoError> {
        if self.left == 0 {
            return Ok(PlannerOutput::Done);
        }
        self.left -= 1;
        Ok(PlannerOutput::Morsel(scope_of(self.left), Reader::new(self.alloc, self.left)))
    }

    ghost owes = { λ _. lister_owes (λ cell. cell.value) };

    ghost is_orderly = { lister_is_orderly (λ cell. cell.value) };

    ghost same_memory = { λ error. refl };

    ghost follows_plan = { λ _. lister_follows_plan (λ cell. cell.value) };
}
