// Planners that tell what they owe and are orderly: they ask, wait, make planners and readers, and fail only as they are permitted.
ghost use Rattle.std.specs.Prelude.{◌≡◌, false, refl};
ghost use Rattle.vortex_io.specs.declared.ids.IoRequestId.{IoRequestId};
ghost use Rattle.worked_runs.specs.Surveyor.{SurveyorComputes, SurveyorTakes, listing, new_surveyor, size_request, surveyor_names, surveyor_state};

use crate::lister::scope_of;
use crate::pieces::Cell;
use crate::reader::Reader;
use std::alloc::Global;
use std::marker::Model;
use vortex_io::{
    IoBatch, IoConsumer, IoError, IoIntent, IoRequest, IoRequestId, IoResult, IoTarget,
};
use vortex_scan::{Planner, PlannerOutput, State};

/// A planner that asks how many splits there are, and hands them, up to a limit, to a planner of its own kind, which makes a reader for each, the last
/// one first. It fails by want of memory, and where there is no split.
pub struct Surveyor {
    alloc: Global,
    left: u64,
    waits: bool,
    knows: bool,
    lists: bool,
}

impl Drop for Surveyor {
    fn drop(self) {
        let Surveyor {
            alloc: _alloc,
            left: _left,
            waits: _waits,
            knows: _knows,
            lists: _lists,
        } = self;
    }
}

impl Model for Surveyor {
    ghost use Rattle.worked_runs.specs.Surveyor.{SurveyorState};

    ghost Value = { SurveyorState };

    ghost view = { λ p. record { left = p.left; waits = p.waits; knows = p.knows; lists = p.lists } };
}

// The fetch of the number of splits.
fn fetch_size() -> IoRequest
    ensures { result ≡ size_request }
{
    IoRequest {
        intent: IoIntent::Fetch,
        request: IoRequestId(0),
        target: IoTarget::Size,
    }
}

// A planner that makes readers of so many splits.
fn listing(alloc: Global, splits: u64) -> Surveyor
    ensures { result ≡ listing splits }
{
    Surveyor {
        alloc,
        left: splits,
        waits: false,
        knows: true,
        lists: true,
    }
}

impl Surveyor {
    /// A planner of at most so many splits.
    pub fn new(alloc: Global, limit: u64) -> Surveyor
        ensures { result ≡ new_surveyor limit }
    {
        Surveyor {
            alloc,
            left: limit,
            waits: false,
            knows: false,
            lists: false,
        }
    }

    // Asks how many splits there are, and waits.
    fn ask(&mut self) -> Result<PlannerOutput<Surveyor, Reader>, IoError>
        requires computes { surveyor_state self.old ≡ State.NeedsCompute }
        requires unknown { self.old.knows ≡ false }
        ensures { SurveyorComputes self.old result self.new }
    {
        let mut batch = IoBatch::new(self.alloc);
        batch.push(fetch_size())?;
        self.waits = true;
        Ok(PlannerOutput::NeedsIO(batch))
    }
}

impl IoConsumer for Surveyor {
    type Payload = Cell;

    ghost takes = { SurveyorTakes };

    ghost names = { surveyor_names };

    fn set_io_result(&mut self, request: IoRequestId, outcome: IoResult<Cell>)
        ensures takes { SurveyorTakes self.old request outcome self.new }
        ensures names { (number : IoRequestId) → surveyor_names self.new number ≡ surveyor_names self.old number }
    {
        let _ = request;
        match (self.waits, outcome) {
            (true, IoResult::Size(size)) => {
                if !self.knows {
                    self.left = size.min(self.left);
                }
                self.waits = false;
                self.knows = true;
            }
            _ => {}
        }
    }
}

impl Planner for Surveyor {
    ghost use Rattle.worked_runs.specs.Reader.{is_want};
    ghost use Rattle.worked_runs.specs.Surveyor.{surveyor_asked, surveyor_owed, surveyor_permits, surveyor_work};
    ghost use Rattle.worked_runs.specs.SurveyorRules.{surveyor_is_orderly, surveyor_owes};

    type Error = IoError;

    type Morsel = Reader;

    ghost state_is = { surveyor_state };

    ghost computes = { SurveyorComputes };

    ghost tells = { Unit {0} };

    ghost owed = { surveyor_owed (λ cell. cell.value) };

    ghost orderly = { λ _. Unit {0} };

    ghost asked = { surveyor_asked };

    ghost work = { surveyor_work };

    ghost is_memory = { is_want };

    ghost permits = { surveyor_permits (λ cell. cell.value) };

    fn state(&self) -> State {
        if self.waits {
            State::Waiting
        } else {
            State::NeedsCompute
        }
    }

    fn compute(&mut self) -> Result<PlannerOutput<Surveyor, Reader>, IoError> {
        if !self.knows {
            return self.ask();
        }
        if self.left == 0 {
            return if self.lists {
                Ok(PlannerOutput::Done)
            } else {
                Err(IoError::Fault)
            };
        }
        if !self.lists {
            let child = listing(self.alloc, self.left);
            self.left = 0;
            self.lists = true;
            return Ok(PlannerOutput::Planner(scope_of(0), child));
        }
        self.left -= 1;
        Ok(PlannerOutput::Morsel(scope_of(self.left), Reader::new(self.alloc, self.left)))
    }

    ghost owes = { λ _. surveyor_owes (λ cell. cell.value) };

    ghost is_orderly = { surveyor_is_orderly (λ cell. cell.value) };

    ghost same_memory = { λ error. refl };

    ghost follows_plan = { λ t. absurd t };
}
