// The work of one item, whether it is a planner or a morsel.
ghost use Rattle.std.specs.Prelude.{◌≡◌, ℕ};
ghost use Rattle.vortex_scan.specs.Works.{of_morsel, of_planner};

use crate::morsel::Morsel;
use crate::planner::Planner;
use crate::state::{MorselOutput, Output, PlannerOutput, State};
use vortex_io::{IoConsumer, IoRequestId, IoResult, Payload};

/// The work of one item.
#[derive(Drop)]
pub enum Work<P, M> {
    /// A planner.
    Planner(P),
    /// A morsel.
    Morsel(M),
}

/// What a run asks of the work of an item. It is a planner's or a morsel's own.
pub trait Worker: Drop + Sized {
    ghost use Rattle.std.specs.Prelude.{List, Option, Result};
    ghost use Rattle.vortex_io.specs.Source.{Content};
    ghost use Rattle.vortex_io.specs.declared.ids.IoRequestId.{IoRequestId};
    ghost use Rattle.vortex_io.specs.declared.request.IoRequest.{IoRequest};
    ghost use Rattle.vortex_io.specs.declared.request.IoResult.{IoResult};
    ghost use Rattle.vortex_io.specs.declared.request.IoTarget.{IoTarget};
    ghost use Rattle.vortex_scan.specs.declared.state.Output.{Output};
    ghost use Rattle.vortex_scan.specs.declared.state.State.{State};

    /// What it fetches.
    type Payload: Payload;

    /// Why a computation may fail.
    type Error: Drop;

    // The state that it shows.
    ghost state_is: { Self → State };

    // What one computation may answer, and make of it.
    ghost computes: { Self → Result (Output Self) Self.Error → Self → Type 0 };

    // What taking a result under a number may make of it.
    ghost takes: { Self → IoRequestId → IoResult Self.Payload → Self → Type 0 };

    // The target that a number names.
    ghost names: { Self → IoRequestId → Option IoTarget };

    // Whether it is orderly, and then the fetches that it has published and was not given, and a bound on its computations.
    ghost orderly: { Self → Type 0 };

    ghost asked: { Self → List IoRequest };

    ghost work: { Self → ℕ };

    // Which errors a content permits it.
    ghost permits: { Self → Content Self.Payload → Self.Error → Type 0 };

    /// What it is about to do.
    fn state(&self) -> State
        ensures { result ≡ state_is self.now };

    /// One computation.
    fn compute(&mut self) -> Result<Output<Self>, Self::Error>
        requires { state_is self.old ≡ State.NeedsCompute }
        ensures computes { computes self.old result self.new }
        ensures names { (number : IoRequestId) → names self.new number ≡ names self.old number };

    /// Takes what the fetch of this number gave.
    fn take(&mut self, request: IoRequestId, outcome: IoResult<Self::Payload>)
        ensures takes { takes self.old request outcome self.new }
        ensures names { (number : IoRequestId) → names self.new number ≡ names self.old number };
}

// What a planner answered, as an item's answer.
fn from_planner<P: Drop, M: Drop, E: Drop>(
    answer: Result<PlannerOutput<P, M>, E>,
) -> Result<Output<Work<P, M>>, E>
    ensures { result ≡ of_planner answer }
{
    match answer {
        Ok(PlannerOutput::Done) => Ok(Output::Done),
        Ok(PlannerOutput::Continue) => Ok(Output::Continue),
        Ok(PlannerOutput::NeedsIO(batch)) => Ok(Output::NeedsIO(batch)),
        Ok(PlannerOutput::Planner(scope, child)) => Ok(Output::Child(scope, Work::Planner(child))),
        Ok(PlannerOutput::Morsel(scope, child)) => Ok(Output::Child(scope, Work::Morsel(child))),
        Err(error) => Err(error),
    }
}

// What a morsel answered, as an item's answer.
fn from_morsel<P: Drop, M: Drop, E: Drop>(
    answer: Result<MorselOutput, E>,
) -> Result<Output<Work<P, M>>, E>
    ensures { result ≡ of_morsel answer }
{
    match answer {
        Ok(MorselOutput::Done) => Ok(Output::Done),
        Ok(MorselOutput::Continue) => Ok(Output::Continue),
        Ok(MorselOutput::NeedsIO(batch)) => Ok(Output::NeedsIO(batch)),
        Ok(MorselOutput::Batch(array)) => Ok(Output::Batch(array)),
        Err(error) => Err(error),
    }
}

impl<P: Planner> Worker for Work<P, P::Morsel> {
    ghost use Rattle.vortex_scan.specs.Works.{WorkComputes, WorkIs, WorkPermits, WorkTakes, work_asked, work_bound, work_names, work_state};

    type Payload = P::Payload;

    type Error = P::Error;

    ghost state_is = { work_state P.state_is P.Morsel.state_is };

    ghost computes = { WorkComputes P.computes P.Morsel.computes };

    ghost takes = { WorkTakes P.takes P.Morsel.takes };

    ghost names = { work_names P.names P.Morsel.names };

    ghost orderly = { WorkIs P.orderly P.Morsel.orderly };

    ghost asked = { work_asked P.asked P.Morsel.asked };

    ghost work = { work_bound P.work P.Morsel.work };

    ghost permits = { WorkPermits P.permits P.Morsel.permits };

    fn state(&self) -> State {
        match self {
            Work::Planner(planner) => planner.state(),
            Work::Morsel(morsel) => morsel.state(),
        }
    }

    fn compute(&mut self) -> Result<Output<Work<P, P::Morsel>>, P::Error> {
        match self {
            Work::Planner(planner) => from_planner(planner.compute()),
            Work::Morsel(morsel) => from_morsel(morsel.compute()),
        }
    }

    fn take(&mut self, request: IoRequestId, outcome: IoResult<P::Payload>)
        ensures takes { WorkTakes P.takes P.Morsel.takes self.old request outcome self.new }
        ensures names { (number : IoRequestId) → work_names P.names P.Morsel.names self.new number ≡ work_names P.names P.Morsel.names self.old number }
    {
        match self {
            Work::Planner(planner) => planner.set_io_result(request, outcome),
            Work::Morsel(morsel) => morsel.set_io_result(request, outcome),
        }
    }
}
