// The pieces of work that make further work.
ghost use Rattle.std.specs.Prelude.{◌≡◌, ℕ, [], false};

use crate::morsel::Morsel;
use crate::state::{PlannerOutput, State};
use vortex_io::IoConsumer;

/// A piece of work that makes planners of its parts, and morsels. What it tells of itself is told as a morsel's is.
pub trait Planner: IoConsumer + Sized {
    ghost use Rattle.std.specs.Prelude.{Bool, List, Option, Result};
    ghost use Rattle.vortex_io.specs.Source.{Content};
    ghost use Rattle.vortex_io.specs.declared.ids.IoRequestId.{IoRequestId};
    ghost use Rattle.vortex_io.specs.declared.request.IoRequest.{IoRequest};
    ghost use Rattle.vortex_scan.specs.declared.state.PlannerOutput.{PlannerOutput};
    ghost use Rattle.vortex_scan.specs.declared.state.State.{State};
    ghost use Rattle.vortex_scan.specs.Owed.{Entry, PlannerOwes};
    ghost use Rattle.vortex_scan.specs.Orderly.{PlannerIsOrderly};
    ghost use Rattle.vortex_scan.specs.Plans.{Planned, PlannerFollowsPlan};

    /// Why a computation may fail.
    type Error: Drop;

    /// The morsels that it makes.
    type Morsel: Morsel<Payload = Self::Payload, Error = Self::Error>;

    // The state that it shows.
    ghost state_is: { Self → State };

    // What one computation may answer, and make of the planner.
    ghost computes: { Self → Result (PlannerOutput Self Self.Morsel) Self.Error → Self → Type 0 };

    // Whether the type tells what it owes, and then the entries that a planner still has to give over a content.
    ghost tells: { Type 0 } = { ⊥ };

    ghost owed: { Self → Content Self.Payload → List Entry } = { λ _ _. [] };

    // Whether a planner is orderly, and then the fetches that it has published and was not given, and a bound on its computations.
    ghost orderly: { Self → Type 0 } = { λ _. ⊥ };

    ghost asked: { Self → List IoRequest } = { λ _. [] };

    ghost work: { Self → ℕ } = { λ _. 1 };

    // Which errors are want of memory, and which a content permits a planner.
    ghost is_memory: { Self.Error → Bool } = { λ _. false };

    ghost permits: { Self → Content Self.Payload → Self.Error → Type 0 } = { λ _ _ _. Unit {0} };

    // Whether the type tells a plan, and then the morsels that a planner still makes, in order, over a content or over none.
    ghost plans: { Type 0 } = { ⊥ };

    ghost plan: { Self → Option (Content Self.Payload) → List Planned } = { λ _ _. [] };

    /// What it is about to do.
    fn state(&self) -> State
        ensures { result ≡ state_is self.now };

    /// One computation. It may be called where the state says so.
    fn compute(&mut self) -> Result<PlannerOutput<Self, Self::Morsel>, Self::Error>
        requires { state_is self.old ≡ State.NeedsCompute }
        ensures computes { computes self.old result self.new }
        ensures names { (number : IoRequestId) → Self.names self.new number ≡ Self.names self.old number };

    // The rules of each group.
    ghost owes: { tells → PlannerOwes Self.Payload.means Self.takes Self.names state_is computes owed Self.Morsel.owed };

    ghost is_orderly: { PlannerIsOrderly Self.Payload.means Self.takes state_is computes orderly asked work is_memory permits
        (record { orderly = Self.Morsel.orderly; asked = Self.Morsel.asked; work = Self.Morsel.work; permits = Self.Morsel.permits; state_is = Self.Morsel.state_is }) };

    ghost same_memory: { (error : Self.Error) → Self.Morsel.is_memory error ≡ is_memory error };

    ghost follows_plan: { plans → PlannerFollowsPlan state_is computes plan Self.Morsel.plan Self.Morsel.fresh };
}
