// A planner that waits for nothing.
ghost use Rattle.std.specs.Prelude.{◌≡◌, None};

use crate::pieces::{Cell, Failure, Piece};
use vortex_io::{IoConsumer, IoRequestId, IoResult};
use vortex_scan::{Planner, PlannerOutput, State};

/// A planner that goes on once, and then waits, though it has fetched nothing.
#[derive(Drop)]
pub struct Waiter {
    waits: bool,
}

impl Waiter {
    /// A planner that does not wait yet.
    pub fn new() -> Waiter {
        Waiter { waits: false }
    }
}

impl IoConsumer for Waiter {
    ghost use Rattle.vortex_io.specs.declared.ids.IoRequestId.{IoRequestId};

    type Payload = Cell;

    ghost takes = { λ _ _ _ _. Unit {0} };

    ghost names = { λ _ _. None };

    fn set_io_result(&mut self, _request: IoRequestId, _outcome: IoResult<Cell>)
        ensures takes { Unit {0} }
        ensures names { (number : IoRequestId) → (number ≡ number) }
    {}
}

impl Planner for Waiter {
    ghost use Rattle.std.specs.Prelude.{cond, refl};
    ghost use Rattle.vortex_scan.specs.Orderly.{unordered_planner};
    ghost use Rattle.vortex_scan.specs.declared.state.State.TheVariants.{NeedsCompute, Waiting};

    type Error = Failure;

    type Morsel = Piece;

    ghost state_is = { λ it. cond it.waits Waiting NeedsCompute };

    ghost computes = { λ _ _ _. Unit {0} };

    fn state(&self) -> State {
        if self.waits {
            State::Waiting
        } else {
            State::NeedsCompute
        }
    }

    fn compute(&mut self) -> Result<PlannerOutput<Waiter, Piece>, Failure> {
        self.waits = true;
        Ok(PlannerOutput::Continue)
    }

    ghost owes = { λ told. absurd told };

    ghost is_orderly = { unordered_planner _ _ _ _ _ _ _ _ _ };

    ghost same_memory = { λ error. refl };

    ghost follows_plan = { λ told. absurd told };
}
