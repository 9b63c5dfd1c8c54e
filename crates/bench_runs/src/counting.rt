// Planners that make morsels which count down, and fetch nothing.
ghost use Rattle.std.specs.Prelude.{◌≡◌, ℕ, None, refl};

use std::alloc::{AllocError, Global};
use vortex_io::{IoConsumer, IoRequestId, IoResult, Payload};
use vortex_scan::{Morsel, MorselOutput, Planner, PlannerOutput, State, WorkScope};

/// A chunk of one number.
pub struct Cell {
    pub value: u64,
}

impl Drop for Cell {
    fn drop(self) {
        let Cell { value: _value } = self;
    }
}

impl Payload for Cell {
    ghost Meaning = { ℕ };

    ghost means = { λ cell. cell.value };

    fn copy(&self, _alloc: Global) -> Result<Cell, AllocError> {
        Ok(Cell { value: self.value })
    }
}

/// A morsel that goes on so many times.
pub struct Counter {
    left: u64,
}

impl Drop for Counter {
    fn drop(self) {
        let Counter { left: _left } = self;
    }
}

impl IoConsumer for Counter {
    ghost use Rattle.vortex_io.specs.declared.ids.IoRequestId.{IoRequestId};

    type Payload = Cell;

    ghost takes = { λ _ _ _ _. Unit {0} };

    ghost names = { λ _ _. None };

    fn set_io_result(&mut self, request: IoRequestId, outcome: IoResult<Cell>)
        ensures takes { Unit {0} }
        ensures names { (number : IoRequestId) → (number ≡ number) }
    {}
}

impl Morsel for Counter {
    ghost use Rattle.std.specs.Prelude.{false};
    ghost use Rattle.vortex_scan.specs.Orderly.{unordered_morsel};
    ghost use Rattle.vortex_scan.specs.declared.state.State.TheVariants.{NeedsCompute};

    type Error = AllocError;

    ghost state_is = { λ _. NeedsCompute };

    ghost computes = { λ _ _ _. Unit {0} };

    fn state(&self) -> State {
        State::NeedsCompute
    }

    fn compute(&mut self) -> Result<MorselOutput, AllocError> {
        if self.left == 0 {
            return Ok(MorselOutput::Done);
        }
        self.left -= 1;
        Ok(MorselOutput::Continue)
    }

    ghost owes = { λ t. absurd t };

    ghost is_orderly = { unordered_morsel _ _ _ _ _ _ _ _ };

    ghost follows_plan = { λ t. absurd t };
}

/// A planner that makes so many morsels, each of which goes on so many times.
pub struct Maker {
    left: u64,
    times: u64,
}

impl Drop for Maker {
    fn drop(self) {
        let Maker {
            left: _left,
            times: _times,
        } = self;
    }
}

impl Maker {
    pub fn new(children: u64, times: u64) -> Maker {
        Maker {
            left: children,
            times,
        }
    }
}

impl IoConsumer for Maker {
    ghost use Rattle.vortex_io.specs.declared.ids.IoRequestId.{IoRequestId};

    type Payload = Cell;

    ghost takes = { λ _ _ _ _. Unit {0} };

    ghost names = { λ _ _. None };

    fn set_io_result(&mut self, request: IoRequestId, outcome: IoResult<Cell>)
        ensures takes { Unit {0} }
        ensures names { (number : IoRequestId) → (number ≡ number) }
    {}
}

impl Planner for Maker {
    ghost use Rattle.std.specs.Prelude.{refl};
    ghost use Rattle.vortex_scan.specs.Orderly.{unordered_planner};
    ghost use Rattle.vortex_scan.specs.declared.state.State.TheVariants.{NeedsCompute};

    type Error = AllocError;

    type Morsel = Counter;

    ghost state_is = { λ _. NeedsCompute };

    ghost computes = { λ _ _ _. Unit {0} };

    fn state(&self) -> State {
        State::NeedsCompute
    }

    fn compute(&mut self) -> Result<PlannerOutput<Maker, Counter>, AllocError> {
        if self.left == 0 {
            return Ok(PlannerOutput::Done);
        }
        self.left -= 1;
        let scope = WorkScope {
            file_ordinal: 0,
            rows: 0..0,
        };
        Ok(PlannerOutput::Morsel(scope, Counter { left: self.times }))
    }

    ghost owes = { λ t. absurd t };

    ghost is_orderly = { unordered_planner _ _ _ _ _ _ _ _ _ };

    ghost same_memory = { λ error. refl };

    ghost follows_plan = { λ t. absurd t };
}
