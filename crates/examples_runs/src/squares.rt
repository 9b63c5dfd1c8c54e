// A planner and a morsel of one's own.
ghost use Rattle.std.specs.Prelude.{◌≡◌, ℕ, None};

use crate::problem::Problem;
use std::alloc::{AllocError, Global};
use vortex_array::{Array, PrimitiveArray, PrimitiveBuffer, RecordBatch, Validity};
use vortex_buffer::Buffer;
use vortex_io::{
    IoBatch, IoConsumer, IoIntent, IoRequest, IoRequestId, IoResult, IoTarget, Payload,
};
use vortex_scan::{Morsel, MorselOutput, Planner, PlannerOutput, State, WorkScope};

/// A chunk: one number, which it stands for.
pub(crate) struct Square {
    pub number: u64,
}

impl Drop for Square {
    fn drop(self) {
        let Square { number: _number } = self;
    }
}

impl Payload for Square {
    ghost Meaning = { ℕ };

    ghost means = { λ square. square.number };

    fn copy(&self, _alloc: Global) -> Result<Square, AllocError> {
        Ok(Square {
            number: self.number,
        })
    }
}

/// A planner of some splits: it makes a morsel of each, the first one first, and fetches nothing itself.
pub(crate) struct Squares {
    alloc: Global,
    next: u64,
    end: u64,
}

impl Drop for Squares {
    fn drop(self) {
        let Squares {
            alloc: _alloc,
            next: _next,
            end: _end,
        } = self;
    }
}

impl Squares {
    pub(crate) fn new(alloc: Global, splits: u64) -> Squares {
        Squares {
            alloc,
            next: 0,
            end: splits,
        }
    }
}

impl IoConsumer for Squares {
    ghost use Rattle.vortex_io.specs.declared.ids.IoRequestId.{IoRequestId};

    type Payload = Square;

    ghost takes = { λ _ _ _ _. Unit {0} };

    ghost names = { λ _ _. None };

    fn set_io_result(&mut self, _request: IoRequestId, _outcome: IoResult<Square>)
        ensures takes { Unit {0} }
        ensures names { (number : IoRequestId) → (number ≡ number) }
    {}
}

impl Planner for Squares {
    ghost use Rattle.std.specs.Prelude.{refl};
    ghost use Rattle.vortex_scan.specs.Orderly.{unordered_planner};
    ghost use Rattle.vortex_scan.specs.declared.state.State.TheVariants.{NeedsCompute};

    type Error = Problem;

    type Morsel = Part;

    ghost state_is = { λ _. NeedsCompute };

    ghost computes = { λ _ _ _. Unit {0} };

    fn state(&self) -> State {
        State::NeedsCompute
    }

    fn compute(&mut self) -> Result<PlannerOutput<Squares, Part>, Problem> {
        if self.next >= self.end {
            return Ok(PlannerOutput::Done);
        }
        let split = self.next;
        self.next += 1;
        let scope = WorkScope {
            file_ordinal: 0,
            rows: split..self.next,
        };
        Ok(PlannerOutput::Morsel(scope, Part::new(self.alloc, split)))
    }

    ghost owes = { λ told. absurd told };

    ghost is_orderly = { unordered_planner _ _ _ _ _ _ _ _ _ };

    ghost same_memory = { λ error. refl };

    ghost follows_plan = { λ told. absurd told };
}

/// A morsel of one split: it fetches the split's chunk, waits for it, and gives its number as a batch of one row.
pub(crate) struct Part {
    alloc: Global,
    split: u64,
    number: Option<u64>,
    state: State,
}

impl Drop for Part {
    fn drop(self) {
        let Part {
            alloc: _alloc,
            split: _split,
            number: _number,
            state: _state,
        } = self;
    }
}

impl Part {
    fn new(alloc: Global, split: u64) -> Part {
        Part {
            alloc,
            split,
            number: None,
            state: State::NeedsCompute,
        }
    }

    // Publishes the one fetch, and waits for it.
    fn fetch(&mut self) -> Result<MorselOutput, Problem> {
        let mut batch = IoBatch::new(self.alloc);
        batch.push(IoRequest {
            intent: IoIntent::Fetch,
            request: IoRequestId(0),
            target: IoTarget::Chunk {
                split: self.split,
                column: 0,
            },
        })?;
        self.state = State::Waiting;
        Ok(MorselOutput::NeedsIO(batch))
    }

    // Gives the number, and is done.
    fn give(&mut self, number: u64) -> Result<MorselOutput, Problem> {
        let values = PrimitiveBuffer::U64(Buffer::from_slice(self.alloc, &[number])?);
        let Ok(array) = PrimitiveArray::try_new(values, Validity::NonNullable) else {
            return Err(Problem::Refused);
        };
        let mut columns = Vec::new(self.alloc);
        if columns.push(Array::Primitive(array)).is_err() {
            return Err(Problem::OutOfMemory);
        }
        let Ok(rows) = RecordBatch::try_new(1, columns) else {
            return Err(Problem::Refused);
        };
        self.state = State::Done;
        Ok(MorselOutput::Batch(rows))
    }
}

impl IoConsumer for Part {
    ghost use Rattle.vortex_io.specs.declared.ids.IoRequestId.{IoRequestId};

    type Payload = Square;

    ghost takes = { λ _ _ _ _. Unit {0} };

    ghost names = { λ _ _. None };

    fn set_io_result(&mut self, _request: IoRequestId, outcome: IoResult<Square>)
        ensures takes { Unit {0} }
        ensures names { (number : IoRequestId) → (number ≡ number) }
    {
        if let IoResult::Chunk(square) = outcome {
            self.number = Some(square.number);
        }
        self.state = State::NeedsCompute;
    }
}

impl Morsel for Part {
    ghost use Rattle.vortex_scan.specs.Orderly.{unordered_morsel};

    type Error = Problem;

    ghost state_is = { λ it. it.state };

    ghost computes = { λ _ _ _. Unit {0} };

    fn state(&self) -> State {
        self.state
    }

    fn compute(&mut self) -> Result<MorselOutput, Problem> {
        match self.number {
            None => self.fetch(),
            Some(number) => self.give(number),
        }
    }

    ghost owes = { λ told. absurd told };

    ghost is_orderly = { unordered_morsel _ _ _ _ _ _ _ _ };

    ghost follows_plan = { λ told. absurd told };
}
