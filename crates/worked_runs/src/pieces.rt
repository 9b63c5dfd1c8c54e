// Planners and morsels that do what they are told, and chunks of one number.
ghost use Rattle.std.specs.Prelude.{◌≡◌, ℕ, None, refl};

use std::alloc::{AllocError, Global};
use std::ops::Range;
use vortex_array::RecordBatch;
use vortex_io::{
    IoBatch, IoConsumer, IoIntent, IoRequest, IoRequestId, IoResult, IoTarget, Payload,
};
use vortex_scan::{Morsel, MorselOutput, Planner, PlannerOutput, State, WorkScope};

/// A chunk of one number, which stands for it.
pub struct Cell {
    pub value: u64,
}

impl Drop for Cell {
    fn drop(self) {
        let Cell { value: _value } = self;
    }
}

impl Payload for Cell {
    ghost Meaning = { ℕ };

    ghost means = { λ cell. cell.value };

    fn copy(&self, _alloc: Global) -> Result<Cell, AllocError> {
        Ok(Cell { value: self.value })
    }
}

/// Why a piece fails: it was told to, or it has no memory.
#[derive(Clone, Copy, Debug, PartialEq, Eq)]
pub enum Failure {
    Told,
    Memory,
}

impl From<AllocError> for Failure {
    fn from(_failed: AllocError) -> Failure {
        Failure::Memory
    }
}

/// What a morsel does before it is done.
#[derive(Clone, Copy, Debug, PartialEq, Eq)]
pub enum Kind {
    /// Nothing.
    Nothing,
    /// It gives a batch of so many rows.
    Gives(u64),
    /// It fetches its split's chunk, and gives a batch of as many rows as the chunk's number.
    Fetches(u64),
    /// It fetches two chunks, and gives a batch of as many rows as their numbers together.
    FetchesTwo(u64, u64),
    /// It goes on so many times.
    GoesOn(u64),
    /// It publishes a batch without requests.
    PublishesNothing,
    /// It publishes a hint alone, and waits.
    Hints,
    /// It publishes two fetches of one number.
    PublishesTwice,
    /// It waits at once.
    Waits,
    /// It fails.
    Fails,
}

/// A morsel of a kind.
pub struct Piece {
    alloc: Global,
    kind: Kind,
    state: State,
    missing: u64,
    rows: u64,
}

impl Drop for Piece {
    fn drop(self) {
        let Piece {
            alloc: _alloc,
            kind: _kind,
            state: _state,
            missing: _missing,
            rows: _rows,
        } = self;
    }
}

// The scope of a split of one row.
fn scope_of(split: u64) -> WorkScope {
    let rows: Range<u64> = split..split.saturating_add(1);
    WorkScope {
        file_ordinal: 0,
        rows,
    }
}

fn state_for(kind: Kind) -> State {
    match kind {
        Kind::Waits => State::Waiting,
        _ => State::NeedsCompute,
    }
}

pub fn piece_of(alloc: Global, kind: Kind) -> Piece {
    Piece {
        alloc,
        kind,
        state: state_for(kind),
        missing: 0,
        rows: 0,
    }
}

// A request of a number for the first chunk of a split.
fn request(intent: IoIntent, number: u64, split: u64) -> IoRequest {
    IoRequest {
        intent,
        request: IoRequestId(number),
        target: IoTarget::Chunk { split, column: 0 },
    }
}

// A batch of rows without columns, which then ends the morsel's work.
fn batch_of(alloc: Global, rows: u64) -> Result<MorselOutput, Failure> {
    match RecordBatch::try_new(rows as usize, Vec::new(alloc)) {
        Ok(array) => Ok(MorselOutput::Batch(array)),
        Err(_) => Err(Failure::Memory),
    }
}

impl Piece {
    // Publishes two requests, and waits for so many results.
    fn publish(
        &mut self,
        first: IoRequest,
        second: Option<IoRequest>,
        missing: u64,
    ) -> Result<MorselOutput, Failure> {
        let mut batch = IoBatch::new(self.alloc);
        batch.push(first)?;
        if let Some(request) = second {
            batch.push(request)?;
        }
        self.missing = missing;
        self.kind = Kind::Gives(0);
        self.state = State::Waiting;
        Ok(MorselOutput::NeedsIO(batch))
    }

    // What it does next.
    fn next(&mut self) -> Result<MorselOutput, Failure> {
        match self.kind {
            Kind::Nothing => Ok(MorselOutput::Done),
            Kind::Waits => Ok(MorselOutput::Done),
            Kind::Gives(rows) => {
                self.kind = Kind::Nothing;
                batch_of(self.alloc, rows.saturating_add(self.rows))
            }
            Kind::GoesOn(0) => Ok(MorselOutput::Done),
            Kind::GoesOn(times) => {
                self.kind = Kind::GoesOn(times - 1);
                Ok(MorselOutput::Continue)
            }
            Kind::Fetches(split) => self.publish(request(IoIntent::Fetch, 0, split), None, 1),
            Kind::FetchesTwo(left, right) => self.publish(
                request(IoIntent::Fetch, 0, left),
                Some(request(IoIntent::Fetch, 1, right)),
                2,
            ),
            Kind::PublishesNothing => Ok(MorselOutput::NeedsIO(IoBatch::new(self.alloc))),
            Kind::Hints => self.publish(request(IoIntent::Prefetch, 0, 0), None, 1),
            Kind::PublishesTwice => self.publish(
                request(IoIntent::Fetch, 3, 0),
                Some(request(IoIntent::Fetch, 3, 1)),
                2,
            ),
            Kind::Fails => Err(Failure::Told),
        }
    }
}

impl IoConsumer for Piece {
    ghost use Rattle.vortex_io.specs.declared.ids.IoRequestId.{IoRequestId};

    type Payload = Cell;

    ghost takes = { λ _ _ _ _. Unit {0} };

    ghost names = { λ _ _. None };

    fn set_io_result(&mut self, request: IoRequestId, outcome: IoResult<Cell>)
        ensures takes { Unit {0} }
        ensures names { (number : IoRequestId) → (number ≡ number) }
    {
        let value = match outcome {
            IoResult::Chunk(cell) => cell.value,
            IoResult::Size(size) => size,
        };
        self.rows = self.rows.saturating_add(value);
        self.missing = self.missing.saturating_sub(1);
        if self.missing == 0 {
            self.state = State::NeedsCompute;
        }
    }
}

impl Morsel for Piece {
    ghost use Rattle.vortex_scan.specs.Orderly.{unordered_morsel};

    type Error = Failure;

    ghost state_is = { λ it. it.state };

    ghost computes = { λ _ _ _. Unit {0} };

    fn state(&self) -> State {
        self.state
    }

    fn compute(&mut self) -> Result<MorselOutput, Failure> {
        self.next()
    }

    ghost owes = { λ t. absurd t };

    ghost is_orderly = { unordered_morsel _ _ _ _ _ _ _ _ };

    ghost follows_plan = { λ t. absurd t };
}

/// What a planner does, one after another, before it is done.
#[derive(Clone, Copy, Debug, PartialEq, Eq)]
pub enum Order {
    /// It makes a morsel of a kind.
    Morsel(Kind),
    /// It makes a planner that makes one morsel of a kind.
    Planner(Kind),
    /// It goes on.
    Continue,
    /// It fetches the first chunk of a split, and waits for it.
    Fetch(u64),
    /// It publishes a batch without requests.
    Nothing,
    /// It fails.
    Fail,
}

/// A planner that is told what to do.
pub struct Told {
    alloc: Global,
    orders: Vec<Order>,
    at: usize,
    state: State,
}

impl Drop for Told {
    fn drop(self) {
        let Told {
            alloc: _alloc,
            orders: _orders,
            at: _at,
            state: _state,
        } = self;
    }
}

pub fn planner_of(alloc: Global, orders: &[Order]) -> Result<Told, AllocError> {
    Ok(Told {
        alloc,
        orders: Vec::from_slice(alloc, orders)?,
        at: 0,
        state: State::NeedsCompute,
    })
}

// A planner that makes one morsel.
fn of_one(alloc: Global, kind: Kind) -> Result<Told, AllocError> {
    planner_of(alloc, &[Order::Morsel(kind)])
}

impl Told {
    // Publishes one fetch, and waits for it.
    fn publish(&mut self, split: u64) -> Result<PlannerOutput<Told, Piece>, Failure> {
        let mut batch = IoBatch::new(self.alloc);
        batch.push(request(IoIntent::Fetch, 0, split))?;
        self.state = State::Waiting;
        Ok(PlannerOutput::NeedsIO(batch))
    }

    // Does what it is told next.
    fn next(&mut self) -> Result<PlannerOutput<Told, Piece>, Failure> {
        if self.at >= self.orders.len() {
            return Ok(PlannerOutput::Done);
        }
        let order = self.orders[self.at];
        let split = self.at as u64;
        self.at += 1;
        match order {
            Order::Morsel(kind) => Ok(PlannerOutput::Morsel(
                scope_of(split),
                piece_of(self.alloc, kind),
            )),
            Order::Planner(kind) => {
                let child = of_one(self.alloc, kind)?;
                Ok(PlannerOutput::Planner(scope_of(split), child))
            }
            Order::Continue => Ok(PlannerOutput::Continue),
            Order::Fetch(split) => self.publish(split),
            Order::Nothing => Ok(PlannerOutput::NeedsIO(IoBatch::new(self.alloc))),
            Order::Fail => Err(Failure::Told),
        }
    }
}

impl IoConsumer for Told {
    ghost use Rattle.vortex_io.specs.declared.ids.IoRequestId.{IoRequestId};

    type Payload = Cell;

    ghost takes = { λ _ _ _ _. Unit {0} };

    ghost names = { λ _ _. None };

    fn set_io_result(&mut self, request: IoRequestId, outcome: IoResult<Cell>)
        ensures takes { Unit {0} }
        ensures names { (number : IoRequestId) → (number ≡ number) }
    {
        self.state = State::NeedsCompute;
    }
}

impl Planner for Told {
    ghost use Rattle.std.specs.Prelude.{refl};
    ghost use Rattle.vortex_scan.specs.Orderly.{unordered_planner};

    type Error = Failure;

    type Morsel = Piece;

    ghost state_is = { λ it. it.state };

    ghost computes = { λ _ _ _. Unit {0} };

    fn state(&self) -> State {
        self.state
    }

    fn compute(&mut self) -> Result<PlannerOutput<Told, Piece>, Failure> {
        self.next()
    }

    ghost owes = { λ t. absurd t };

    ghost is_orderly = { unordered_planner _ _ _ _ _ _ _ _ _ };

    ghost same_memory = { λ error. refl };

    ghost follows_plan = { λ t. absurd t };
}
