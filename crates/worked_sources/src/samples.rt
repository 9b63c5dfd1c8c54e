// What the cases share: chunks of one number, batches, and what a source answered.
ghost use Rattle.std.specs.Prelude.{◌≡◌, ℕ, ◌+◌, ◌<◌, ◌≤◌, filter, length, IfOk, IsSome};
ghost use Rattle.vortex_io.specs.Source.{chunk_at, is_fetch};

use std::alloc::{AllocError, Global};
use vortex_io::{
    Arrive, Completion, IoBatch, IoError, IoIntent, IoOwnerId, IoRequest, IoRequestId, IoResult,
    IoSource, IoTarget, MemorySource, Payload,
};

/// A chunk of one number, which stands for it.
pub struct Cell {
    pub value: u64,
}

impl Drop for Cell {
    fn drop(self) {
        let Cell { value: _value } = self;
    }
}

impl Payload for Cell {
    ghost Meaning = { ℕ };

    ghost means = { λ cell. cell.value };

    fn copy(&self, _alloc: Global) -> Result<Cell, AllocError> {
        Ok(Cell { value: self.value })
    }
}

/// What a call answered: a completion by its owner, its number and what it gave, nothing, a fault or want of memory.
#[derive(Clone, Copy, Debug, PartialEq, Eq)]
pub enum Told {
    Given(u64, u64, u64),
    Nothing,
    Fault,
    Memory,
}

// The completions of fetches, the numbers of whose owners and requests are told.
pub fn given(completion: &Completion<Cell>) -> Told {
    let value = match &completion.result {
        IoResult::Chunk(cell) => cell.value,
        IoResult::Size(size) => *size,
    };
    Told::Given(completion.owner.0, completion.request.0, value)
}

pub fn refusal(error: IoError) -> Told {
    match error {
        IoError::Fault => Told::Fault,
        IoError::OutOfMemory => Told::Memory,
    }
}

/// What a poll answers.
pub fn poll<S: IoSource<Payload = Cell>>(source: &mut S) -> Told {
    match source.poll() {
        Ok(Some(completion)) => given(&completion),
        Ok(None) => Told::Nothing,
        Err(error) => refusal(error),
    }
}

/// What a wait answers. Something is outstanding.
#[tactic(auto, using(crate::proofs::Waits::one_left))]
pub fn wait<S: IoSource<Payload = Cell>>(source: &mut S) -> Told
    requires { 0 < length (S.outstanding source.old) }
    ensures { length (S.outstanding source.old) ≤ length (S.outstanding source.new) + 1 }
{
    match source.wait() {
        Ok(completion) => given(&completion),
        Err(error) => refusal(error),
    }
}

/// Whether polls answer these in turn.
pub fn polls_as<S: IoSource<Payload = Cell>>(source: &mut S, expected: &[Told]) -> bool {
    for wanted in expected {
        if poll(source) != *wanted {
            return false;
        }
    }
    true
}

/// Whether waits answer these in turn.
pub fn waits_as<S: IoSource<Payload = Cell>>(source: &mut S, expected: &[Told]) -> bool
    requires { length expected.now ≤ length (S.outstanding source.old) }
{
    for wanted in expected {
        if wait(source) != *wanted {
            return false;
        }
    }
    true
}

/// Whether a batch of this owner is taken, and waits then answer these in turn.
pub fn asked_waits_as<S: IoSource<Payload = Cell>>(
    source: &mut S,
    owner: u64,
    batch: IoBatch,
    expected: &[Told],
) -> bool
    requires { length expected.now ≤ length (filter is_fetch batch) }
{
    source.submit(IoOwnerId(owner), batch).is_ok() && waits_as(source, expected)
}

/// Whether a batch of this owner is taken, and polls then answer these in turn.
pub fn asked_polls_as<S: IoSource<Payload = Cell>>(
    source: &mut S,
    owner: u64,
    batch: IoBatch,
    expected: &[Told],
) -> bool {
    source.submit(IoOwnerId(owner), batch).is_ok() && polls_as(source, expected)
}

/// Two splits of two columns: 10, 11 and 20, 21.
pub fn cells(alloc: Global, arrive: Arrive) -> Result<MemorySource<Cell>, AllocError>
    ensures { IfOk result (λ source. IsSome (chunk_at source.chunks 1 1)) }
{
    let first = Vec::from_array(alloc, [Cell { value: 10 }, Cell { value: 11 }])?;
    let second = Vec::from_array(alloc, [Cell { value: 20 }, Cell { value: 21 }])?;
    let chunks = Vec::from_array(alloc, [first, second])?;
    Ok(MemorySource::new(alloc, chunks, arrive))
}

pub fn asks(intent: IoIntent, request: u64, target: IoTarget) -> IoRequest
    ensures { result ≡ record { intent = intent; request = record { 0 = request }; target = target } }
{
    IoRequest {
        intent,
        request: IoRequestId(request),
        target,
    }
}

/// Fetches of the chunks 11, 20, 21, and the size, and 10, numbered from 0, with hints between them.
pub fn five(alloc: Global) -> Result<IoBatch, AllocError>
    ensures { IfOk result (λ batch. length (filter is_fetch batch) ≡ 5) }
{
    let far = IoTarget::Chunk {
        split: 9,
        column: 9,
    };
    let mut batch = IoBatch::new(alloc);
    batch.push(asks(IoIntent::Fetch, 0, chunk(0, 1)))?;
    batch.push(asks(IoIntent::Prefetch, 7, far))?;
    batch.push(asks(IoIntent::Fetch, 1, chunk(1, 0)))?;
    batch.push(asks(IoIntent::Fetch, 2, chunk(1, 1)))?;
    batch.push(asks(IoIntent::Announce, 8, far))?;
    batch.push(asks(IoIntent::Fetch, 3, IoTarget::Size))?;
    batch.push(asks(IoIntent::Fetch, 4, chunk(0, 0)))?;
    Ok(batch)
}

/// One fetch of this number.
pub fn one(alloc: Global, request: u64, target: IoTarget) -> Result<IoBatch, AllocError>
    ensures { IfOk result (λ batch. length (filter is_fetch batch) ≡ 1) }
{
    let mut batch = IoBatch::new(alloc);
    batch.push(asks(IoIntent::Fetch, request, target))?;
    Ok(batch)
}

pub fn chunk(split: u64, column: u64) -> IoTarget
    ensures { result ≡ IoTarget.Chunk split column }
{
    IoTarget::Chunk { split, column }
}
