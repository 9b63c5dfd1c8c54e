//! Sources in memory with many outstanding fetches, under a C name, so that `bench/sources` can time them.
#![tactic(auto)]

ghost use Rattle.std.specs.Prelude.{◌≡◌, ℕ};

use std::alloc::{AllocError, Global};
use vortex_io::{
    Arrive, IoBatch, IoError, IoIntent, IoOwnerId, IoRequest, IoRequestId, IoSource, IoTarget,
    MemorySource, Order, Payload,
};

// A chunk of one number.
struct Cell {
    value: u64,
}

impl Drop for Cell {
    fn drop(self) {
        let Cell { value: _value } = self;
    }
}

impl Payload for Cell {
    ghost Meaning = { ℕ };

    ghost means = { λ cell. cell.value };

    fn copy(&self, _alloc: Global) -> Result<Cell, AllocError> {
        Ok(Cell { value: self.value })
    }
}

// A source of one chunk, which completes fetches when it is polled.
fn one_chunk(alloc: Global, order: Order) -> Result<MemorySource<Cell>, AllocError> {
    let columns = Vec::from_array(alloc, [Cell { value: 7 }])?;
    let chunks = Vec::from_array(alloc, [columns])?;
    Ok(MemorySource::new(alloc, chunks, Arrive::OnPoll(order)))
}

// So many fetches of the one chunk, numbered from 0.
fn fetches(alloc: Global, count: u64) -> Result<IoBatch, AllocError> {
    let target = IoTarget::Chunk {
        split: 0,
        column: 0,
    };
    let mut batch = IoBatch::new(alloc);
    for request in 0..count {
        batch.push(IoRequest {
            intent: IoIntent::Fetch,
            request: IoRequestId(request),
            target,
        })?;
    }
    Ok(batch)
}

// The sum of the numbers of all completions, modulo 2^64.
fn drained(source: &mut MemorySource<Cell>) -> Result<u64, IoError> {
    let mut sum = 0u64;
    for _ in 0..source.journal().len() {
        if let Some(completion) = source.poll()? {
            sum = sum.wrapping_add(completion.request.0);
        }
    }
    Ok(sum)
}

// Submits so many fetches of an owner.
fn ask(
    alloc: Global,
    source: &mut MemorySource<Cell>,
    owner: IoOwnerId,
    count: u64,
) -> Result<(), IoError> {
    source.submit(owner, fetches(alloc, count)?)
}

fn asked_and_drained(alloc: Global, order: Order, count: u64) -> Result<u64, IoError> {
    let mut source = one_chunk(alloc, order)?;
    ask(alloc, &mut source, IoOwnerId(1), count)?;
    drained(&mut source)
}

/// Submits so many fetches in one batch and polls for each. Order 0 is the oldest first, 1 the latest, and any other number the
/// seed of a generator. The answer is the sum of the numbers of all completions, or 0 where a call was refused.
#[unsafe(no_mangle)]
pub extern "C" fn bench_drain(alloc: Global, order: u64, count: u64) -> u64 {
    let order = match order {
        0 => Order::First,
        1 => Order::Last,
        seed => Order::Seeded(seed),
    };
    match asked_and_drained(alloc, order, count) {
        Ok(sum) => sum,
        Err(_) => 0,
    }
}

/// Submits so many fetches of each of two owners, and releases the first of them. The answer is how many requests were noted.
#[unsafe(no_mangle)]
pub extern "C" fn bench_release(alloc: Global, count: u64) -> usize {
    match released(alloc, count) {
        Ok(noted) => noted,
        Err(_) => 0,
    }
}

fn released(alloc: Global, count: u64) -> Result<usize, IoError> {
    let mut source = one_chunk(alloc, Order::First)?;
    ask(alloc, &mut source, IoOwnerId(1), count)?;
    ask(alloc, &mut source, IoOwnerId(2), count)?;
    source.release(IoOwnerId(1));
    Ok(source.journal().len())
}
