//! The squares of some numbers, fetched one by one and given as batches: a planner, a morsel and a source of one's own, under a driver.
//! `docs/RUNS.md` walks through it.
#![tactic(auto)]

mod counted;
mod problem;
mod showing;
mod squares;

use counted::Counted;
use problem::Problem;
use squares::{Square, Squares};
use std::alloc::{AllocError, Global};
use std::io;
use vortex_io::{Arrive, MemorySource, Order};
use vortex_scan::{Driver, DriverRun, next_fn};

// Chunks in memory: the chunk of each split is its number's square.
fn chunks(alloc: Global, splits: u64) -> Result<Vec<Vec<Square>>, AllocError> {
    let mut chunks = Vec::new(alloc);
    for split in 0..splits {
        let mut columns = Vec::new(alloc);
        columns.push(Square {
            number: split.saturating_mul(split),
        })?;
        chunks.push(columns)?;
    }
    Ok(chunks)
}

// A source of these chunks, which answers the latest fetch first, and counts what it gave.
fn source(alloc: Global, splits: u64) -> Result<Counted<MemorySource<Square>>, AllocError> {
    let inner = MemorySource::new(alloc, chunks(alloc, splits)?, Arrive::OnWait(Order::Last));
    Ok(Counted::new(inner))
}

// A planner of so many splits, which are to be few.
fn root(alloc: Global, splits: u64) -> Result<Squares, Problem> {
    let few = next_fn(|splits: u64| {
        if splits > 9 {
            Err(Problem::TooMany)
        } else {
            Ok(Squares::new(alloc, splits))
        }
    });
    few.call(splits)
}

// Drives the planner to its end.
fn drive(alloc: Global, splits: u64) -> Result<String, Problem> {
    let root = root(alloc, splits)?;
    let driver = Driver::new(alloc, source(alloc, splits)?).with_step_limit(100);
    let DriverRun { source, answer } = driver.run(root);
    let batches = match answer {
        Ok(batches) => batches,
        Err(error) => return Err(Problem::of(error)),
    };
    Ok(showing::report(alloc, &batches, source.came())?)
}

fn main(rt: HostRuntime) -> io::Result<()> {
    match drive(rt.alloc(), 4) {
        Ok(text) => print!(rt; "{text}"),
        Err(problem) => {
            let name = problem.name();
            eprintln!(rt; "{name}")
        }
    }
}
