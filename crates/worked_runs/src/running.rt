// What the cases share: sources of numbers, and runs that are taken to their end.
ghost use Rattle.std.specs.Prelude.{◌≡◌, ℕ, [], false, IfOk};
ghost use Rattle.vortex_scan.specs.Asking.{IsAsking};

use crate::pieces::{Cell, Order, Told, planner_of};
use std::alloc::{AllocError, Global};
use vortex_io::{Arrive, IoSource, MemorySource};
use vortex_scan::{Batch, Planner, Progress, RootId, Run, RunError, WorkScope};

pub type Runs = Run<Told, MemorySource<Cell>>;

/// A source whose splits have one chunk each, of these numbers.
pub fn cells(
    alloc: Global,
    arrive: Arrive,
    numbers: &[u64],
) -> Result<MemorySource<Cell>, AllocError>
    ensures { IfOk result (λ source. source.outstanding ≡ []) }
{
    let mut chunks = Vec::new(alloc);
    for number in numbers {
        let mut split = Vec::new(alloc);
        split.push(Cell { value: *number })?;
        chunks.push(split)?;
    }
    Ok(MemorySource::new(alloc, chunks, arrive))
}

/// A scope of no rows.
pub fn no_rows() -> WorkScope {
    WorkScope {
        file_ordinal: 0,
        rows: 0..0,
    }
}

/// Whether a root with these orders is admitted.
pub fn admitted(
    alloc: Global,
    run: &mut Runs,
    orders: &[Order],
    arrive: Arrive,
    numbers: &[u64],
) -> Result<bool, AllocError> {
    let source = cells(alloc, arrive, numbers)?;
    let root = planner_of(alloc, orders)?;
    Ok(run.admit(root, no_rows(), source).is_ok())
}

/// A run of one root with these orders.
pub fn one_root(
    alloc: Global,
    orders: &[Order],
    arrive: Arrive,
    numbers: &[u64],
) -> Result<Runs, AllocError> {
    let mut run = Run::new(alloc);
    let _ = admitted(alloc, &mut run, orders, arrive, numbers)?;
    Ok(run)
}

// Notes one number of a place.
fn note_number(alloc: Global, log: &mut String, number: u64) -> Result<(), AllocError> {
    let text = format!(in alloc; "{number}.")?;
    log.push_str(text.as_str())
}

/// Notes a batch by its place and its number of rows, as `0.1.=3`.
pub fn note_batch(alloc: Global, log: &mut String, batch: &Batch) -> Result<bool, AllocError> {
    for number in batch.place().as_slice() {
        note_number(alloc, log, *number)?;
    }
    let rows = batch.array().rows();
    let text = format!(in alloc; "={rows} ")?;
    log.push_str(text.as_str())?;
    Ok(true)
}

/// Why a run refused, by one word.
pub fn word<E>(error: &RunError<E>) -> &'static str {
    match error {
        RunError::RunFailed => "failed",
        RunError::Source(_) => "source",
        RunError::Protocol { .. } => "protocol",
        RunError::EmptyBatch => "empty-batch",
        RunError::EmptyIo => "empty-io",
        RunError::Republished => "republished",
        RunError::WaitsForNothing => "waits-for-nothing",
        RunError::Planner(_, _) => "planner",
        RunError::StepLimit => "step-limit",
        RunError::IdsExhausted => "ids-exhausted",
        RunError::NoLiveRoot => "no-live-root",
        RunError::OutOfMemory => "out-of-memory",
    }
}

// Notes why a run refused. Nothing more is to come.
fn note_refusal<E>(log: &mut String, error: &RunError<E>) -> Result<bool, AllocError> {
    log.push_str(word(error))?;
    Ok(false)
}

// Notes the end of a root.
fn note_done(alloc: Global, log: &mut String, root: RootId) -> Result<bool, AllocError> {
    let text = format!(in alloc; "done{} ", root.0)?;
    log.push_str(text.as_str())?;
    Ok(true)
}

// Notes what came. The answer is whether there is more to come.
fn note(alloc: Global, log: &mut String, progress: Progress) -> Result<bool, AllocError> {
    match progress {
        Progress::Batch(batch) => note_batch(alloc, log, &batch),
        Progress::RootDone(root) => note_done(alloc, log, root),
        Progress::Waiting => Ok(false),
        Progress::Idle => {
            log.push_str("idle")?;
            Ok(false)
        }
    }
}

// Waits for a source. The answer is whether there is more to come.
fn wait<P: Planner<Payload = Cell>, S: IoSource<Payload = Cell>>(
    run: &mut Run<P, S>,
    log: &mut String,
) -> Result<bool, AllocError>
    requires well { run.old.failed ≡ false }
    requires asking { (root : ℕ) × IsAsking run.old.live.items root }
{
    match run.wait_any() {
        Ok(()) => Ok(true),
        Err(error) => note_refusal(log, &error),
    }
}

// Goes on once, waits where it has to, and notes what came. The answer is whether there is more to come.
fn go_on<P: Planner<Payload = Cell>, S: IoSource<Payload = Cell>>(
    alloc: Global,
    run: &mut Run<P, S>,
    log: &mut String,
) -> Result<bool, AllocError> {
    match run.advance() {
        Ok(Progress::Waiting) => wait(run, log),
        Ok(progress) => note(alloc, log, progress),
        Err(error) => note_refusal(log, &error),
    }
}

/// Goes on once and notes what came.
pub fn note_next<P: Planner<Payload = Cell>, S: IoSource<Payload = Cell>>(
    alloc: Global,
    run: &mut Run<P, S>,
    log: &mut String,
) -> Result<bool, AllocError> {
    match run.advance() {
        Ok(progress) => note(alloc, log, progress),
        Err(error) => note_refusal(log, &error),
    }
}

/// Notes what a run gives until nothing is live or it is refused.
pub fn end_into<P: Planner<Payload = Cell>, S: IoSource<Payload = Cell>>(
    alloc: Global,
    run: &mut Run<P, S>,
    log: &mut String,
) -> Result<(), AllocError> {
    for _ in 0..500u64 {
        if !go_on(alloc, run, log)? {
            return Ok(());
        }
    }
    Ok(())
}

/// Whether a run gives this until nothing is live or it is refused.
pub fn ended_as<P: Planner<Payload = Cell>, S: IoSource<Payload = Cell>>(
    alloc: Global,
    run: &mut Run<P, S>,
    expected: &str,
) -> Result<bool, AllocError> {
    let mut log = String::new(alloc);
    end_into(alloc, run, &mut log)?;
    Ok(log.as_str() == expected)
}

/// Whether a run of one root gives this.
pub fn gives(
    alloc: Global,
    orders: &[Order],
    arrive: Arrive,
    numbers: &[u64],
    expected: &str,
) -> Result<bool, AllocError> {
    let mut run = one_root(alloc, orders, arrive, numbers)?;
    ended_as(alloc, &mut run, expected)
}

/// A run of two roots with these orders, over sources of the same numbers.
pub fn two_roots(
    alloc: Global,
    first: &[Order],
    second: &[Order],
    arrive: Arrive,
    numbers: &[u64],
) -> Result<Runs, AllocError> {
    let mut run = one_root(alloc, first, arrive, numbers)?;
    let _ = admitted(alloc, &mut run, second, arrive, numbers)?;
    Ok(run)
}
