//! Runs of many visits under a C name, so that `bench/run` can time them.
#![tactic(auto)]

ghost use Rattle.std.specs.Prelude.{◌≡◌, ℕ, [], IfOk};

mod counting;

use counting::{Cell, Maker};
use std::alloc::{AllocError, Global};
use vortex_io::{Arrive, MemorySource, Order};
use vortex_scan::{Progress, Run, WorkScope};

// A source without chunks.
fn no_chunks(alloc: Global, arrive: Arrive) -> MemorySource<Cell>
    ensures { result.outstanding ≡ [] }
{
    MemorySource::new(alloc, Vec::new(alloc), arrive)
}

// A run of so many roots, each of which makes so many children that go on so many times.
fn admitted(
    alloc: Global,
    roots: u64,
    children: u64,
    times: u64,
    arrive: Arrive,
) -> Run<Maker, MemorySource<Cell>> {
    let mut run = Run::new(alloc);
    for _ in 0..roots {
        let scope = WorkScope {
            file_ordinal: 0,
            rows: 0..0,
        };
        let _ = run.admit(Maker::new(children, times), scope, no_chunks(alloc, arrive));
    }
    run
}

// How many roots are done as the run ends.
fn done(run: &mut Run<Maker, MemorySource<Cell>>) -> u64 {
    let mut done = 0u64;
    for _ in 0..u64::MAX {
        match run.advance() {
            Ok(Progress::RootDone(_)) => done = done.saturating_add(1),
            Ok(Progress::Batch(_)) => {}
            Ok(Progress::Waiting) => return done,
            Ok(Progress::Idle) => return done,
            Err(_) => return done,
        }
    }
    done
}

/// Takes a run to its end, of so many roots that make so many children each, which go on so many times. Sources complete on wait where
/// `waits` is 1, and else when they are polled. The answer is how many roots were done.
#[unsafe(no_mangle)]
pub extern "C" fn bench_run(
    alloc: Global,
    roots: u64,
    children: u64,
    times: u64,
    waits: u64,
) -> u64 {
    let arrive = if waits == 1 {
        Arrive::OnWait(Order::First)
    } else {
        Arrive::OnPoll(Order::First)
    };
    let mut run = admitted(alloc, roots, children, times, arrive);
    done(&mut run)
}
