// A source that finds no memory.
ghost use Rattle.std.specs.Prelude.{◌≡◌, IfErr};

use crate::pieces::{Cell, Kind, Order, Told, planner_of};
use crate::running::{cells, ended_as, no_rows};
use std::alloc::{AllocError, Global};
use std::test::Fail;
use vortex_io::{
    Arrive, Completion, IoBatch, IoError, IoOwnerId, IoSource, MemorySource, Order as Arrival,
};
use vortex_scan::Run;

/// A source that passes calls on to another, and finds no memory once so many were made.
pub struct Scarce<S> {
    inner: S,
    left: u64,
}

impl<S: Drop> Drop for Scarce<S> {
    fn drop(self) {
        let Scarce {
            inner: _inner,
            left: _left,
        } = self;
    }
}

impl<S> Scarce<S> {
    // Counts a call, or finds no memory.
    fn count_call(&mut self) -> Result<(), IoError>
        ensures kept { self.new.inner ≡ self.old.inner }
        ensures cause { IfErr result (λ error. error ≡ IoError.OutOfMemory) }
    {
        if self.left == 0 {
            return Err(IoError::OutOfMemory);
        }
        self.left -= 1;
        Ok(())
    }
}

impl<S: IoSource> IoSource for Scarce<S> {
    type Payload = S::Payload;

    ghost outstanding = { λ s. S.outstanding s.inner };

    ghost content = { λ s. S.content s.inner };

    ghost journal = { λ s. S.journal s.inner };

    ghost faults = { λ s. S.faults s.inner };

    ghost lies = { λ s. S.lies s.inner };

    ghost quiet = { λ s. S.quiet s.inner };

    ghost stale = { λ s. S.stale s.inner };

    ghost sure = { λ s. S.sure s.inner };

    fn submit(&mut self, owner: IoOwnerId, batch: IoBatch) -> Result<(), IoError> {
        self.count_call()?;
        self.inner.submit(owner, batch)
    }

    fn poll(&mut self) -> Result<Option<Completion<S::Payload>>, IoError> {
        self.count_call()?;
        self.inner.poll()
    }

    fn wait(&mut self) -> Result<Completion<S::Payload>, IoError> {
        self.count_call()?;
        self.inner.wait()
    }

    fn release(&mut self, owner: IoOwnerId) {
        self.inner.release(owner);
    }

    fn clear(&mut self) {
        self.inner.clear();
    }
}

// Whether a run of one morsel that fetches gives this, if its source finds no memory after so many calls.
fn given(alloc: Global, calls: u64, expected: &str) -> Result<bool, AllocError> {
    let mut run: Run<Told, Scarce<MemorySource<Cell>>> = Run::new(alloc);
    join(alloc, &mut run, calls)?;
    ended_as(alloc, &mut run, expected)
}

// Admits a root of one morsel that fetches, over such a source.
fn join(
    alloc: Global,
    run: &mut Run<Told, Scarce<MemorySource<Cell>>>,
    calls: u64,
) -> Result<(), AllocError> {
    let inner = cells(alloc, Arrive::OnWait(Arrival::First), &[4])?;
    let root = planner_of(alloc, &[Order::Morsel(Kind::Fetches(0))])?;
    let _ = run.admit(root, no_rows(), Scarce { inner, left: calls });
    Ok(())
}

// A poll, a batch, a poll and a wait come first.
#[test]
fn a_source_without_memory_is_told(rt: HostRuntime) -> Result<(), Fail> {
    let cases = [
        (0, "out-of-memory"),
        (1, "out-of-memory"),
        (2, "out-of-memory"),
        (3, "out-of-memory"),
        (9, "0.0.=4 done0 idle"),
    ];
    for (calls, expected) in cases {
        assert!(rt; given(rt.alloc(), calls, expected)?);
    }
    Ok(())
}
