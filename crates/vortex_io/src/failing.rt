// A source that fails at listed calls.
ghost use Rattle.std.specs.Prelude.{◌≡◌};

use super::batch::IoBatch;
use super::ids::IoOwnerId;
use super::request::{Completion, IoError};
use super::source::IoSource;
use std::marker::Model;
use vortex_buffer::Buffer;

/// A source that passes calls on to another. Its calls of `submit`, `poll` and `wait` are numbered from 0 together, and a
/// listed one fails, is counted, and leaves the other source as it was.
pub struct FailingSource<S> {
    inner: S,
    failing: Buffer<u64>,
    calls: u64,
    own: u64,
}

impl<S: Drop> Drop for FailingSource<S> {
    fn drop(self) {
        let FailingSource {
            inner: _inner,
            failing: _failing,
            calls: _calls,
            own: _own,
        } = self;
    }
}

impl<S> Model for FailingSource<S> {
    ghost use Rattle.vortex_io.specs.Failing.{FailingState};

    ghost Value = { FailingState S };

    ghost view = { λ s. record { inner = s.inner; failing = s.failing; calls = s.calls; own = s.own } };
}

impl<S> FailingSource<S> {
    ghost use Rattle.vortex_io.specs.Failing.{FailsOr};

    /// A source over this one, which fails at these calls and made none yet. It takes no memory.
    pub fn new(inner: S, failing: Buffer<u64>) -> FailingSource<S>
        ensures { result ≡ record { inner = inner; failing = failing; calls = 0; own = 0 } }
    {
        FailingSource {
            inner,
            failing,
            calls: 0,
            own: 0,
        }
    }

    /// The source inside.
    pub fn inner(&self) -> &S
        ensures { result.now ≡ self.now.inner }
    {
        &self.inner
    }

    /// How often a listed call failed.
    pub fn own_faults(&self) -> u64
        ensures { result ≡ self.now.own }
    {
        self.own
    }

    // Numbers a call, and fails where it is listed.
    fn count_call(&mut self) -> Result<(), IoError>
        ensures { FailsOr (λ s r t. (r ≡ Ok tt) × (t ≡ s)) self.old result self.new }
    {
        let call = self.calls;
        self.calls = self.calls.saturating_add(1);
        if self.failing.as_slice().contains(&call) {
            self.own = self.own.saturating_add(1);
            return Err(IoError::Fault);
        }
        Ok(())
    }
}

impl<S: IoSource> IoSource for FailingSource<S> {
    ghost use Rattle.std.specs.Prelude.{false};
    ghost use Rattle.vortex_buffer.specs.Counts.{together};
    ghost use Rattle.vortex_io.specs.Failing.{FailsOr};

    type Payload = S::Payload;

    ghost outstanding = { λ s. S.outstanding s.inner };

    ghost content = { λ s. S.content s.inner };

    ghost journal = { λ s. S.journal s.inner };

    ghost faults = { λ s. together s.own (S.faults s.inner) };

    ghost lies = { λ s. S.lies s.inner };

    ghost quiet = { λ s. S.quiet s.inner };

    ghost stale = { λ s. S.stale s.inner };

    ghost sure = { λ _. false };

    ghost submits = { λ old owner batch result new. FailsOr (λ s r t. S.submits s owner batch r t) old result new };

    ghost polls = { FailsOr S.polls };

    ghost waits = { FailsOr S.waits };

    ghost releases = { λ old owner new. (S.releases old.inner owner new.inner) × (new ≡ record old { inner = new.inner }) };

    ghost clears = { λ old new. (S.clears old.inner new.inner) × (new ≡ record old { inner = new.inner }) };

    fn submit(&mut self, owner: IoOwnerId, batch: IoBatch) -> Result<(), IoError> {
        self.count_call()?;
        self.inner.submit(owner, batch)
    }

    fn poll(&mut self) -> Result<Option<Completion<S::Payload>>, IoError> {
        self.count_call()?;
        self.inner.poll()
    }

    fn wait(&mut self) -> Result<Completion<S::Payload>, IoError> {
        self.count_call()?;
        self.inner.wait()
    }

    fn release(&mut self, owner: IoOwnerId) {
        self.inner.release(owner);
    }

    fn clear(&mut self) {
        self.inner.clear();
    }
}
