// A source of one's own.
ghost use Rattle.std.specs.Prelude.{◌≡◌};

use vortex_io::{Completion, IoBatch, IoError, IoOwnerId, IoSource};

/// A source that passes each call on to another, and counts what came.
pub(crate) struct Counted<S> {
    inner: S,
    came: u64,
}

impl<S: Drop> Drop for Counted<S> {
    fn drop(self) {
        let Counted {
            inner: _inner,
            came: _came,
        } = self;
    }
}

impl<S> Counted<S> {
    pub(crate) fn new(inner: S) -> Counted<S>
        ensures { result ≡ record { inner = inner; came = 0 } }
    {
        Counted { inner, came: 0 }
    }

    /// How many completions came.
    pub(crate) fn came(&self) -> u64
        ensures { result ≡ self.now.came }
    {
        self.came
    }
}

impl<S: IoSource> IoSource for Counted<S> {
    type Payload = S::Payload;

    ghost outstanding = { λ s. S.outstanding s.inner };

    ghost content = { λ s. S.content s.inner };

    ghost journal = { λ s. S.journal s.inner };

    ghost faults = { λ s. S.faults s.inner };

    ghost lies = { λ s. S.lies s.inner };

    ghost quiet = { λ s. S.quiet s.inner };

    ghost stale = { λ s. S.stale s.inner };

    ghost sure = { λ s. S.sure s.inner };

    fn submit(&mut self, owner: IoOwnerId, batch: IoBatch) -> Result<(), IoError> {
        self.inner.submit(owner, batch)
    }

    fn poll(&mut self) -> Result<Option<Completion<S::Payload>>, IoError> {
        let answer = self.inner.poll()?;
        if answer.is_some() {
            self.came = self.came.saturating_add(1);
        }
        Ok(answer)
    }

    fn wait(&mut self) -> Result<Completion<S::Payload>, IoError> {
        let completion = self.inner.wait()?;
        self.came = self.came.saturating_add(1);
        Ok(completion)
    }

    fn release(&mut self, owner: IoOwnerId) {
        self.inner.release(owner);
    }

    fn clear(&mut self) {
        self.inner.clear();
    }
}
