// A source that lies at listed calls.
ghost use Rattle.std.specs.Prelude.{◌≡◌, []};

use super::batch::IoBatch;
use super::held::remove_fetches;
use super::ids::IoOwnerId;
use super::lies::Lies;
use super::request::{Completion, Fetch, IoError};
use super::source::IoSource;
use std::alloc::Global;
use std::collections::VecDeque;
use std::marker::Model;

/// A completion that is given at a call, whatever was asked for.
pub struct Lie<C> {
    pub call: u64,
    pub completion: Completion<C>,
}

impl<C: Drop> Drop for Lie<C> {
    fn drop(self) {
        let Lie {
            call: _call,
            completion: _completion,
        } = self;
    }
}

/// A source that passes calls on to another. Its calls of `poll` and `wait` are numbered from 0 together, and at a listed one
/// it gives a copy of the listed completion instead, of the first lie that names the call. It keeps for itself what is
/// outstanding, and counts each completion as a lie, since the other source's list and its own may come apart.
pub struct LyingSource<S: IoSource> {
    inner: S,
    own: Lies<S::Payload>,
}

impl<S: IoSource> Drop for LyingSource<S> {
    fn drop(self) {
        let LyingSource {
            inner: _inner,
            own: _own,
        } = self;
    }
}

impl<S: IoSource> Model for LyingSource<S> {
    ghost use Rattle.vortex_io.specs.Lying.{LyingState, AreCovered};

    ghost Value = { LyingState S S.Payload };

    ghost view = { λ s. record { inner = s.inner; lies = s.own.listed.items; calls = s.own.calls; own = s.own.answers; outstanding = s.own.outstanding.items } };

    ghost invariant = { λ s. AreCovered (S.outstanding s.inner) s.own.outstanding.items };
}

impl<S: IoSource> LyingSource<S> {
    /// A source over this one with these lies, and nothing outstanding. It takes no memory.
    pub fn new(alloc: Global, inner: S, lies: Vec<Lie<S::Payload>>) -> LyingSource<S>
        ensures { result ≡ record { inner = inner; lies = lies.items; calls = 0; own = 0; outstanding = [] } }
    {
        LyingSource {
            inner,
            own: Lies {
                alloc,
                listed: lies,
                calls: 0,
                answers: 0,
                outstanding: VecDeque::new(alloc),
            },
        }
    }
}

impl<S: IoSource> IoSource for LyingSource<S> {
    ghost use Rattle.std.specs.Prelude.{None, false};
    ghost use Rattle.vortex_buffer.specs.Counts.{together};
    ghost use Rattle.vortex_io.specs.Source.{without_owner};
    ghost use Rattle.vortex_io.specs.Lying.{SubmitsLying, PollsLying, WaitsLying};

    type Payload = S::Payload;

    ghost outstanding = { λ s. s.outstanding };

    ghost content = { λ s. S.content s.inner };

    ghost journal = { λ _. None };

    ghost faults = { λ s. S.faults s.inner };

    ghost lies = { λ s. together s.own (S.lies s.inner) };

    ghost quiet = { λ s. S.quiet s.inner };

    ghost stale = { λ s. S.stale s.inner };

    ghost sure = { λ _. false };

    ghost submits = { λ old owner batch result new. SubmitsLying (λ s r t. S.submits s owner batch r t) old owner batch result new };

    ghost polls = { PollsLying S.Payload.means S.polls };

    ghost waits = { WaitsLying S.Payload.means S.waits };

    ghost releases = { λ old owner new. (S.releases old.inner owner new.inner) × (new ≡ record old { inner = new.inner; outstanding = without_owner owner old.outstanding }) };

    ghost clears = { λ old new. (S.clears old.inner new.inner) × (new ≡ record old { inner = new.inner; outstanding = [] }) };

    fn submit(&mut self, owner: IoOwnerId, batch: IoBatch) -> Result<(), IoError> {
        let count = self.own.outstanding.len();
        self.own.add(owner, batch.as_slice())?;
        match self.inner.submit(owner, batch) {
            Ok(()) => Ok(()),
            Err(error) => {
                self.own.outstanding.truncate(count);
                Err(error)
            }
        }
    }

    fn poll(&mut self) -> Result<Option<Completion<S::Payload>>, IoError> {
        let answer = match self.own.next() {
            Ok(Some(lie)) => lie,
            Ok(None) => match self.inner.poll() {
                Ok(Some(answer)) => answer,
                Ok(None) => return Ok(None),
                Err(error) => return Err(error),
            },
            Err(error) => return Err(error),
        };
        Ok(Some(self.own.counted(answer)))
    }

    fn wait(&mut self) -> Result<Completion<S::Payload>, IoError> {
        let answer = match self.own.next()? {
            Some(lie) => lie,
            None => self.inner.wait()?,
        };
        Ok(self.own.counted(answer))
    }

    fn release(&mut self, owner: IoOwnerId) {
        remove_fetches(&mut self.own.outstanding, owner);
        self.inner.release(owner);
    }

    fn clear(&mut self) {
        self.own.outstanding.clear();
        self.inner.clear();
    }
}
