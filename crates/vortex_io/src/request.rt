// What is asked of a source, and what it answers.
ghost use Rattle.std.specs.Prelude.{◌≡◌};

use super::ids::{IoOwnerId, IoRequestId};
use std::alloc::{AllocError, AllocFailed};
use thiserror::Error;

/// How much a request is wanted.
#[derive(Clone, Copy, Debug, PartialEq, Eq)]
pub enum IoIntent {
    /// A completion is owed.
    Fetch,
    /// The source may read it ahead. No completion is owed.
    Prefetch,
    /// A fetch of it may follow. No completion is owed.
    Announce,
}

/// What is requested.
#[derive(Clone, Copy, Debug, PartialEq, Eq)]
pub enum IoTarget {
    /// The chunk of a column in a split, both numbered from 0.
    Chunk { split: u64, column: u64 },
    /// The number of splits.
    Size,
}

/// One request of an owner.
#[derive(Clone, Copy, Debug, PartialEq, Eq)]
pub struct IoRequest {
    pub intent: IoIntent,
    pub request: IoRequestId,
    pub target: IoTarget,
}

/// What a source keeps of a fetch until it is completed: whose it is, which of the owner's requests, and its target.
#[derive(Clone, Copy, Debug, PartialEq, Eq)]
pub struct Fetch {
    pub owner: IoOwnerId,
    pub request: IoRequestId,
    pub target: IoTarget,
}

/// What a fetch gave.
#[derive(Drop)]
pub enum IoResult<C> {
    /// A chunk.
    Chunk(C),
    /// The number of splits.
    Size(u64),
}

impl<C> IoResult<C> {
    ghost use Rattle.vortex_io.specs.Source.{is_of_kind};

    /// Whether this is of the target's kind: a chunk for a chunk, a number for the size.
    pub fn matches(&self, target: &IoTarget) -> bool
        ensures { result ≡ is_of_kind target.now self.now }
    {
        match (self, target) {
            (IoResult::Chunk(_), IoTarget::Chunk { .. }) => true,
            (IoResult::Size(_), IoTarget::Size) => true,
            _ => false,
        }
    }
}

/// The answer to one fetch.
#[derive(Drop)]
pub struct Completion<C> {
    pub owner: IoOwnerId,
    pub request: IoRequestId,
    pub result: IoResult<C>,
}

/// Why a source refused a call.
#[derive(Clone, Copy, Debug, PartialEq, Eq, Error)]
pub enum IoError {
    /// The source failed, and counted it.
    #[error("the source failed")]
    Fault,
    /// There was not enough memory.
    #[error("out of memory")]
    OutOfMemory,
}

impl From<AllocError> for IoError {
    ghost use Rattle.vortex_io.specs.declared.request.IoError.TheVariants.{OutOfMemory};

    ghost from_gives = { λ _ error. error ≡ OutOfMemory };

    fn from(_failed: AllocError) -> IoError {
        IoError::OutOfMemory
    }
}

impl<T: Drop> From<AllocFailed<T>> for IoError {
    ghost use Rattle.vortex_io.specs.declared.request.IoError.TheVariants.{OutOfMemory};

    ghost from_gives = { λ _ error. error ≡ OutOfMemory };

    fn from(_failed: AllocFailed<T>) -> IoError {
        IoError::OutOfMemory
    }
}

/// What a source notes of a call that succeeded.
#[derive(Clone, Copy, Debug, PartialEq, Eq)]
pub enum JournalEntry {
    /// A request that was submitted, of whatever intent.
    Submitted(IoOwnerId, IoRequest),
    /// A wait.
    Waited,
}
