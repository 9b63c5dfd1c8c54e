// What a run answers, and why it refuses.
use std::alloc::AllocError;
use std::{error, fmt};
use thiserror::Error;
use vortex_io::{IoOwnerId, IoRequestId};
use vortex_scan_types::{Batch, RootId};

/// What taking a run forward came to.
#[derive(Drop)]
pub enum Progress {
    /// A batch.
    Batch(Batch),
    /// A root's last item is done.
    RootDone(RootId),
    /// Every live item waits for what it fetches.
    Waiting,
    /// No item is live.
    Idle,
}

/// What one visit came to.
#[derive(Drop)]
pub enum Visited {
    /// The item went on, parked or left.
    Went,
    /// The item gave a batch.
    Batch(Batch),
    /// The item was its root's last, and left.
    RootDone(RootId),
}

/// Why a root was not admitted.
#[derive(Clone, Copy, Debug, PartialEq, Eq, Error)]
pub enum AdmitError {
    /// The run has failed, or its sources were taken.
    #[error("the run has failed")]
    RunFailed,
    /// No root or owner number is left.
    #[error("no number is left")]
    IdsExhausted,
    /// There was not enough memory.
    #[error("out of memory")]
    OutOfMemory,
}

/// A root that was not admitted, with its source.
#[derive(Drop)]
pub struct Refused<P, S> {
    pub planner: P,
    pub source: S,
    pub error: AdmitError,
}

/// Why a run refused a call. Each but `NoLiveRoot` fails the run.
#[derive(Debug, Drop)]
pub enum RunError<E> {
    /// The run has failed before, or its sources were taken.
    RunFailed,
    /// The source of a live root failed.
    Source(RootId),
    /// A completion that no live item of its root expects.
    Protocol {
        root: RootId,
        owner: IoOwnerId,
        request: IoRequestId,
    },
    /// A batch without rows.
    EmptyBatch,
    /// A publication without requests.
    EmptyIo,
    /// A fetch was published under a number that is outstanding.
    Republished,
    /// An item waits with nothing outstanding.
    WaitsForNothing,
    /// A planner or a morsel of a root failed.
    Planner(RootId, E),
    /// The limit of visits is reached.
    StepLimit,
    /// No owner number is left for a child.
    IdsExhausted,
    /// No root is live.
    NoLiveRoot,
    /// There was not enough memory.
    OutOfMemory,
}

impl<E> RunError<E> {
    // What happened, without the root that it happened to.
    fn text(&self) -> &'static str {
        match self {
            RunError::RunFailed => "the run has failed",
            RunError::Source(_) => "a source failed",
            RunError::Protocol { .. } => "a completion that is not expected",
            RunError::EmptyBatch => "a batch without rows",
            RunError::EmptyIo => "a publication without requests",
            RunError::Republished => "a fetch was published under a number that is outstanding",
            RunError::WaitsForNothing => "an item waits for nothing",
            RunError::Planner(_, _) => "a planner or a morsel failed",
            RunError::StepLimit => "the limit of visits is reached",
            RunError::IdsExhausted => "no owner number is left",
            RunError::NoLiveRoot => "no root is live",
            RunError::OutOfMemory => "out of memory",
        }
    }

    // The root that it happened to, where one is named.
    fn root(&self) -> Option<RootId> {
        match self {
            RunError::Source(root) => Some(*root),
            RunError::Protocol { root, .. } => Some(*root),
            RunError::Planner(root, _) => Some(*root),
            _ => None,
        }
    }
}

impl<E> fmt::Display for RunError<E> {
    fn fmt<W: fmt::Write>(&self, f: &mut fmt::Formatter<W>) -> fmt::Result {
        let text = self.text();
        match self.root() {
            None => write!(f, "{text}"),
            Some(root) => {
                let number = root.0;
                write!(f, "{text}: root {number}")
            }
        }
    }
}

impl<E: fmt::Debug + Drop> error::Error for RunError<E> {}

impl<E> From<AllocError> for RunError<E> {
    ghost use Rattle.std.specs.Prelude.{◌≡◌};
    ghost use Rattle.vortex_scan.specs.declared.errors.RunError.TheVariants.{OutOfMemory};

    ghost from_gives = { λ _ error. error ≡ OutOfMemory };

    fn from(_failed: AllocError) -> RunError<E> {
        RunError::OutOfMemory
    }
}
