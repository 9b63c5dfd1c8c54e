// Why the tour stops.
use std::alloc::{AllocError, AllocFailed};

/// Why the tour stops.
#[derive(Clone, Copy)]
pub(crate) enum Problem {
    /// A column is not of the type or the length that a call asks for.
    DoesNotFit,
    /// Memory is wanting.
    OutOfMemory,
}

impl From<AllocError> for Problem {
    fn from(_error: AllocError) -> Problem {
        Problem::OutOfMemory
    }
}

impl<T: Drop> From<AllocFailed<T>> for Problem {
    fn from(_failed: AllocFailed<T>) -> Problem {
        Problem::OutOfMemory
    }
}

impl Problem {
    /// The reason in words.
    pub(crate) fn name(self) -> &'static str {
        match self {
            Problem::DoesNotFit => "a column does not fit",
            Problem::OutOfMemory => "out of memory",
        }
    }
}
