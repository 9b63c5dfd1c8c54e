// Why a case has no answer.
use std::alloc::{AllocError, AllocFailed};

/// Why a case has no answer.
#[derive(Clone, Copy)]
pub(crate) enum Stop {
    /// A condition of the call is not met.
    NoSuchCall,
    /// The line is no case.
    NotUnderstood,
    /// Memory is wanting.
    OutOfMemory,
}

impl From<AllocError> for Stop {
    fn from(_error: AllocError) -> Stop {
        Stop::OutOfMemory
    }
}

impl<T: Drop> From<AllocFailed<T>> for Stop {
    fn from(_failed: AllocFailed<T>) -> Stop {
        Stop::OutOfMemory
    }
}

impl Stop {
    /// The reason in words.
    pub(crate) fn name(self) -> &'static str {
        match self {
            Stop::NoSuchCall => "no such call",
            Stop::NotUnderstood => "not understood",
            Stop::OutOfMemory => "out of memory",
        }
    }
}
