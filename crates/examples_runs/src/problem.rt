// Why the program stops.
use std::alloc::AllocError;
use vortex_scan::RunError;

/// Why the program stops, or a planner or a morsel fails.
#[derive(Clone, Copy, Debug)]
pub(crate) enum Problem {
    /// More splits are asked for than there may be.
    TooMany,
    /// The run was refused.
    Refused,
    /// Memory is wanting.
    OutOfMemory,
}

impl From<AllocError> for Problem {
    fn from(_error: AllocError) -> Problem {
        Problem::OutOfMemory
    }
}

impl Problem {
    /// What a run's refusal is to the program.
    pub(crate) fn of(error: RunError<Problem>) -> Problem {
        match error {
            RunError::Planner(_root, problem) => problem,
            RunError::OutOfMemory => Problem::OutOfMemory,
            _ => Problem::Refused,
        }
    }

    /// The reason in words.
    pub(crate) fn name(self) -> &'static str {
        match self {
            Problem::TooMany => "too many splits",
            Problem::Refused => "the run was refused",
            Problem::OutOfMemory => "out of memory",
        }
    }
}
