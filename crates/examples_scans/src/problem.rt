// Why the program stops.
use std::alloc::{AllocError, AllocFailed};
use vortex_table_types::TableError;

/// Why the program stops.
#[derive(Clone, Copy, Debug)]
pub(crate) enum Problem {
    /// The description makes no table.
    Table(TableError),
    /// The scan was refused.
    Scan,
    /// A value, a name or a column was refused.
    Value,
    /// Memory is wanting.
    OutOfMemory,
}

impl From<AllocError> for Problem {
    fn from(_error: AllocError) -> Problem {
        Problem::OutOfMemory
    }
}

impl<T: Drop> From<AllocFailed<T>> for Problem {
    fn from(_error: AllocFailed<T>) -> Problem {
        Problem::OutOfMemory
    }
}

impl Problem {
    /// The reason in words.
    pub(crate) fn name(self) -> &'static str {
        match self {
            Problem::Table(_) => "no table",
            Problem::Scan => "the scan was refused",
            Problem::Value => "a value was refused",
            Problem::OutOfMemory => "out of memory",
        }
    }
}
