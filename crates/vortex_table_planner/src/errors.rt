// Why planners and morsels of tables fail.

use std::alloc::{AllocError, AllocFailed};
use thiserror::Error;

/// Why a planner or a morsel of a table fails.
#[derive(Clone, Copy, Debug, PartialEq, Eq, Error)]
pub enum PlanError {
    /// A chunk that came differs from its description in its number of rows or in its type.
    #[error("the chunk of column {column} in split {split} differs from its description")]
    ChunkMismatch { split: u64, column: u64 },
    /// Want of memory.
    #[error("out of memory")]
    OutOfMemory,
}

impl From<AllocError> for PlanError {
    ghost use Rattle.std.specs.Prelude.{◌≡◌};
    ghost use Rattle.vortex_table_planner.specs.declared.errors.PlanError.TheVariants.{OutOfMemory};

    ghost from_gives = { λ _ error. error ≡ OutOfMemory };

    fn from(_failed: AllocError) -> PlanError {
        PlanError::OutOfMemory
    }
}

impl<T: Drop> From<AllocFailed<T>> for PlanError {
    ghost use Rattle.std.specs.Prelude.{◌≡◌};
    ghost use Rattle.vortex_table_planner.specs.declared.errors.PlanError.TheVariants.{OutOfMemory};

    ghost from_gives = { λ _ error. error ≡ OutOfMemory };

    fn from(_failed: AllocFailed<T>) -> PlanError {
        PlanError::OutOfMemory
    }
}
