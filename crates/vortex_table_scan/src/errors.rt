// Why scans are refused.
use thiserror::Error;
use vortex_array::Name;
use vortex_io::{IoOwnerId, IoRequestId};

/// Why a scan is refused. The first two come before anything is fetched.
#[derive(Debug, Error)]
pub enum ScanError {
    /// The first name of the request that is not the table's.
    #[error("no column has the name {name}")]
    InvalidRequest {
        name: Name,
    },
    /// The filter breaks a type rule.
    #[error("the filter breaks a type rule")]
    MismatchedTypes,
    /// A source failed.
    #[error("the source of partition {partition} failed")]
    Source {
        partition: u64,
    },
    /// A source gave what was not asked of it.
    #[error("the source of partition {partition} gave what was not asked of it")]
    Protocol {
        partition: u64,
        owner: IoOwnerId,
        request: IoRequestId,
    },
    /// A chunk differs from its description in its number of rows or in its type.
    #[error("the chunk of column {column} in split {split} of partition {partition} differs from its description")]
    ChunkMismatch {
        partition: u64,
        split: u64,
        column: u64,
    },
    /// The steps were too few.
    #[error("the limit of steps is reached")]
    StepLimit,
    /// Want of memory.
    #[error("out of memory")]
    OutOfMemory,
}

impl Drop for ScanError {
    fn drop(self) {
        match self {
            ScanError::InvalidRequest { name: _name } => {}
            ScanError::MismatchedTypes => {}
            ScanError::Source {
                partition: _partition,
            } => {}
            ScanError::Protocol {
                partition: _partition,
                owner: _owner,
                request: _request,
            } => {}
            ScanError::ChunkMismatch {
                partition: _partition,
                split: _split,
                column: _column,
            } => {}
            ScanError::StepLimit => {}
            ScanError::OutOfMemory => {}
        }
    }
}
