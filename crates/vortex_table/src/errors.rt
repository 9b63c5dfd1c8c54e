// Why scans are refused.
use thiserror::Error;
use vortex_array::Name;

/// Why a scan is refused. The first that holds is answered.
#[derive(Debug, Error)]
pub enum ScanError {
    /// The table or the request is of a form that is not built yet.
    #[error("the table or the request is of a form that is not built")]
    NotBuilt,
    /// The first name of the request that is not the table's.
    #[error("no column has the name {name}")]
    InvalidRequest { name: Name },
    /// Want of memory.
    #[error("out of memory")]
    OutOfMemory,
}

impl Drop for ScanError {
    fn drop(self) {
        match self {
            ScanError::NotBuilt => {}
            ScanError::InvalidRequest { name: _name } => {}
            ScanError::OutOfMemory => {}
        }
    }
}
