// Why columns are not encoded.
use thiserror::Error;

/// Why a builder does not encode a column.
#[derive(Clone, Copy, Debug, PartialEq, Eq, Error)]
pub enum EncodeError {
    /// The column is not of the builder's type.
    #[error("the column is not of the builder's type")]
    WrongType,
    /// Want of memory.
    #[error("out of memory")]
    OutOfMemory,
}

/// Why a column is not encoded as a dictionary.
#[derive(Clone, Copy, Debug, PartialEq, Eq, Error)]
pub enum DictEncodeError {
    /// Columns of truth values and of decimals are not.
    #[error("columns of truth values and of decimals are not encoded")]
    CannotEncode,
    /// The dictionary has not so many rows.
    #[error("{encoded} of {rows} rows are encoded")]
    NotAll { encoded: usize, rows: usize },
    /// Want of memory.
    #[error("out of memory")]
    OutOfMemory,
}
