// Why a cast is refused.
use thiserror::Error;

/// Why a cast is refused. The first that holds is answered.
#[derive(Clone, Copy, Debug, PartialEq, Eq, Error)]
pub enum CastError {
    /// The types differ in kind, or in the digits of decimals.
    #[error("the type cannot be cast to that one")]
    Unsupported,
    /// The first row that cannot be cast is null, and the new type has no nulls.
    #[error("row {row} is null, and the new type has no nulls")]
    HasNull { row: usize },
    /// The first row that cannot be cast is a number outside the new width.
    #[error("the number in row {row} lies outside the new width")]
    DoesNotFit { row: usize },
    /// Want of memory.
    #[error("out of memory")]
    OutOfMemory,
}
