// Why codes and values make no dictionary, and why one is not cast.
use thiserror::Error;

/// Why codes and values make no dictionary. The first that holds is answered.
#[derive(Clone, Copy, Debug, PartialEq, Eq, Error)]
pub enum DictError {
    /// The codes are not of an unsigned type of whole numbers.
    #[error("the codes are not unsigned whole numbers")]
    NotUnsigned,
    /// The first code that is not null and not the place of a value.
    #[error("the code {code} in row {row} is not below the number of values")]
    CodeOutOfRange { row: usize, code: u64 },
}

/// Why a dictionary is not cast. The first that holds is answered.
#[derive(Clone, Copy, Debug, PartialEq, Eq, Error)]
pub enum DictCastError {
    /// The types differ in kind, or in the digits of decimals.
    #[error("the type cannot be cast to that one")]
    Unsupported,
    /// The first value that cannot be cast is a number outside the new width.
    #[error("the number at place {place} lies outside the new width")]
    ValueDoesNotFit { place: usize },
    /// The first value that cannot be cast is null, and the new type has no nulls.
    #[error("the value at place {place} is null, and the new type has no nulls")]
    ValueHasNull { place: usize },
    /// The first code that is null, where the new type has no nulls.
    #[error("the code in row {row} is null, and the new type has no nulls")]
    CodeNull { row: usize },
    /// Want of memory.
    #[error("out of memory")]
    OutOfMemory,
}
