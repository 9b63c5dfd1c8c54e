// Why a dictionary has no metadata, and why children make no dictionary.
use thiserror::Error;

/// The values of a dictionary number more than metadata can say: more than 4294967295.
#[derive(Clone, Copy, Debug, PartialEq, Eq, Error)]
#[error("the dictionary has more values than its metadata can say")]
pub struct TooManyValues;

/// Why children make no dictionary. The first that holds is answered.
#[derive(Clone, Copy, Debug, PartialEq, Eq, Error)]
pub enum BuildError {
    /// There are not two children, but so many.
    #[error("a dictionary has two children, and there are {found}")]
    ChildCount { found: usize },
    /// The number of the codes' width is that of no width.
    #[error("the metadata is malformed")]
    BadMetadata,
    /// The child does not stand for its type, or has another length.
    #[error("child {child} is not of its type and length")]
    ChildMismatch { child: usize },
    /// The codes are not of an unsigned type of whole numbers.
    #[error("the codes are not unsigned whole numbers")]
    NotUnsigned,
    /// The first code that is not null and not the place of a value.
    #[error("the code {code} in row {row} is not below the number of values")]
    CodeOutOfRange { row: usize, code: u64 },
}
