// Why parts are refused, and casts of them.
use thiserror::Error;

/// Why arrays are no parts of decimals. The first that holds is answered.
#[derive(Clone, Copy, Debug, PartialEq, Eq, Error)]
pub enum PartsError {
    /// The most significant part is no column of signed whole numbers.
    #[error("the most significant part is not of signed whole numbers")]
    MspNotSigned,
    /// The type is not that of the decimals, with nulls where the most significant part has them.
    #[error("the type is not that of the decimals")]
    WrongDecimalType,
    /// A part has not as many rows as are stated.
    #[error("a part has another length")]
    LengthMismatch,
    /// There is more than one lower part.
    #[error("there is more than one lower part")]
    TooManyLowerParts,
    /// The lower part is no column of unsigned whole numbers, or its type has nulls.
    #[error("the lower part is not of unsigned whole numbers without null")]
    LowerNotUnsigned,
}

/// Why parts are not put together. The first that holds is answered.
#[derive(Clone, Copy, Debug, PartialEq, Eq, Error)]
pub enum AssembleError {
    /// The most significant part is no column of signed whole numbers.
    #[error("the most significant part is not of signed whole numbers")]
    MspNotSigned,
    /// A lower part has not as many rows as the most significant one.
    #[error("a part has another length")]
    LengthMismatch,
    /// There is more than one lower part.
    #[error("there is more than one lower part")]
    TooManyLowerParts,
    /// The lower part is no column of unsigned whole numbers, or its type has nulls.
    #[error("the lower part is not of unsigned whole numbers without null")]
    LowerNotUnsigned,
    /// Want of memory.
    #[error("out of memory")]
    OutOfMemory,
}

/// Why a cast of decimals in parts is refused. The first that holds is answered.
#[derive(Clone, Copy, Debug, PartialEq, Eq, Error)]
pub enum PartsCastError {
    /// The row is the first that is null, and the new type has no nulls.
    #[error("row {row} is null, and the new type has no nulls")]
    HasNull { row: usize },
    /// Want of memory.
    #[error("out of memory")]
    OutOfMemory,
}

/// Why metadata and children are not read as decimals in parts. The first that holds is answered.
#[derive(Clone, Copy, Debug, PartialEq, Eq, Error)]
pub enum SerdeError {
    /// The id is none of the two.
    #[error("the id is not known")]
    UnknownId,
    /// The metadata spells no message.
    #[error("the metadata is malformed")]
    BadMetadata,
    /// The type is no decimal type.
    #[error("the type is not that of decimals")]
    NotDecimal,
    /// The first message has a lower part, or the second more than one.
    #[error("there are too many lower parts")]
    LowerCount,
    /// There is not one child for each part.
    #[error("there is not one child for each part")]
    ChildCount,
    /// The number of part 0 is that of no width with sign, or that of part 1 of no width without.
    #[error("the type of part {part} is no type of such a part")]
    BadType { part: usize },
    /// The child does not stand for its type, or has another length.
    #[error("child {child} is not of its type and length")]
    ChildMismatch { child: usize },
    /// Want of memory.
    #[error("out of memory")]
    OutOfMemory,
}
