// Why a description and sources make no table.
use std::fmt;
use thiserror::Error;

/// Why a description and sources make no table. The first that holds is answered.
#[derive(Clone, Copy, Debug, PartialEq, Eq, Error)]
pub enum TableError {
    /// Two columns share a name.
    #[error("two columns share a name")]
    RepeatedName,
    /// There is not one source for each partition.
    #[error("there is not one source for each partition")]
    SourceCount,
    /// The first split whose chunks differ from the columns in number, from the split in rows, or from a
    /// column in type, nulls or none included.
    #[error(fmt = show_unfit_chunks)]
    ChunkListDoesNotFit { partition: u64, split: u64 },
    /// The rows of the table, or six times its splits and twice its partitions, do not fit 64 bits.
    #[error("the table has too many rows or splits")]
    TooLarge,
    /// Want of memory.
    #[error("out of memory")]
    OutOfMemory,
}

// The message of a split whose chunks do not fit.
fn show_unfit_chunks<W: fmt::Write>(
    partition: &u64,
    split: &u64,
    f: &mut fmt::Formatter<W>,
) -> fmt::Result {
    write!(
        f,
        "the chunks of split {split} of partition {partition} do not fit the columns"
    )
}
