// Tables in text.
ghost use Rattle.std.specs.Prelude.{◌≡◌, ◌<◌, ◌∷◌, [], All, IfOk, IsErrOf, OnOk, Some, None, map};
ghost use Rattle.std.specs.List.{AllZip};
ghost use Rattle.vortex_io.specs.declared.order.Order.TheVariants.{First};
ghost use Rattle.vortex_query.specs.Spelled.{IsFresh, chunks_of, default_options, partition_of, pieces as pieces_of, spelled, table_seen};
ghost use Rattle.vortex_query.specs.declared.table_text.TableTextError.TheVariants.{NotBuilt, OutOfMemory};
ghost use Rattle.vortex_table.specs.Built.{u64_type};
ghost use Rattle.vortex_table.specs.Given.{contents_of};
ghost use Rattle.vortex_table_types.specs.Table.{FitsPartition};
ghost use Rattle.vortex_table_types.specs.declared.errors.TableError.TheVariants as tables;

mod cut;
mod fields;
mod numbered;
mod rows;

use crate::options::Options;
use cut::{NUMBER_TYPE, partitions, pieces, sources};
use numbered::{NamedNumbers, numbered};
use std::alloc::{AllocError, AllocFailed, Global};
use thiserror::Error;
use vortex_array::{ColumnDesc, Name};
use vortex_io::MemorySource;
use vortex_table::{Chunk, PartitionDesc, Table, TableError, TableRefused};

/// Why the text of a table is refused.
#[derive(Clone, Copy, Debug, PartialEq, Eq, Error)]
pub enum TableTextError {
    /// The text is no table of a form that is built.
    #[error("the table is not of a form that is built")]
    NotBuilt,
    /// Memory ran out.
    #[error("out of memory")]
    OutOfMemory,
}

impl From<AllocError> for TableTextError {
    ghost use Rattle.vortex_query.specs.declared.table_text.TableTextError.TheVariants.{OutOfMemory};

    ghost from_gives = { λ _ e. e ≡ OutOfMemory };

    fn from(_failed: AllocError) -> TableTextError {
        TableTextError::OutOfMemory
    }
}

impl<T: Drop> From<AllocFailed<T>> for TableTextError {
    ghost use Rattle.vortex_query.specs.declared.table_text.TableTextError.TheVariants.{OutOfMemory};

    ghost from_gives = { λ _ e. e ≡ OutOfMemory };

    fn from(_failed: AllocFailed<T>) -> TableTextError {
        TableTextError::OutOfMemory
    }
}

// The partitions of a table, and a source for each.
struct Parts {
    partitions: Vec<PartitionDesc>,
    sources: Vec<MemorySource<Chunk>>,
}

// The numbers in partitions and splits as the options say, and a source for each partition.
fn parts_of(alloc: Global, numbers: &[u64], options: &Options) -> Result<Parts, AllocError>
    requires partition_rows { 0 < options.now.partition_rows }
    requires split_rows { 0 < options.now.split_rows }
    ensures partitions { IfOk result (λ parts. parts.partitions.items ≡ map (partition_of options.now.split_rows) (pieces_of options.now.partition_rows numbers.now)) }
    ensures contents { IfOk result (λ parts. contents_of parts.sources.items ≡ map (chunks_of options.now.split_rows) (pieces_of options.now.partition_rows numbers.now)) }
    ensures fresh { IfOk result (λ parts. All (IsFresh First) parts.sources.items) }
    ensures fits { OnOk result (AllZip FitsPartition (map (partition_of options.now.split_rows) (pieces_of options.now.partition_rows numbers.now)) (map (chunks_of options.now.split_rows) (pieces_of options.now.partition_rows numbers.now))) }
{
    let split_rows = options.split_rows as usize;
    let parts = pieces(alloc, numbers, options.partition_rows as usize)?;
    let partitions = partitions(alloc, &parts, split_rows)?;
    let sources = sources(alloc, &parts, split_rows)?;
    Ok(Parts {
        partitions,
        sources,
    })
}

// One column of numbers.
fn one_column(alloc: Global, name: Name) -> Result<Vec<ColumnDesc>, AllocError>
    ensures { IfOk result (λ columns. columns.items ≡ record { name = name; dtype = u64_type } ∷ []) }
{
    let mut columns = Vec::new(alloc);
    columns.push(ColumnDesc {
        name,
        dtype: NUMBER_TYPE,
    })?;
    Ok(columns)
}

// The refusal of a table whose description fits: memory was wanting.
fn memory_wanting(refused: TableRefused<MemorySource<Chunk>>) -> TableTextError
    requires { refused.error ≡ tables.OutOfMemory }
    ensures { result ≡ OutOfMemory }
{
    match refused.error {
        TableError::OutOfMemory => TableTextError::OutOfMemory,
        TableError::RepeatedName
        | TableError::SourceCount
        | TableError::ChunkListDoesNotFit { .. }
        | TableError::TooLarge => unreachable!(),
    }
}

/// The table that a text spells, of one source for each partition. The text is CSV without headers: a first record of one cell
/// `name:u64`, and at most 65,536 further ones of one number each. `NotBuilt` comes only where it is not, and `OutOfMemory` only where
/// memory ran out: with memory enough a text that is no such table is `NotBuilt`, and each other one makes its table. Rows are cut into
/// partitions of 65,536 and these into splits of 8,192, of which the last may have fewer; no rows make no partition. The options
/// have their defaults. Of no source anything was asked yet.
pub fn table_of(
    alloc: Global,
    bytes: &[u8],
    options: &Options,
) -> Result<Table<MemorySource<Chunk>>, TableTextError>
    requires { options.now ≡ default_options }
    ensures ok { IfOk result (λ table. spelled bytes.now ≡ Some (table_seen table)) }
    ensures fits { IfOk result (λ table. AllZip FitsPartition table.partitions (contents_of table.sources)) }
    ensures fresh { IfOk result (λ table. All (IsFresh options.now.arrive) table.sources) }
    ensures not_built { IsErrOf result NotBuilt → spelled bytes.now ≡ None }
{
    let NamedNumbers { name, numbers } = numbered(alloc, bytes)?;
    let Parts {
        partitions,
        sources,
    } = parts_of(alloc, &numbers, options)?;
    let columns = one_column(alloc, name)?;
    match Table::try_new(alloc, columns, partitions, sources) {
        Ok(table) => Ok(table),
        Err(refused) => Err(memory_wanting(refused)),
    }
}
