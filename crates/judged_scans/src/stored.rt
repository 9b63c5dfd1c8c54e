// Tables over sources in memory, as cases write them. A table has its partitions between `|`: `[1,2][]` has a split of the rows 1
// and 2 and one without rows, `[1*3]` one of three rows 1, kept as equal rows, `.` no split; and `-` stands for no partition.
ghost use Rattle.std.specs.Prelude.{◌≡◌, All, IfOk, OnOk};
ghost use Rattle.judged_scans.specs.Ready.{IsReady};
ghost use Rattle.vortex_table.specs.Given.{contents_of};
ghost use Rattle.vortex_table.specs.State.{ArrivesInOrder};

use crate::batches::one_column;
use crate::cases::{U64, columns};
use std::alloc::{AllocError, Global};
use std::test::Fail;
use vortex_array::{
    Array, ColumnDesc, ConstantArray, PrimitiveArray, PrimitiveBuffer, Scalar, Validity, Value,
};
use vortex_buffer::{Buffer, Items};
use vortex_io::{Arrive, MemorySource, Order};
use vortex_judge::{PlainContent, PlainRow, PlainSplit, are_fit, read_content};
use vortex_scan_types::{Batch, ScanRequest};
use vortex_table::{Chunk, ChunkDesc, PartitionDesc, ScanError, SplitDesc, Table, scan_table};

fn listed(alloc: Global, split: &str) -> Result<Vec<u64>, Fail> {
    let mut numbers = Vec::new(alloc);
    for piece in split.split(',') {
        if !piece.is_empty() {
            numbers.push(piece.parse::<u64>()?)?;
        }
    }
    Ok(numbers)
}

// The number of equal rows, and how many they are.
fn equal_rows(split: &str) -> Result<Option<(u64, usize)>, Fail> {
    match split.split_once('*') {
        Some((number, count)) => Ok(Some((number.parse::<u64>()?, count.parse::<usize>()?))),
        None => Ok(None),
    }
}

fn numbers(alloc: Global, split: &str) -> Result<Vec<u64>, Fail> {
    match equal_rows(split)? {
        Some((number, count)) => Ok(vec![in alloc; number; count]?),
        None => listed(alloc, split),
    }
}

fn split_desc(alloc: Global, rows: u64) -> Result<SplitDesc, AllocError> {
    let mut chunks = Vec::new(alloc);
    chunks.push(ChunkDesc { rows, dtype: U64 })?;
    Ok(SplitDesc {
        rows,
        chunks: Items::from_vec(chunks),
    })
}

fn count_rows(alloc: Global, split: &str) -> Result<u64, Fail> {
    let numbers = numbers(alloc, split)?;
    Ok(numbers.len() as u64)
}

fn push_split(alloc: Global, splits: &mut Vec<SplitDesc>, split: &str) -> Result<(), Fail> {
    let rows = count_rows(alloc, split)?;
    splits.push(split_desc(alloc, rows)?)?;
    Ok(())
}

fn split_descs(alloc: Global, written: &str) -> Result<Vec<SplitDesc>, Fail> {
    let mut splits = Vec::new(alloc);
    for piece in written.split(']') {
        if let Some(split) = piece.strip_prefix('[') {
            push_split(alloc, &mut splits, split)?;
        }
    }
    Ok(splits)
}

fn push_partition(
    alloc: Global,
    partitions: &mut Vec<PartitionDesc>,
    written: &str,
) -> Result<(), Fail> {
    let splits = Items::from_vec(split_descs(alloc, written)?);
    partitions.push(PartitionDesc { splits })?;
    Ok(())
}

pub fn partitions_of(alloc: Global, written: &str) -> Result<Vec<PartitionDesc>, Fail> {
    let mut partitions = Vec::new(alloc);
    for piece in written.split('|') {
        if piece != "-" {
            push_partition(alloc, &mut partitions, piece)?;
        }
    }
    Ok(partitions)
}

fn chunk(alloc: Global, split: &str) -> Result<Chunk, Fail> {
    match equal_rows(split)? {
        Some((number, count)) => equal_chunk(number, count),
        None => number_chunk(listed(alloc, split)?),
    }
}

fn one_chunk(alloc: Global, split: &str) -> Result<Vec<Chunk>, Fail> {
    let mut chunks = Vec::new(alloc);
    chunks.push(chunk(alloc, split)?)?;
    Ok(chunks)
}

fn chunks(alloc: Global, written: &str) -> Result<Vec<Vec<Chunk>>, Fail> {
    let mut chunks = Vec::new(alloc);
    for piece in written.split(']') {
        if let Some(split) = piece.strip_prefix('[') {
            chunks.push(one_chunk(alloc, split)?)?;
        }
    }
    Ok(chunks)
}

fn plain_row(alloc: Global, numbers: &[u64]) -> Result<PlainRow, AllocError> {
    let mut cells = Vec::new(alloc);
    for number in numbers {
        cells.push(Some(Value::Int(*number as i128)))?;
    }
    Ok(PlainRow::new(cells))
}

fn plain_split(alloc: Global, split: &str) -> Result<PlainSplit, Fail> {
    let numbers = numbers(alloc, split)?;
    let cells = plain_row(alloc, &numbers)?;
    Ok(PlainSplit::new(one_column(alloc, U64, cells)?))
}

fn content(alloc: Global, written: &str) -> Result<PlainContent, Fail> {
    let mut splits = Vec::new(alloc);
    for piece in written.split(']') {
        if let Some(split) = piece.strip_prefix('[') {
            splits.push(plain_split(alloc, split)?)?;
        }
    }
    Ok(PlainContent::new(splits))
}

fn push_content(
    alloc: Global,
    contents: &mut Vec<PlainContent>,
    written: &str,
) -> Result<(), Fail> {
    contents.push(content(alloc, written)?)?;
    Ok(())
}

// The content by itself, which no array was read for.
pub fn contents_by_hand(alloc: Global, written: &str) -> Result<Vec<PlainContent>, Fail> {
    let mut contents = Vec::new(alloc);
    for piece in written.split('|') {
        if piece != "-" {
            push_content(alloc, &mut contents, piece)?;
        }
    }
    Ok(contents)
}

fn number_chunk(numbers: Vec<u64>) -> Result<Chunk, Fail> {
    let values = PrimitiveBuffer::U64(Buffer::from_vec(numbers));
    let array = PrimitiveArray::try_new(values, Validity::NonNullable)?;
    Ok(Chunk::Plain(Array::Primitive(array)))
}

fn equal_chunk(number: u64, len: usize) -> Result<Chunk, Fail> {
    let scalar = Scalar::try_new(U64, Some(Value::Int(number as i128)))?;
    Ok(Chunk::Plain(Array::Constant(ConstantArray::new(scalar, len))))
}

// Puts a source of the chunks of a partition behind others, and its content behind theirs.
fn push_source(
    alloc: Global,
    sources: &mut Vec<MemorySource<Chunk>>,
    contents: &mut Vec<PlainContent>,
    written: &str,
) -> Result<(), Fail>
    requires contents { contents.old.items ≡ contents_of sources.old.items }
    requires arrives { All ArrivesInOrder sources.old.items }
    ensures contents { OnOk result (contents.new.items ≡ contents_of sources.new.items) }
    ensures arrives { OnOk result (All ArrivesInOrder sources.new.items) }
{
    let chunks = chunks(alloc, written)?;
    contents.push(read_content(alloc, &chunks)?)?;
    sources.push(MemorySource::new(alloc, chunks, Arrive::OnWait(Order::First)))?;
    Ok(())
}

// Puts a source for each partition behind others, and its content behind theirs.
fn push_sources(
    alloc: Global,
    sources: &mut Vec<MemorySource<Chunk>>,
    contents: &mut Vec<PlainContent>,
    written: &str,
) -> Result<(), Fail>
    requires contents { contents.old.items ≡ contents_of sources.old.items }
    requires arrives { All ArrivesInOrder sources.old.items }
    ensures contents { OnOk result (contents.new.items ≡ contents_of sources.new.items) }
    ensures arrives { OnOk result (All ArrivesInOrder sources.new.items) }
{
    for piece in written.split('|') {
        if piece != "-" {
            push_source(alloc, sources, contents, piece)?;
        }
    }
    Ok(())
}

// A table of sources with these contents.
fn fitting(
    alloc: Global,
    columns: Vec<ColumnDesc>,
    partitions: Vec<PartitionDesc>,
    sources: Vec<MemorySource<Chunk>>,
    contents: &[PlainContent],
) -> Result<Table<MemorySource<Chunk>>, Fail>
    requires contents { contents.now ≡ contents_of sources.items }
    requires arrives { All ArrivesInOrder sources.items }
    ensures { IfOk result (λ t. IsReady t) }
{
    if !are_fit(&partitions, contents) {
        return Err(Fail::new("content that does not fit"));
    }
    match Table::try_new(alloc, columns, partitions, sources) {
        Ok(table) => Ok(table),
        Err(_) => Err(Fail::new("no table")),
    }
}

// A table of these sources, where their contents fit its description.
fn described(
    alloc: Global,
    names: &str,
    written: &str,
    sources: Vec<MemorySource<Chunk>>,
    contents: &[PlainContent],
) -> Result<Table<MemorySource<Chunk>>, Fail>
    requires contents { contents.now ≡ contents_of sources.items }
    requires arrives { All ArrivesInOrder sources.items }
    ensures { IfOk result (λ t. IsReady t) }
{
    let columns = columns(alloc, names)?;
    let partitions = partitions_of(alloc, written)?;
    fitting(alloc, columns, partitions, sources, contents)
}

// The table with a source for each partition.
pub fn table_of(
    alloc: Global,
    names: &str,
    written: &str,
) -> Result<Table<MemorySource<Chunk>>, Fail>
    ensures { IfOk result (λ t. IsReady t) }
{
    let mut sources = Vec::new(alloc);
    let mut contents = Vec::new(alloc);
    push_sources(alloc, &mut sources, &mut contents, written)?;
    described(alloc, names, written, sources, &contents)
}

#[tactic(auto, using(crate::proofs::Sources::fit_scanned))]
pub fn scan(
    alloc: Global,
    table: &mut Table<MemorySource<Chunk>>,
    request: &ScanRequest,
) -> Result<Vec<Batch>, ScanError>
    requires { IsReady table.old }
    ensures { IsReady table.new }
{
    let steps = table.enough_steps();
    scan_table(alloc, table, request, steps)
}
