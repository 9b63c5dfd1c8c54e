// Numbers cut into partitions and splits.
ghost use Rattle.std.specs.Prelude.{◌≡◌, ◌*◌, ◌<◌, ◌∷◌, [], All, IfOk, length, map};
ghost use Rattle.vortex_io.specs.Memory.{columns_of};
ghost use Rattle.vortex_io.specs.declared.order.Order.TheVariants.{First};
ghost use Rattle.vortex_query.specs.Spelled.{IsFresh, chunks_of, numbers_column, partition_of, piece as piece_of, pieces as pieces_of, split_of};
ghost use Rattle.vortex_table.specs.ChunkOf.{chunk_column, content_of};
ghost use Rattle.vortex_table.specs.Given.{contents_of};

use std::alloc::{AllocError, Global};
use vortex_array::{Array, DType, Nullability, PType, PlainArray, PrimitiveBuffer, Validity};
use vortex_buffer::{Buffer, Items};
use vortex_io::{Arrive, MemorySource, Order};
use vortex_table::{Chunk, ChunkDesc, PartitionDesc, SplitDesc};

/// The type of the one column.
pub const NUMBER_TYPE: DType = DType::Primitive(PType::U64, Nullability::NonNullable);

// The piece at this place, of pieces of this size.
fn piece(numbers: &[u64], size: usize, place: usize) -> &[u64]
    requires { size * place < length numbers.now }
    ensures { result.now ≡ piece_of size numbers.now place }
{
    let start = size * place;
    let end = start + size.min(numbers.len() - start);
    &numbers[start..end]
}

/// The pieces of this size, of which the last may be shorter.
pub fn pieces(alloc: Global, numbers: &[u64], size: usize) -> Result<Vec<&[u64]>, AllocError>
    requires { 0 < size }
    ensures { IfOk result (λ parts. map (λ part. part.now) parts.items ≡ pieces_of size numbers.now) }
{
    let mut parts = Vec::new(alloc);
    for place in 0..numbers.len().div_ceil(size) {
        parts.push(piece(numbers, size, place))?;
    }
    Ok(parts)
}

// The split of a piece.
fn split(alloc: Global, numbers: &[u64]) -> Result<SplitDesc, AllocError>
    ensures { IfOk result (λ split. split ≡ split_of numbers.now) }
{
    let rows = numbers.len() as u64;
    let mut chunks = Vec::new(alloc);
    chunks.push(ChunkDesc {
        rows,
        dtype: NUMBER_TYPE,
    })?;
    Ok(SplitDesc {
        rows,
        chunks: Items::from_vec(chunks),
    })
}

// The split of each part.
fn splits(alloc: Global, parts: &[&[u64]]) -> Result<Vec<SplitDesc>, AllocError>
    ensures { IfOk result (λ splits. splits.items ≡ map split_of (map (λ part. part.now) parts.now)) }
{
    let mut splits = Vec::new(alloc);
    for part in parts {
        splits.push(split(alloc, part)?)?;
    }
    Ok(splits)
}

// The partition of these numbers.
fn partition(alloc: Global, numbers: &[u64], size: usize) -> Result<PartitionDesc, AllocError>
    requires { 0 < size }
    ensures { IfOk result (λ partition. partition ≡ partition_of size numbers.now) }
{
    let parts = pieces(alloc, numbers, size)?;
    Ok(PartitionDesc {
        splits: Items::from_vec(splits(alloc, &parts)?),
    })
}

/// A partition of each part, in splits of this size.
pub fn partitions(
    alloc: Global,
    parts: &[&[u64]],
    size: usize,
) -> Result<Vec<PartitionDesc>, AllocError>
    requires { 0 < size }
    ensures { IfOk result (λ partitions. partitions.items ≡ map (partition_of size) (map (λ part. part.now) parts.now)) }
{
    let mut partitions = Vec::new(alloc);
    for part in parts {
        partitions.push(partition(alloc, part, size)?)?;
    }
    Ok(partitions)
}

// The chunk of a piece, as the one column of a split.
fn chunk(alloc: Global, numbers: &[u64]) -> Result<Vec<Chunk>, AllocError>
    ensures { IfOk result (λ chunks. map chunk_column chunks.items ≡ numbers_column numbers.now ∷ []) }
{
    let values = PrimitiveBuffer::U64(Buffer::from_slice(alloc, numbers)?);
    let array = PlainArray::new(values, Validity::NonNullable);
    let mut chunks = Vec::new(alloc);
    chunks.push(Chunk::Plain(Array::Primitive(array)))?;
    Ok(chunks)
}

// The chunks of each part.
fn chunks(alloc: Global, parts: &[&[u64]]) -> Result<Vec<Vec<Chunk>>, AllocError>
    ensures { IfOk result (λ chunks. content_of (map columns_of chunks.items) ≡ map (λ part. numbers_column part ∷ []) (map (λ part. part.now) parts.now)) }
{
    let mut chunks = Vec::new(alloc);
    for part in parts {
        chunks.push(chunk(alloc, part)?)?;
    }
    Ok(chunks)
}

// A source of the chunks of these numbers.
fn source(alloc: Global, numbers: &[u64], size: usize) -> Result<MemorySource<Chunk>, AllocError>
    requires { 0 < size }
    ensures content { IfOk result (λ source. content_of source.chunks ≡ chunks_of size numbers.now) }
    ensures fresh { IfOk result (IsFresh First) }
{
    let parts = pieces(alloc, numbers, size)?;
    let chunks = chunks(alloc, &parts)?;
    Ok(MemorySource::new(alloc, chunks, Arrive::OnWait(Order::First)))
}

/// A source for each part, with the chunks of its splits.
pub fn sources(
    alloc: Global,
    parts: &[&[u64]],
    size: usize,
) -> Result<Vec<MemorySource<Chunk>>, AllocError>
    requires { 0 < size }
    ensures fresh { IfOk result (λ sources. All (IsFresh First) sources.items) }
    ensures contents { IfOk result (λ sources. contents_of sources.items ≡ map (chunks_of size) (map (λ part. part.now) parts.now)) }
{
    let mut sources = Vec::new(alloc);
    for part in parts {
        sources.push(source(alloc, part, size)?)?;
    }
    Ok(sources)
}
