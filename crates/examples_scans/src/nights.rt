// The table of nights: what it says of itself, and the chunks of its sources.
use crate::problem::Problem;
use std::alloc::Global;
use vortex_array::{
    Array, ColumnDesc, CompareOperator, DType, Filter, Name, Nullability, Operand, PType,
    PrimitiveArray, PrimitiveBuffer, Scalar, Validity, Value, VarBinViewBuilder,
};
use vortex_buffer::{Buffer, Items};
use vortex_dict::dict_encode;
use vortex_io::{Arrive, MemorySource, Order};
use vortex_table_chunks::Chunk;
use vortex_table_types::{ChunkDesc, PartitionDesc, SplitDesc};

const TOWN: DType = DType::Utf8(Nullability::NonNullable);

const CELSIUS: DType = DType::Primitive(PType::I32, Nullability::NonNullable);

/// A town, and how cold it was.
pub(crate) fn columns(alloc: Global) -> Result<Vec<ColumnDesc>, Problem> {
    let mut columns = Vec::new(alloc);
    for (name, dtype) in [("town", TOWN), ("celsius", CELSIUS)] {
        columns.push(ColumnDesc {
            name: Name::from_str(alloc, name)?,
            dtype,
        })?;
    }
    Ok(columns)
}

// One split of three rows.
fn split(alloc: Global) -> Result<SplitDesc, Problem> {
    let mut chunks = Vec::new(alloc);
    for dtype in [TOWN, CELSIUS] {
        chunks.push(ChunkDesc { rows: 3, dtype })?;
    }
    Ok(SplitDesc {
        rows: 3,
        chunks: Items::from_vec(chunks),
    })
}

/// A partition of one split.
pub(crate) fn partition(alloc: Global) -> Result<PartitionDesc, Problem> {
    let mut splits = Vec::new(alloc);
    splits.push(split(alloc)?)?;
    Ok(PartitionDesc {
        splits: Items::from_vec(splits),
    })
}

// The towns, as codes and the distinct ones.
fn towns(alloc: Global, towns: &[&str]) -> Result<Chunk, Problem> {
    let mut builder = VarBinViewBuilder::new(alloc, TOWN);
    for town in towns {
        if builder.push(Some(town.as_bytes())).is_err() {
            return Err(Problem::OutOfMemory);
        }
    }
    let texts = Array::VarBinView(builder.finish());
    match dict_encode(alloc, &texts) {
        Ok(dict) => Ok(Chunk::Dict(dict)),
        Err(_) => Err(Problem::Value),
    }
}

// The degrees as they are.
fn degrees(alloc: Global, celsius: &[i32]) -> Result<Chunk, Problem> {
    let values = PrimitiveBuffer::I32(Buffer::from_slice(alloc, celsius)?);
    match PrimitiveArray::try_new(values, Validity::NonNullable) {
        Ok(array) => Ok(Chunk::Plain(Array::Primitive(array))),
        Err(_) => Err(Problem::Value),
    }
}

/// A source of the one split, which answers the latest fetch first.
pub(crate) fn source(
    alloc: Global,
    town: &[&str],
    celsius: &[i32],
) -> Result<MemorySource<Chunk>, Problem> {
    let mut columns = Vec::new(alloc);
    columns.push(towns(alloc, town)?)?;
    columns.push(degrees(alloc, celsius)?)?;
    let mut splits = Vec::new(alloc);
    splits.push(columns)?;
    Ok(MemorySource::new(alloc, splits, Arrive::OnWait(Order::Last)))
}

/// Whether it was colder than so many degrees.
pub(crate) fn celsius_below(alloc: Global, bound: i32) -> Result<Filter, Problem> {
    let column = Operand::Column(Name::from_str(alloc, "celsius")?);
    match Scalar::try_new(CELSIUS, Some(Value::Int(bound as i128))) {
        Ok(scalar) => Ok(Filter::Compare(CompareOperator::Lt, column, Operand::Constant(scalar))),
        Err(_) => Err(Problem::Value),
    }
}
