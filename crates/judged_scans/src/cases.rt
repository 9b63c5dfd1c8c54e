// What the cases share: values, columns, rows and tables as texts. A value is `7`, `null` or, for a decimal, `d7`; a column its
// name, with its type where that is not `u64`, as `qty:i32?`; the rows of a table of one column its values, which commas
// part, with a bar between two partitions.
use std::alloc::{AllocError, Global};
use std::test::Fail;
use vortex_array::{ColumnDesc, DType, DecimalDType, Name, Nullability, PType, Value};
use vortex_judge::{PlainRow, PlainRows, PlainTable};

pub const U64: DType = DType::Primitive(PType::U64, Nullability::NonNullable);

pub const TEXT: DType = DType::Utf8(Nullability::NonNullable);

/// What stands before and behind the arrow of a case.
pub fn sides(line: &str) -> Result<(&str, &str), Fail> {
    Ok(line.split_once(" → ").ok_or("a case without an arrow")?)
}

/// What stands before and behind the first space.
pub fn halves(written: &str) -> Result<(&str, &str), Fail> {
    Ok(written.split_once(' ').ok_or("a case without a space")?)
}

pub fn name(alloc: Global, text: &str) -> Result<Name, AllocError> {
    Name::from_str(alloc, text)
}

pub fn value_of(written: &str) -> Result<Option<Value>, Fail> {
    if written == "null" {
        return Ok(None);
    }
    match written.strip_prefix('d') {
        Some(number) => Ok(Some(Value::Decimal(number.parse::<i128>()?))),
        None => Ok(Some(Value::Int(written.parse::<i128>()?))),
    }
}

// A decimal with so many digits behind the point.
fn decimal(scale: i8) -> Result<DType, Fail> {
    Ok(DType::Decimal(DecimalDType::try_new(5, scale)?, Nullability::NonNullable))
}

pub fn dtype_of(written: &str) -> Result<DType, Fail> {
    match written {
        "u64?" => Ok(DType::Primitive(PType::U64, Nullability::Nullable)),
        "i64" => Ok(DType::Primitive(PType::I64, Nullability::NonNullable)),
        "i32?" => Ok(DType::Primitive(PType::I32, Nullability::Nullable)),
        "utf8" => Ok(TEXT),
        "hundredths" => decimal(2),
        "thousandths" => decimal(3),
        _ => Ok(U64),
    }
}

fn column_desc(alloc: Global, written: &str) -> Result<ColumnDesc, Fail> {
    let (text, dtype) = written.split_once(':').unwrap_or((written, "u64"));
    let dtype = dtype_of(dtype)?;
    Ok(ColumnDesc {
        name: name(alloc, text)?,
        dtype,
    })
}

/// The columns, which commas part.
pub fn columns(alloc: Global, written: &str) -> Result<Vec<ColumnDesc>, Fail> {
    let mut columns = Vec::new(alloc);
    for piece in written.split(',') {
        columns.push(column_desc(alloc, piece)?)?;
    }
    Ok(columns)
}

/// The values, which commas part.
pub fn cells_of(alloc: Global, written: &str) -> Result<PlainRow, Fail> {
    let mut cells = Vec::new(alloc);
    for piece in written.split(',') {
        if !piece.is_empty() {
            cells.push(value_of(piece)?)?;
        }
    }
    Ok(PlainRow::new(cells))
}

// Rows of one column.
fn rows_of(alloc: Global, written: &str) -> Result<PlainRows, Fail> {
    let mut rows = Vec::new(alloc);
    for piece in written.split(',') {
        if !piece.is_empty() {
            rows.push(cells_of(alloc, piece)?)?;
        }
    }
    Ok(PlainRows::new(rows))
}

fn partitions_of(alloc: Global, written: &str) -> Result<Vec<PlainRows>, Fail> {
    let mut partitions = Vec::new(alloc);
    for piece in written.split('|') {
        partitions.push(rows_of(alloc, piece)?)?;
    }
    Ok(partitions)
}

/// A table of one column.
pub fn table_of(alloc: Global, names: &str, written: &str) -> Result<PlainTable, Fail> {
    let columns = columns(alloc, names)?;
    let partitions = partitions_of(alloc, written)?;
    Ok(PlainTable::new(columns, partitions))
}
