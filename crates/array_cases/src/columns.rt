// Columns, scalars and masks from words.
use crate::rows::{Nulls, Row, bits, marked, row_bits, row_of, rows, validity};
use crate::stop::Stop;
use crate::types::{digits, dtype, type_named, width};
use crate::words::{count, halves, letters, number, octets, truth};
use std::alloc::Global;
use vortex_array::{
    Array, BoolArray, Bytes, ConstantArray, DType, DecimalArray, DecimalBuffer, NativeValue,
    Nullability, PType, PrimitiveArray, PrimitiveBuffer, Scalar, Text, Validity, Value,
    VarBinViewBuilder,
};
use vortex_buffer::{Buffer, Mask};

// The number in the place of a row. What holds no word is 0.
fn number_of(row: Row<'_>) -> Result<i128, Stop> {
    if row.word.is_empty() {
        return Ok(0);
    }
    number(row.word)
}

// The number in the place of a row in one width.
fn item_of<T: NativeValue>(row: Row<'_>) -> Result<T, Stop> {
    match T::from_value(number_of(row)?) {
        Some(item) => Ok(item),
        None => Err(Stop::NotUnderstood),
    }
}

fn push_item<T: NativeValue>(items: &mut Vec<T>, row: Row<'_>) -> Result<(), Stop> {
    items.push(item_of(row)?)?;
    Ok(())
}

fn items<T: NativeValue>(alloc: Global, rows: &[Row<'_>]) -> Result<Vec<T>, Stop> {
    let mut items = Vec::new(alloc);
    for row in rows {
        push_item(&mut items, *row)?;
    }
    Ok(items)
}

// The numbers of rows in one width.
fn native<T: NativeValue>(alloc: Global, rows: &[Row<'_>]) -> Result<Buffer<T>, Stop> {
    Ok(Buffer::from_vec(items(alloc, rows)?))
}

// The numbers of rows in the widest form.
fn widest(alloc: Global, rows: &[Row<'_>]) -> Result<Buffer<i128>, Stop> {
    let mut items = Vec::with_capacity(alloc, rows.len())?;
    for row in rows {
        items.push(number_of(*row)?)?;
    }
    Ok(Buffer::from_vec(items))
}

/// The numbers of rows in a width.
pub(crate) fn numbers(
    alloc: Global,
    width: PType,
    rows: &[Row<'_>],
) -> Result<PrimitiveBuffer, Stop> {
    match width {
        PType::U8 => native(alloc, rows).map(PrimitiveBuffer::U8),
        PType::U16 => native(alloc, rows).map(PrimitiveBuffer::U16),
        PType::U32 => native(alloc, rows).map(PrimitiveBuffer::U32),
        PType::U64 => native(alloc, rows).map(PrimitiveBuffer::U64),
        PType::I8 => native(alloc, rows).map(PrimitiveBuffer::I8),
        PType::I16 => native(alloc, rows).map(PrimitiveBuffer::I16),
        PType::I32 => native(alloc, rows).map(PrimitiveBuffer::I32),
        PType::I64 => native(alloc, rows).map(PrimitiveBuffer::I64),
    }
}

/// The unscaled numbers of rows in so many bits.
pub(crate) fn unscaled(
    alloc: Global,
    width: &str,
    rows: &[Row<'_>],
) -> Result<DecimalBuffer, Stop> {
    match width {
        "8" => native(alloc, rows).map(DecimalBuffer::I8),
        "16" => native(alloc, rows).map(DecimalBuffer::I16),
        "32" => native(alloc, rows).map(DecimalBuffer::I32),
        "64" => native(alloc, rows).map(DecimalBuffer::I64),
        "128" => widest(alloc, rows).map(DecimalBuffer::I128),
        _ => Err(Stop::NotUnderstood),
    }
}

/// A column of truth values, which the validity has to fit.
pub(crate) fn truths(alloc: Global, rows: &[Row<'_>], validity: Validity) -> Result<Array, Stop> {
    match BoolArray::try_new(row_bits(alloc, rows)?, validity) {
        Ok(array) => Ok(Array::Bool(array)),
        Err(_) => Err(Stop::NoSuchCall),
    }
}

/// A column of whole numbers, which the validity has to fit.
pub(crate) fn whole_numbers(values: PrimitiveBuffer, validity: Validity) -> Result<Array, Stop> {
    match PrimitiveArray::try_new(values, validity) {
        Ok(array) => Ok(Array::Primitive(array)),
        Err(_) => Err(Stop::NoSuchCall),
    }
}

// The name of a type of decimals, and the bits that keep their numbers.
fn decimal_name(name: &str) -> (&str, &str) {
    match name.split_once('/') {
        Some((name, width)) => (name, width),
        None => (name, "64"),
    }
}

/// A column of decimals, which the validity has to fit.
pub(crate) fn decimals(
    alloc: Global,
    name: &str,
    rows: &[Row<'_>],
    validity: Validity,
) -> Result<Array, Stop> {
    let (name, width) = decimal_name(name);
    let digits = digits(name)?;
    match DecimalArray::try_new(unscaled(alloc, width, rows)?, digits, validity) {
        Ok(array) => Ok(Array::Decimal(array)),
        Err(_) => Err(Stop::NoSuchCall),
    }
}

/// A column of texts or of bytes that has no row yet.
pub(crate) fn builder(alloc: Global, dtype: DType) -> Result<VarBinViewBuilder, Stop> {
    match dtype {
        DType::Utf8(nulls) => Ok(VarBinViewBuilder::new(alloc, DType::Utf8(nulls))),
        DType::Binary(nulls) => Ok(VarBinViewBuilder::new(alloc, DType::Binary(nulls))),
        _ => Err(Stop::NotUnderstood),
    }
}

// The letters of a text, or bytes in hexadecimal.
fn bytes_of(alloc: Global, is_text: bool, word: &str) -> Result<Vec<u8>, Stop> {
    if is_text {
        return Ok(Vec::from_slice(alloc, letters(word).as_bytes())?);
    }
    octets(alloc, word)
}

// One more row.
fn push_row(
    alloc: Global,
    builder: &mut VarBinViewBuilder,
    is_text: bool,
    row: Row<'_>,
) -> Result<(), Stop> {
    let bytes = bytes_of(alloc, is_text, row.word)?;
    let pushed = if row.is_null {
        builder.push(None)
    } else {
        builder.push(Some(bytes.as_slice()))
    };
    match pushed {
        Ok(()) => Ok(()),
        Err(_) => Err(Stop::NotUnderstood),
    }
}

// Further rows.
fn push_rows(
    alloc: Global,
    builder: &mut VarBinViewBuilder,
    is_text: bool,
    rows: &[Row<'_>],
) -> Result<(), Stop> {
    for row in rows {
        push_row(alloc, builder, is_text, *row)?;
    }
    Ok(())
}

// A column of texts or of bytes.
fn lists(alloc: Global, dtype: DType, rows: &[Row<'_>]) -> Result<Array, Stop> {
    let is_text = matches!(dtype, DType::Utf8(_));
    let mut builder = builder(alloc, dtype)?;
    push_rows(alloc, &mut builder, is_text, rows)?;
    Ok(Array::VarBinView(builder.finish()))
}

// The same rows, null where the form of the nulls says so.
fn as_null(row: Row<'_>, nulls: Nulls) -> Row<'_> {
    match nulls {
        Nulls::InEachRow => Row {
            is_null: true,
            word: row.word,
        },
        _ => row,
    }
}

// Rows which are null where the form of the nulls says so.
fn as_nulls<'a>(alloc: Global, rows: &[Row<'a>], nulls: Nulls) -> Result<Vec<Row<'a>>, Stop> {
    let mut own = Vec::with_capacity(alloc, rows.len())?;
    for row in rows {
        own.push(as_null(*row, nulls))?;
    }
    Ok(own)
}

// A column of texts or of bytes, whose nulls are rows of their own.
fn lists_with(alloc: Global, name: &str, nulls: Nulls, rows: &[Row<'_>]) -> Result<Array, Stop> {
    let dtype = type_named(name, nulls.nullability())?;
    let own = as_nulls(alloc, rows, nulls)?;
    lists(alloc, dtype, own.as_slice())
}

/// A plain column of a type, whose validity has to fit.
pub(crate) fn plain_with(
    alloc: Global,
    name: &str,
    rows: &[Row<'_>],
    validity: Validity,
) -> Result<Array, Stop> {
    if name == "bool" {
        return truths(alloc, rows, validity);
    }
    match width(name) {
        Some(width) => whole_numbers(numbers(alloc, width, rows)?, validity),
        None => decimals(alloc, name, rows, validity),
    }
}

// A plain column of a type, whose nulls are kept so.
fn plain_of(alloc: Global, name: &str, nulls: Nulls, rows: &[Row<'_>]) -> Result<Array, Stop> {
    if name == "utf8" || name == "binary" {
        return lists_with(alloc, name, nulls, rows);
    }
    plain_with(alloc, name, rows, validity(alloc, nulls, rows)?)
}

// A plain column of a type whose name ends with the mark of its nulls.
fn plain(alloc: Global, name: &str, words: &str) -> Result<Array, Stop> {
    let (name, nulls) = marked(name);
    let rows = rows(alloc, words)?;
    plain_of(alloc, name, nulls, rows.as_slice())
}

fn text_value(alloc: Global, word: &str) -> Result<Value, Stop> {
    Ok(Value::Utf8(Text::from_str(alloc, letters(word))?))
}

fn binary_value(alloc: Global, word: &str) -> Result<Value, Stop> {
    let bytes = octets(alloc, word)?;
    Ok(Value::Binary(Bytes::from_slice(alloc, bytes.as_slice())?))
}

// A value of a type.
fn value(alloc: Global, dtype: DType, word: &str) -> Result<Value, Stop> {
    match dtype {
        DType::Bool(_) => Ok(Value::Bool(truth(word)?)),
        DType::Primitive(_, _) => Ok(Value::Int(number(word)?)),
        DType::Decimal(_, _) => Ok(Value::Decimal(number(word)?)),
        DType::Utf8(_) => text_value(alloc, word),
        DType::Binary(_) => binary_value(alloc, word),
    }
}

// A value of a type, or null.
fn value_or_null(alloc: Global, dtype: DType, word: &str) -> Result<Option<Value>, Stop> {
    let row = row_of(word);
    if row.is_null {
        return Ok(None);
    }
    Ok(Some(value(alloc, dtype, row.word)?))
}

// A scalar of a type.
fn scalar_of(alloc: Global, name: &str, word: &str) -> Result<Scalar, Stop> {
    let dtype = dtype(name)?;
    match Scalar::try_new(dtype, value_or_null(alloc, dtype, word)?) {
        Ok(scalar) => Ok(scalar),
        Err(_) => Err(Stop::NoSuchCall),
    }
}

/// A scalar, as `i32=3`.
pub(crate) fn scalar(alloc: Global, word: &str) -> Result<Scalar, Stop> {
    let (name, row) = halves(word, '=')?;
    scalar_of(alloc, name, row)
}

// Equal rows of a type, so many.
fn equal_rows(alloc: Global, name: &str, len: &str, row: &str) -> Result<Array, Stop> {
    let len = count(len)?;
    let scalar = scalar_of(alloc, name, row)?;
    Ok(Array::Constant(ConstantArray::new(scalar, len)))
}

/// A column.
pub(crate) fn column(alloc: Global, word: &str) -> Result<Array, Stop> {
    let (head, rows) = halves(word, ':')?;
    match head.split_once('*') {
        Some((name, len)) => equal_rows(alloc, name, len, rows),
        None => plain(alloc, head, rows),
    }
}

/// A mask. `all` and `none` are masks of so many bits.
pub(crate) fn mask(alloc: Global, word: &str, len: usize) -> Result<Mask, Stop> {
    match word {
        "all" => Ok(Mask::new_true(len)),
        "none" => Ok(Mask::new_false(len)),
        _ => Ok(Mask::from_buffer(bits(alloc, word)?)),
    }
}
