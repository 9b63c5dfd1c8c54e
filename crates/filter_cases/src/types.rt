// Types, and values of them, as words. `i32`, `utf8?` and `decimal(5,2)` are types; `int:7` and `binary:00ff` values;
// `i32:7` and `null:i32?` a value and null of a type.
use crate::fault::Fault;
use crate::words::{bytes_of, number_of, text_of, truth_of};
use std::alloc::Global;
use vortex_array::{DType, DecimalDType, Nullability, PType, Scalar, Text, Value};

pub fn type_of(word: &str) -> Result<DType, Fault> {
    match word.strip_suffix('?') {
        Some(word) => type_with(word, Nullability::Nullable),
        None => type_with(word, Nullability::NonNullable),
    }
}

fn type_with(word: &str, nulls: Nullability) -> Result<DType, Fault> {
    match word {
        "bool" => Ok(DType::Bool(nulls)),
        "utf8" => Ok(DType::Utf8(nulls)),
        "binary" => Ok(DType::Binary(nulls)),
        _ => match word.strip_prefix("decimal") {
            Some(digits) => Ok(DType::Decimal(digits_of(digits)?, nulls)),
            None => Ok(DType::Primitive(width_of(word)?, nulls)),
        },
    }
}

fn width_of(word: &str) -> Result<PType, Fault> {
    match word {
        "u8" => Ok(PType::U8),
        "u16" => Ok(PType::U16),
        "u32" => Ok(PType::U32),
        "u64" => Ok(PType::U64),
        "i8" => Ok(PType::I8),
        "i16" => Ok(PType::I16),
        "i32" => Ok(PType::I32),
        "i64" => Ok(PType::I64),
        _ => Err(Fault::NoCase),
    }
}

fn digits_of(word: &str) -> Result<DecimalDType, Fault> {
    let (precision, scale) = precision_and_scale(word)?;
    DecimalDType::try_new(precision, scale).map_err(|_| Fault::NoCase)
}

/// The two numbers of a word as `(5,2)`.
pub fn precision_and_scale(word: &str) -> Result<(u8, i8), Fault> {
    let inner = word.strip_prefix('(').ok_or(Fault::NoCase)?;
    let inner = inner.strip_suffix(')').ok_or(Fault::NoCase)?;
    let (precision, scale) = inner.split_once(',').ok_or(Fault::NoCase)?;
    match (precision.parse::<u8>(), scale.parse::<i8>()) {
        (Ok(precision), Ok(scale)) => Ok((precision, scale)),
        _ => Err(Fault::NoCase),
    }
}

// A kind of values.
#[derive(Clone, Copy)]
enum Kind {
    Bool,
    Int,
    Decimal,
    Utf8,
    Binary,
}

fn kind_of(word: &str) -> Result<Kind, Fault> {
    match word {
        "bool" => Ok(Kind::Bool),
        "int" => Ok(Kind::Int),
        "decimal" => Ok(Kind::Decimal),
        "utf8" => Ok(Kind::Utf8),
        "binary" => Ok(Kind::Binary),
        _ => Err(Fault::NoCase),
    }
}

fn kind_in(dtype: DType) -> Kind {
    match dtype {
        DType::Bool(_) => Kind::Bool,
        DType::Primitive(_, _) => Kind::Int,
        DType::Decimal(_, _) => Kind::Decimal,
        DType::Utf8(_) => Kind::Utf8,
        DType::Binary(_) => Kind::Binary,
    }
}

/// The value of a word as `int:7`.
pub fn value_of(alloc: Global, word: &str) -> Result<Value, Fault> {
    let (kind, word) = word.split_once(':').ok_or(Fault::NoCase)?;
    value_as(alloc, kind_of(kind)?, word)
}

// The value of this kind that a word is.
fn value_as(alloc: Global, kind: Kind, word: &str) -> Result<Value, Fault> {
    match kind {
        Kind::Bool => Ok(Value::Bool(truth_of(word)?)),
        Kind::Int => Ok(Value::Int(number_of(word)?)),
        Kind::Decimal => Ok(Value::Decimal(number_of(word)?)),
        Kind::Utf8 => text_value(alloc, word),
        Kind::Binary => Ok(Value::Binary(bytes_of(alloc, word)?)),
    }
}

fn text_value(alloc: Global, word: &str) -> Result<Value, Fault> {
    let text = text_of(alloc, word)?;
    Ok(Value::Utf8(Text::from_str(alloc, text.as_str())?))
}

/// The value or null of a word as `i32:7` or `null:i32?`.
pub fn scalar_of(alloc: Global, word: &str) -> Result<Scalar, Fault> {
    let (dtype, word) = word.split_once(':').ok_or(Fault::NoCase)?;
    if dtype == "null" {
        return scalar(type_of(word)?, None);
    }
    typed(alloc, type_of(dtype)?, word)
}

// The value of a type that a word is.
fn typed(alloc: Global, dtype: DType, word: &str) -> Result<Scalar, Fault> {
    scalar(dtype, Some(value_as(alloc, kind_in(dtype), word)?))
}

fn scalar(dtype: DType, value: Option<Value>) -> Result<Scalar, Fault> {
    Scalar::try_new(dtype, value).map_err(|_| Fault::NoCase)
}
