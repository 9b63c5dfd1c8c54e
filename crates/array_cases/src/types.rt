// Types by their names.
use crate::stop::Stop;
use crate::words::{halves, number};
use vortex_array::{DType, DecimalDType, Nullability, PType};

/// A number of digits or of bits that a byte holds.
fn small(word: &str) -> Result<u8, Stop> {
    match u8::try_from(number(word)?) {
        Ok(small) => Ok(small),
        Err(_) => Err(Stop::NotUnderstood),
    }
}

// A number of digits behind the point.
fn scale(word: &str) -> Result<i8, Stop> {
    match i8::try_from(number(word)?) {
        Ok(scale) => Ok(scale),
        Err(_) => Err(Stop::NotUnderstood),
    }
}

// What stands between brackets before the comma and behind it.
fn in_brackets(name: &str) -> Result<(&str, &str), Stop> {
    let (_, name) = halves(name, '(')?;
    let (pair, _) = halves(name, ')')?;
    halves(pair, ',')
}

/// The digits of decimals, as `decimal(10,2)`.
pub(crate) fn digits(name: &str) -> Result<DecimalDType, Stop> {
    let (precision, digits) = in_brackets(name)?;
    match DecimalDType::try_new(small(precision)?, scale(digits)?) {
        Ok(digits) => Ok(digits),
        Err(_) => Err(Stop::NotUnderstood),
    }
}

/// A width of whole numbers.
pub(crate) fn width(name: &str) -> Option<PType> {
    match name {
        "u8" => Some(PType::U8),
        "u16" => Some(PType::U16),
        "u32" => Some(PType::U32),
        "u64" => Some(PType::U64),
        "i8" => Some(PType::I8),
        "i16" => Some(PType::I16),
        "i32" => Some(PType::I32),
        "i64" => Some(PType::I64),
        _ => None,
    }
}

/// The type of a name, with nulls or without.
pub(crate) fn type_named(name: &str, nulls: Nullability) -> Result<DType, Stop> {
    if let Some(width) = width(name) {
        return Ok(DType::Primitive(width, nulls));
    }
    match name {
        "bool" => Ok(DType::Bool(nulls)),
        "utf8" => Ok(DType::Utf8(nulls)),
        "binary" => Ok(DType::Binary(nulls)),
        _ => Ok(DType::Decimal(digits(name)?, nulls)),
    }
}

/// A type, which has nulls where its name ends with `?`.
pub(crate) fn dtype(name: &str) -> Result<DType, Stop> {
    match name.strip_suffix('?') {
        Some(name) => type_named(name, Nullability::Nullable),
        None => type_named(name, Nullability::NonNullable),
    }
}
