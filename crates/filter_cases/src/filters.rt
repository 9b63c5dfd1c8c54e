// Filters checked against columns, and copied.
use crate::fault::Fault;
use crate::stack::filter_of;
use crate::telling::push_filter;
use crate::types::type_of;
use std::alloc::{AllocError, Global};
use vortex_array::{ColumnDesc, Filter, FilterError, Name};

/// The answer of a case of filters, at the end of `out`.
pub fn answer(alloc: Global, family: &str, words: &str, out: &mut String) -> Result<(), Fault> {
    match family {
        "check" => push_checked(alloc, out, words),
        "copy" => push_copy(alloc, out, words),
        _ => Err(Fault::NoCase),
    }
}

fn push_copy(alloc: Global, out: &mut String, words: &str) -> Result<(), Fault> {
    let filter = filter_of(alloc, words)?;
    Ok(push_owned(alloc, out, filter.get().try_clone(alloc)?)?)
}

// A filter, which falls here.
fn push_owned(alloc: Global, out: &mut String, filter: Filter) -> Result<(), AllocError> {
    push_filter(alloc, out, &filter)
}

// Columns as `x:i32`, a lone `:` and a filter.
fn push_checked(alloc: Global, out: &mut String, words: &str) -> Result<(), Fault> {
    match words.split_once(" : ") {
        Some((columns, filter)) => {
            let columns = columns_of(alloc, columns)?;
            push_told(alloc, out, &columns, filter)
        }
        None => push_told(
            alloc,
            out,
            &[],
            words.strip_prefix(": ").ok_or(Fault::NoCase)?,
        ),
    }
}

fn columns_of(alloc: Global, words: &str) -> Result<Vec<ColumnDesc>, Fault> {
    let mut columns = Vec::new(alloc);
    for word in words.split(' ') {
        columns.push(column_of(alloc, word)?)?;
    }
    Ok(columns)
}

fn column_of(alloc: Global, word: &str) -> Result<ColumnDesc, Fault> {
    let (name, dtype) = word.split_once(':').ok_or(Fault::NoCase)?;
    let dtype = type_of(dtype)?;
    let name = Name::from_str(alloc, name)?;
    Ok(ColumnDesc { name, dtype })
}

fn push_told(
    alloc: Global,
    out: &mut String,
    columns: &[ColumnDesc],
    words: &str,
) -> Result<(), Fault> {
    let filter = filter_of(alloc, words)?;
    match filter.get().check(alloc, columns) {
        Ok(()) => Ok(out.push_str("ok")?),
        Err(error) => push_error(out, &error),
    }
}

fn push_error(out: &mut String, error: &FilterError) -> Result<(), Fault> {
    match error {
        FilterError::UnknownColumn { name } => {
            out.push_str("unknown ")?;
            Ok(out.push_str(name.as_str())?)
        }
        FilterError::MismatchedTypes => Ok(out.push_str("types")?),
        FilterError::OutOfMemory => Err(Fault::OutOfMemory),
    }
}
