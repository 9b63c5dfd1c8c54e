// Columns whose parts may not fit together, and rows that a column may refuse.
use crate::columns::{builder, plain_with};
use crate::rows::{bits, row_of, rows};
use crate::shown::{push_column, shown};
use crate::stop::Stop;
use crate::types::dtype;
use crate::words::{cut, halves, octets};
use std::alloc::{AllocError, Global};
use vortex_array::{Array, PushError, Validity, VarBinViewBuilder};

// A column of rows and of bits, of which those of the rows that are not null are set.
fn with_bits(alloc: Global, name: &str, words: &str, valid: &str) -> Result<Array, Stop> {
    let validity = Validity::Bits(bits(alloc, valid)?);
    let rows = rows(alloc, words)?;
    plain_with(alloc, name, rows.as_slice(), validity)
}

/// A column of a type, rows and bits, which may be of another number.
pub(crate) fn try_new(alloc: Global, words: &str) -> Result<String, Stop> {
    let (column, valid) = cut(words);
    let (name, words) = halves(column, ':')?;
    match with_bits(alloc, name, words, valid) {
        Ok(array) => shown(alloc, &array),
        Err(Stop::NoSuchCall) => Ok("another length".to_string(alloc)?),
        Err(stop) => Err(stop),
    }
}

// What a push answers.
fn push_answer(answer: Result<(), PushError>) -> Result<&'static str, AllocError> {
    match answer {
        Ok(()) => Ok("ok"),
        Err(PushError::WrongType) => Ok("wrong type"),
        Err(PushError::NotUtf8) => Ok("not UTF-8"),
        Err(PushError::OutOfMemory) => Err(AllocError),
    }
}

// One more row, of bytes in hexadecimal.
fn push_word(
    alloc: Global,
    builder: &mut VarBinViewBuilder,
    word: &str,
) -> Result<&'static str, Stop> {
    let row = row_of(word);
    let bytes = octets(alloc, row.word)?;
    if row.is_null {
        return Ok(push_answer(builder.push(None))?);
    }
    Ok(push_answer(builder.push(Some(bytes.as_slice())))?)
}

// Every row of words, and what each push answers.
fn push_words(
    alloc: Global,
    builder: &mut VarBinViewBuilder,
    words: &str,
    text: &mut String,
) -> Result<(), Stop> {
    for word in words.split(',') {
        text.push_str(push_word(alloc, builder, word)?)?;
        text.push(',')?;
    }
    Ok(())
}

// The rows that were taken, a space before them.
fn push_built(
    text: &mut String,
    alloc: Global,
    builder: VarBinViewBuilder,
) -> Result<(), AllocError> {
    text.push(' ')?;
    push_column(text, alloc, &Array::VarBinView(builder.finish()))
}

/// What a column of texts or of bytes answers of each row, in hexadecimal, and the rows that it has then.
pub(crate) fn push(alloc: Global, words: &str) -> Result<String, Stop> {
    let (name, words) = cut(words);
    let mut text = String::new(alloc);
    let mut builder = builder(alloc, dtype(name)?)?;
    push_words(alloc, &mut builder, words, &mut text)?;
    push_built(&mut text, alloc, builder)?;
    Ok(text)
}
