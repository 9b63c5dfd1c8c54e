// Words of a case. `␣` in a text stands for a space, and `''` for the empty text.
ghost use Rattle.std.specs.Prelude.{◌<◌, IfOk};

use crate::fault::Fault;
use std::alloc::{AllocError, Global};
use vortex_array::{BetweenOptions, Bytes, CompareOperator, StrictComparison};

/// The first word, and those behind it.
pub fn first_word(words: &str) -> (&str, &str) {
    words.split_once(' ').unwrap_or((words, ""))
}

/// The text of a word.
pub fn text_of(alloc: Global, word: &str) -> Result<String, AllocError> {
    let mut text = String::new(alloc);
    if word == "''" {
        return Ok(text);
    }
    for c in word.chars() {
        text.push(if c == '␣' { ' ' } else { c })?;
    }
    Ok(text)
}

/// The bytes of a word, two hexadecimal digits each.
pub fn bytes_of(alloc: Global, word: &str) -> Result<Bytes, Fault> {
    let bytes = decoded(alloc, word)?;
    Ok(Bytes::from_slice(alloc, bytes.as_slice())?)
}

fn decoded(alloc: Global, word: &str) -> Result<Vec<u8>, Fault> {
    let mut bytes = Vec::new(alloc);
    for pair in word.as_bytes().chunks(2) {
        bytes.push(byte_of(pair)?)?;
    }
    Ok(bytes)
}

fn byte_of(pair: &[u8]) -> Result<u8, Fault> {
    match pair {
        [high, low] => Ok(digit(*high)? * 16 + digit(*low)?),
        _ => Err(Fault::NoCase),
    }
}

// The number of a hexadecimal digit.
fn digit(letter: u8) -> Result<u8, Fault>
    ensures { IfOk result (λ d. d < 16) }
{
    match letter {
        b'0'..=b'9' => Ok(letter - b'0'),
        b'a'..=b'f' => Ok(letter - b'a' + 10),
        _ => Err(Fault::NoCase),
    }
}

pub fn number_of(word: &str) -> Result<i128, Fault> {
    word.parse::<i128>().map_err(|_| Fault::NoCase)
}

pub fn truth_of(word: &str) -> Result<bool, Fault> {
    match word {
        "true" => Ok(true),
        "false" => Ok(false),
        _ => Err(Fault::NoCase),
    }
}

pub fn operator_of(word: &str) -> Result<CompareOperator, Fault> {
    match word {
        "=" => Ok(CompareOperator::Eq),
        "!=" => Ok(CompareOperator::NotEq),
        ">" => Ok(CompareOperator::Gt),
        ">=" => Ok(CompareOperator::Gte),
        "<" => Ok(CompareOperator::Lt),
        "<=" => Ok(CompareOperator::Lte),
        _ => Err(Fault::NoCase),
    }
}

/// Whether each bound is left out: a round bracket leaves it out, a square one takes it in.
pub fn brackets_of(word: &str) -> Result<BetweenOptions, Fault> {
    match word {
        "[]" => Ok(bounds(StrictComparison::NonStrict, StrictComparison::NonStrict)),
        "[)" => Ok(bounds(StrictComparison::NonStrict, StrictComparison::Strict)),
        "(]" => Ok(bounds(StrictComparison::Strict, StrictComparison::NonStrict)),
        "()" => Ok(bounds(StrictComparison::Strict, StrictComparison::Strict)),
        _ => Err(Fault::NoCase),
    }
}

fn bounds(lower_strict: StrictComparison, upper_strict: StrictComparison) -> BetweenOptions {
    BetweenOptions {
        lower_strict,
        upper_strict,
    }
}
