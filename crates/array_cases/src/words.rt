// The words of a case.
use crate::stop::Stop;
use std::alloc::Global;

/// The word up to the first space, and what stands behind that space.
pub(crate) fn cut(words: &str) -> (&str, &str) {
    match words.split_once(' ') {
        Some((first, rest)) => (first, rest),
        None => (words, ""),
    }
}

/// What stands before and behind the first such character.
pub(crate) fn halves(word: &str, between: char) -> Result<(&str, &str), Stop> {
    match word.split_once(between) {
        Some((before, behind)) => Ok((before, behind)),
        None => Err(Stop::NotUnderstood),
    }
}

/// A number.
pub(crate) fn number(word: &str) -> Result<i128, Stop> {
    match word.parse::<i128>() {
        Ok(number) => Ok(number),
        Err(_) => Err(Stop::NotUnderstood),
    }
}

/// A number of rows, or a place.
pub(crate) fn count(word: &str) -> Result<usize, Stop> {
    match word.parse::<usize>() {
        Ok(count) => Ok(count),
        Err(_) => Err(Stop::NotUnderstood),
    }
}

/// A truth: `1` or `0`.
pub(crate) fn truth(word: &str) -> Result<bool, Stop> {
    match word {
        "1" => Ok(true),
        "0" => Ok(false),
        _ => Err(Stop::NotUnderstood),
    }
}

/// A truth as a word.
pub(crate) fn yes_or_no(truth: bool) -> &'static str {
    if truth { "yes" } else { "no" }
}

/// Letters, of which two quotation marks are none.
pub(crate) fn letters(word: &str) -> &str {
    if word == "''" { "" } else { word }
}

// The value of a hexadecimal digit.
fn digit(letter: u8) -> Result<u8, Stop> {
    match letter {
        b'0'..=b'9' => Ok(letter - b'0'),
        b'a'..=b'f' => Ok(letter - b'a' + 10),
        _ => Err(Stop::NotUnderstood),
    }
}

// A byte of two hexadecimal digits.
fn octet(pair: &[u8]) -> Result<u8, Stop> {
    match pair {
        [high, low] => Ok(digit(*high)? << 4 | digit(*low)?),
        _ => Err(Stop::NotUnderstood),
    }
}

/// Bytes in hexadecimal.
pub(crate) fn octets(alloc: Global, word: &str) -> Result<Vec<u8>, Stop> {
    let mut bytes = Vec::new(alloc);
    for pair in letters(word).as_bytes().chunks(2) {
        bytes.push(octet(pair)?)?;
    }
    Ok(bytes)
}
