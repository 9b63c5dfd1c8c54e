// What the cases share. A case is a line: what is given, an arrow, and what is wanted. In a line `␊` stands for a line feed, `␍`
// for a carriage return, `␂` for a byte order mark, `numbers 3..6` for the table of the column `a` with the numbers 3, 4 and
// 5, and `a,>,1` for the request that asks where the column `a` is above 1.
use std::alloc::{AllocError, Global};
use std::fmt::Write;
use std::test::Fail;

/// What stands before and behind the arrow.
pub fn sides(line: &str) -> Result<(&str, &str), Fail> {
    Ok(line.split_once(" → ").ok_or("a case without an arrow")?)
}

/// What stands before and behind the first bar.
pub fn halves(written: &str) -> Result<(&str, &str), Fail> {
    Ok(written.split_once('|').ok_or("a case without a bar")?)
}

fn letter_of(letter: char) -> char {
    match letter {
        '␊' => '\n',
        '␍' => '\r',
        '␂' => '\u{feff}',
        _ => letter,
    }
}

fn plain(alloc: Global, written: &str) -> Result<String, AllocError> {
    let mut text = String::new(alloc);
    for letter in written.chars() {
        text.push(letter_of(letter))?;
    }
    Ok(text)
}

// The table of the numbers from one to another, without that.
fn counted(alloc: Global, low: u64, high: u64) -> Result<String, AllocError> {
    let mut text = String::from_str(alloc, "a:u64\n")?;
    for number in low..high {
        writeln!(text, "{number}")?;
    }
    Ok(text)
}

fn numbers(alloc: Global, ends: &str) -> Result<String, Fail> {
    let (low, high) = ends.split_once("..").ok_or("numbers without an end")?;
    let low = low.parse::<u64>()?;
    let high = high.parse::<u64>()?;
    Ok(counted(alloc, low, high)?)
}

/// The text that a case stands for.
pub fn text_of(alloc: Global, written: &str) -> Result<String, Fail> {
    match written.strip_prefix("numbers ") {
        Some(ends) => numbers(alloc, ends),
        None => Ok(plain(alloc, written)?),
    }
}

/// Whether these bytes are the text that a case stands for.
pub fn is_text(alloc: Global, bytes: &[u8], written: &str) -> Result<bool, Fail> {
    let text = text_of(alloc, written)?;
    Ok(text.as_bytes() == bytes)
}

// The request for the rows of a column that compare so with a number.
fn compared(alloc: Global, column: &str, rest: &str) -> Result<String, Fail> {
    let (operator, number) = rest.split_once(',').ok_or("a word with one comma")?;
    let mut text = String::new(alloc);
    for part in [
        r#"{"filter":{"cmp":[""#,
        operator,
        r#"",{"col":""#,
        column,
        r#""},{"lit":["u64","#,
        number,
        "]}]}}",
    ] {
        text.push_str(part)?;
    }
    Ok(text)
}

fn short_word(alloc: Global, written: &str) -> Result<String, Fail> {
    match written.split_once(',') {
        Some((column, rest)) => compared(alloc, column, rest),
        None => Ok(plain(alloc, written)?),
    }
}

/// The word that a case stands for. One with a brace is written out.
pub fn word(alloc: Global, written: &str) -> Result<String, Fail> {
    if written.find('{').is_some() {
        Ok(plain(alloc, written)?)
    } else {
        short_word(alloc, written)
    }
}

/// The words, which spaces part.
pub fn words(alloc: Global, written: &str) -> Result<Vec<String>, Fail> {
    let mut words = Vec::new(alloc);
    for part in written.split(' ') {
        if !part.is_empty() {
            words.push(word(alloc, part)?)?;
        }
    }
    Ok(words)
}
