//! Cases of the calls on columns, as text: a line of standard input is a case, and the line of standard output below the
//! same number is the case, ` = ` and its answer. A further case is a further line, and costs no proof.
//!
//! A case is the name of a call and its words, with one space between two of them. A column is one word:
//!
//! - `TYPE:ROW,ROW,..` a plain column. TYPE is `bool`, `u8` to `u64`, `i8` to `i64`, `decimal(P,S)`, `utf8` or `binary`.
//!   The numbers of decimals are kept in 64 bits, or in the width behind a slash: `decimal(10,2)/16`. A mark behind it says
//!   how nulls are kept: none, where the type has no nulls; `?` by a bit for each row; `+` no row is null; `!` each row is.
//! - `TYPE*N:ROW` a constant column of N equal rows. Its type has nulls where TYPE ends with `?`.
//!
//! A row is `1` or `0`, a number (of a decimal the unscaled one), the letters of a text, or bytes in hexadecimal; `''` is
//! an empty text and no bytes. `-` is null, and `~ROW` is null in a place that holds ROW. `@N` behind the rows repeats them
//! until there are N. In answers `^N` behind a row is N equal rows in a line. A scalar is `TYPE=ROW`. A mask is `1` and `0`
//! for its bits, also with `@N`, or `all` or `none` in the forms that keep no bits.
//!
//! `no such call` answers a case that breaks a condition of its call, `not understood` one that is no case.
#![tactic(auto)]

mod asking;
mod batches;
mod building;
mod columns;
mod comparing;
mod keeping;
mod parts;
mod reading;
mod rows;
mod shown;
mod stop;
mod truths;
mod types;
mod values;
mod words;

use std::alloc::{AllocError, Global};
use std::io;
use stop::Stop;
use words::cut;

// A call whose first word is a column.
fn of_column(alloc: Global, call: &str, words: &str) -> Result<String, Stop> {
    let (column, words) = cut(words);
    let array = columns::column(alloc, column)?;
    reading::answer(alloc, call, &array, words)
}

// The answer of a case.
fn answer(alloc: Global, case: &str) -> Result<String, Stop> {
    let (call, words) = cut(case);
    match call {
        "try_new" => building::try_new(alloc, words),
        "push" => building::push(alloc, words),
        "batch" => batches::batch(alloc, words),
        "head" => batches::head(alloc, words),
        "matches" => asking::matches(alloc, words),
        _ => of_column(alloc, call, words),
    }
}

// The answer of a case, or why it has none.
fn answer_text(alloc: Global, case: &str) -> Result<String, AllocError> {
    match answer(alloc, case) {
        Ok(text) => Ok(text),
        Err(stop) => stop.name().to_string(alloc),
    }
}

// One line: the case and its answer.
fn push_answer(alloc: Global, case: &str, text: &mut String) -> Result<(), AllocError> {
    let answer = answer_text(alloc, case)?;
    text.push_str(case)?;
    text.push_str(" = ")?;
    text.push_str(answer.as_str())?;
    text.push('\n')
}

// Each case and its answer, in lines of their own.
fn answers(alloc: Global, cases: &str) -> Result<String, AllocError> {
    let mut text = String::new(alloc);
    for case in cases.lines() {
        push_answer(alloc, case, &mut text)?;
    }
    Ok(text)
}

fn main(rt: HostRuntime) -> io::Result<()> {
    let cases = io::read_to_string(rt.alloc(), rt.reader())?;
    let answers = answers(rt.alloc(), cases.as_str())?;
    print!(rt; "{answers}")
}
