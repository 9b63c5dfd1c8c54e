// Inputs of more bytes than are kept.
use crate::cases::words;
use crate::fakes::{Zeros, by_three};
use std::alloc::Global;
use std::test::Fail;
use vortex_query::{PlainOutput, ReadError, query, read_all};
use vortex_streams::READ_LIMIT;

// How many of so many bytes are read.
fn count_read(alloc: Global, left: usize) -> Result<usize, ReadError> {
    let bytes = read_all(alloc, &mut Zeros { left })?;
    Ok(bytes.len())
}

// The status of a scan of so many zeros.
fn status_of(alloc: Global, words: &[String], left: usize) -> Result<u8, Fail> {
    let mut output = by_three(alloc, 100, None)?;
    let status = query(
        alloc,
        words,
        &mut Zeros { left },
        &mut output,
        &mut PlainOutput::new(),
    );
    Ok(if output.output.bytes().is_empty() {
        status
    } else {
        0
    })
}

fn scan_status(alloc: Global, left: usize) -> Result<u8, Fail> {
    let words = words(alloc, "scan a,>,1")?;
    status_of(alloc, &words, left)
}

// Whether each count of bytes is read, or refused, as it should be.
fn are_counted(alloc: Global) -> bool {
    for (left, want) in [
        (67_108_864, Ok(67_108_864)),
        (67_108_865, Err(ReadError::TooLong)),
        (usize::MAX, Err(ReadError::TooLong)),
    ] {
        if count_read(alloc, left) != want {
            return false;
        }
    }
    true
}

// What is not as it should be, if there is such.
fn first_wrong(alloc: Global) -> Result<&'static str, Fail> {
    if READ_LIMIT != 67_108_864 {
        return Ok("the limit");
    }
    if !are_counted(alloc) {
        return Ok("the bytes that are read");
    }
    if scan_status(alloc, 67_108_865)? != 8 {
        return Ok("the status of a scan");
    }
    Ok("")
}

#[test]
fn an_input_of_more_bytes_than_the_limit_is_too_long(rt: HostRuntime) -> Result<(), Fail> {
    assert_eq!(rt; first_wrong(rt.alloc())?, "");
    Ok(())
}
