// Whole reads and writes over streams in memory that fail or are short of room, and the answers of single calls.
use crate::fakes::{by_three, calls};
use std::alloc::{AllocError, Global};
use std::test::Fail;
use vortex_buffer::Buffer;
use vortex_streams::{
    ByteSink, ByteSource, Failed, MemoryInput, MemoryOutput, PlainInput, PlainOutput, ReadError,
    read_all, write_all,
};

const TEXT: &[u8] = b"to be written once";

// 150,000 bytes, which take three reads and one that finds the end.
fn long(alloc: Global) -> Result<Vec<u8>, AllocError> {
    let mut bytes = Vec::new(alloc);
    for i in 0..150_000_u32 {
        bytes.push((i % 251) as u8)?;
    }
    Ok(bytes)
}

fn input(alloc: Global, text: &[u8], call: Option<u64>) -> Result<MemoryInput, AllocError> {
    let failing = calls(alloc, call)?;
    Ok(MemoryInput::new(Buffer::from_slice(alloc, text)?, failing))
}

fn gives<I: ByteSource>(alloc: Global, input: &mut I, text: &[u8]) -> Result<bool, Fail> {
    let all = read_all(alloc, input)?;
    Ok(all.as_slice() == text)
}

fn is_refused(alloc: Global, input: &mut MemoryInput) -> bool {
    match read_all(alloc, input) {
        Ok(_) => false,
        Err(error) => error == ReadError::ReadFault,
    }
}

// Whether a read of all that fails at a call leaves what stands behind so many bytes to the next.
fn breaks_off(alloc: Global, text: &[u8], call: u64, taken: usize) -> Result<bool, Fail> {
    let mut input = input(alloc, text, Some(call))?;
    let failed = is_refused(alloc, &mut input);
    Ok(failed && gives(alloc, &mut input, &text[taken.min(text.len())..])?)
}

fn long_breaks_off(alloc: Global, call: u64, taken: usize) -> Result<bool, Fail> {
    let text = long(alloc)?;
    breaks_off(alloc, &text, call, taken)
}

fn is_read(alloc: Global, text: &[u8], call: Option<u64>) -> Result<bool, Fail> {
    let mut input = input(alloc, text, call)?;
    gives(alloc, &mut input, text)
}

// Whether an input is read whole that does not fail, and one that would fail in a call past the end.
fn is_read_whole(alloc: Global) -> Result<bool, Fail> {
    let text = long(alloc)?;
    Ok(is_read(alloc, &text, None)? && is_read(alloc, &text, Some(4))?)
}

// Whether each call that fails leaves the next what stands behind it.
fn each_breaks_off(alloc: Global) -> Result<bool, Fail> {
    for (call, taken) in [(0, 0), (1, 65_536), (2, 131_072), (3, 150_000)] {
        if !long_breaks_off(alloc, call, taken)? {
            return Ok(false);
        }
    }
    Ok(true)
}

#[test]
fn an_input_is_read_whole_or_to_the_call_that_fails(rt: HostRuntime) -> Result<(), Fail> {
    assert!(rt; each_breaks_off(rt.alloc())?, "failing calls");
    assert!(rt; is_read_whole(rt.alloc())?);
    Ok(())
}

// Whether an output by three that fails at a call took so many bytes.
fn takes_front(alloc: Global, call: u64, taken: usize) -> Result<bool, Fail> {
    let mut sink = by_three(alloc, 100, Some(call))?;
    let whole = write_all(&mut sink, TEXT).is_ok();
    let front = &TEXT[..taken.min(TEXT.len())];
    Ok(sink.output.bytes() == front && whole == (taken == TEXT.len()))
}

// Whether an output with this room takes the text, whole or not.
fn takes_within(alloc: Global, room: usize, whole: bool) -> Result<bool, Fail> {
    let mut output = MemoryOutput::new(alloc, room, calls(alloc, None)?)?;
    let taken = write_all(&mut output, TEXT).is_ok();
    Ok(taken == whole && output.bytes() == &TEXT[..room.min(TEXT.len())])
}

fn takes_each_front(alloc: Global) -> Result<bool, Fail> {
    for (call, taken) in [(0, 0), (1, 3), (2, 6), (3, 9), (4, 12), (5, 15), (6, 18)] {
        if !takes_front(alloc, call, taken)? {
            return Ok(false);
        }
    }
    Ok(true)
}

fn takes_within_each_room(alloc: Global) -> Result<bool, Fail> {
    for (room, whole) in [(0, false), (7, false), (17, false), (18, true), (19, true)] {
        if !takes_within(alloc, room, whole)? {
            return Ok(false);
        }
    }
    Ok(true)
}

#[test]
fn an_output_takes_what_fits_its_room_up_to_the_call_that_fails(
    rt: HostRuntime,
) -> Result<(), Fail> {
    assert!(rt; takes_each_front(rt.alloc())?, "failing calls");
    assert!(rt; takes_within_each_room(rt.alloc())?, "rooms");
    Ok(())
}

// Whether a read of three bytes at most gives these.
fn reads(input: &mut MemoryInput, want: &str) -> bool {
    let mut buffer = [0; 3];
    match input.read(&mut buffer) {
        Ok(n) => &buffer[..n.min(3)] == want.as_bytes(),
        Err(_) => want == "failed",
    }
}

fn failing_reads(alloc: Global) -> Result<MemoryInput, AllocError> {
    let failing = Buffer::from_slice(alloc, &[3, 1, 1])?;
    Ok(MemoryInput::new(Buffer::from_slice(alloc, b"abcde")?, failing))
}

fn are_read(input: &mut MemoryInput) -> bool {
    for want in ["abc", "failed", "de", "failed", "", ""] {
        if !reads(input, want) {
            return false;
        }
    }
    true
}

fn listed_reads_fail(alloc: Global) -> Result<bool, AllocError> {
    let mut input = failing_reads(alloc)?;
    Ok(are_read(&mut input))
}

fn writes(output: &mut MemoryOutput, piece: &[u8], want: Option<usize>) -> bool {
    output.write(piece).ok() == want
}

fn are_taken(output: &mut MemoryOutput) -> bool {
    writes(output, b"ab", Some(2))
        && writes(output, b"c", None)
        && writes(output, b"cde", Some(2))
        && writes(output, b"e", None)
        && writes(output, b"", Some(0))
        && writes(output, b"e", None)
}

// Whether the second write fails, and those without room.
fn listed_writes_fail(alloc: Global) -> Result<bool, AllocError> {
    let mut output = MemoryOutput::new(alloc, 4, calls(alloc, Some(1))?)?;
    Ok(are_taken(&mut output) && output.bytes() == b"abcd".as_slice())
}

#[test]
fn only_listed_calls_and_writes_without_room_are_refused(rt: HostRuntime) -> Result<(), Fail> {
    assert!(rt; listed_reads_fail(rt.alloc())?);
    assert!(rt; listed_writes_fail(rt.alloc())?);
    Ok(())
}

// Whether an input that never fails gives a text, and an output that never fails takes it.
fn passes(alloc: Global, text: &[u8]) -> Result<bool, Fail> {
    let taken = write_all(&mut PlainOutput::new(), text);
    let mut input = PlainInput::new(Buffer::from_slice(alloc, text)?);
    Ok(taken == Ok(()) && gives(alloc, &mut input, text)?)
}

#[test]
fn plain_streams_never_fail(rt: HostRuntime) -> Result<(), Fail> {
    let text = long(rt.alloc())?;
    assert!(rt; passes(rt.alloc(), &text)?);
    Ok(())
}

fn says(alloc: Global, error: ReadError, want: &str) -> Result<bool, AllocError> {
    let text = error.to_string(alloc)?;
    Ok(text.as_str() == want)
}

fn failed_says(alloc: Global, want: &str) -> Result<bool, AllocError> {
    let text = Failed.to_string(alloc)?;
    Ok(text.as_str() == want)
}

// The first text that a failed read does not say, if there is one.
fn first_unsaid(alloc: Global) -> Result<&'static str, AllocError> {
    for (error, want) in [
        (ReadError::ReadFault, "the input failed"),
        (ReadError::TooLong, "the input has more than 67108864 bytes"),
        (ReadError::OutOfMemory, "out of memory"),
    ] {
        if !says(alloc, error, want)? {
            return Ok(want);
        }
    }
    Ok("")
}

#[test]
fn failures_say_what_failed(rt: HostRuntime) -> Result<(), Fail> {
    assert!(rt; first_unsaid(rt.alloc())?.is_empty());
    assert!(rt; failed_says(rt.alloc(), "the stream failed")?);
    Ok(())
}
