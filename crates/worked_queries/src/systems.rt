// Streams of the system, over readers and writers in memory.
use crate::fakes::{BreaksOff, Stuck};
use std::alloc::Global;
use std::test::Fail;
use vortex_streams::{ByteSink, ReadError, StdErrors, StdInput, StdOutput, read_all, write_all};

const TEXT: &[u8] = b"to be passed on";

// Whether the input gives the text, whole.
fn gives_text(alloc: Global) -> Result<bool, Fail> {
    let all = read_all(alloc, &mut StdInput::new(TEXT))?;
    Ok(all.as_slice() == TEXT)
}

fn is_refused(alloc: Global, input: &mut StdInput<BreaksOff>) -> bool {
    match read_all(alloc, input) {
        Ok(_) => false,
        Err(error) => error == ReadError::ReadFault,
    }
}

// Whether a reader that breaks off is refused, and the next read goes on behind it.
fn goes_on(alloc: Global) -> Result<bool, Fail> {
    let mut input = StdInput::new(BreaksOff { calls: 0 });
    let refused = is_refused(alloc, &mut input);
    let rest = read_all(alloc, &mut input)?;
    Ok(refused && rest.is_empty())
}

// Whether the writer gets the text.
fn gets_text(alloc: Global) -> Result<bool, Fail> {
    let mut kept = Vec::new(alloc);
    write_all(&mut StdOutput::new(&mut kept), TEXT)?;
    Ok(kept.as_slice() == TEXT)
}

fn takes(stuck: bool, piece: &[u8]) -> bool {
    StdErrors::new(Stuck { takes: stuck }).write(piece).is_ok()
}

// Whether a writer takes something that takes nothing, or whose flush fails.
fn takes_any() -> bool {
    takes(false, TEXT) || takes(true, TEXT) || takes(false, b"")
}

// What a stream of the system does otherwise, if there is such.
fn first_wrong(alloc: Global) -> Result<&'static str, Fail> {
    if !gives_text(alloc)? {
        return Ok("an input gives its text");
    }
    if !goes_on(alloc)? {
        return Ok("an input goes on");
    }
    if !gets_text(alloc)? {
        return Ok("an output passes its text on");
    }
    if takes_any() {
        return Ok("a writer that is stuck");
    }
    Ok("")
}

#[test]
fn streams_of_the_system_pass_bytes_on_and_tell_of_failures(rt: HostRuntime) -> Result<(), Fail> {
    assert_eq!(rt; first_wrong(rt.alloc())?, "");
    Ok(())
}
