//! Scans the text of a table on standard input, and writes the rows that a request chooses.
#![tactic(auto)]

use std::process::ExitCode;
use std::{env, io};
use vortex_query::{StdErrors, StdInput, StdOutput, query, refuse_words};

// The words but for the program's own name.
fn words(rt: &HostRuntime) -> io::Result<Vec<String>> {
    let mut words = Vec::new(rt.alloc());
    for word in env::args(rt)?.skip(1) {
        words.push(word)?;
    }
    Ok(words)
}

fn main(rt: HostRuntime) -> ExitCode {
    let mut input = StdInput::new(rt.stdin());
    let mut output = StdOutput::new(rt.stdout());
    let mut errors = StdErrors::new(rt.stderr());
    let status = match words(&rt) {
        Ok(words) => query(
            rt.alloc(),
            words.as_slice(),
            &mut input,
            &mut output,
            &mut errors,
        ),
        Err(error) => refuse_words(&mut errors, error.kind() == io::ErrorKind::OutOfMemory),
    };
    ExitCode::from(status)
}
