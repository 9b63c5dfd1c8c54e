//! Reads cases of filters, patterns and values, one a line, and writes each with its answer.
//! A case is a family's name and its words, one space between two. `bench/cases/filters.py` writes the cases, and by a
//! model of its own the answers that are wanted.
#![tactic(auto)]

mod families;
mod fault;
mod filters;
mod predicates;
mod stack;
mod telling;
mod types;
mod values;
mod words;

use fault::Fault;
use std::alloc::{AllocError, Global};
use std::io;

fn main(rt: HostRuntime) -> io::Result<()> {
    let cases = io::read_to_string(rt.alloc(), rt.reader())?;
    let answers = answers(rt.alloc(), cases.as_str())?;
    print!(rt; "{answers}")
}

// Each case, ` = ` and its answer, in a line of their own.
fn answers(alloc: Global, cases: &str) -> Result<String, AllocError> {
    let mut out = String::new(alloc);
    for case in cases.lines() {
        push_answer(alloc, case, &mut out)?;
    }
    Ok(out)
}

fn push_answer(alloc: Global, case: &str, out: &mut String) -> Result<(), AllocError> {
    out.push_str(case)?;
    out.push_str(" = ")?;
    match families::answer(alloc, case, out) {
        Ok(()) => {}
        Err(Fault::NoCase) => out.push_str("no case")?,
        Err(Fault::OutOfMemory) => return Err(AllocError),
    }
    out.push_str("\n")
}
