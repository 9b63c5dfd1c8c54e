//! Nights in some towns, as columns: built, compared, filtered, taken and read. `docs/TOUR.md` walks through it.
#![tactic(auto)]

mod building;
mod choosing;
mod problem;
mod showing;

use problem::Problem;
use showing::push_column;
use std::alloc::{AllocError, Global};
use std::io;
use vortex_array::{Array, RecordBatch};

// Adds a heading and a batch to a text: each column in a line.
fn push_batch(
    text: &mut String,
    alloc: Global,
    heading: &str,
    batch: &RecordBatch,
) -> Result<(), AllocError> {
    text.push_str(heading)?;
    for column in batch.columns() {
        push_column(text, alloc, column)?;
    }
    Ok(())
}

// Adds a heading and a column to a text.
fn push_rows(
    text: &mut String,
    alloc: Global,
    heading: &str,
    column: &Array,
) -> Result<(), AllocError> {
    text.push_str(heading)?;
    push_column(text, alloc, column)
}

// The nights that were colder than 5 degrees.
fn cold_nights(alloc: Global) -> Result<RecordBatch, Problem> {
    let nights = building::nights(alloc)?;
    choosing::colder(alloc, &nights, 5)
}

// The first two nights.
fn first_nights(alloc: Global) -> Result<RecordBatch, Problem> {
    let nights = building::nights(alloc)?;
    choosing::first(alloc, &nights, 2)
}

// The towns whose names have an `o`.
fn towns_like(alloc: Global) -> Result<Array, Problem> {
    let towns = building::towns(alloc)?;
    choosing::matching(alloc, &towns, "%o%")
}

// The towns at some places, null where a place is null.
fn towns_at(alloc: Global) -> Result<Array, Problem> {
    let towns = building::towns(alloc)?;
    let places = building::places(alloc)?;
    choosing::taken(alloc, &towns, &places)
}

fn push_nights(text: &mut String, alloc: Global) -> Result<(), Problem> {
    push_batch(text, alloc, "colder than 5 degrees\n", &cold_nights(alloc)?)?;
    push_batch(text, alloc, "the first two\n", &first_nights(alloc)?)?;
    Ok(())
}

fn push_towns(text: &mut String, alloc: Global) -> Result<(), Problem> {
    push_rows(text, alloc, "towns like %o%\n", &towns_like(alloc)?)?;
    push_rows(text, alloc, "towns at places\n", &towns_at(alloc)?)?;
    Ok(())
}

// The least and the greatest degrees.
fn push_degrees(text: &mut String, alloc: Global) -> Result<(), Problem> {
    text.push_str("the coldest and the warmest\n")?;
    showing::push_extremes(text, alloc, &building::degrees(alloc)?)?;
    Ok(())
}

fn tour(alloc: Global) -> Result<String, Problem> {
    let mut text = String::new(alloc);
    push_nights(&mut text, alloc)?;
    push_towns(&mut text, alloc)?;
    push_degrees(&mut text, alloc)?;
    Ok(text)
}

fn main(rt: HostRuntime) -> io::Result<()> {
    match tour(rt.alloc()) {
        Ok(text) => print!(rt; "{text}"),
        Err(problem) => {
            let name = problem.name();
            eprintln!(rt; "{name}")
        }
    }
}
