//! A table of nights over sources of one's own, and the cold ones by a scan. `docs/TOUR.md` walks through it.
#![tactic(auto)]

mod counted;
mod nights;
mod problem;
mod showing;

use counted::Counted;
use nights::{celsius_below, columns, partition, source};
use problem::Problem;
use std::alloc::Global;
use std::io;
use vortex_io::MemorySource;
use vortex_scan::ScanRequest;
use vortex_table_chunks::Chunk;
use vortex_table_scan::{Table, scan_table};

// Two partitions, and a source of one's own for each.
fn table(alloc: Global) -> Result<Table<Counted<MemorySource<Chunk>>>, Problem> {
    let mut partitions = Vec::new(alloc);
    let mut sources = Vec::new(alloc);
    for (towns, celsius) in [
        (["Bergen", "Oslo", "Bergen"], [4, -7, 9]),
        (["Oslo", "Oslo", "Hamar"], [2, 12, -11]),
    ] {
        partitions.push(partition(alloc)?)?;
        sources.push(Counted::new(source(alloc, &towns, &celsius)?))?;
    }
    match Table::try_new(alloc, columns(alloc)?, partitions, sources) {
        Ok(table) => Ok(table),
        Err(refused) => Err(Problem::Table(refused.error)),
    }
}

// How many chunks came from all sources.
fn came(table: &Table<Counted<MemorySource<Chunk>>>) -> u64 {
    let mut came = 0u64;
    for index in 0..table.partition_count() {
        came = came.saturating_add(table.source(index).came());
    }
    came
}

// The nights below 5 degrees, in the order of the table, and how many chunks came for them.
fn cold_nights(alloc: Global) -> Result<String, Problem> {
    let mut table = table(alloc)?;
    let mut request = ScanRequest::default();
    request.filter = Some(celsius_below(alloc, 5)?);
    request.ordered = true;
    let steps = table.enough_steps();
    let batches = match scan_table(alloc, &mut table, &request, steps) {
        Ok(batches) => batches,
        Err(_) => return Err(Problem::Scan),
    };
    Ok(showing::report(alloc, &batches, came(&table))?)
}

fn main(rt: HostRuntime) -> io::Result<()> {
    match cold_nights(rt.alloc()) {
        Ok(text) => print!(rt; "{text}"),
        Err(problem) => {
            let name = problem.name();
            eprintln!(rt; "{name}")
        }
    }
}
