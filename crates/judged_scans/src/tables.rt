// Which descriptions make tables. A case has the names of the columns, the partitions and how many sources there are: a
// partition between `|`, a split between `;`, `3=3,2?` being a split of 3 rows with a chunk of 3 rows and one of 2 rows
// that may be null, and `-` no partition. What is wanted is the steps that are enough, or the refusal and how many sources
// came back.
use crate::cases::{columns, halves, sides};
use std::alloc::{AllocError, Global};
use std::fmt::Write;
use std::test::Fail;
use vortex_array::{ColumnDesc, DType, Nullability, PType};
use vortex_buffer::{Buffer, Items};
use vortex_io::{Arrive, MemorySource, Order};
use vortex_judge::are_small;
use vortex_scan_types::{NotIncreasing, StrictSortedBuffer};
use vortex_table::{Chunk, ChunkDesc, PartitionDesc, ScanError, SplitDesc, Table, TableError};

// The rows of a chunk, and whether they may be null: they may where a `?` follows.
fn chunk(written: &str) -> Result<(u64, Nullability), Fail> {
    match written.strip_suffix('?') {
        Some(rows) => Ok((rows.parse::<u64>()?, Nullability::Nullable)),
        None => Ok((written.parse::<u64>()?, Nullability::NonNullable)),
    }
}

fn chunks(alloc: Global, written: &str) -> Result<Items<ChunkDesc>, Fail> {
    let mut chunks = Vec::new(alloc);
    for piece in written.split(',') {
        let (rows, nullability) = chunk(piece)?;
        let dtype = DType::Primitive(PType::U64, nullability);
        chunks.push(ChunkDesc { rows, dtype })?;
    }
    Ok(Items::from_vec(chunks))
}

fn split(alloc: Global, written: &str) -> Result<SplitDesc, Fail> {
    let (rows, written) = written.split_once('=').ok_or("a split without rows")?;
    let rows = rows.parse::<u64>()?;
    let chunks = chunks(alloc, written)?;
    Ok(SplitDesc { rows, chunks })
}

fn partition(alloc: Global, written: &str) -> Result<PartitionDesc, Fail> {
    let mut splits = Vec::new(alloc);
    for piece in written.split(';') {
        splits.push(split(alloc, piece)?)?;
    }
    Ok(PartitionDesc {
        splits: Items::from_vec(splits),
    })
}

fn some_partitions(alloc: Global, written: &str) -> Result<Vec<PartitionDesc>, Fail> {
    let mut partitions = Vec::new(alloc);
    for piece in written.split('|') {
        partitions.push(partition(alloc, piece)?)?;
    }
    Ok(partitions)
}

fn partitions(alloc: Global, written: &str) -> Result<Vec<PartitionDesc>, Fail> {
    if written == "-" {
        return Ok(Vec::new(alloc));
    }
    some_partitions(alloc, written)
}

fn sources(alloc: Global, count: u64) -> Result<Vec<MemorySource<Chunk>>, AllocError> {
    let mut sources = Vec::new(alloc);
    for _ in 0..count {
        let chunks = Vec::new(alloc);
        sources.push(MemorySource::new(alloc, chunks, Arrive::OnWait(Order::First)))?;
    }
    Ok(sources)
}

fn steps(alloc: Global, table: &Table<MemorySource<Chunk>>) -> Result<String, AllocError> {
    format!(in alloc; "{} steps", table.enough_steps())
}

fn refusal(alloc: Global, error: TableError, sources: usize) -> Result<String, AllocError> {
    format!(in alloc; "{error}: {sources}")
}

// What comes of a description and so many sources.
fn made(
    alloc: Global,
    columns: Vec<ColumnDesc>,
    partitions: Vec<PartitionDesc>,
    sources: Vec<MemorySource<Chunk>>,
) -> Result<String, AllocError> {
    match Table::try_new(alloc, columns, partitions, sources) {
        Ok(table) => steps(alloc, &table),
        Err(refused) => refusal(alloc, refused.error, refused.sources.len()),
    }
}

fn made_of(alloc: Global, names: &str, written: &str, count: u64) -> Result<String, Fail> {
    let columns = columns(alloc, names)?;
    let partitions = partitions(alloc, written)?;
    let sources = sources(alloc, count)?;
    Ok(made(alloc, columns, partitions, sources)?)
}

fn made_from(alloc: Global, given: &str) -> Result<String, Fail> {
    let (names, rest) = halves(given)?;
    let (written, count) = halves(rest)?;
    made_of(alloc, names, written, count.parse::<u64>()?)
}

fn is_made(alloc: Global, given: &str, want: &str) -> Result<bool, Fail> {
    let made = made_from(alloc, given)?;
    Ok(made.as_str() == want)
}

// The first of the cases that is not right, if there is one.
fn first_wrong<'a>(alloc: Global, cases: &'a str) -> Result<&'a str, Fail> {
    for line in cases.lines() {
        let (given, want) = sides(line)?;
        if !is_made(alloc, given, want)? {
            return Ok(line);
        }
    }
    Ok("")
}

const MADE: &str = "\
a - 0 → 0 steps
a 3=3 1 → 8 steps
a 3=3|0=0;5=5 2 → 22 steps
a,b 3=3,3 1 → 8 steps
a,a 3=3,2 2 → two columns share a name: 2
b,a,c,a - 7 → two columns share a name: 7
a 3=3|3=2 1 → there is not one source for each partition: 1
a - 1 → there is not one source for each partition: 1
a 3=2 1 → the chunks of split 0 of partition 0 do not fit the columns: 1
a 3=3;3=2|3=3? 2 → the chunks of split 1 of partition 0 do not fit the columns: 2
a 3=3|3=3;3=3? 2 → the chunks of split 1 of partition 1 do not fit the columns: 2
a 3=3,3 1 → the chunks of split 0 of partition 0 do not fit the columns: 1
a,b 3=3 1 → the chunks of split 0 of partition 0 do not fit the columns: 1
a 9223372036854775807=9223372036854775807|9223372036854775808=9223372036854775808 2 → 16 steps
a 9223372036854775808=9223372036854775808|9223372036854775808=9223372036854775808 2 → the table has too many rows or splits: 2
a 9223372036854775808=9223372036854775808;9223372036854775808=9223372036854775808 1 → the table has too many rows or splits: 1";

#[test]
fn descriptions_make_tables_or_are_refused_by_the_first_cause(rt: HostRuntime) -> Result<(), Fail> {
    assert_eq!(rt; first_wrong(rt.alloc(), MADE)?, "");
    Ok(())
}

fn is_refusal(alloc: Global, error: TableError, want: &str) -> Result<bool, AllocError> {
    let text = refusal(alloc, error, 0)?;
    Ok(text.as_str() == want)
}

fn scan_says(alloc: Global, error: ScanError, want: &str) -> Result<bool, AllocError> {
    let text = error.to_string(alloc)?;
    Ok(text.as_str() == want)
}

#[test]
fn want_of_memory_says_so(rt: HostRuntime) -> Result<(), Fail> {
    assert!(rt; is_refusal(rt.alloc(), TableError::OutOfMemory, "out of memory: 0")?);
    assert!(rt; scan_says(rt.alloc(), ScanError::OutOfMemory, "out of memory")?);
    Ok(())
}

fn is_small(alloc: Global, written: &str) -> Result<bool, Fail> {
    let partitions = partitions(alloc, written)?;
    Ok(are_small(&partitions))
}

// The first of the partitions whose size is not told right, if there is one.
fn first_wrong_size(alloc: Global) -> Result<&'static str, Fail> {
    for (written, want) in [
        ("1=1;18446744073709551614=1", true),
        ("1=1;18446744073709551615=1", false),
    ] {
        if is_small(alloc, written)? != want {
            return Ok(written);
        }
    }
    Ok("")
}

#[test]
fn rows_past_64_bits_are_told(rt: HostRuntime) -> Result<(), Fail> {
    assert_eq!(rt; first_wrong_size(rt.alloc())?, "");
    Ok(())
}

fn says(alloc: Global, error: NotIncreasing, want: &str) -> Result<bool, Fail> {
    let text = error.to_string(alloc)?;
    Ok(text.as_str() == want)
}

// Whether the numbers are listed, or refused with this text.
fn is_listed(alloc: Global, numbers: &[u64], want: &str) -> Result<bool, Fail> {
    match StrictSortedBuffer::try_new(Buffer::from_slice(alloc, numbers)?) {
        Ok(listed) => Ok(want.is_empty() && listed.as_slice() == numbers),
        Err(error) => says(alloc, error, want),
    }
}

// Whether each list of numbers is listed or refused so.
fn are_listed(alloc: Global) -> Result<bool, Fail> {
    for (numbers, want) in [
        ([].as_slice(), ""),
        ([1, 3].as_slice(), ""),
        (
            [1, 1].as_slice(),
            "buffer values must be strictly increasing at positions 0 and 1",
        ),
        (
            [0, 3, 1].as_slice(),
            "buffer values must be strictly increasing at positions 1 and 2",
        ),
    ] {
        if !is_listed(alloc, numbers, want)? {
            return Ok(false);
        }
    }
    Ok(true)
}

#[test]
fn places_are_listed_in_strictly_ascending_order(rt: HostRuntime) -> Result<(), Fail> {
    assert!(rt; are_listed(rt.alloc())?);
    Ok(())
}
