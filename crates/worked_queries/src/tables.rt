// How table texts are cut into partitions and splits, and which are refused.
use crate::cases::{sides, text_of};
use std::alloc::Global;
use std::fmt::Write;
use std::test::Fail;
use vortex_io::MemorySource;
use vortex_query::{Encode, Options, TableTextError, table_of};
use vortex_table::{Chunk, Table};

// Writes the rows of each split of the first partition.
fn write_splits(text: &mut String, table: &Table<MemorySource<Chunk>>) -> Result<(), Fail> {
    if table.partition_count() == 0 {
        return Ok(());
    }
    for split in table.splits(0) {
        write!(text, " {}", split.rows)?;
    }
    Ok(())
}

// The partitions of a table, the rows of each split of the first, and the steps of a scan.
fn shape(alloc: Global, table: &Table<MemorySource<Chunk>>) -> Result<String, Fail> {
    let mut text = String::new(alloc);
    write!(text, "{}:", table.partition_count())?;
    write_splits(&mut text, table)?;
    write!(text, ", {} steps", table.enough_steps())?;
    Ok(text)
}

fn has_shape(alloc: Global, table: &Table<MemorySource<Chunk>>, want: &str) -> Result<bool, Fail> {
    let text = shape(alloc, table)?;
    Ok(text.as_str() == want)
}

fn is_refusal(alloc: Global, error: TableTextError, want: &str) -> Result<bool, Fail> {
    let text = error.to_string(alloc)?;
    Ok(text.as_str() == want)
}

fn is_cut(alloc: Global, bytes: &[u8], want: &str) -> Result<bool, Fail> {
    match table_of(alloc, bytes, &Options::default()) {
        Ok(table) => has_shape(alloc, &table, want),
        Err(error) => is_refusal(alloc, error, want),
    }
}

fn is_right(alloc: Global, line: &str) -> Result<bool, Fail> {
    let (given, want) = sides(line)?;
    let text = text_of(alloc, given)?;
    is_cut(alloc, text.as_bytes(), want)
}

// The first of the cases that is not right, if there is one.
fn first_wrong<'a>(alloc: Global, cases: &'a str) -> Result<&'a str, Fail> {
    for line in cases.lines() {
        if !is_right(alloc, line)? {
            return Ok(line);
        }
    }
    Ok("")
}

// Whether a name that is no text is refused.
fn refuses_other_bytes(alloc: Global) -> Result<bool, Fail> {
    is_cut(
        alloc,
        b"\xe4:u64\n1\n",
        "the table is not of a form that is built",
    )
}

const CUT: &str = "\
numbers 0..0 → 0:, 0 steps
numbers 0..1 → 1: 1, 8 steps
numbers 0..8192 → 1: 8192, 8 steps
numbers 0..8193 → 1: 8192 1, 14 steps
a:u64␊x␊ → the table is not of a form that is built";

// The first case that is not right, or what else is not, if there is such.
fn first_wrong_cut(alloc: Global) -> Result<&'static str, Fail> {
    if Options::default().encode != Encode::Plain {
        return Ok("the chunks without options");
    }
    if !refuses_other_bytes(alloc)? {
        return Ok("a name that is no text");
    }
    first_wrong(alloc, CUT)
}

#[test]
fn tables_are_cut_into_splits_of_plain_chunks(rt: HostRuntime) -> Result<(), Fail> {
    assert_eq!(rt; first_wrong_cut(rt.alloc())?, "");
    Ok(())
}
