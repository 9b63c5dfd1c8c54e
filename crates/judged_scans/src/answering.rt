// The batches of scans, and their refusals, as texts. A case has the names of the columns, the table and the request, and then
// each batch's root, the rows of its split in which partition, its place and its rows; each case is asked with and without
// order.
ghost use Rattle.judged_scans.specs.Ready.{IsReady};
ghost use Rattle.vortex_table.specs.Given.{contents_of};

use crate::cases::{halves, sides};
use crate::choosing::write_values;
use crate::requests::request_of;
use crate::stored::{scan, table_of};
use std::alloc::{AllocError, Global};
use std::fmt::Write;
use std::test::Fail;
use vortex_io::MemorySource;
use vortex_judge::{PlainBatch, read_batch};
use vortex_scan_types::{Batch, ScanRequest};
use vortex_table::{Chunk, ScanError, Table};

fn write_columns(text: &mut String, batch: &PlainBatch) -> Result<(), AllocError> {
    for column in batch.columns() {
        text.push_str(":")?;
        write_values(text, column.rows())?;
    }
    Ok(())
}

fn write_place(text: &mut String, numbers: &[u64]) -> Result<(), AllocError> {
    for number in numbers {
        write!(text, " {number}")?;
    }
    Ok(())
}

fn write_origin(text: &mut String, batch: &Batch) -> Result<(), AllocError> {
    let rows = &batch.scope.rows;
    write!(text, "root {}, ", batch.root.0)?;
    write!(text, "rows {}..{} ", rows.start, rows.end)?;
    write!(text, "of {}, place", batch.scope.file_ordinal)?;
    write_place(text, batch.place.as_slice())
}

fn write_batch(alloc: Global, text: &mut String, batch: &Batch) -> Result<(), AllocError> {
    let plain = read_batch(alloc, batch)?;
    write_origin(text, batch)?;
    write_columns(text, &plain)?;
    text.push_str(";")
}

fn batches_text(alloc: Global, batches: &[Batch]) -> Result<String, AllocError> {
    let mut text = String::new(alloc);
    if batches.is_empty() {
        text.push_str("no batch")?;
    }
    for batch in batches {
        write_batch(alloc, &mut text, batch)?;
    }
    Ok(text)
}

fn is_unfetched(table: &Table<MemorySource<Chunk>>) -> bool {
    for index in 0..table.partition_count() {
        if !table.source(index).journal().is_empty() {
            return false;
        }
    }
    true
}

// How a scan was refused, and whether a source was asked for anything before.
fn refusal_text(
    alloc: Global,
    table: &Table<MemorySource<Chunk>>,
    error: &ScanError,
) -> Result<String, AllocError> {
    if is_unfetched(table) {
        format!(in alloc; "{error}")
    } else {
        format!(in alloc; "fetched, and then {error}")
    }
}

fn answer_text(
    alloc: Global,
    table: &mut Table<MemorySource<Chunk>>,
    request: &ScanRequest,
) -> Result<String, AllocError>
    requires { IsReady table.old }
{
    match scan(alloc, table, request) {
        Ok(batches) => batches_text(alloc, &batches),
        Err(error) => refusal_text(alloc, table, &error),
    }
}

fn answers_so(
    alloc: Global,
    names: &str,
    written: &str,
    request: &ScanRequest,
    want: &str,
) -> Result<bool, Fail> {
    let mut table = table_of(alloc, names, written)?;
    let text = answer_text(alloc, &mut table, request)?;
    Ok(text.as_str() == want)
}

fn is_answered_so(
    alloc: Global,
    names: &str,
    rest: &str,
    ordered: bool,
    want: &str,
) -> Result<bool, Fail> {
    let (written, asked) = halves(rest)?;
    let mut request = request_of(alloc, asked)?;
    request.ordered = ordered;
    answers_so(alloc, names, written, &request, want)
}

fn is_right(alloc: Global, line: &str, ordered: bool) -> Result<bool, Fail> {
    let (given, want) = sides(line)?;
    let (names, rest) = halves(given)?;
    is_answered_so(alloc, names, rest, ordered, want)
}

// The first of the cases that is not right, if there is one.
fn first_wrong<'a>(alloc: Global, cases: &'a str) -> Result<&'a str, Fail> {
    for line in cases.lines() {
        if !is_right(alloc, line, false)? || !is_right(alloc, line, true)? {
            return Ok(line);
        }
    }
    Ok("")
}

const ANSWERED: &str = "\
a [1,2,3] a,>,1 → root 0, rows 0..3 of 0, place 0 0: 2 3;
a [1,2,3] a,>,3 → no batch
a [1,2,3] all → root 0, rows 0..3 of 0, place 0 0: 1 2 3;
a - all → no batch
a . all → no batch
a [] all → no batch
a [1][][2,3] a,>=,1 → root 0, rows 0..1 of 0, place 0 0: 1;root 0, rows 1..3 of 0, place 0 1: 2 3;
a [1,4][2][3,5] a,!=,2 → root 0, rows 0..2 of 0, place 0 0: 1 4;root 0, rows 3..5 of 0, place 0 2: 3 5;
a [7*2][8,7] a,=,7 → root 0, rows 0..2 of 0, place 0 0: 7 7;root 0, rows 2..4 of 0, place 0 1: 7;
b [18446744073709551615,0] b,<,1 → root 0, rows 0..2 of 0, place 0 0: 0;
a [3,1,2] a,<=,2 → root 0, rows 0..3 of 0, place 0 0: 1 2;";

#[test]
fn batches_tell_where_they_come_from(rt: HostRuntime) -> Result<(), Fail> {
    assert_eq!(rt; first_wrong(rt.alloc(), ANSWERED)?, "");
    Ok(())
}

const REFUSED: &str = "\
a [1]|[1] all → the table or the request is of a form that is not built
a,b - all → the table or the request is of a form that is not built
a:u64? . all → the table or the request is of a form that is not built
a:i32? . all → the table or the request is of a form that is not built
a [1] limit 1 → the table or the request is of a form that is not built
a [1] rows 0..1 all → the table or the request is of a form that is not built
a [1] partitions 0..1 all → the table or the request is of a form that is not built
a [1] rows every only:0 → the table or the request is of a form that is not built
a [1] partitions every only:0 → the table or the request is of a form that is not built
a [1] columns a → the table or the request is of a form that is not built
a [1] is-null a → the table or the request is of a form that is not built
a [1] not a,>,1 → the table or the request is of a form that is not built
a [1] a,>,1 and a,>,1 → the table or the request is of a form that is not built
a [1] a,>,1 or a,>,1 → the table or the request is of a form that is not built
a [1] truth a → the table or the request is of a form that is not built
a [1] between a 1..3 → the table or the request is of a form that is not built
a [1] like-any a → the table or the request is of a form that is not built
a [1] constant-first a → the table or the request is of a form that is not built
a [1] two-columns a → the table or the request is of a form that is not built
a [1] a,=,null:u64? → the table or the request is of a form that is not built
a [1] a,>,1:u64? → the table or the request is of a form that is not built
a [1] a,>,1:i32? → the table or the request is of a form that is not built
a - b,=,1 → no column has the name b
a [] b,=,1 → no column has the name b
a [][1,18446744073709551615][0][][9223372036854775808,1] b,=,1 → no column has the name b
b [1] a,>,1 → no column has the name a";

#[test]
fn forms_that_are_not_built_and_unknown_columns_are_refused_before_any_fetch(
    rt: HostRuntime,
) -> Result<(), Fail> {
    assert_eq!(rt; first_wrong(rt.alloc(), REFUSED)?, "");
    Ok(())
}
