// Which rows requests choose. A case has the column, the rows of a table and the request, and then each chosen row's partition,
// its place there and its values, `?` being null.
use crate::cases::{halves, sides, table_of};
use crate::requests::request_of;
use std::alloc::{AllocError, Global};
use std::fmt::Write;
use std::test::Fail;
use vortex_array::Value;
use vortex_judge::{PlacedRow, chosen_rows};
use vortex_scan_types::ScanRequest;

fn write_value(text: &mut String, value: &Option<Value>) -> Result<(), AllocError> {
    match value {
        Some(Value::Int(number)) => write!(text, " {number}"),
        _ => text.push_str(" ?"),
    }
}

/// Writes each value behind a space.
pub fn write_values(text: &mut String, values: &[Option<Value>]) -> Result<(), AllocError> {
    for value in values {
        write_value(text, value)?;
    }
    Ok(())
}

fn write_row(text: &mut String, row: &PlacedRow) -> Result<(), AllocError> {
    write!(text, "{}:{}", row.partition(), row.row())?;
    write_values(text, row.values())?;
    text.push_str(";")
}

fn rows_text(alloc: Global, rows: &[PlacedRow]) -> Result<String, AllocError> {
    let mut text = String::new(alloc);
    if rows.is_empty() {
        text.push_str("no row")?;
    }
    for row in rows {
        write_row(&mut text, row)?;
    }
    Ok(text)
}

fn chosen_of(
    alloc: Global,
    request: &ScanRequest,
    names: &str,
    written: &str,
) -> Result<Vec<PlacedRow>, Fail> {
    let table = table_of(alloc, names, written)?;
    Ok(chosen_rows(alloc, request, &table)?)
}

/// The rows that a case chooses.
pub fn chosen(alloc: Global, given: &str) -> Result<Vec<PlacedRow>, Fail> {
    let (names, rest) = halves(given)?;
    let (written, asked) = halves(rest)?;
    let request = request_of(alloc, asked)?;
    chosen_of(alloc, &request, names, written)
}

fn have_text(alloc: Global, rows: &[PlacedRow], want: &str) -> Result<bool, AllocError> {
    let text = rows_text(alloc, rows)?;
    Ok(text.as_str() == want)
}

fn is_right(alloc: Global, line: &str) -> Result<bool, Fail> {
    let (given, want) = sides(line)?;
    let rows = chosen(alloc, given)?;
    Ok(have_text(alloc, &rows, want)?)
}

// The first of the cases that is not right, if there is one.
fn first_wrong<'a>(alloc: Global, cases: &'a str) -> Result<&'a str, Fail> {
    for line in cases.lines() {
        if !is_right(alloc, line)? {
            return Ok(line);
        }
    }
    Ok("")
}

const KEPT: &str = "\
qty:i32? 3,null,1 qty,>,2:i32? → 0:0 3;
qty:i32? 3,null,1 not qty,>,2:i32? → 0:2 1;
qty:i32? 3,null,1 is-null qty → 0:1 ?;
qty:i32? 3,null,1 qty,=,null:i32? → no row
qty:i32? 3,null,1 not qty,=,null:i32? → no row
qty:i32? 3,null,1 qty,>,2:i32? or is-null qty → 0:0 3;0:1 ?;
qty:i32? 3,null,1 qty,>,2:i32? and is-null qty → no row";

#[test]
fn filters_with_nulls(rt: HostRuntime) -> Result<(), Fail> {
    assert_eq!(rt; first_wrong(rt.alloc(), KEPT)?, "");
    Ok(())
}

const PLACES: &str = "\
a 10,11,12 rows every all → 0:0 10;0:1 11;0:2 12;
a 10,11,12 rows 5..2 all → no row
a 10,11,12 rows 1..2 all → 0:1 11;
a 10,11,12 rows 1..9 all → 0:1 11;0:2 12;
a 10,11,12 rows every only:1,9 → 0:1 11;
a 10,11,12 rows every but:1,9 → 0:0 10;0:2 12;
a 10,11,12 rows every only: → no row
a 10,11,12 rows every but: → 0:0 10;0:1 11;0:2 12;
a 10,11,12 rows 1..3 but:1 → 0:2 12;
a 1,2||3 partitions every all → 0:0 1;0:1 2;2:0 3;
a 1,2||3 partitions 1..7 all → 2:0 3;
a 1,2||3 partitions every only:0 → 0:0 1;0:1 2;
a 1,2||3 partitions every but:0 → 2:0 3;
a 1,2||3 partitions 0..2 but:0 → no row";

#[test]
fn ranges_and_selections_of_rows_and_partitions(rt: HostRuntime) -> Result<(), Fail> {
    assert_eq!(rt; first_wrong(rt.alloc(), PLACES)?, "");
    Ok(())
}

const PROJECTED: &str = "\
a 1,2,3 columns a,a → 0:0 1 1;0:1 2 2;0:2 3 3;
a 1,2,3 columns → 0:0;0:1;0:2;";

#[test]
fn repeated_and_empty_projections(rt: HostRuntime) -> Result<(), Fail> {
    assert_eq!(rt; first_wrong(rt.alloc(), PROJECTED)?, "");
    Ok(())
}
