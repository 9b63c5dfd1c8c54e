// What the program ends with and writes. A case is its words, its input and which call fails, between bars, and then the
// status, the output and the line on errors. `read 0` is the first read, `read-by-three 0` the same where a read gives
// three bytes at most, `write 0` and `report 0` the first piece to the output and to errors, three bytes each, and
// `room 5` an output with room for so many bytes.
use crate::cases::{halves, is_text, sides, text_of, words};
use crate::fakes::{ByThree, Pieces, by_three, input_of};
use std::alloc::Global;
use std::test::Fail;
use vortex_query::{ByteSource, query, refuse_words};

const ROOM: usize = 1_000_000;

// Which calls fail, how many bytes a read gives at most, and the room of the output.
#[derive(Clone, Copy)]
struct Failing {
    reads: Option<u64>,
    writes: Option<u64>,
    reports: Option<u64>,
    most: usize,
    room: usize,
}

const NONE: Failing = Failing {
    reads: None,
    writes: None,
    reports: None,
    most: ROOM,
    room: ROOM,
};

fn failing_at(kind: &str, number: u64) -> Failing {
    let mut failing = NONE;
    if kind == "read" {
        failing.reads = Some(number);
    } else if kind == "read-by-three" {
        failing.reads = Some(number);
        failing.most = 3;
    } else if kind == "write" {
        failing.writes = Some(number);
    } else if kind == "report" {
        failing.reports = Some(number);
    } else {
        failing.room = number.min(100) as usize;
    }
    failing
}

fn failing_of(written: &str) -> Result<Failing, Fail> {
    match written.split_once(' ') {
        Some((kind, number)) => Ok(failing_at(kind, number.parse::<u64>()?)),
        None => Ok(NONE),
    }
}

// Whether the two texts that were written are these.
fn are_texts(alloc: Global, output: &[u8], errors: &[u8], want: &str) -> Result<bool, Fail> {
    let (text, line) = halves(want)?;
    Ok(is_text(alloc, output, text)? && is_text(alloc, errors, line)?)
}

fn is_end(
    alloc: Global,
    status: u8,
    output: &[u8],
    errors: &[u8],
    want: &str,
) -> Result<bool, Fail> {
    let (number, texts) = halves(want)?;
    Ok(number.parse::<u8>()? == status && are_texts(alloc, output, errors, texts)?)
}

fn ends_over<I: ByteSource>(
    alloc: Global,
    words: &[String],
    input: &mut I,
    output: &mut ByThree,
    reports: Option<u64>,
    want: &str,
) -> Result<bool, Fail> {
    let mut errors = by_three(alloc, 100, reports)?;
    let status = query(alloc, words, input, output, &mut errors);
    is_end(
        alloc,
        status,
        output.output.bytes(),
        errors.output.bytes(),
        want,
    )
}

// Whether the program ends so, over this input.
fn ends<I: ByteSource>(
    alloc: Global,
    words: &[String],
    input: &mut I,
    failing: Failing,
    want: &str,
) -> Result<bool, Fail> {
    let mut output = by_three(alloc, failing.room, failing.writes)?;
    ends_over(alloc, words, input, &mut output, failing.reports, want)
}

fn ends_on(
    alloc: Global,
    words: &[String],
    input: &str,
    failing: Failing,
    want: &str,
) -> Result<bool, Fail> {
    let mut input = pieces_of(alloc, input, failing)?;
    ends(alloc, words, &mut input, failing, want)
}

fn pieces_of(alloc: Global, input: &str, failing: Failing) -> Result<Pieces, Fail> {
    let text = text_of(alloc, input)?;
    Ok(input_of(alloc, text.as_bytes(), failing.most, failing.reads)?)
}

fn is_right_for(alloc: Global, words: &[String], rest: &str, want: &str) -> Result<bool, Fail> {
    let (input, failing) = halves(rest)?;
    ends_on(alloc, words, input, failing_of(failing)?, want)
}

fn is_right(alloc: Global, line: &str) -> Result<bool, Fail> {
    let (given, want) = sides(line)?;
    let (written, rest) = halves(given)?;
    let words = words(alloc, written)?;
    is_right_for(alloc, &words, rest, want)
}

// The first of the cases that is not right, if there is one.
fn first_wrong<'a>(alloc: Global, cases: &'a str) -> Result<&'a str, Fail> {
    for line in cases.lines() {
        if !is_right(alloc, line)? {
            return Ok(line);
        }
    }
    Ok("")
}

// The first wrong case of these lists, if there is one.
fn first_wrong_in<'a>(alloc: Global, lists: &[&'a str]) -> Result<&'a str, Fail> {
    for cases in lists {
        let wrong = first_wrong(alloc, *cases)?;
        if !wrong.is_empty() {
            return Ok(wrong);
        }
    }
    Ok("")
}

// Chosen rows are written under their header.
const CHOSEN: &str = "\
scan a,>,1|a:u64␊1␊2␊3␊| → 0|a:u64␊2␊3␊|
scan a,=,2|a:u64␊2␊3␊2␊1␊| → 0|a:u64␊2␊2␊|
scan a,!=,2|a:u64␊2␊3␊2␊1␊| → 0|a:u64␊3␊1␊|
scan a,>,2|a:u64␊2␊3␊2␊1␊| → 0|a:u64␊3␊|
scan a,>=,2|a:u64␊2␊3␊2␊1␊| → 0|a:u64␊2␊3␊2␊|
scan a,<,2|a:u64␊2␊3␊2␊1␊| → 0|a:u64␊1␊|
scan a,<=,2|a:u64␊2␊3␊2␊1␊| → 0|a:u64␊2␊2␊1␊|
scan a,>,3|a:u64␊1␊2␊3␊| → 0|a:u64␊|";

// Other words, requests and tables are refused.
const REFUSED: &str = r#"scan b,>,1|a:u64␊1␊2␊3␊| → 4||vxscan: request refused␊
scan a,>,1|a:utf8␊1␊| → 8||vxscan: not built␊
scan a,>,1|| → 8||vxscan: not built␊
|a:u64␊1␊2␊3␊| → 8||vxscan: not built␊
scan|a:u64␊1␊2␊3␊| → 8||vxscan: not built␊
Scan a,>,1|a:u64␊1␊2␊3␊| → 8||vxscan: not built␊
scan a,>,1 --steps|a:u64␊1␊2␊3␊| → 8||vxscan: not built␊
scan {}|a:u64␊1␊2␊3␊| → 8||vxscan: not built␊
scan b,>,1|a:u64␊1␊2,3␊| → 8||vxscan: not built␊
|a:u64␊1␊|read 0 → 8||vxscan: not built␊
scan {}|a:u64␊1␊|read 0 → 8||vxscan: not built␊
scan b,>,1|a:u64␊1␊|read 0 → 6||vxscan: read failed␊
scan b,>,1|a:u64␊1␊|write 0 → 4||vxscan: request refused␊"#;

// Texts of tables are read as CSV.
const READ: &str = r#"scan a,>=,0|a:u64| → 0|a:u64␊|
scan a,>=,0|a:u64␊1␊␊2␍␊␍␊3| → 0|a:u64␊1␊2␊3␊|
scan a,>=,0|a:u64␍1␍2| → 0|a:u64␊1␊2␊|
scan a,>=,0|␊␊"a:u64"␊"1"␊| → 0|a:u64␊1␊|
scan a,>=,0|␂a:u64␊-0␊0007␊| → 0|a:u64␊0␊7␊|
scan a,>=,0|a:u64␊18446744073709551615␊| → 0|a:u64␊18446744073709551615␊|
scan a,>=,0|a:u64␊000000000000000000000000000000000000012␊| → 0|a:u64␊12␊|
scan {"filter":{"cmp":["=",{"col":"a,\n\"b:c"},{"lit":["u64",5]}]}}|"a,␊""b:c:u64"␊5␊6␊| → 0|"a,␊""b:c:u64"␊5␊|
scan a,>=,0|␊␍␊| → 8||vxscan: not built␊
scan a,>=,0|:u64␊1␊| → 8||vxscan: not built␊
scan a,>=,0|a:u64,b:u64␊1,2␊| → 8||vxscan: not built␊
scan a,>=,0|a:u64␊1,2␊| → 8||vxscan: not built␊
scan a,>=,0|a:u64␊""␊| → 8||vxscan: not built␊
scan a,>=,0|a:u64␊1␊x␊| → 8||vxscan: not built␊
scan a,>=,0|a:u64␊+1␊| → 8||vxscan: not built␊
scan a,>=,0|a:u64␊-1␊| → 8||vxscan: not built␊
scan a,>=,0|a:u64␊1.0␊| → 8||vxscan: not built␊
scan a,>=,0|a:u64␊18446744073709551616␊| → 8||vxscan: not built␊
scan a,>=,0|a:u64␊0000000000000000000000000000000000000012␊| → 8||vxscan: not built␊
scan a,>=,0|a:u64?␊1␊| → 8||vxscan: not built␊
scan a,>=,0|a: u64␊1␊| → 8||vxscan: not built␊
scan a,>=,0|a␊1␊| → 8||vxscan: not built␊"#;

// Splits are joined, and long tables refused.
const LONG: &str = r#"scan a,>=,8190|numbers 0..8192| → 0|numbers 8190..8192|
scan a,>=,8190|numbers 0..8193| → 0|numbers 8190..8193|
scan a,>=,8190|numbers 0..65536| → 0|numbers 8190..65536|
scan {"ordered":true,"filter":{"cmp":[">=",{"col":"a"},{"lit":["u64",8190]}]}}|numbers 0..8192| → 0|numbers 8190..8192|
scan {"ordered":true,"filter":{"cmp":[">=",{"col":"a"},{"lit":["u64",8190]}]}}|numbers 0..8193| → 0|numbers 8190..8193|
scan {"ordered":true,"filter":{"cmp":[">=",{"col":"a"},{"lit":["u64",8190]}]}}|numbers 0..65536| → 0|numbers 8190..65536|
scan a,>=,8190|numbers 0..65537| → 8||vxscan: not built␊"#;

#[test]
fn scans_write_the_chosen_rows_or_why_they_are_refused(rt: HostRuntime) -> Result<(), Fail> {
    assert_eq!(rt;
        first_wrong_in(rt.alloc(), &[CHOSEN, REFUSED, READ, LONG])?,
        ""
    );
    Ok(())
}

// A read that fails writes nothing. The 168,896 bytes of the numbers to 30,000 take three reads, and a fourth finds the end; 11 bytes take four reads by three.
const FAILING_READS: &str = "\
scan a,>,29998|numbers 0..30000|read 0 → 6||vxscan: read failed␊
scan a,>,29998|numbers 0..30000|read 1 → 6||vxscan: read failed␊
scan a,>,29998|numbers 0..30000|read 2 → 6||vxscan: read failed␊
scan a,>,29998|numbers 0..30000|read 3 → 6||vxscan: read failed␊
scan a,>,29998|numbers 0..30000|read 4 → 0|a:u64␊29999␊|
scan a,>,1|a:u64␊1␊2␊3|read-by-three 0 → 6||vxscan: read failed␊
scan a,>,1|a:u64␊1␊2␊3|read-by-three 1 → 6||vxscan: read failed␊
scan a,>,1|a:u64␊1␊2␊3|read-by-three 2 → 6||vxscan: read failed␊
scan a,>,1|a:u64␊1␊2␊3|read-by-three 3 → 6||vxscan: read failed␊
scan a,>,1|a:u64␊1␊2␊3|read-by-three 4 → 6||vxscan: read failed␊
scan a,>,1|a:u64␊1␊2␊3|read-by-three 5 → 0|a:u64␊2␊3␊|";

// A write that fails leaves a front of the text.
const FAILING_WRITES: &str = "\
scan a,>,1|a:u64␊1␊2␊3␊|write 0 → 7||vxscan: write failed␊
scan a,>,1|a:u64␊1␊2␊3␊|write 1 → 7|a:u|vxscan: write failed␊
scan a,>,1|a:u64␊1␊2␊3␊|write 2 → 7|a:u64␊|vxscan: write failed␊
scan a,>,1|a:u64␊1␊2␊3␊|write 3 → 7|a:u64␊2␊3|vxscan: write failed␊
scan a,>,1|a:u64␊1␊2␊3␊|write 4 → 0|a:u64␊2␊3␊|
scan a,>,1|a:u64␊1␊2␊3␊|room 0 → 7||vxscan: write failed␊
scan a,>,1|a:u64␊1␊2␊3␊|room 5 → 7|a:u64|vxscan: write failed␊
scan a,>,1|a:u64␊1␊2␊3␊|room 9 → 7|a:u64␊2␊3|vxscan: write failed␊
scan a,>,1|a:u64␊1␊2␊3␊|room 10 → 0|a:u64␊2␊3␊|";

// A report that fails changes no status.
const FAILING_REPORTS: &str = "\
scan b,>,1|a:u64␊1␊|report 0 → 4||
scan b,>,1|a:u64␊1␊|report 1 → 4||vxs
scan b,>,1|a:u64␊1␊|report 2 → 4||vxscan
scan b,>,1|a:u64␊1␊|report 3 → 4||vxscan: r
scan b,>,1|a:u64␊1␊|report 7 → 4||vxscan: request refus
scan b,>,1|a:u64␊1␊|report 8 → 4||vxscan: request refused␊
scan|a:u64␊1␊|report 0 → 8||
scan|a:u64␊1␊|report 1 → 8||vxs
scan|a:u64␊1␊|report 2 → 8||vxscan
scan|a:u64␊1␊|report 3 → 8||vxscan: n
scan|a:u64␊1␊|report 5 → 8||vxscan: not bui
scan|a:u64␊1␊|report 6 → 8||vxscan: not built␊";

const FAILING: [&str; 3] = [FAILING_READS, FAILING_WRITES, FAILING_REPORTS];

#[test]
fn failing_streams_end_a_scan_by_their_status(rt: HostRuntime) -> Result<(), Fail> {
    assert_eq!(rt; first_wrong_in(rt.alloc(), &FAILING)?, "");
    Ok(())
}

// Whether words that are no text end the program so.
fn refuses_words(alloc: Global, out_of_memory: bool, want: &str) -> Result<bool, Fail> {
    let mut errors = by_three(alloc, 100, None)?;
    let status = refuse_words(&mut errors, out_of_memory);
    is_end(alloc, status, b"", errors.output.bytes(), want)
}

#[test]
fn words_that_are_no_text_are_refused(rt: HostRuntime) -> Result<(), Fail> {
    for (out_of_memory, want) in [
        (true, "1||vxscan: out of memory␊"),
        (false, "8||vxscan: not built␊"),
    ] {
        assert!(rt; refuses_words(rt.alloc(), out_of_memory, want)?, "{want}");
    }
    Ok(())
}
