// Scans whose answers are judged.
ghost use Rattle.judged_scans.specs.Ready.{IsReady};
ghost use Rattle.vortex_table.specs.Given.{contents_of};

use crate::batches::are_answer_to;
use crate::cases::columns;
use crate::requests::request_of;
use crate::stored::{contents_by_hand, partitions_of, scan, table_of};
use std::alloc::{AllocError, Global};
use std::test::Fail;
use vortex_array::ColumnDesc;
use vortex_io::MemorySource;
use vortex_judge::{PlainBatch, PlainContent, Question, answers, are_small, ask, read_batch};
use vortex_scan_types::{Batch, ScanRequest};
use vortex_table::{Chunk, PartitionDesc, ScanError, Table};

fn asked(
    alloc: Global,
    columns: Vec<ColumnDesc>,
    partitions: &[PartitionDesc],
    contents: &[PlainContent],
    request: &ScanRequest,
) -> Result<Question, Fail> {
    if !are_small(partitions) {
        return Err(Fail::new("rows past 64 bits"));
    }
    Ok(ask(alloc, columns, partitions, contents, request)?)
}

fn question_of(alloc: Global, written: &str, request: &ScanRequest) -> Result<Question, Fail> {
    let partitions = partitions_of(alloc, written)?;
    let contents = contents_by_hand(alloc, written)?;
    let columns = columns(alloc, "a")?;
    asked(alloc, columns, &partitions, &contents, request)
}

const UNEVEN_SPLITS: &str =
    "[][1,18446744073709551615][0][][9223372036854775808,1,0,18446744073709551615][]";

// The question for the numbers above 1 of `UNEVEN_SPLITS`.
fn above_one(alloc: Global) -> Result<Question, Fail> {
    let mut request = request_of(alloc, "a,>,1")?;
    request.ordered = true;
    question_of(alloc, UNEVEN_SPLITS, &request)
}

fn answers_above_one(alloc: Global, batches: &str) -> Result<bool, Fail> {
    let question = above_one(alloc)?;
    are_answer_to(alloc, &question, batches)
}

// The first of the batches that are not judged right, if there are such.
fn first_wrong_answer(alloc: Global) -> Result<&'static str, Fail> {
    for (batches, want) in [
        ("0..2=18446744073709551615", false),
        (
            "0..2=18446744073709551615 3..7=9223372036854775808,18446744073709551615",
            true,
        ),
        (
            "3..7=9223372036854775808,18446744073709551615 0..2=18446744073709551615",
            false,
        ),
    ] {
        if answers_above_one(alloc, batches)? != want {
            return Ok(batches);
        }
    }
    Ok("")
}

#[test]
fn questions_from_chunks(rt: HostRuntime) -> Result<(), Fail> {
    assert_eq!(rt; first_wrong_answer(rt.alloc())?, "");
    Ok(())
}

fn plain_batches(alloc: Global, batches: &[Batch]) -> Result<Vec<PlainBatch>, AllocError> {
    let mut plain = Vec::new(alloc);
    for batch in batches {
        plain.push(read_batch(alloc, batch)?)?;
    }
    Ok(plain)
}

fn are_right(alloc: Global, question: &Question, batches: &[Batch]) -> Result<bool, Fail> {
    let plain = plain_batches(alloc, batches)?;
    Ok(answers(alloc, question, &plain)?)
}

// Whether the scan answered, and its batches are an answer.
fn is_right(
    alloc: Global,
    question: &Question,
    answer: Result<Vec<Batch>, ScanError>,
) -> Result<bool, Fail> {
    match answer {
        Ok(batches) => are_right(alloc, question, &batches),
        Err(_) => Ok(false),
    }
}

fn scans_right(
    alloc: Global,
    table: &mut Table<MemorySource<Chunk>>,
    request: &ScanRequest,
    question: &Question,
) -> Result<bool, Fail>
    requires { IsReady table.old }
    ensures { IsReady table.new }
{
    let answer = scan(alloc, table, request);
    is_right(alloc, question, answer)
}

fn scans_right_twice(
    alloc: Global,
    table: &mut Table<MemorySource<Chunk>>,
    request: &ScanRequest,
    question: &Question,
) -> Result<bool, Fail>
    requires { IsReady table.old }
{
    let first = scans_right(alloc, table, request, question)?;
    let second = scans_right(alloc, table, request, question)?;
    Ok(first && second)
}

fn answers_twice(
    alloc: Global,
    written: &str,
    request: &ScanRequest,
    question: &Question,
) -> Result<bool, Fail> {
    let mut table = table_of(alloc, "a", written)?;
    scans_right_twice(alloc, &mut table, request, question)
}

// Whether two scans of one table answer right, one after the other, so the sources have their chunks still.
fn is_answered(alloc: Global, written: &str, request: &ScanRequest) -> Result<bool, Fail> {
    let question = question_of(alloc, written, request)?;
    answers_twice(alloc, written, request, &question)
}

// The request without a filter, and each comparison with each of four numbers.
const REQUESTS: &str = "\
all
a,=,0
a,=,1
a,=,9223372036854775808
a,=,18446744073709551615
a,!=,0
a,!=,1
a,!=,9223372036854775808
a,!=,18446744073709551615
a,>,0
a,>,1
a,>,9223372036854775808
a,>,18446744073709551615
a,>=,0
a,>=,1
a,>=,9223372036854775808
a,>=,18446744073709551615
a,<,0
a,<,1
a,<,9223372036854775808
a,<,18446744073709551615
a,<=,0
a,<=,1
a,<=,9223372036854775808
a,<=,18446744073709551615";

fn is_request_answered(
    alloc: Global,
    written: &str,
    asked: &str,
    ordered: bool,
) -> Result<bool, Fail> {
    let mut request = request_of(alloc, asked)?;
    request.ordered = ordered;
    is_answered(alloc, written, &request)
}

// Whether each request is answered right without and with order.
fn all_are_answered(alloc: Global, written: &str) -> Result<bool, Fail> {
    for asked in REQUESTS.lines() {
        if !is_request_answered(alloc, written, asked, false)?
            || !is_request_answered(alloc, written, asked, true)?
        {
            return Ok(false);
        }
    }
    Ok(true)
}

// Tables of no partition, no split, one split, uneven splits, equal rows, and both kinds of chunks.
const TABLES: &str = "\
-
.
[]
[18446744073709551615,0,9223372036854775808,1,0]
[][1,18446744073709551615][0][][9223372036854775808,1,0,18446744073709551615][]
[1*3][][18446744073709551615*1][0*2]
[1,0][0*2][][1*1][9223372036854775808]";

// The first of the tables over which a scan is not answered right, if there is one.
fn first_wrong<'a>(alloc: Global, tables: &'a str) -> Result<&'a str, Fail> {
    for written in tables.lines() {
        if !all_are_answered(alloc, written)? {
            return Ok(written);
        }
    }
    Ok("")
}

#[test]
fn scans_answer(rt: HostRuntime) -> Result<(), Fail> {
    assert_eq!(rt; first_wrong(rt.alloc(), TABLES)?, "");
    Ok(())
}
