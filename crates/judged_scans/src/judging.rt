// Which batches are answers. A question has the splits, the types of its columns, and a table and a request that choose its
// rows. A case has a name, the limit and batches, and then whether they are an answer without and with order.
use crate::batches::{are_answer_to, scope_of};
use crate::cases::{dtype_of, halves, sides};
use crate::choosing::chosen;
use std::alloc::Global;
use std::test::Fail;
use vortex_array::DType;
use vortex_judge::Question;
use vortex_scan_types::WorkScope;

fn scopes_of(alloc: Global, written: &str) -> Result<Vec<WorkScope>, Fail> {
    let mut scopes = Vec::new(alloc);
    for piece in written.split(' ') {
        scopes.push(scope_of(piece)?)?;
    }
    Ok(scopes)
}

fn types_of(alloc: Global, written: &str) -> Result<Vec<DType>, Fail> {
    let mut types = Vec::new(alloc);
    for piece in written.split(',') {
        if !piece.is_empty() {
            types.push(dtype_of(piece)?)?;
        }
    }
    Ok(types)
}

fn parts(written: &str) -> Result<(&str, &str), Fail> {
    Ok(written.split_once(';').ok_or("a case without a part")?)
}

fn three_parts(written: &str) -> Result<(&str, &str, &str), Fail> {
    let (first, rest) = parts(written)?;
    let (second, third) = parts(rest)?;
    Ok((first, second, third))
}

fn question_of(
    alloc: Global,
    asked: &str,
    limit: Option<u64>,
    ordered: bool,
) -> Result<Question, Fail> {
    let (splits, types, given) = three_parts(asked)?;
    let rows = chosen(alloc, given)?;
    let scopes = scopes_of(alloc, splits)?;
    let types = types_of(alloc, types)?;
    Ok(Question::new(scopes, types, rows, limit, ordered))
}

fn limit_of(written: &str) -> Result<Option<u64>, Fail> {
    if written == "none" {
        return Ok(None);
    }
    Ok(Some(written.parse::<u64>()?))
}

// Whether the batches answer the question, with this limit and wish for order, as the word says.
fn is_judged_so(
    alloc: Global,
    asked: &str,
    case: (Option<u64>, &str),
    ordered: bool,
    want: &str,
) -> Result<bool, Fail> {
    let question = question_of(alloc, asked, case.0, ordered)?;
    Ok(are_answer_to(alloc, &question, case.1)? == (want == "yes"))
}

// The limit and the batches of a case.
fn case_of(given: &str) -> Result<(Option<u64>, &str), Fail> {
    let (_case, limit, batches) = three_parts(given)?;
    Ok((limit_of(limit)?, batches))
}

// Whether a case is judged as the two words say, without and with order.
fn is_judged_both_ways(
    alloc: Global,
    asked: &str,
    case: (Option<u64>, &str),
    want: &str,
) -> Result<bool, Fail> {
    let (without_order, in_order) = halves(want)?;
    Ok(
        is_judged_so(alloc, asked, case, false, without_order)?
            && is_judged_so(alloc, asked, case, true, in_order)?,
    )
}

fn is_right(alloc: Global, asked: &str, line: &str) -> Result<bool, Fail> {
    let (given, want) = sides(line)?;
    is_judged_both_ways(alloc, asked, case_of(given)?, want)
}

// The first of the cases that is not right, if there is one.
fn first_wrong<'a>(alloc: Global, asked: &str, cases: &'a str) -> Result<&'a str, Fail> {
    for line in cases.lines() {
        if !is_right(alloc, asked, line)? {
            return Ok(line);
        }
    }
    Ok("")
}

// The question for the rows 1 to 6, two of them in each split.
const SIX: &str = "0..2 2..4 4..6;u64;a 1,2,3,4,5,6 all";

const LIMITED: &str = "\
the last split, and then a part of the middle one;3;4..6=5,6 2..4=3 → yes no
the first split, and then a part of the middle one;3;0..2=1,2 2..4=3 → yes yes
a part of each;3;0..2=1 4..6=5 2..4=3 → yes no
a part, and then a whole split;3;0..2=1 2..4=3,4 → yes no
no batch;3; → no no
a row too many;3;0..2=1,2 2..4=3,4 → no no
a row too few;3;0..2=1,2 → no no
not the first row of its split;3;0..2=1,2 2..4=4 → no no
a limit of no rows;0; → yes yes
a row past a limit of none;0;0..2=1 → no no
one split;2;2..4=3,4 → yes no
another type;2;2..4:i32?=3,4 → no no
half a split;2;2..3=3,4 → no no
another partition;2;1/2..4=3,4 → no no";

const WHOLE: &str = "\
in order;none;0..2=1,2 2..4=3,4 4..6=5,6 → yes yes
reversed;none;4..6=5,6 2..4=3,4 0..2=1,2 → yes no
no batch;none; → no no
a split left out;none;0..2=1,2 4..6=5,6 → no no
a row left out;none;0..2=1,2 2..4=3,4 4..6=5 → no no
a split twice;none;0..2=1,2 2..4=3,4 4..6=5,6 4..6=5,6 → no no
a split twice and another left out;none;0..2=1,2 2..4=3,4 2..4=3,4 → no no
a row twice;none;0..2=1,2 2..4=3,4 4..6=5,5 → no no
two batches of one split;none;0..2=1 0..2=2 2..4=3,4 4..6=5,6 → no no
a split reversed;none;0..2=1,2 2..4=4,3 4..6=5,6 → no no
rows in the wrong split;none;0..2=3,4 2..4=1,2 4..6=5,6 → no no
an empty batch;none;0..2=1,2 2..4= 2..4=3,4 4..6=5,6 → no no
a batch of no split;none;0..2=1,2 2..4=3,4 4..6=5,6 6..8=7,8 → no no";

fn first_wrong_of_six(alloc: Global) -> Result<&'static str, Fail> {
    let wrong = first_wrong(alloc, SIX, LIMITED)?;
    if wrong.is_empty() {
        first_wrong(alloc, SIX, WHOLE)
    } else {
        Ok(wrong)
    }
}

#[test]
fn answers_over_three_splits_with_and_without_a_limit(rt: HostRuntime) -> Result<(), Fail> {
    assert_eq!(rt; first_wrong_of_six(rt.alloc())?, "");
    Ok(())
}

const ABOVE_TWO: &str = "0..2 2..4 4..6;i32?;qty:i32? 3,null qty,>,2:i32?";

const NULLS: &str = "\
the row that is kept;none;0..2:i32?=3 → yes yes
with the null row;none;0..2:i32?=3,null → no no
the null row alone;none;0..2:i32?=null → no no";

#[test]
fn rows_whose_filter_is_null_are_no_answer(rt: HostRuntime) -> Result<(), Fail> {
    assert_eq!(rt; first_wrong(rt.alloc(), ABOVE_TWO, NULLS)?, "");
    Ok(())
}

const NO_COLUMNS: &str = "0..3;;a 1,2,3 columns";

const COUNTED: &str = "\
a row too few;none;0..3#2 → no no
each row;none;0..3#3 → yes yes
a row too many;none;0..3#4 → no no";

#[test]
fn rows_without_columns_are_counted(rt: HostRuntime) -> Result<(), Fail> {
    assert_eq!(rt; first_wrong(rt.alloc(), NO_COLUMNS, COUNTED)?, "");
    Ok(())
}
