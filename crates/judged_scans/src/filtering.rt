// What filters say of rows, and which requests are valid. A case is `like` with a pattern, a bar and a text; `truth` with a
// column, its value and a filter; `typed` with columns and a filter; or `unknown` with columns and a request.
use crate::cases::{cells_of, columns, halves, sides};
use crate::requests::{none_of, request_of};
use std::alloc::{AllocError, Global};
use std::test::Fail;
use vortex_array::{Bytes, ColumnDesc, CompareOperator, Text, Value};
use vortex_array_predicates::text_matches;
use vortex_judge::{and, compares, first_unknown, or, truth_of, well_typed};
use vortex_scan_types::ScanRequest;

fn match_word(given: &str) -> Result<&'static str, Fail> {
    let (pattern, text) = given.split_once('|').ok_or("a case without a text")?;
    Ok(word(Some(text_matches(text, pattern))))
}

fn word(truth: Option<bool>) -> &'static str {
    match truth {
        Some(true) => "yes",
        Some(false) => "no",
        None => "null",
    }
}

// The truth of a request's filter where the column has this value.
fn truth_with(
    alloc: Global,
    names: &str,
    value: &str,
    request: &ScanRequest,
) -> Result<Option<bool>, Fail> {
    let columns = columns(alloc, names)?;
    truth_in(alloc, &columns, value, request)
}

fn truth_in(
    alloc: Global,
    columns: &[ColumnDesc],
    value: &str,
    request: &ScanRequest,
) -> Result<Option<bool>, Fail> {
    let row = cells_of(alloc, value)?;
    match &request.filter {
        Some(filter) => Ok(truth_of(columns, row.as_slice(), filter)),
        None => Ok(None),
    }
}

fn truth_word(alloc: Global, given: &str) -> Result<&'static str, Fail> {
    let (names, rest) = halves(given)?;
    let (value, written) = halves(rest)?;
    let request = request_of(alloc, written)?;
    Ok(word(truth_with(alloc, names, value, &request)?))
}

// Whether a request's filter meets the type rules.
fn is_typed(alloc: Global, names: &str, request: &ScanRequest) -> Result<bool, Fail> {
    let columns = columns(alloc, names)?;
    Ok(well_typed(&columns, &request.filter))
}

fn typed_word(alloc: Global, given: &str) -> Result<&'static str, Fail> {
    let (names, written) = halves(given)?;
    let request = request_of(alloc, written)?;
    Ok(word(Some(is_typed(alloc, names, &request)?)))
}

// Whether the first name of the request that no column has is this one, or `none` where there is none.
fn is_unknown_in(
    alloc: Global,
    names: &str,
    request: &ScanRequest,
    want: &str,
) -> Result<bool, Fail> {
    let columns = columns(alloc, names)?;
    match first_unknown(&columns, request) {
        Some(found) => Ok(found.as_str() == want),
        None => Ok(want == "none"),
    }
}

fn is_unknown(alloc: Global, given: &str, want: &str) -> Result<bool, Fail> {
    let (names, written) = halves(given)?;
    let request = request_of(alloc, written)?;
    is_unknown_in(alloc, names, &request, want)
}

fn word_of(alloc: Global, kind: &str, given: &str) -> Result<&'static str, Fail> {
    match kind {
        "like" => match_word(given),
        "truth" => truth_word(alloc, given),
        _ => typed_word(alloc, given),
    }
}

fn is_case_right(alloc: Global, kind: &str, given: &str, want: &str) -> Result<bool, Fail> {
    if kind == "unknown" {
        return is_unknown(alloc, given, want);
    }
    Ok(word_of(alloc, kind, given)? == want)
}

fn is_right(alloc: Global, line: &str) -> Result<bool, Fail> {
    let (given, want) = sides(line)?;
    let (kind, rest) = halves(given)?;
    is_case_right(alloc, kind, rest, want)
}

// The first of the cases that is not right, if there is one.
fn first_wrong<'a>(alloc: Global, cases: &'a str) -> Result<&'a str, Fail> {
    for line in cases.lines() {
        if !is_right(alloc, line)? {
            return Ok(line);
        }
    }
    Ok("")
}

const PATTERNS: &str = r#"like a\%%|a%b → yes
like a\%%|ab → no
like _|é → yes
like __|é → no
like \|\ → yes
like \| → no
like | → yes
like |a → no
like %| → yes
like %|any → yes
like %b%|abc → yes
like %c|abc → yes
like %b|abc → no
like a_c|abc → yes
like a_c|ac → no
like A|a → no
like \_\\|_\ → yes
like \_|a → no"#;

#[test]
fn patterns_of_like(rt: HostRuntime) -> Result<(), Fail> {
    assert_eq!(rt; first_wrong(rt.alloc(), PATTERNS)?, "");
    Ok(())
}

const TRUTHS: &str = "\
truth x:i32? 1 between x 1:i32?..3:i32? → yes
truth x:i32? 2 between x 1:i32?..3:i32? → yes
truth x:i32? 3 between x 1:i32?..3:i32? → no
truth x:i32? 0 between x 1:i32?..3:i32? → no
truth x:i32? null between x 1:i32?..3:i32? → null
truth x:i32? 2 between x null:i32?..3:i32? → null
truth x:i32? 2 between x 1:i32?..null:i32? → null
truth x:i32? 1 between x 3:i32?..null:i32? → null
truth p:hundredths d150 p,<=,d-7:hundredths → no
truth p:hundredths d-7 p,<=,d-7:hundredths → yes
truth p:hundredths d-8 p,<=,d-7:hundredths → yes";

#[test]
fn truths_of_bounds_and_decimals(rt: HostRuntime) -> Result<(), Fail> {
    assert_eq!(rt; first_wrong(rt.alloc(), TRUTHS)?, "");
    Ok(())
}

const TYPED: &str = "\
typed a,t:utf8 a,>,1 → yes
typed a,t:utf8 a,>,1:u64? → yes
typed a,t:utf8 a,>,1:i64 → no
typed a,t:utf8 truth a → no
typed a,t:utf8 a,>,1 or truth a → no
typed a,t:utf8 like-any t → yes
typed a,t:utf8 like-column t → no
typed a,t:utf8 like-any a → no
typed p:hundredths p,<=,d-7:hundredths → yes
typed p:hundredths p,<=,d-7:thousandths → no";

#[test]
fn rules_of_types(rt: HostRuntime) -> Result<(), Fail> {
    assert_eq!(rt; first_wrong(rt.alloc(), TYPED)?, "");
    Ok(())
}

const UNKNOWN: &str = "\
unknown a x,>,1 and y,>,1 → x
unknown a a,>,1 and y,>,1 → y
unknown a x,>,1 and a,>,1 → x
unknown a a,>,1 and a,>,1 → none";

fn projection_comes_first(alloc: Global) -> Result<bool, Fail> {
    let request = none_of(alloc, "a,zz", "x,>,1 and y,>,1")?;
    is_unknown_in(alloc, "a", &request, "zz")
}

fn first_wrong_unknown(alloc: Global) -> Result<&'static str, Fail> {
    if !projection_comes_first(alloc)? {
        return Ok("a projection comes first");
    }
    first_wrong(alloc, UNKNOWN)
}

#[test]
fn unknown_names_in_order_and_those_of_projections_first(rt: HostRuntime) -> Result<(), Fail> {
    assert_eq!(rt; first_wrong_unknown(rt.alloc())?, "");
    Ok(())
}

const YES: Option<bool> = Some(true);

const NO: Option<bool> = Some(false);

fn joins(
    left: Option<bool>,
    right: Option<bool>,
    both: Option<bool>,
    either: Option<bool>,
) -> bool {
    and(left, right) == both && or(left, right) == either
}

#[test]
fn both_and_either_in_three_values(rt: HostRuntime) {
    for (left, right, both, either) in [
        (YES, YES, YES, YES),
        (YES, NO, NO, YES),
        (YES, None, None, YES),
        (NO, YES, NO, YES),
        (NO, NO, NO, NO),
        (NO, None, NO, None),
        (None, YES, None, YES),
        (None, NO, NO, None),
        (None, None, None, None),
    ] {
        assert!(rt; joins(left, right, both, either));
    }
}

fn compares_numbers(operator: CompareOperator, left: i128, right: i128) -> bool {
    compares(operator, &Value::Int(left), &Value::Int(right))
}

// Whether an operator holds of a number below, the same and above as these say.
fn holds_so(operator: CompareOperator, below: bool, same: bool, above: bool) -> bool {
    let number = 9223372036854775808;
    compares_numbers(operator, 1, number) == below
        && compares_numbers(operator, number, number) == same
        && compares_numbers(operator, 18446744073709551615, number) == above
}

#[test]
fn operators_on_numbers(rt: HostRuntime) {
    for (operator, below, same, above) in [
        (CompareOperator::Eq, false, true, false),
        (CompareOperator::NotEq, true, false, true),
        (CompareOperator::Gt, false, false, true),
        (CompareOperator::Gte, false, true, true),
        (CompareOperator::Lt, true, false, false),
        (CompareOperator::Lte, true, true, false),
    ] {
        assert!(rt; holds_so(operator, below, same, above), "{operator:?}");
    }
}

fn compares_texts(
    alloc: Global,
    operator: CompareOperator,
    left: &str,
    right: &str,
) -> Result<bool, AllocError> {
    let left = Value::Utf8(Text::from_str(alloc, left)?);
    let right = Value::Utf8(Text::from_str(alloc, right)?);
    Ok(compares(operator, &left, &right))
}

fn is_below(alloc: Global, left: &str, right: &str) -> Result<bool, AllocError> {
    let below = compares_texts(alloc, CompareOperator::Lt, left, right)?;
    Ok(below && !compares_texts(alloc, CompareOperator::Gte, left, right)?)
}

fn is_above(alloc: Global, left: &[u8], right: &[u8]) -> Result<bool, AllocError> {
    let left = Value::Binary(Bytes::from_slice(alloc, left)?);
    let right = Value::Binary(Bytes::from_slice(alloc, right)?);
    Ok(compares(CompareOperator::Gt, &left, &right))
}

// Whether false is below true, and a truth and a number do not differ.
fn truths_are_ordered() -> bool {
    let truth = Value::Bool(false);
    compares(CompareOperator::Lt, &truth, &Value::Bool(true))
        && !compares(CompareOperator::NotEq, &truth, &Value::Int(0))
}

// The first text that is not above the one before it in its pair, if there is one.
fn first_not_above(alloc: Global) -> Result<&'static str, AllocError> {
    for (left, right) in [("Z", "a"), ("a", "aa"), ("z", "é"), ("", "a")] {
        if !is_below(alloc, left, right)? {
            return Ok(right);
        }
    }
    Ok("")
}

// The first of the orders that does not hold, if there is one.
fn first_wrong_order(alloc: Global) -> Result<&'static str, AllocError> {
    if !is_above(alloc, &[255], &[0, 255])? {
        return Ok("bytes");
    }
    if !truths_are_ordered() {
        return Ok("truths");
    }
    first_not_above(alloc)
}

#[test]
fn orders_of_texts_bytes_and_truths(rt: HostRuntime) -> Result<(), Fail> {
    assert_eq!(rt; first_wrong_order(rt.alloc())?, "");
    Ok(())
}
