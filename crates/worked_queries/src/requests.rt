// Requests in JSON. A case is the text of a request, and then whether it wants order, or how it is refused.
use crate::cases::{sides, word};
use std::alloc::Global;
use std::test::Fail;
use vortex_query::{RequestError, request_of};
use vortex_scan_types::ScanRequest;

fn order_of(request: &ScanRequest) -> &'static str {
    if request.ordered {
        "ordered"
    } else {
        "any order"
    }
}

fn is_refusal(alloc: Global, error: RequestError, want: &str) -> Result<bool, Fail> {
    let text = error.to_string(alloc)?;
    Ok(text.as_str() == want)
}

fn is_answer(alloc: Global, text: &str, want: &str) -> Result<bool, Fail> {
    match request_of(alloc, text) {
        Ok(request) => Ok(order_of(&request) == want),
        Err(error) => is_refusal(alloc, error, want),
    }
}

fn is_right(alloc: Global, line: &str) -> Result<bool, Fail> {
    let (given, want) = sides(line)?;
    let text = word(alloc, given)?;
    is_answer(alloc, text.as_str(), want)
}

// The first of the cases that is not right, if there is one.
fn first_wrong<'a>(alloc: Global, cases: &'a str) -> Result<&'a str, Fail> {
    for line in cases.lines() {
        if !is_right(alloc, line)? {
            return Ok(line);
        }
    }
    Ok("")
}

// The first wrong case of these lists, if there is one.
fn first_wrong_in<'a>(alloc: Global, lists: &[&'a str]) -> Result<&'a str, Fail> {
    for cases in lists {
        let wrong = first_wrong(alloc, *cases)?;
        if !wrong.is_empty() {
            return Ok(wrong);
        }
    }
    Ok("")
}

const ACCEPTED: &str = r#"{"filter":{"cmp":[">",{"col":"a"},{"lit":["u64",1]}]}} → any order
 { "filter" : { "cmp" : [ "<" , { "col" : "" } , { "lit" : [ "u64" , 0 ] } ] } }  → any order
{"ordered":true,"filter":{"cmp":["=",{"col":"a"},{"lit":["u64",1]}]}} → ordered
{"filter":{"cmp":["=",{"col":"a"},{"lit":["u64",1]}]},"ordered":false} → any order
{"filter":{"cmp":["=",{"col":"a"},{"lit":["u64",1]}]},"ordered":null} → any order
{"filter":1,"filter":{"cmp":["=",{"col":"a"},{"lit":["u64",1]}]}} → any order"#;

const REFUSED: &str = r#" → the request is not of a form that is built
{} → the request is not of a form that is built
null → the request is not of a form that is built
[] → the request is not of a form that is built
{} {} → the request is not of a form that is built
␂{} → the request is not of a form that is built
{"filter":null} → the request is not of a form that is built
{"ordered":true} → the request is not of a form that is built
{"filter":{"cmp":["==",{"col":"a"},{"lit":["u64",1]}]}} → the request is not of a form that is built
{"filter":{"cmp":["=",{"lit":["u64",1]},{"col":"a"}]}} → the request is not of a form that is built
{"filter":{"cmp":["=",{"col":"a"},{"lit":["u32",1]}]}} → the request is not of a form that is built
{"filter":{"cmp":["=",{"col":"a"},{"lit":["u64",1,2]}]}} → the request is not of a form that is built
{"filter":{"cmp":["=",{"col":"a","x":1},{"lit":["u64",1]}]}} → the request is not of a form that is built
{"filter":{"cmp":["=",{"col":"a"},{"lit":["u64",1]}]},"limit":1} → the request is not of a form that is built
{"filter":{"cmp":["=",{"col":"a"},{"lit":["u64",1]}]},"ordered":1} → the request is not of a form that is built
{"filter":{"not":{"cmp":["=",{"col":"a"},{"lit":["u64",1]}]}}} → the request is not of a form that is built"#;

// Numbers are digits within 64 bits.
const NUMBERS: &str = r#"a,=,0 → any order
a,=,18446744073709551615 → any order
a,=,18446744073709551616 → the request is not of a form that is built
a,=,-0 → the request is not of a form that is built
a,=,-1 → the request is not of a form that is built
a,=,1.0 → the request is not of a form that is built
a,=,1e0 → the request is not of a form that is built
a,=,1e999 → the request is not of a form that is built
a,=,01 → the request is not of a form that is built
a,=,"1" → the request is not of a form that is built"#;

#[test]
fn requests_are_read_as_json_or_refused(rt: HostRuntime) -> Result<(), Fail> {
    assert_eq!(rt;
        first_wrong_in(rt.alloc(), &[ACCEPTED, REFUSED, NUMBERS])?,
        ""
    );
    Ok(())
}
