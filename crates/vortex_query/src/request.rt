// Requests in JSON.
ghost use Rattle.std.specs.Prelude.{◌≡◌, Some, None, IfOk, IsErrOf, option_map, option_copied};
ghost use Rattle.serde_json.specs.View.{view};
ghost use Rattle.vortex_query.specs.Requested.{column_in, comparison_in, constant_of, filter_in as filter_of, number_in, operator_of, ordered_in, request_in as request_of_value, requested, u64_in};
ghost use Rattle.vortex_query.specs.declared.request.RequestError.TheVariants.{NotBuilt};

mod members;

use members::{item, item_text, only_member, width};
use serde_json::Value;
use std::alloc::{AllocError, Global};
use thiserror::Error;
use vortex_array::{
    CompareOperator, DType, Filter, Name, Nullability, Operand, PType, Scalar, Value as Cell,
};
use vortex_scan_types::{Projection, ScanRequest, Selection};

/// Why the text of a request is refused.
#[derive(Clone, Copy, Debug, PartialEq, Eq, Error)]
pub enum RequestError {
    /// The text is no request of a form that is built.
    #[error("the request is not of a form that is built")]
    NotBuilt,
    /// Memory ran out.
    #[error("out of memory")]
    OutOfMemory,
}

impl From<AllocError> for RequestError {
    ghost use Rattle.vortex_query.specs.declared.request.RequestError.TheVariants.{OutOfMemory};

    ghost from_gives = { λ _ e. e ≡ OutOfMemory };

    fn from(_failed: AllocError) -> RequestError {
        RequestError::OutOfMemory
    }
}

fn operator(text: &str) -> Option<CompareOperator>
    ensures { result ≡ operator_of text.now }
{
    match text {
        "=" => Some(CompareOperator::Eq),
        "!=" => Some(CompareOperator::NotEq),
        ">" => Some(CompareOperator::Gt),
        ">=" => Some(CompareOperator::Gte),
        "<" => Some(CompareOperator::Lt),
        "<=" => Some(CompareOperator::Lte),
        _ => None,
    }
}

// The name in `{"col": name}`.
fn column(value: &Value) -> Option<&str>
    ensures { option_map (λ s. s.now) result ≡ column_in (view value.now) }
{
    only_member(value, "col")?.as_str()
}

// The number in `["u64", number]`.
fn u64_literal(value: &Value) -> Option<u64>
    ensures { result ≡ u64_in (view value.now) }
{
    if item_text(value, 2, 0)? == "u64" {
        item(value, 2, 1)?.as_u64()
    } else {
        None
    }
}

// The number in `{"lit": ["u64", number]}`.
fn number(value: &Value) -> Option<u64>
    ensures { result ≡ number_in (view value.now) }
{
    u64_literal(only_member(value, "lit")?)
}

// A number as a constant of `u64` without nulls.
fn constant(number: u64) -> Operand
    ensures { result ≡ constant_of number }
{
    let dtype = DType::Primitive(PType::U64, Nullability::NonNullable);
    match Scalar::try_new(dtype, Some(Cell::Int(number as i128))) {
        Ok(scalar) => Operand::Constant(scalar),
        Err(_) => unreachable!(),
    }
}

// The filter of `[operator, column, number]`.
fn comparison(alloc: Global, value: &Value) -> Result<Filter, RequestError>
    ensures ok { IfOk result (λ filter. comparison_in (view value.now) ≡ Some filter) }
    ensures not_built { IsErrOf result NotBuilt → comparison_in (view value.now) ≡ None }
{
    let Some(operator) = item_text(value, 3, 0).and_then(operator) else {
        return Err(RequestError::NotBuilt);
    };
    let Some(column) = item(value, 3, 1).and_then(column) else {
        return Err(RequestError::NotBuilt);
    };
    let Some(number) = item(value, 3, 2).and_then(number) else {
        return Err(RequestError::NotBuilt);
    };
    let column = Operand::Column(Name::from_str(alloc, column)?);
    Ok(Filter::Compare(operator, column, constant(number)))
}

// The filter of `{"cmp": comparison}`.
fn filter_in(alloc: Global, value: &Value) -> Result<Filter, RequestError>
    ensures ok { IfOk result (λ filter. filter_of (view value.now) ≡ Some filter) }
    ensures not_built { IsErrOf result NotBuilt → filter_of (view value.now) ≡ None }
{
    match only_member(value, "cmp") {
        Some(parts) => comparison(alloc, parts),
        None => Err(RequestError::NotBuilt),
    }
}

// The truth value under `ordered`: false where it is absent or null.
fn truth(value: Option<&Value>) -> Option<bool>
    ensures { result ≡ ordered_in (option_map (λ v. view v.now) value.entry) }
{
    match value {
        None => Some(false),
        Some(Value::Null) => Some(false),
        Some(value) => value.as_bool(),
    }
}

// The request of `{"filter": filter, "ordered": truth value}`, of which the second may be missing.
fn request_in(alloc: Global, value: &Value) -> Result<ScanRequest, RequestError>
    ensures ok { IfOk result (λ request. request_of_value (view value.now) ≡ Some request) }
    ensures not_built { IsErrOf result NotBuilt → request_of_value (view value.now) ≡ None }
{
    let ordered = value.get("ordered");
    let keys = if ordered.is_some() { 2 } else { 1 };
    if width(value) != keys {
        return Err(RequestError::NotBuilt);
    }
    let Some(filter) = value.get("filter") else {
        return Err(RequestError::NotBuilt);
    };
    let Some(ordered) = truth(ordered) else {
        return Err(RequestError::NotBuilt);
    };
    let filter = filter_in(alloc, filter)?;
    Ok(ScanRequest {
        projection: Projection::All,
        filter: Some(filter),
        row_range: None,
        selection: Selection::All,
        partition_selection: Selection::All,
        partition_range: None,
        ordered,
        limit: None,
    })
}

/// The request that a text of JSON spells: an object with the key `filter` and at most the key `ordered`, a truth value, where
/// null and no value stand for false. The filter is `{"cmp": [op, {"col": name}, {"lit": ["u64", number]}]}` with an operator of
/// `=`, `!=`, `>`, `>=`, `<` and `<=`. `NotBuilt` comes exactly where the text is none.
pub fn request_of(alloc: Global, text: &str) -> Result<ScanRequest, RequestError>
    ensures ok { IfOk result (λ request. requested text.now ≡ Some request) }
    ensures not_built { IsErrOf result NotBuilt → requested text.now ≡ None }
{
    let value = match Value::from_str(alloc, text) {
        Ok(value) => value,
        Err(error) if error.is_memory() => return Err(RequestError::OutOfMemory),
        Err(_) => return Err(RequestError::NotBuilt),
    };
    request_in(alloc, &value)
}
