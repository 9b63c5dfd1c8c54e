// Copies of requests.
use crate::samples::{Form, Unlisted, are_places, selection_of};
use std::alloc::{AllocError, Global};
use std::ops::Range;
use vortex_array::{
    CompareOperator, DType, Filter, Name, Nullability, Operand, PType, Scalar, Value,
};
use vortex_scan_types::{Names, Projection, ScanRequest, Selection};

// The whole number 1.
fn one() -> Result<Scalar, Unlisted> {
    let dtype = DType::Primitive(PType::U64, Nullability::NonNullable);
    match Scalar::try_new(dtype, Some(Value::Int(1))) {
        Ok(one) => Ok(one),
        Err(_) => Err(Unlisted::Memory),
    }
}

// A filter that asks for more than one in the column `a`.
fn above_one(alloc: Global) -> Result<Filter, Unlisted> {
    let a = Operand::Column(Name::from_str(alloc, "a")?);
    Ok(Filter::Compare(CompareOperator::Gt, a, Operand::Constant(one()?)))
}

fn names_of(alloc: Global, names: &[&str]) -> Result<Names, AllocError> {
    let mut made = Vec::new(alloc);
    for name in names {
        made.push(Name::from_str(alloc, name)?)?;
    }
    Ok(Names::from_vec(made))
}

// A request of these parts, with ranges, an order and a limit.
fn request_of(
    projection: Projection,
    filter: Option<Filter>,
    selection: Selection,
    partition_selection: Selection,
) -> ScanRequest {
    ScanRequest {
        projection,
        filter,
        row_range: Some(2..8),
        selection,
        partition_selection,
        partition_range: None,
        ordered: true,
        limit: Some(5),
    }
}

fn is_range(range: &Option<Range<u64>>, start: u64, end: u64) -> bool {
    match range {
        Some(range) => range.start == start && range.end == end,
        None => false,
    }
}

// Whether a request has the ranges, the order and the limit that `request_of` gives.
fn has_numbers(request: &ScanRequest) -> bool {
    is_range(&request.row_range, 2, 8)
        && request.partition_range.is_none()
        && request.ordered
        && request.limit == Some(5)
}

fn are_names(names: &Names, want: &[&str]) -> bool {
    let names = names.as_slice();
    names.len() == want.len()
        && names
            .iter()
            .zip(want.iter())
            .all(|(name, text)| name.as_str() == *text)
}

fn projects(request: &ScanRequest, want: &[&str]) -> bool {
    match &request.projection {
        Projection::All => false,
        Projection::Columns(names) => are_names(names, want),
    }
}

// Whether a copy projects what its request does.
fn copies_names(alloc: Global) -> Result<bool, Unlisted> {
    let names = ["a", "b", "a"];
    let projection = Projection::Columns(names_of(alloc, names.as_slice())?);
    let request = request_of(projection, None, Selection::All, Selection::All);
    let copy = request.try_clone(alloc)?;
    Ok(projects(&copy, names.as_slice()) && has_numbers(&copy) && has_numbers(&request))
}

fn is_column(operand: &Operand, text: &str) -> bool {
    match operand {
        Operand::Column(name) => name.as_str() == text,
        Operand::Constant(_) => false,
    }
}

fn is_one(operand: &Operand) -> bool {
    match operand {
        Operand::Column(_) => false,
        Operand::Constant(scalar) => matches!(scalar.value(), Some(Value::Int(1))),
    }
}

fn is_above_one(filter: &Filter) -> bool {
    match filter {
        Filter::Compare(operator, x, y) => {
            *operator == CompareOperator::Gt && is_column(x, "a") && is_one(y)
        }
        _ => false,
    }
}

// Whether a copy has the filter of its request.
fn copies_filter(alloc: Global) -> Result<bool, Unlisted> {
    let filter = above_one(alloc)?;
    let request = request_of(
        Projection::All,
        Some(filter),
        Selection::All,
        Selection::All,
    );
    let copy = request.try_clone(alloc)?;
    match &copy.filter {
        Some(filter) => Ok(is_above_one(filter) && has_numbers(&copy)),
        None => Ok(false),
    }
}

// Whether a copy has the selections of its request: one of rows, one of partitions.
fn copies_rows(alloc: Global) -> Result<bool, Unlisted> {
    let rows = selection_of(alloc, Form::Only, &[1, 3])?;
    let request = request_of(Projection::All, None, rows, Selection::All);
    let copy = request.try_clone(alloc)?;
    Ok(
        are_places(&copy.selection, Form::Only, &[1, 3])
            && are_places(&copy.partition_selection, Form::All, &[]),
    )
}

fn copies_partitions(alloc: Global) -> Result<bool, Unlisted> {
    let partitions = selection_of(alloc, Form::But, &[2])?;
    let request = request_of(Projection::All, None, Selection::All, partitions);
    let copy = request.try_clone(alloc)?;
    Ok(
        are_places(&copy.partition_selection, Form::But, &[2])
            && are_places(&copy.selection, Form::All, &[]),
    )
}

#[test]
fn copies_of_requests_have_all_parts(rt: HostRuntime) {
    assert_eq!(rt; copies_names(rt.alloc()), Ok(true));
    assert_eq!(rt; copies_filter(rt.alloc()), Ok(true));
}

#[test]
fn copies_of_requests_have_both_selections(rt: HostRuntime) {
    assert_eq!(rt; copies_rows(rt.alloc()), Ok(true));
    assert_eq!(rt; copies_partitions(rt.alloc()), Ok(true));
}

// Whether a request asks for all rows.
fn asks_for_all(request: &ScanRequest) -> bool {
    matches!(request.projection, Projection::All)
        && request.filter.is_none()
        && request.row_range.is_none()
        && are_places(&request.selection, Form::All, &[])
        && are_places(&request.partition_selection, Form::All, &[])
        && request.partition_range.is_none()
        && !request.ordered
        && request.limit.is_none()
}

fn copies_all(alloc: Global) -> Result<bool, Unlisted> {
    let request = ScanRequest::default();
    Ok(asks_for_all(&request.try_clone(alloc)?) && asks_for_all(&request))
}

#[test]
fn a_copy_of_the_default_asks_for_all_rows(rt: HostRuntime) {
    assert_eq!(rt; copies_all(rt.alloc()), Ok(true));
}
