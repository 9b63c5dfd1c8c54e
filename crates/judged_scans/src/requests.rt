// Filters and requests as cases write them. A filter is `a,>,1`, where the column `a` is above 1, `a,>,1:i32?` with a constant of
// another type, or a form's name and its column, as `is-null a`; `not` stands before one, and `and` or `or` between two. A
// request is `all`, a filter, `rows 1..3 only:1,9` for a range and a selection, with `every` where there is no range,
// `partitions` likewise, `columns a,b` for a projection, and `limit 1`.
use crate::cases::{TEXT, dtype_of, halves, name, value_of};
use sqlite_items::Boxed;
use std::alloc::{AllocError, Global};
use std::ops::Range;
use std::test::Fail;
use vortex_array::{
    BetweenOptions, CompareOperator, Filter, Operand, Scalar, StrictComparison, Text, Value,
};
use vortex_buffer::Buffer;
use vortex_scan_types::{Names, Projection, ScanRequest, Selection, StrictSortedBuffer};

fn operator_of(written: &str) -> CompareOperator {
    match written {
        "=" => CompareOperator::Eq,
        "!=" => CompareOperator::NotEq,
        ">" => CompareOperator::Gt,
        ">=" => CompareOperator::Gte,
        "<" => CompareOperator::Lt,
        _ => CompareOperator::Lte,
    }
}

fn column(alloc: Global, text: &str) -> Result<Operand, AllocError> {
    Ok(Operand::Column(name(alloc, text)?))
}

fn constant_of(written: &str) -> Result<Operand, Fail> {
    let (value, dtype) = written.split_once(':').unwrap_or((written, "u64"));
    let dtype = dtype_of(dtype)?;
    Ok(Operand::Constant(Scalar::try_new(dtype, value_of(value)?)?))
}

fn compared(alloc: Global, name: &str, operator: &str, constant: &str) -> Result<Filter, Fail> {
    let constant = constant_of(constant)?;
    Ok(Filter::Compare(operator_of(operator), column(alloc, name)?, constant))
}

fn comparison(alloc: Global, written: &str) -> Result<Filter, Fail> {
    let (name, rest) = written
        .split_once(',')
        .ok_or("a comparison without an operator")?;
    let (operator, constant) = rest
        .split_once(',')
        .ok_or("a comparison without a constant")?;
    compared(alloc, name, operator, constant)
}

// The constant before the column.
fn turned(alloc: Global, name: &str) -> Result<Filter, Fail> {
    let one = constant_of("1")?;
    Ok(Filter::Compare(CompareOperator::Lt, one, column(alloc, name)?))
}

fn two_columns(alloc: Global, name: &str) -> Result<Filter, Fail> {
    let left = column(alloc, name)?;
    Ok(Filter::Compare(CompareOperator::Lt, left, column(alloc, name)?))
}

// Whether a column is at least the one constant and below the other.
fn bounded(column: Operand, lower: Operand, upper: Operand) -> Filter {
    let options = BetweenOptions {
        lower_strict: StrictComparison::NonStrict,
        upper_strict: StrictComparison::Strict,
    };
    Filter::Between(options, column, lower, upper)
}

fn within(alloc: Global, name: &str, lower: &str, upper: &str) -> Result<Filter, Fail> {
    let lower = constant_of(lower)?;
    let upper = constant_of(upper)?;
    Ok(bounded(column(alloc, name)?, lower, upper))
}

fn between(alloc: Global, written: &str) -> Result<Filter, Fail> {
    let (name, bounds) = halves(written)?;
    let (lower, upper) = bounds.split_once("..").ok_or("bounds without an end")?;
    within(alloc, name, lower, upper)
}

// Whether the column matches any text.
fn like_any(alloc: Global, name: &str) -> Result<Filter, Fail> {
    let any = Value::Utf8(Text::from_str(alloc, "%")?);
    let pattern = Operand::Constant(Scalar::try_new(TEXT, Some(any))?);
    Ok(Filter::Like(column(alloc, name)?, pattern))
}

// Whether the column matches itself.
fn like_column(alloc: Global, name: &str) -> Result<Filter, Fail> {
    let pattern = column(alloc, name)?;
    Ok(Filter::Like(column(alloc, name)?, pattern))
}

fn of_form(alloc: Global, form: &str, rest: &str) -> Result<Filter, Fail> {
    match form {
        "truth" => Ok(Filter::Truth(column(alloc, rest)?)),
        "is-null" => Ok(Filter::IsNull(column(alloc, rest)?)),
        "between" => between(alloc, rest),
        "like-any" => like_any(alloc, rest),
        "like-column" => like_column(alloc, rest),
        "constant-first" => turned(alloc, rest),
        _ => two_columns(alloc, rest),
    }
}

// A filter without parts.
fn simple(alloc: Global, written: &str) -> Result<Filter, Fail> {
    match written.split_once(' ') {
        Some((form, rest)) => of_form(alloc, form, rest),
        None => comparison(alloc, written),
    }
}

fn part(alloc: Global, written: &str) -> Result<Boxed<Filter>, Fail> {
    Ok(Boxed::new(alloc, simple(alloc, written)?)?)
}

fn both(alloc: Global, left: &str, right: &str) -> Result<Filter, Fail> {
    let left = part(alloc, left)?;
    Ok(Filter::And(left, part(alloc, right)?))
}

fn either(alloc: Global, left: &str, right: &str) -> Result<Filter, Fail> {
    let left = part(alloc, left)?;
    Ok(Filter::Or(left, part(alloc, right)?))
}

fn without_and(alloc: Global, written: &str) -> Result<Filter, Fail> {
    match written.split_once(" or ") {
        Some((left, right)) => either(alloc, left, right),
        None => simple(alloc, written),
    }
}

fn filter_of(alloc: Global, written: &str) -> Result<Filter, Fail> {
    if let Some(written) = written.strip_prefix("not ") {
        return Ok(Filter::Not(part(alloc, written)?));
    }
    match written.split_once(" and ") {
        Some((left, right)) => both(alloc, left, right),
        None => without_and(alloc, written),
    }
}

fn filtered(filter: Filter) -> ScanRequest {
    let mut request = ScanRequest::default();
    request.filter = Some(filter);
    request
}

fn filtered_by(alloc: Global, written: &str) -> Result<ScanRequest, Fail> {
    Ok(filtered(filter_of(alloc, written)?))
}

fn limited(limit: u64) -> ScanRequest {
    let mut request = ScanRequest::default();
    request.limit = Some(limit);
    request
}

fn limited_to(written: &str) -> Result<ScanRequest, Fail> {
    Ok(limited(written.parse::<u64>()?))
}

// The numbers, which commas part.
fn places_of(alloc: Global, written: &str) -> Result<Vec<u64>, Fail> {
    let mut places = Vec::new(alloc);
    for piece in written.split(',') {
        if !piece.is_empty() {
            places.push(piece.parse::<u64>()?)?;
        }
    }
    Ok(places)
}

fn listed(alloc: Global, written: &str) -> Result<StrictSortedBuffer<u64>, Fail> {
    let places = Buffer::from_vec(places_of(alloc, written)?);
    Ok(StrictSortedBuffer::try_new(places)?)
}

// The selection `all`, of the places `only:1,9`, or of all others, `but:1,9`.
fn selection_of(alloc: Global, written: &str) -> Result<Selection, Fail> {
    match written.split_once(':') {
        Some((form, places)) => Ok(selected(form, listed(alloc, places)?)),
        None => Ok(Selection::All),
    }
}

fn selected(form: &str, places: StrictSortedBuffer<u64>) -> Selection {
    if form == "only" {
        Selection::IncludeByIndex(places)
    } else {
        Selection::ExcludeByIndex(places)
    }
}

// The range `1..3`, or none.
fn range_of(written: &str) -> Result<Option<Range<u64>>, Fail> {
    match written.split_once("..") {
        Some((start, end)) => Ok(Some(start.parse::<u64>()?..end.parse::<u64>()?)),
        None => Ok(None),
    }
}

fn rows_at(alloc: Global, written: &str) -> Result<ScanRequest, Fail> {
    let (range, places) = halves(written)?;
    let range = range_of(range)?;
    let places = selection_of(alloc, places)?;
    let mut request = ScanRequest::default();
    request.row_range = range;
    request.selection = places;
    Ok(request)
}

fn partitions_at(alloc: Global, written: &str) -> Result<ScanRequest, Fail> {
    let (range, places) = halves(written)?;
    let range = range_of(range)?;
    let places = selection_of(alloc, places)?;
    let mut request = ScanRequest::default();
    request.partition_range = range;
    request.partition_selection = places;
    Ok(request)
}

fn names_of(alloc: Global, written: &str) -> Result<Names, Fail> {
    let mut names = Vec::new(alloc);
    for piece in written.split(',') {
        if !piece.is_empty() {
            names.push(name(alloc, piece)?)?;
        }
    }
    Ok(Names::from_vec(names))
}

fn projected(names: Names) -> ScanRequest {
    let mut request = ScanRequest::default();
    request.projection = Projection::Columns(names);
    request
}

fn projected_to(alloc: Global, written: &str) -> Result<ScanRequest, Fail> {
    Ok(projected(names_of(alloc, written)?))
}

/// The request that a case stands for.
pub fn request_of(alloc: Global, written: &str) -> Result<ScanRequest, Fail> {
    let (form, rest) = written.split_once(' ').unwrap_or((written, ""));
    match form {
        "all" => Ok(ScanRequest::default()),
        "limit" => limited_to(rest),
        "rows" => rows_at(alloc, rest),
        "partitions" => partitions_at(alloc, rest),
        "columns" => projected_to(alloc, rest),
        _ => filtered_by(alloc, written),
    }
}

/// The request for the columns of these names, where the filter holds, and for no rows at most.
pub fn none_of(alloc: Global, names: &str, filter: &str) -> Result<ScanRequest, Fail> {
    let mut request = filtered(filter_of(alloc, filter)?);
    request.projection = Projection::Columns(names_of(alloc, names)?);
    request.limit = Some(0);
    Ok(request)
}
