// Whether batches are an answer to a question: one test for each clause of the definition.
ghost use Rattle.std.specs.Prelude.{◌≡◌, ◌≢◌, OnOk, ◌++◌, ◌↔◌, ◌<◌, ◌≤◌, ℕ, [], ◌∷◌, All, AllPairs, Contains, IfOk, IsTrue, drop, filter, flat_map, length, map, take, slice_index_or, slice_get, unwrap_or};
ghost use Rattle.vortex_table_types.specs.Chosen.{lies_in, rows_in as rows_of_scope};
ghost use Rattle.vortex_judge.specs.Steps.{Before};
ghost use Rattle.vortex_table_types.specs.Answers.{Answers, InOrder, IsBefore, IsPrefix, columns_of as columns_under, count_of, stands_for as first_rows, within};

use crate::batch::{PlainBatch, PlainColumn, Question};
use crate::rows::{PlacedRow, PlainRow};
use crate::same::{same_columns, same_places, same_scope};
use std::alloc::{AllocError, Global};
use vortex_array::{DType, Value};
use vortex_scan_types::WorkScope;

// A second value or null.
fn cell_copy(alloc: Global, cell: &Option<Value>) -> Result<Option<Value>, AllocError>
    ensures { IfOk result (λ c. c ≡ cell.now) }
{
    match cell {
        Some(value) => Ok(Some(value.try_clone(alloc)?)),
        None => Ok(None),
    }
}

// A second row.
fn row_copy(alloc: Global, row: &[Option<Value>]) -> Result<PlainRow, AllocError>
    ensures { IfOk result (λ r. r ≡ row.now) }
{
    let mut cells = Vec::new(alloc);
    for cell in row {
        cells.push(cell_copy(alloc, cell)?)?;
    }
    Ok(PlainRow::new(cells))
}

// A second row with its place.
fn placed_copy(alloc: Global, row: &PlacedRow) -> Result<PlacedRow, AllocError>
    ensures { IfOk result (λ r. r ≡ row.now) }
{
    let values = row_copy(alloc, row.values())?;
    Ok(PlacedRow::new(row.partition(), row.row(), values))
}

// Whether the row lies in the split.
fn lies(scope: &WorkScope, row: &PlacedRow) -> bool
    ensures { result ≡ lies_in scope.now row.now }
{
    row.partition() == scope.file_ordinal
        && scope.rows.start <= row.row()
        && row.row() < scope.rows.end
}

/// The rows that lie in a split.
pub fn rows_in(
    alloc: Global,
    scope: &WorkScope,
    rows: &[PlacedRow],
) -> Result<Vec<PlacedRow>, AllocError>
    ensures { IfOk result (λ v. v.items ≡ rows_of_scope scope.now rows.now) }
{
    let mut list = Vec::new(alloc);
    for row in rows {
        if lies(scope, row) {
            list.push(placed_copy(alloc, row)?)?;
        }
    }
    Ok(list)
}

/// A second value of what stands at a place, null where nothing does.
pub fn cell_there(
    alloc: Global,
    rows: &[Option<Value>],
    place: usize,
) -> Result<Option<Value>, AllocError>
    ensures { IfOk result (λ c. c ≡ unwrap_or (slice_get rows.now place) None) }
{
    if place < rows.len() {
        let cell = cell_copy(alloc, &rows[place])?;
        return Ok(cell);
    }
    Ok(None)
}

// The rows' values at one place.
fn column_rows(alloc: Global, rows: &[PlacedRow], column: usize) -> Result<PlainRow, AllocError>
    ensures { IfOk result (λ r. r ≡ map (λ x. unwrap_or (slice_get x.values column) None) rows.now) }
{
    let mut cells = Vec::new(alloc);
    for row in rows {
        cells.push(cell_there(alloc, row.values(), column)?)?;
    }
    Ok(PlainRow::new(cells))
}

/// One column for each type, of the rows' values there.
pub fn columns_of(
    alloc: Global,
    types: &[DType],
    rows: &[PlacedRow],
) -> Result<Vec<PlainColumn>, AllocError>
    ensures { IfOk result (λ v. v.items ≡ columns_under types.now rows.now) }
{
    let mut columns = Vec::new(alloc);
    for column in 0..types.len() {
        columns.push(PlainColumn::new(types[column], column_rows(alloc, rows, column)?))?;
    }
    Ok(columns)
}

// Puts rows behind others.
fn push_all(alloc: Global, list: &mut Vec<PlacedRow>, rows: &[PlacedRow]) -> Result<(), AllocError>
    ensures { OnOk result (list.new.items ≡ list.old.items ++ rows.now) }
{
    for row in rows {
        list.push(placed_copy(alloc, row)?)?;
    }
    Ok(())
}

/// The rows of the list that a batch stands for: the first of those in its split.
pub fn stands_for(
    alloc: Global,
    rows: &[PlacedRow],
    batch: &PlainBatch,
) -> Result<Vec<PlacedRow>, AllocError>
    ensures { IfOk result (λ v. v.items ≡ first_rows rows.now batch.now) }
{
    let mut list = rows_in(alloc, batch.scope(), rows)?;
    list.truncate(batch.rows() as usize);
    Ok(list)
}

// Whether the batch is a prefix of the rows of the list in its split.
fn is_prefix(alloc: Global, question: &Question, batch: &PlainBatch) -> Result<bool, AllocError>
    ensures { IfOk result (λ b. IsTrue b ↔ IsPrefix question.now batch.now) }
{
    let in_split = rows_in(alloc, batch.scope(), question.rows())?;
    let count = in_split.len() as u64;
    if count < batch.rows() {
        return Ok(false);
    }
    let first = stands_for(alloc, question.rows(), batch)?;
    let columns = columns_of(alloc, question.types(), first.as_slice())?;
    Ok(same_columns(batch.columns(), columns.as_slice()))
}

// Whether a scope is among others.
fn contains(scopes: &[WorkScope], scope: &WorkScope) -> bool
    ensures { IsTrue result ↔ Contains scopes.now scope.now }
{
    for other in scopes {
        if same_scope(other, scope) {
            return true;
        }
    }
    false
}

// Whether each batch has a row.
fn are_filled(batches: &[PlainBatch]) -> bool
    ensures { IsTrue result ↔ All (λ b. 0 < b.rows) batches.now }
{
    for batch in batches {
        if batch.rows() == 0 {
            return false;
        }
    }
    true
}

// Whether each batch names a split.
fn are_named(scopes: &[WorkScope], batches: &[PlainBatch]) -> bool
    ensures { IsTrue result ↔ All (λ b. Contains scopes.now b.scope) batches.now }
{
    for batch in batches {
        if !contains(scopes, batch.scope()) {
            return false;
        }
    }
    true
}

// Whether each batch is a prefix of the rows in its split.
fn are_prefixes(
    alloc: Global,
    question: &Question,
    batches: &[PlainBatch],
) -> Result<bool, AllocError>
    ensures { IfOk result (λ b. IsTrue b ↔ All (IsPrefix question.now) batches.now) }
{
    for batch in batches {
        let holds = is_prefix(alloc, question, batch)?;
        if !holds {
            return Ok(false);
        }
    }
    Ok(true)
}

// Whether the batch at this place has another scope than each before it.
fn is_apart(batches: &[PlainBatch], place: usize) -> bool
    requires { place < length batches.now }
    ensures { IsTrue result ↔ Before (λ b c. b.scope ≢ c.scope) batches.now place }
{
    for earlier in 0..place {
        if same_scope(batches[earlier].scope(), batches[place].scope()) {
            return false;
        }
    }
    true
}

// Whether the scopes differ.
fn are_distinct(batches: &[PlainBatch]) -> bool
    ensures { IsTrue result ↔ AllPairs (λ b c. b.scope ≢ c.scope) batches.now }
{
    for place in 0..batches.len() {
        if !is_apart(batches, place) {
            return false;
        }
    }
    true
}

// Whether the first stands before the second: in an earlier partition, or earlier in the same one.
fn is_before(a: &WorkScope, b: &WorkScope) -> bool
    ensures { IsTrue result ↔ IsBefore a.now b.now }
{
    a.file_ordinal < b.file_ordinal
        || (a.file_ordinal == b.file_ordinal && a.rows.start < b.rows.start)
}

// Whether the batch at this place stands after each before it.
fn is_last(batches: &[PlainBatch], place: usize) -> bool
    requires { place < length batches.now }
    ensures { IsTrue result ↔ Before (λ b c. IsBefore b.scope c.scope) batches.now place }
{
    for earlier in 0..place {
        if !is_before(batches[earlier].scope(), batches[place].scope()) {
            return false;
        }
    }
    true
}

// Whether the scopes ascend.
fn are_ascending(batches: &[PlainBatch]) -> bool
    ensures { IsTrue result ↔ AllPairs (λ b c. IsBefore b.scope c.scope) batches.now }
{
    for place in 0..batches.len() {
        if !is_last(batches, place) {
            return false;
        }
    }
    true
}

// Whether the batches have so many rows together.
fn count_is(batches: &[PlainBatch], count: u64) -> bool
    ensures { IsTrue result ↔ (count_of batches.now ≡ count) }
{
    let [batch, batches @ ..] = batches else {
        return count == 0;
    };
    batch.rows() <= count && count_is(batches, count - batch.rows())
}

// Puts the rows that the batches stand for behind one another.
fn joined(
    alloc: Global,
    rows: &[PlacedRow],
    batches: &[PlainBatch],
) -> Result<Vec<PlacedRow>, AllocError>
    ensures { IfOk result (λ v. v.items ≡ flat_map (first_rows rows.now) batches.now) }
{
    let mut list = Vec::new(alloc);
    for batch in batches {
        let first = stands_for(alloc, rows, batch)?;
        push_all(alloc, &mut list, first.as_slice())?;
    }
    Ok(list)
}

// Whether the rows begin with others, the first of them all.
fn is_start(start: &[PlacedRow], rows: &[PlacedRow], count: usize) -> bool
    ensures { IsTrue result ↔ (start.now ≡ take count rows.now) }
{
    if count <= rows.len() {
        return same_places(start, &rows[..count]);
    }
    same_places(start, rows)
}

// The smaller of the limit and a count.
fn owed(limit: Option<u64>, count: u64) -> u64
    ensures { result ≡ within limit count }
{
    match limit {
        None => count,
        Some(limit) => limit.min(count),
    }
}

// Whether the batches stand in order of scope and joined are a prefix of the list.
fn are_in_order(
    alloc: Global,
    question: &Question,
    batches: &[PlainBatch],
    count: u64,
) -> Result<bool, AllocError>
    requires { count_of batches.now ≡ count }
    ensures { IfOk result (λ b. IsTrue b ↔ InOrder question.now batches.now) }
{
    if !are_ascending(batches) {
        return Ok(false);
    }
    let list = joined(alloc, question.rows(), batches)?;
    Ok(is_start(list.as_slice(), question.rows(), count as usize))
}

/// Whether the batches are an answer to the question: none is empty, each names a split and no two the same one, each
/// has the first chosen rows of its split, together they have all chosen rows or as many as the limit, and an ordered
/// question has them in order.
pub fn answers(
    alloc: Global,
    question: &Question,
    batches: &[PlainBatch],
) -> Result<bool, AllocError>
    ensures { IfOk result (λ b. IsTrue b ↔ Answers question.now batches.now) }
{
    if !are_filled(batches) {
        return Ok(false);
    }
    if !are_named(question.scopes(), batches) {
        return Ok(false);
    }
    if !are_distinct(batches) {
        return Ok(false);
    }
    let prefixes = are_prefixes(alloc, question, batches)?;
    if !prefixes {
        return Ok(false);
    }
    let count = owed(question.limit(), question.rows().len() as u64);
    if !count_is(batches, count) {
        return Ok(false);
    }
    if !question.ordered() {
        return Ok(true);
    }
    let holds = are_in_order(alloc, question, batches, count)?;
    Ok(holds)
}
