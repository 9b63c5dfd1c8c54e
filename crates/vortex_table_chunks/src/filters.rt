// What a filter says of the rows of a split. Its leaves are asked of chunks as they are kept; their answers, in three
// values, are joined by words of 64 rows. A side is not asked where the other one decides every row.
ghost use Rattle.std.specs.Prelude.{◌≡◌, All, IfOk, IsTrue, Some, length, replicate, true};
ghost use Rattle.std.specs.Simd.Lanes.{zip2};
ghost use Rattle.vortex_array_types.specs.Truth.{and3, or3};
ghost use Rattle.vortex_array_types.specs.Typed.{filter_names, well_typed};
ghost use Rattle.vortex_array_kinds.specs.Truths.{answers};
ghost use Rattle.vortex_array.specs.ColumnOf.{bool_column};
ghost use Rattle.vortex_table_chunks.specs.Rows.{FitColumns, IsThere, cells_of, truths_of};

use crate::chunk::Chunk;
use crate::operands::{
    bounded_operands, compared_operands, liked_operands, null_operands, truth_operands,
};
use std::alloc::{AllocError, Global};
use vortex_array::{BoolArray, ColumnDesc, Filter};

/// The truth of a filter for each row of a split, in three values, by the chunks of the columns that it names.
#[cycle(filter_truth)]
pub fn filter_truth(
    alloc: Global,
    columns: &[ColumnDesc],
    chunks: &[Option<Chunk>],
    rows: usize,
    filter: &Filter,
) -> Result<BoolArray, AllocError>
    requires fits { FitColumns rows columns.now chunks.now }
    requires there { All (IsThere columns.now chunks.now) (filter_names (Some filter.now)) }
    requires types { IsTrue (well_typed columns.now (Some filter.now)) }
    ensures { IfOk result (λ a. answers (bool_column a) ≡ truths_of (cells_of columns.now chunks.now rows) filter.now) }
{
    match filter {
        Filter::Truth(x) => truth_operands(alloc, columns, chunks, rows, x),
        Filter::Compare(operator, x, y) => {
            compared_operands(alloc, columns, chunks, rows, *operator, x, y)
        }
        Filter::Between(options, x, lower, upper) => {
            bounded_operands(alloc, columns, chunks, rows, options, x, lower, upper)
        }
        Filter::Like(x, pattern) => liked_operands(alloc, columns, chunks, rows, x, pattern),
        Filter::IsNull(x) => null_operands(alloc, columns, chunks, rows, x),
        Filter::Not(f) => {
            let answers = filter_truth(alloc, columns, chunks, rows, f.get())?;
            answers.negate(alloc)
        }
        Filter::And(f, g) => conjunction(alloc, columns, chunks, rows, f.get(), g.get()),
        Filter::Or(f, g) => disjunction(alloc, columns, chunks, rows, f.get(), g.get()),
    }
}

// The conjunction of two filters. The second one is not asked where the first is false of each row.
#[cycle(filter_truth)]
fn conjunction(
    alloc: Global,
    columns: &[ColumnDesc],
    chunks: &[Option<Chunk>],
    rows: usize,
    f: &Filter,
    g: &Filter,
) -> Result<BoolArray, AllocError>
    requires fits { FitColumns rows columns.now chunks.now }
    requires first { All (IsThere columns.now chunks.now) (filter_names (Some f.now)) }
    requires first_types { IsTrue (well_typed columns.now (Some f.now)) }
    requires second { All (IsThere columns.now chunks.now) (filter_names (Some g.now)) }
    requires second_types { IsTrue (well_typed columns.now (Some g.now)) }
    ensures { IfOk result (λ a. answers (bool_column a) ≡ zip2 and3 (truths_of (cells_of columns.now chunks.now rows) f.now) (truths_of (cells_of columns.now chunks.now rows) g.now)) }
{
    let left = filter_truth(alloc, columns, chunks, rows, f)?;
    if is_all(&left, false) {
        return Ok(left);
    }
    let right = filter_truth(alloc, columns, chunks, rows, g)?;
    left.kleene_and(alloc, &right)
}

// The disjunction of two filters. The second one is not asked where the first is true of each row.
#[cycle(filter_truth)]
fn disjunction(
    alloc: Global,
    columns: &[ColumnDesc],
    chunks: &[Option<Chunk>],
    rows: usize,
    f: &Filter,
    g: &Filter,
) -> Result<BoolArray, AllocError>
    requires fits { FitColumns rows columns.now chunks.now }
    requires first { All (IsThere columns.now chunks.now) (filter_names (Some f.now)) }
    requires first_types { IsTrue (well_typed columns.now (Some f.now)) }
    requires second { All (IsThere columns.now chunks.now) (filter_names (Some g.now)) }
    requires second_types { IsTrue (well_typed columns.now (Some g.now)) }
    ensures { IfOk result (λ a. answers (bool_column a) ≡ zip2 or3 (truths_of (cells_of columns.now chunks.now rows) f.now) (truths_of (cells_of columns.now chunks.now rows) g.now)) }
{
    let left = filter_truth(alloc, columns, chunks, rows, f)?;
    if is_all(&left, true) {
        return Ok(left);
    }
    let right = filter_truth(alloc, columns, chunks, rows, g)?;
    left.kleene_or(alloc, &right)
}

// Whether each answer is known to be this one. Where an answer may be null, nothing is said.
fn is_all(answer: &BoolArray, truth: bool) -> bool
    ensures { result ≡ true → answers (bool_column answer.now) ≡ replicate (length (bool_column answer.now).rows) (Some truth) }
{
    if !answer.validity().has_none() {
        return false;
    }
    let set = answer.bits().count();
    if truth { set == answer.len() } else { set == 0 }
}
