// What one level of a filter says of the rows of a split, by the chunks of its operands.
ghost use Rattle.std.specs.Prelude.{◌≡◌, IfOk, IsTrue, Some, is_none, length, map};
ghost use Rattle.std.specs.Simd.Lanes.{zip2};
ghost use Rattle.vortex_array_types.specs.Order.{compares};
ghost use Rattle.vortex_array_types.specs.Truth.{all_three, both, is_like, lies_between};
ghost use Rattle.vortex_array_types.specs.Typed.{is_constant, is_text, is_truth_value, operand_type, same_type};
ghost use Rattle.vortex_array_kinds.specs.Truths.{answer_in, answers};
ghost use Rattle.vortex_array.specs.ColumnOf.{bool_column, column_of};
ghost use Rattle.vortex_table_chunks.specs.Rows.{FitColumns, IsOperand, cells_of, values_of};

use crate::answers::{liked_by, null_rows, repeated, repeated_null, repeated_truth, truth_rows};
use crate::chunk::Chunk;
use crate::compare::{bounded_by, compared_with};
use crate::named::chunk_named;
use std::alloc::{AllocError, Global};
use vortex_array::{Array, BetweenOptions, BoolArray, ColumnDesc, CompareOperator, Operand};
use vortex_array_compare::turned_operator;

// The rows of an operand: those of its column, decoded, or the constant in each of so many rows.
fn rows_of(
    alloc: Global,
    columns: &[ColumnDesc],
    chunks: &[Option<Chunk>],
    rows: usize,
    x: &Operand,
) -> Result<Array, AllocError>
    requires fits { FitColumns rows columns.now chunks.now }
    requires there { IsOperand columns.now chunks.now x.now }
    ensures rows { IfOk result (λ a. (column_of a).rows ≡ values_of (cells_of columns.now chunks.now rows) x.now) }
    ensures dtype { IfOk result (λ a. Some (column_of a).dtype ≡ operand_type columns.now x.now) }
    ensures long { IfOk result (λ a. length (column_of a).rows ≡ rows) }
{
    match x {
        Operand::Column(name) => chunk_named(columns, chunks, name.as_str()).decode(alloc),
        Operand::Constant(scalar) => repeated(alloc, scalar, rows),
    }
}

/// Row by row whether the operator holds of two operands, and null where one is null.
pub(crate) fn compared_operands(
    alloc: Global,
    columns: &[ColumnDesc],
    chunks: &[Option<Chunk>],
    rows: usize,
    operator: CompareOperator,
    x: &Operand,
    y: &Operand,
) -> Result<BoolArray, AllocError>
    requires fits { FitColumns rows columns.now chunks.now }
    requires left { IsOperand columns.now chunks.now x.now }
    requires right { IsOperand columns.now chunks.now y.now }
    requires types { IsTrue (same_type (operand_type columns.now x.now) (operand_type columns.now y.now)) }
    ensures { IfOk result (λ a. answers (bool_column a) ≡ zip2 (both (compares operator)) (values_of (cells_of columns.now chunks.now rows) x.now) (values_of (cells_of columns.now chunks.now rows) y.now)) }
{
    match x {
        Operand::Column(name) => {
            let other = rows_of(alloc, columns, chunks, rows, y)?;
            let chunk = chunk_named(columns, chunks, name.as_str());
            let answers = compared_with(alloc, chunk, &other, operator)?;
            Ok(answers)
        }
        Operand::Constant(scalar) => {
            let other = repeated(alloc, scalar, rows)?;
            let answers = compared_from(alloc, columns, chunks, rows, operator, &other, y)?;
            Ok(answers)
        }
    }
}

// The same where the left one is an array.
fn compared_from(
    alloc: Global,
    columns: &[ColumnDesc],
    chunks: &[Option<Chunk>],
    rows: usize,
    operator: CompareOperator,
    left: &Array,
    y: &Operand,
) -> Result<BoolArray, AllocError>
    requires fits { FitColumns rows columns.now chunks.now }
    requires right { IsOperand columns.now chunks.now y.now }
    requires long { length (column_of left.now).rows ≡ rows }
    requires types { IsTrue (same_type (Some (column_of left.now).dtype) (operand_type columns.now y.now)) }
    ensures { IfOk result (λ a. answers (bool_column a) ≡ zip2 (both (compares operator)) (column_of left.now).rows (values_of (cells_of columns.now chunks.now rows) y.now)) }
{
    match y {
        Operand::Column(name) => {
            let chunk = chunk_named(columns, chunks, name.as_str());
            let answers = compared_with(alloc, chunk, left, turned_operator(operator))?;
            Ok(answers)
        }
        Operand::Constant(scalar) => {
            let right = repeated(alloc, scalar, rows)?;
            let answers = left.compare(alloc, &right, operator)?;
            Ok(answers)
        }
    }
}

/// Row by row whether an operand lies between two others, and null where one of the three is null.
pub(crate) fn bounded_operands(
    alloc: Global,
    columns: &[ColumnDesc],
    chunks: &[Option<Chunk>],
    rows: usize,
    options: &BetweenOptions,
    x: &Operand,
    lower: &Operand,
    upper: &Operand,
) -> Result<BoolArray, AllocError>
    requires fits { FitColumns rows columns.now chunks.now }
    requires value { IsOperand columns.now chunks.now x.now }
    requires below { IsOperand columns.now chunks.now lower.now }
    requires above { IsOperand columns.now chunks.now upper.now }
    requires lower_type { IsTrue (same_type (operand_type columns.now x.now) (operand_type columns.now lower.now)) }
    requires upper_type { IsTrue (same_type (operand_type columns.now x.now) (operand_type columns.now upper.now)) }
    ensures { IfOk result (λ a. answers (bool_column a) ≡ zip2 (λ test z. test z) (zip2 (all_three (lies_between options.now)) (values_of (cells_of columns.now chunks.now rows) x.now) (values_of (cells_of columns.now chunks.now rows) lower.now)) (values_of (cells_of columns.now chunks.now rows) upper.now)) }
{
    let lower = rows_of(alloc, columns, chunks, rows, lower)?;
    let upper = rows_of(alloc, columns, chunks, rows, upper)?;
    match x {
        Operand::Column(name) => {
            let chunk = chunk_named(columns, chunks, name.as_str());
            let answers = bounded_by(alloc, chunk, &lower, &upper, options)?;
            Ok(answers)
        }
        Operand::Constant(scalar) => {
            let row = repeated(alloc, scalar, rows)?;
            let answers = row.between(alloc, &lower, &upper, options)?;
            Ok(answers)
        }
    }
}

/// Row by row whether an operand matches a constant pattern, and null where one of both is null.
pub(crate) fn liked_operands(
    alloc: Global,
    columns: &[ColumnDesc],
    chunks: &[Option<Chunk>],
    rows: usize,
    x: &Operand,
    pattern: &Operand,
) -> Result<BoolArray, AllocError>
    requires fits { FitColumns rows columns.now chunks.now }
    requires there { IsOperand columns.now chunks.now x.now }
    requires texts { IsTrue (is_text (operand_type columns.now x.now)) }
    requires patterns { IsTrue (is_text (operand_type columns.now pattern.now)) }
    requires constant { IsTrue (is_constant pattern.now) }
    ensures { IfOk result (λ a. answers (bool_column a) ≡ zip2 (both is_like) (values_of (cells_of columns.now chunks.now rows) x.now) (values_of (cells_of columns.now chunks.now rows) pattern.now)) }
{
    match (x, pattern) {
        (Operand::Column(name), Operand::Constant(pattern)) => {
            let chunk = chunk_named(columns, chunks, name.as_str());
            let answers = liked_by(alloc, chunk, pattern)?;
            Ok(answers)
        }
        (Operand::Constant(text), Operand::Constant(pattern)) => {
            let text = Chunk::Plain(repeated(alloc, text, rows)?);
            let answers = liked_by(alloc, &text, pattern)?;
            Ok(answers)
        }
        (_, Operand::Column(_)) => unreachable!(),
    }
}

/// Row by row whether an operand is null.
pub(crate) fn null_operands(
    alloc: Global,
    columns: &[ColumnDesc],
    chunks: &[Option<Chunk>],
    rows: usize,
    x: &Operand,
) -> Result<BoolArray, AllocError>
    requires fits { FitColumns rows columns.now chunks.now }
    requires there { IsOperand columns.now chunks.now x.now }
    ensures { IfOk result (λ a. answers (bool_column a) ≡ map (λ row. Some (is_none row)) (values_of (cells_of columns.now chunks.now rows) x.now)) }
{
    match x {
        Operand::Column(name) => null_rows(alloc, chunk_named(columns, chunks, name.as_str())),
        Operand::Constant(scalar) => repeated_null(alloc, scalar, rows),
    }
}

/// Row by row the truth value that an operand is.
pub(crate) fn truth_operands(
    alloc: Global,
    columns: &[ColumnDesc],
    chunks: &[Option<Chunk>],
    rows: usize,
    x: &Operand,
) -> Result<BoolArray, AllocError>
    requires fits { FitColumns rows columns.now chunks.now }
    requires there { IsOperand columns.now chunks.now x.now }
    requires kind { IsTrue (is_truth_value (operand_type columns.now x.now)) }
    ensures { IfOk result (λ a. answers (bool_column a) ≡ map answer_in (values_of (cells_of columns.now chunks.now rows) x.now)) }
{
    match x {
        Operand::Column(name) => truth_rows(alloc, chunk_named(columns, chunks, name.as_str())),
        Operand::Constant(scalar) => repeated_truth(alloc, scalar, rows),
    }
}
