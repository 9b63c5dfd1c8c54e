// The truth of a filter for one row, in three values. `None` stands for null.
ghost use Rattle.std.specs.Prelude.{◌≡◌, ◌≤◌, is_none, length, not, option_and_then, option_copied, option_map};
ghost use Rattle.vortex_array_types.specs.Cells.{cell_of};
ghost use Rattle.vortex_array_types.specs.Order.{compares as compares_values};
ghost use Rattle.vortex_array_types.specs.Truth.{all_three, and3, both, is_like as likes, keeps as keeps_row, lies_between, operand_value as value_in, or3, truth, truth_value};

use crate::order::compares;
use vortex_array::{
    BetweenOptions, ColumnDesc, CompareOperator, Filter, Operand, StrictComparison, Value,
};
use vortex_array_predicates::text_matches;

/// The row's value in the column with this name, or none where it is null or no column has the name.
pub fn cell<'a>(columns: &[ColumnDesc], row: &'a [Option<Value>], name: &str) -> Option<&'a Value>
    ensures { option_copied result ≡ cell_of columns.now row.now name.now }
{
    let [column, columns @ ..] = columns else {
        return None;
    };
    let [value, row @ ..] = row else {
        return None;
    };
    if column.name.as_str() == name {
        return value.as_ref();
    }
    cell(columns, row, name)
}

// The row's value in a column, or a constant.
fn operand_value<'a>(
    columns: &[ColumnDesc],
    row: &'a [Option<Value>],
    operand: &'a Operand,
) -> Option<&'a Value>
    ensures { option_copied result ≡ value_in (cell_of columns.now row.now) operand.now }
{
    match operand {
        Operand::Column(name) => cell(columns, row, name.as_str()),
        Operand::Constant(scalar) => scalar.value(),
    }
}

// The truth value itself.
fn truth_in(value: &Value) -> Option<bool>
    ensures { result ≡ truth_value value.now }
{
    match value {
        Value::Bool(b) => Some(*b),
        _ => None,
    }
}

// Whether a value lies between two others, each bound strict or not.
fn is_between(options: &BetweenOptions, x: &Value, lower: &Value, upper: &Value) -> bool
    ensures { result ≡ lies_between options.now x.now lower.now upper.now }
{
    let above = match options.lower_strict {
        StrictComparison::Strict => CompareOperator::Gt,
        StrictComparison::NonStrict => CompareOperator::Gte,
    };
    let below = match options.upper_strict {
        StrictComparison::Strict => CompareOperator::Lt,
        StrictComparison::NonStrict => CompareOperator::Lte,
    };
    compares(above, x, lower) && compares(below, x, upper)
}

// Whether the text matches the pattern.
fn is_like(text: &Value, pattern: &Value) -> bool
    ensures { result ≡ likes text.now pattern.now }
{
    match (text, pattern) {
        (Value::Utf8(text), Value::Utf8(pattern)) => text_matches(text.as_str(), pattern.as_str()),
        _ => false,
    }
}

/// Both, in three values: false where one is false, else null where one is null.
pub fn and(p: Option<bool>, q: Option<bool>) -> Option<bool>
    ensures { result ≡ and3 p q }
{
    match (p, q) {
        (Some(false), _) => Some(false),
        (Some(true), q) => q,
        (None, Some(false)) => Some(false),
        (None, _) => None,
    }
}

/// One of both, in three values: true where one is true, else null where one is null.
pub fn or(p: Option<bool>, q: Option<bool>) -> Option<bool>
    ensures { result ≡ or3 p q }
{
    match (p, q) {
        (Some(true), _) => Some(true),
        (Some(false), q) => q,
        (None, Some(true)) => Some(true),
        (None, _) => None,
    }
}

// The negation in three values: null where the truth is null.
fn negation(p: Option<bool>) -> Option<bool>
    ensures { result ≡ option_map not p }
{
    match p {
        Some(p) => Some(!p),
        None => None,
    }
}

// Whether an operand is null.
fn is_null(columns: &[ColumnDesc], row: &[Option<Value>], x: &Operand) -> bool
    ensures { result ≡ is_none (value_in (cell_of columns.now row.now) x.now) }
{
    operand_value(columns, row, x).is_none()
}

// The truth of an operand alone.
fn truth_of_operand(columns: &[ColumnDesc], row: &[Option<Value>], x: &Operand) -> Option<bool>
    ensures { result ≡ option_and_then truth_value (value_in (cell_of columns.now row.now) x.now) }
{
    truth_in(operand_value(columns, row, x)?)
}

// The truth of a comparison of two operands.
fn truth_of_comparison(
    columns: &[ColumnDesc],
    row: &[Option<Value>],
    operator: CompareOperator,
    x: &Operand,
    y: &Operand,
) -> Option<bool>
    ensures { result ≡ both (compares_values operator) (value_in (cell_of columns.now row.now) x.now) (value_in (cell_of columns.now row.now) y.now) }
{
    let x = operand_value(columns, row, x)?;
    let y = operand_value(columns, row, y)?;
    Some(compares(operator, x, y))
}

// The truth of an operand's lying between two others.
fn truth_of_between(
    columns: &[ColumnDesc],
    row: &[Option<Value>],
    options: &BetweenOptions,
    x: &Operand,
    lower: &Operand,
    upper: &Operand,
) -> Option<bool>
    ensures { result ≡ all_three (lies_between options.now) (value_in (cell_of columns.now row.now) x.now) (value_in (cell_of columns.now row.now) lower.now) (value_in (cell_of columns.now row.now) upper.now) }
{
    let x = operand_value(columns, row, x)?;
    let lower = operand_value(columns, row, lower)?;
    let upper = operand_value(columns, row, upper)?;
    Some(is_between(options, x, lower, upper))
}

// The truth of an operand's matching a pattern.
fn truth_of_like(
    columns: &[ColumnDesc],
    row: &[Option<Value>],
    x: &Operand,
    pattern: &Operand,
) -> Option<bool>
    ensures { result ≡ both likes (value_in (cell_of columns.now row.now) x.now) (value_in (cell_of columns.now row.now) pattern.now) }
{
    let x = operand_value(columns, row, x)?;
    let pattern = operand_value(columns, row, pattern)?;
    Some(is_like(x, pattern))
}

/// The truth of a filter for a row.
#[tactic(auto, using(vortex_array_types::specs::declared::filter::Filter::the_lemmas))]
pub fn truth_of(columns: &[ColumnDesc], row: &[Option<Value>], filter: &Filter) -> Option<bool>
    ensures { result ≡ truth (cell_of columns.now row.now) filter.now }
{
    match filter {
        Filter::Truth(x) => truth_of_operand(columns, row, x),
        Filter::Compare(operator, x, y) => truth_of_comparison(columns, row, *operator, x, y),
        Filter::Between(options, x, lower, upper) => {
            truth_of_between(columns, row, options, x, lower, upper)
        }
        Filter::Like(x, pattern) => truth_of_like(columns, row, x, pattern),
        Filter::IsNull(x) => Some(is_null(columns, row, x)),
        Filter::Not(f) => negation(truth_of(columns, row, f.get())),
        Filter::And(f, g) => and(
            truth_of(columns, row, f.get()),
            truth_of(columns, row, g.get()),
        ),
        Filter::Or(f, g) => or(
            truth_of(columns, row, f.get()),
            truth_of(columns, row, g.get()),
        ),
    }
}

/// Whether the filter is true of a row, or there is none.
pub fn keeps(columns: &[ColumnDesc], row: &[Option<Value>], filter: &Option<Filter>) -> bool
    ensures { result ≡ keeps_row filter.now (cell_of columns.now row.now) }
{
    match filter {
        None => true,
        Some(filter) => truth_of(columns, row, filter) == Some(true),
    }
}
