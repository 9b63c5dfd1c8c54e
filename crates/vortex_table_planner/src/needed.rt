// The columns that a projection and a filter name.
ghost use Rattle.std.specs.Prelude.{◌≡◌, IfOk, Some, map};
ghost use Rattle.std.specs.List.{list_any};
ghost use Rattle.std.specs.Str.{bytes_eq};
ghost use Rattle.vortex_array_types.specs.Typed.{filter_names, operand_names};
ghost use Rattle.vortex_table_planner.specs.Live.{columns_named, is_needed as is_needed_column, names_in};

use std::alloc::{AllocError, Global};
use vortex_array::{ColumnDesc, Filter, Name, Operand};
use vortex_scan_types::Projection;

// Whether an operand names the column.
fn operand_has(x: &Operand, name: &str) -> bool
    ensures { result ≡ list_any (bytes_eq name.now) (operand_names x.now) }
{
    match x {
        Operand::Column(other) => name == other.as_str(),
        Operand::Constant(_) => false,
    }
}

// Whether a filter names the column.
#[tactic(auto, using(vortex_array_types::specs::declared::filter::Filter::the_lemmas))]
fn filter_has(filter: &Filter, name: &str) -> bool
    ensures { result ≡ list_any (bytes_eq name.now) (filter_names (Some filter.now)) }
{
    match filter {
        Filter::Truth(x) | Filter::IsNull(x) => operand_has(x, name),
        Filter::Compare(_, x, y) => operand_has(x, name) || operand_has(y, name),
        Filter::Between(_, x, lower, upper) => {
            operand_has(x, name) || operand_has(lower, name) || operand_has(upper, name)
        }
        Filter::Like(x, pattern) => operand_has(x, name) || operand_has(pattern, name),
        Filter::Not(f) => filter_has(f.get(), name),
        Filter::And(f, g) | Filter::Or(f, g) => {
            filter_has(f.get(), name) || filter_has(g.get(), name)
        }
    }
}

// Whether a name is among these.
fn is_among(names: &[Name], name: &str) -> bool
    ensures { result ≡ list_any (bytes_eq name.now) names.now }
{
    for other in names {
        if name == other.as_str() {
            return true;
        }
    }
    false
}

// Whether a column of the table is needed.
fn is_needed(
    columns: &[ColumnDesc],
    projection: &Projection,
    filter: &Option<Filter>,
    column: &ColumnDesc,
) -> bool
    ensures { result ≡ is_needed_column (names_in columns.now projection.now filter.now) column.now }
{
    let named = match projection {
        Projection::All => are_named(columns, column.name.as_str()),
        Projection::Columns(names) => is_among(names.as_slice(), column.name.as_str()),
    };
    named
        || match filter {
            None => false,
            Some(filter) => filter_has(filter, column.name.as_str()),
        }
}

// Whether some column has the name.
#[tactic(auto, using(crate::proofs::Loops::named_at))]
fn are_named(columns: &[ColumnDesc], name: &str) -> bool
    ensures { result ≡ list_any (bytes_eq name.now) (map (λ column. column.name) columns.now) }
{
    for column in columns {
        if name == column.name.as_str() {
            return true;
        }
    }
    false
}

/// The numbers of the columns that the projection or the filter names, in order.
#[tactic(auto, using(crate::proofs::Loops::columns_more))]
pub(crate) fn needed_columns(
    alloc: Global,
    columns: &[ColumnDesc],
    projection: &Projection,
    filter: &Option<Filter>,
) -> Result<Vec<u64>, AllocError>
    ensures { IfOk result (λ v. v.items ≡ columns_named columns.now (names_in columns.now projection.now filter.now)) }
{
    let mut needed = Vec::new(alloc);
    for column in 0..columns.len() {
        if is_needed(columns, projection, filter, &columns[column]) {
            needed.push(column as u64)?;
        }
    }
    Ok(needed)
}
