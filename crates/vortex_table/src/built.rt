// The forms of tables and requests that a scan answers today, and what they keep of a row.
ghost use Rattle.std.specs.Prelude.{◌≡◌, ◌≤◌, ◌∷◌, [], length, ◌↔◌, ℕ, List, Option, pos, None, true, IfErr, IfOk, IfSome, OnOk, IsTrue, Some, is_some};
ghost use Rattle.vortex_array_types.specs.Cells.{cell_of};
ghost use Rattle.vortex_array_types.specs.Checked.{unknown_in};
ghost use Rattle.vortex_array_types.specs.Typed.{filter_names};
ghost use Rattle.vortex_array_types.specs.Truth.{keeps};
ghost use Rattle.vortex_array_types.specs.declared.scalar.Value.TheVariants.{Int};
ghost use Rattle.vortex_array_types.specs.declared.scalar.Value.{Value as ArrayValue};
ghost use Rattle.vortex_table.specs.Built.{HasCause, UnknownIn, is_built as is_built_form, is_one_u64, is_u64 as is_u64_type, is_unlimited as is_unlimited_request, is_comparison, is_whole as is_whole_projection, selects_all as selects_all_places};
ghost use Rattle.vortex_scan_types.specs.Valid.{first_unknown};
ghost use Rattle.vortex_table.specs.Kept.{passes};

use crate::errors::ScanError;
use std::alloc::Global;
use vortex_array::{
    ColumnDesc, CompareOperator, DType, Filter, Name, Nullability, Operand, PType, Scalar, Value,
};
use vortex_scan_types::{Projection, ScanRequest, Selection};
use vortex_table_types::PartitionDesc;

/// A comparison of the one column with a constant.
#[derive(Clone, Copy, Debug, PartialEq, Eq)]
pub(crate) struct Comparison {
    pub(crate) operator: CompareOperator,
    pub(crate) constant: u64,
}

// Whether a type is that of `u64` without nulls.
fn is_u64(dtype: DType) -> bool
    ensures { result ≡ is_u64_type dtype }
{
    matches!(
        dtype,
        DType::Primitive(PType::U64, Nullability::NonNullable)
    )
}

// Whether there is one column, of `u64` without nulls.
fn is_one_column(columns: &[ColumnDesc]) -> bool
    ensures { result ≡ is_one_u64 columns.now }
{
    match columns {
        [column] => is_u64(column.dtype),
        _ => false,
    }
}

// Whether all places are selected.
fn selects_all(selection: &Selection) -> bool
    ensures { result ≡ selects_all_places selection.now }
{
    matches!(selection, Selection::All)
}

// Whether all columns are asked for.
fn is_whole(projection: &Projection) -> bool
    ensures { result ≡ is_whole_projection projection.now }
{
    matches!(projection, Projection::All)
}

// Whether there is no projection, range, selection or limit.
fn is_unlimited(request: &ScanRequest) -> bool
    ensures { result ≡ is_unlimited_request request.now }
{
    is_whole(&request.projection)
        && request.row_range.is_none()
        && request.partition_range.is_none()
        && selects_all(&request.selection)
        && selects_all(&request.partition_selection)
        && request.limit.is_none()
}

// The number of a constant of `u64` without nulls.
fn u64_constant(scalar: &Scalar) -> Option<u64>
    ensures form { IsTrue (is_some result) ↔ IsTrue (is_u64_type scalar.now.dtype) }
    ensures value { IfSome result (λ n. scalar.now.value ≡ Some (Int (pos n))) }
{
    if !is_u64(scalar.dtype()) {
        return None;
    }
    match scalar.value() {
        Some(Value::Int(number)) => match u64::try_from(*number) {
            Ok(number) => Some(number),
            Err(_) => unreachable!(),
        },
        _ => unreachable!(),
    }
}

/// What a filter of the built form keeps: the name of its column, and the comparison.
#[tactic(auto, using(vortex_array_types::specs::declared::filter::Filter::the_lemmas))]
fn comparison_in(filter: &Filter) -> Option<(&Name, Comparison)>
    ensures form { IsTrue (is_some result) ↔ IsTrue (is_comparison (Some filter.now)) }
    ensures name { IfSome result (λ c. filter_names (Some filter.now) ≡ c.0.now ∷ []) }
    ensures keeps { IfSome result (λ c. (row : List ℕ → Option ArrayValue) (n : ℕ) → row c.0.now ≡ Some (Int (pos n)) → keeps (Some filter.now) row ≡ passes (Some c.1) n) }
{
    match filter {
        Filter::Compare(operator, Operand::Column(name), Operand::Constant(scalar)) => {
            let constant = u64_constant(scalar)?;
            Some((
                name,
                Comparison {
                    operator: *operator,
                    constant,
                },
            ))
        }
        _ => None,
    }
}

// Whether the table and the request are of a form that is built.
fn is_built(columns: &[ColumnDesc], partitions: &[PartitionDesc], request: &ScanRequest) -> bool
    ensures { result ≡ is_built_form columns.now partitions.now request.now }
{
    partitions.len() <= 1
        && is_one_column(columns)
        && is_unlimited(request)
        && is_comparison_or_none(&request.filter)
}

// Whether there is no filter but one comparison of a column with a constant of `u64`.
fn is_comparison_or_none(filter: &Option<Filter>) -> bool
    ensures { result ≡ is_comparison filter.now }
{
    match filter {
        None => true,
        Some(filter) => comparison_in(filter).is_some(),
    }
}

// What the comparison of a filter keeps, where its column is that of the table.
fn keep_in(
    alloc: Global,
    columns: &[ColumnDesc],
    filter: &Filter,
) -> Result<Option<Comparison>, ScanError>
    requires column { is_one_u64 columns.now ≡ true }
    requires form { is_comparison (Some filter.now) ≡ true }
    ensures known { OnOk result (unknown_in columns.now filter.now ≡ None) }
    ensures keeps { IfOk result (λ keep. (n : ℕ) → passes keep n ≡ keeps (Some filter.now) (cell_of columns.now (Some (Int (pos n)) ∷ []))) }
    ensures unknown { IfErr result (UnknownIn columns.now filter.now) }
{
    let Some((name, comparison)) = comparison_in(filter) else {
        unreachable!()
    };
    let [column] = columns else { unreachable!() };
    if column.name.as_str() == name.as_str() {
        return Ok(Some(comparison));
    }
    match name.try_clone(alloc) {
        Ok(name) => Err(ScanError::InvalidRequest { name }),
        Err(_) => Err(ScanError::OutOfMemory),
    }
}

/// What a scan keeps: all rows, or those that a comparison keeps.
pub(crate) fn keep_of(
    alloc: Global,
    columns: &[ColumnDesc],
    partitions: &[PartitionDesc],
    request: &ScanRequest,
) -> Result<Option<Comparison>, ScanError>
    ensures built { OnOk result (is_built_form columns.now partitions.now request.now ≡ true) }
    ensures one { OnOk result (length partitions.now ≤ 1) }
    ensures column { OnOk result (is_one_u64 columns.now ≡ true) }
    ensures unlimited { OnOk result (is_unlimited_request request.now ≡ true) }
    ensures known { OnOk result (first_unknown columns.now request.now ≡ None) }
    ensures keeps { IfOk result (λ keep. (n : ℕ) → passes keep n ≡ keeps request.now.filter (cell_of columns.now (Some (Int (pos n)) ∷ []))) }
    ensures cause { IfErr result (HasCause columns.now partitions.now request.now) }
{
    if !is_built(columns, partitions, request) {
        return Err(ScanError::NotBuilt);
    }
    match &request.filter {
        None => Ok(None),
        Some(filter) => keep_in(alloc, columns, filter),
    }
}
