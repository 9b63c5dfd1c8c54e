// Whether a request is valid for a table.
ghost use Rattle.std.specs.Prelude.{◌≡◌, IfErr, OnOk, find, is_some, not, option_copied};
ghost use Rattle.vortex_array_types.specs.Cells.{dtype_of};
ghost use Rattle.vortex_array_types.specs.Typed.{well_typed};
ghost use Rattle.vortex_scan_types.specs.Valid.{ValidRequest, first_unknown, projection_names};
ghost use Rattle.vortex_table_scan.specs.Causes.{IsInvalid};

use crate::errors::ScanError;
use std::alloc::Global;
use vortex_array::{ColumnDesc, Filter, Name};
use vortex_array_types::column_type;
use vortex_scan_types::{Projection, ScanRequest};

// The first name that no column has.
fn first_unknown_in<'a>(columns: &[ColumnDesc], names: &'a [Name]) -> Option<&'a Name>
    ensures { option_copied result ≡ find (λ name. not (is_some (dtype_of columns.now name))) names.now }
{
    let mut rest = names;
    'names: while let [name, behind @ ..] = rest {
        if column_type(columns, name.as_str()).is_none() {
            return Some(name);
        }
        rest = behind;
    }
    None
}

// The names that a projection lists.
fn listed_names(projection: &Projection) -> &[Name]
    ensures { result.now ≡ projection_names projection.now }
{
    match projection {
        Projection::All => &[],
        Projection::Columns(names) => names.as_slice(),
    }
}

// The first name of the request that no column has: in the projection, else in the filter.
#[tactic(auto, using(vortex_array_types::proofs::UnknownNames::find_append))]
fn unknown_name<'a>(columns: &[ColumnDesc], request: &'a ScanRequest) -> Option<&'a Name>
    ensures { option_copied result ≡ first_unknown columns.now request.now }
{
    match first_unknown_in(columns, listed_names(&request.projection)) {
        Some(name) => Some(name),
        None => match &request.filter {
            None => None,
            Some(filter) => filter.unknown_name(columns),
        },
    }
}

// Whether the filter meets the type rules, if there is one.
fn is_typed(columns: &[ColumnDesc], filter: &Option<Filter>) -> bool
    ensures { result ≡ well_typed columns.now filter.now }
{
    match filter {
        None => true,
        Some(filter) => filter.is_well_typed(columns),
    }
}

/// Whether the request is valid for a table with these columns. Memory is taken for an unknown name alone.
pub(crate) fn check_request(
    alloc: Global,
    columns: &[ColumnDesc],
    request: &ScanRequest,
) -> Result<(), ScanError>
    ensures ok { OnOk result (ValidRequest columns.now request.now) }
    ensures err { IfErr result (IsInvalid columns.now request.now) }
{
    if let Some(name) = unknown_name(columns, request) {
        return match name.try_clone(alloc) {
            Ok(name) => Err(ScanError::InvalidRequest { name }),
            Err(_) => Err(ScanError::OutOfMemory),
        };
    }
    if is_typed(columns, &request.filter) {
        Ok(())
    } else {
        Err(ScanError::MismatchedTypes)
    }
}
