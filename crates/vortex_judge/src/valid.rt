// Whether a request is valid for a table's columns.
ghost use Rattle.std.specs.Prelude.{◌≡◌, not, find, is_some, option_copied};
ghost use Rattle.vortex_array_types.specs.Cells.{dtype_of};
ghost use Rattle.vortex_array_types.specs.Typed.{well_typed as is_well_typed};
ghost use Rattle.vortex_scan_types.specs.Valid.{first_unknown as unknown_first, projection_names};

use vortex_array::{ColumnDesc, Filter, Name};
use vortex_array_types::column_type;
use vortex_scan_types::{Projection, ScanRequest};

// The first of the names that no column has.
fn unknown_projected<'a>(columns: &[ColumnDesc], names: &'a [Name]) -> Option<&'a Name>
    ensures { option_copied result ≡ find (λ n. not (is_some (dtype_of columns.now n))) names.now }
{
    let [name, names @ ..] = names else {
        return None;
    };
    if column_type(columns, name.as_str()).is_none() {
        return Some(name);
    }
    unknown_projected(columns, names)
}

/// The first name of the request that no column has: in the projection, else in the filter from left to right.
#[tactic(auto, using(vortex_array_types::proofs::UnknownNames::find_append))]
pub fn first_unknown<'a>(columns: &[ColumnDesc], request: &'a ScanRequest) -> Option<&'a Name>
    ensures { option_copied result ≡ unknown_first columns.now request.now }
{
    let projected = match &request.projection {
        Projection::All => None,
        Projection::Columns(names) => unknown_projected(columns, names.as_slice()),
    };
    match projected {
        Some(name) => Some(name),
        None => match &request.filter {
            Some(filter) => filter.unknown_name(columns),
            None => None,
        },
    }
}

/// Whether the filter meets the type rules, or there is none: two operands that are compared have the same type apart
/// from nullability, a text is matched with a constant text, and a truth value alone is a filter by itself.
pub fn well_typed(columns: &[ColumnDesc], filter: &Option<Filter>) -> bool
    ensures { result ≡ is_well_typed columns.now filter.now }
{
    match filter {
        None => true,
        Some(filter) => filter.is_well_typed(columns),
    }
}
