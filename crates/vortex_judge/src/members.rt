// Which places selections and ranges hold.
ghost use Rattle.std.specs.Prelude.{◌≡◌};
ghost use Rattle.vortex_scan_types.specs.Members.{in_selection, in_some_range, is_listed};
ghost use Rattle.vortex_table_types.specs.Chosen.{is_partition_chosen as is_chosen_partition, is_selected as is_selected_row};

use std::ops::Range;
use vortex_scan_types::{ScanRequest, Selection};

/// Whether the selection holds the place.
pub fn holds(selection: &Selection, place: u64) -> bool
    ensures { result ≡ in_selection selection.now place }
{
    match selection {
        Selection::All => true,
        Selection::IncludeByIndex(listed) => lists(listed.as_slice(), place),
        Selection::ExcludeByIndex(listed) => !lists(listed.as_slice(), place),
    }
}

// Whether the place is in the list.
fn lists(listed: &[u64], place: u64) -> bool
    ensures { result ≡ is_listed listed.now place }
{
    listed.iter().any(|x| *x == place)
}

// Whether the range holds the place, where there is one.
fn reaches(range: &Option<Range<u64>>, place: u64) -> bool
    ensures { result ≡ in_some_range range.now place }
{
    match range {
        None => true,
        Some(range) => range.start <= place && place < range.end,
    }
}

/// Whether the partition with this number is chosen.
pub fn is_partition_chosen(request: &ScanRequest, partition: u64) -> bool
    ensures { result ≡ is_chosen_partition request.now partition }
{
    holds(&request.partition_selection, partition) && reaches(&request.partition_range, partition)
}

/// Whether the row with this number in the partition is selected, by the ranges and the selections of both.
pub fn is_selected(request: &ScanRequest, partition: u64, row: u64) -> bool
    ensures { result ≡ is_selected_row request.now partition row }
{
    is_partition_chosen(request, partition)
        && reaches(&request.row_range, row)
        && holds(&request.selection, row)
}
