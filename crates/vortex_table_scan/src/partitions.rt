// Which partitions a request chooses, and the partition of a root.
ghost use Rattle.std.specs.Prelude.{◌≡◌, ◌<◌, true};
ghost use Rattle.vortex_scan_types.specs.Members.{in_selection, in_some_range};
ghost use Rattle.vortex_table_scan.specs.Given.{rank};
ghost use Rattle.vortex_table_types.specs.Chosen.{is_partition_chosen as is_chosen_partition};

use std::ops::Range;
use vortex_scan_types::{ScanRequest, Selection};

// Whether a place is selected.
fn is_selected(selection: &Selection, place: u64) -> bool
    ensures { result ≡ in_selection selection.now place }
{
    match selection {
        Selection::All => true,
        Selection::IncludeByIndex(listed) => listed.as_slice().contains(&place),
        Selection::ExcludeByIndex(listed) => !listed.as_slice().contains(&place),
    }
}

// Whether a place is in the range, or there is none.
fn is_inside(range: &Option<Range<u64>>, place: u64) -> bool
    ensures { result ≡ in_some_range range.now place }
{
    match range {
        None => true,
        Some(range) => range.start <= place && place < range.end,
    }
}

/// Whether the request chooses a partition.
pub(crate) fn is_partition_chosen(request: &ScanRequest, partition: u64) -> bool
    ensures { result ≡ is_chosen_partition request.now partition }
{
    is_selected(&request.partition_selection, partition)
        && is_inside(&request.partition_range, partition)
}

/// The chosen partition with this rank, of so many partitions.
pub(crate) fn partition_at(request: &ScanRequest, partitions: u64, root: u64) -> u64
    requires { root < rank request.now partitions }
    ensures within { result < partitions }
    ensures chosen { is_chosen_partition request.now result ≡ true }
    ensures ranked { rank request.now result ≡ root }
{
    let mut left = root;
    'partitions: for partition in 0..partitions {
        if is_partition_chosen(request, partition) {
            if left == 0 {
                return partition;
            }
            left -= 1;
        }
    }
    unreachable!()
}
