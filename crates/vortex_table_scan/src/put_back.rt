// Sources that are put back in their places.
ghost use Rattle.std.specs.Prelude.{◌≡◌, ◌≤◌, [], length, vec_capacity};
ghost use Rattle.std.specs.List.{range_with_len};
ghost use Rattle.vortex_table_scan.specs.Parted.{is_admitted as is_admitted_partition, is_left, picked};

use crate::partitions::is_partition_chosen;
use vortex_scan_types::ScanRequest;

/// Whether a partition's source is admitted: it is chosen, and stands before the partition at which admission stopped, if it did.
pub(crate) fn is_admitted(request: &ScanRequest, stopped: Option<u64>, partition: u64) -> bool
    ensures { result ≡ is_admitted_partition request.now stopped partition }
{
    match stopped {
        None => is_partition_chosen(request, partition),
        Some(stopped) => partition < stopped && is_partition_chosen(request, partition),
    }
}

/// The sources in the order of their partitions: those of the admitted ones and the others, each in order. There is room.
pub(crate) fn put_back<S: Drop>(
    home: Vec<S>,
    request: &ScanRequest,
    stopped: Option<u64>,
    partitions: u64,
    admitted: Vec<S>,
    others: Vec<S>,
) -> Vec<S>
    requires none { home.items ≡ [] }
    requires room { partitions ≤ vec_capacity home }
    requires admitted { length admitted.items ≡ length (picked (is_admitted_partition request.now stopped) 0 (range_with_len 0 partitions)) }
    requires others { length others.items ≡ length (picked (is_left request.now stopped) 0 (range_with_len 0 partitions)) }
    ensures length { length result.items ≡ partitions }
    ensures admitted { picked (is_admitted_partition request.now stopped) 0 result.items ≡ admitted.items }
    ensures others { picked (is_left request.now stopped) 0 result.items ≡ others.items }
{
    let mut home = home;
    let mut admitted = admitted.into_iter();
    let mut others = others.into_iter();
    'partitions: for partition in 0..partitions {
        let next = if is_admitted(request, stopped, partition) {
            admitted.next()
        } else {
            others.next()
        };
        match next {
            Some(source) => home.push_reserved(source),
            None => unreachable!(),
        }
    }
    home
}
