// The listed places of a range, found by search in a list that ascends.
ghost use Rattle.std.specs.Prelude.{◌≡◌, ◌+◌, ◌-◌, ◌^◌, ◌<◌, ◌≤◌, if◌then◌else◌, count_by, filter, length, nat_lt};
ghost use Rattle.std.specs.List.{prefix_len};
ghost use Rattle.std.specs.Ordering.{nat_cmp};
ghost use Rattle.vortex_scan_types.specs.Members.{in_range, is_listed, places_of};
ghost use Rattle.vortex_scan_types.specs.Sorted.{Increases};

use std::ops::Range;

// How many places a range has.
pub(crate) fn places_in(range: &Range<u64>) -> u64
    ensures { result ≡ length (places_of range.now) }
{
    range.end.saturating_sub(range.start)
}

// Where the mask of a range begins, by the range's bounds: at its start, or at 0 where the range has no place.
pub(crate) fn mask_start(start: u64, end: u64) -> u64
    ensures offset { result ≡ (if nat_lt start end then start else 0) }
    ensures fits { result + (end - start) < 2 ^ 64 }
{
    if start < end { start } else { 0 }
}

// How many of the listed places lie below a bound: all that stand before the first that does not.
fn listed_below(listed: &[u64], bound: u64) -> usize
    requires { Increases nat_cmp listed.now }
    ensures place { result ≡ prefix_len (λ place. nat_lt place bound) listed.now }
    ensures within { result ≤ length listed.now }
{
    listed.partition_point(|place| *place < bound)
}

// The listed places of a range, which stand side by side in the list.
pub(crate) fn listed_within<'a>(listed: &'a [u64], range: &Range<u64>) -> &'a [u64]
    requires { Increases nat_cmp listed.now }
    ensures { result.now ≡ filter (in_range range.now) listed.now }
{
    let first = listed_below(listed, range.start);
    let end = listed_below(listed, range.end);
    &listed[first..end.max(first)]
}

// How many places of a range are listed.
pub(crate) fn listed_count(listed: &[u64], range: &Range<u64>) -> u64
    requires { Increases nat_cmp listed.now }
    ensures { result ≡ count_by (λ place. is_listed listed.now place) (places_of range.now) }
{
    listed_within(listed, range).len() as u64
}
