// The splits of a partition that a request needs.
ghost use Rattle.std.specs.Prelude.{◌≡◌, ◌<◌, ◌^◌, ◌∷◌, ◌++◌, [], IfOk, filter, sum_by, true};
ghost use Rattle.std.specs.List.{list_any};
ghost use Rattle.vortex_scan_types.specs.Members.{in_selection, in_some_range, is_listed as is_in_list, places_of};
ghost use Rattle.vortex_table_types.specs.Chosen.{is_partition_chosen};
ghost use Rattle.vortex_table_types.specs.Table.{split_scopes};
ghost use Rattle.vortex_table_planner.specs.Live.{is_live, numbered};
ghost use Rattle.vortex_table_planner.specs.Planners.{clipped, is_picked};

use std::alloc::{AllocError, Global};
use std::ops::Range;
use vortex_scan_types::{ScanRequest, Selection, WorkScope};
use vortex_table_types::SplitDesc;

/// A split that has a selected row: its number in the partition, and its scope.
pub(crate) struct LiveSplit {
    pub(crate) split: u64,
    pub(crate) scope: WorkScope,
}

impl Drop for LiveSplit {
    fn drop(self) {
        let LiveSplit {
            split: _split,
            scope: _scope,
        } = self;
    }
}

// Whether a place is listed.
fn is_listed(listed: &[u64], place: u64) -> bool
    ensures { result ≡ is_in_list listed.now place }
{
    listed.contains(&place)
}

// Whether a place is selected.
fn is_selected(selection: &Selection, place: u64) -> bool
    ensures { result ≡ in_selection selection.now place }
{
    match selection {
        Selection::All => true,
        Selection::IncludeByIndex(listed) => is_listed(listed.as_slice(), place),
        Selection::ExcludeByIndex(listed) => !is_listed(listed.as_slice(), place),
    }
}

/// Whether a place is in the range, or there is none.
pub(crate) fn is_inside(range: &Option<Range<u64>>, place: u64) -> bool
    ensures { result ≡ in_some_range range.now place }
{
    match range {
        None => true,
        Some(range) => range.start <= place && place < range.end,
    }
}

// Whether a partition is chosen.
fn is_chosen(request: &ScanRequest, index: u64) -> bool
    ensures { result ≡ is_partition_chosen request.now index }
{
    is_selected(&request.partition_selection, index) && is_inside(&request.partition_range, index)
}

// The rows that lie in the range too.
fn clip(range: &Option<Range<u64>>, rows: &Range<u64>) -> Range<u64>
    ensures { result ≡ clipped range.now rows.now }
{
    match range {
        None => rows.start..rows.end,
        Some(range) => rows.start.max(range.start)..rows.end.min(range.end),
    }
}

// Whether some of the rows is selected.
fn has_selected(range: &Option<Range<u64>>, selection: &Selection, rows: &Range<u64>) -> bool
    ensures { result ≡ list_any (is_picked range.now selection.now) (places_of rows.now) }
{
    selection.row_count_in_range(&clip(range, rows)) > 0
}

// Adds a split of a chosen partition where it is live.
#[tactic(auto, using(crate::proofs::Ranges::chosen_live))]
fn add_if_live(
    live: &mut Vec<LiveSplit>,
    request: &ScanRequest,
    split: LiveSplit,
) -> Result<(), AllocError>
    requires { is_partition_chosen request.now split.scope.file_ordinal ≡ true }
    ensures { IfOk result (λ _. live.new.items ≡ live.old.items ++ filter (λ live. is_live request.now live.scope) (split ∷ [])) }
{
    if has_selected(&request.row_range, &request.selection, &split.scope.rows) {
        live.push(split)?;
    }
    Ok(())
}

/// The live splits of a partition, in order.
pub(crate) fn live_splits(
    alloc: Global,
    splits: &[SplitDesc],
    index: u64,
    request: &ScanRequest,
) -> Result<Vec<LiveSplit>, AllocError>
    requires { sum_by (λ split. split.rows) splits.now < 2 ^ 64 }
    ensures { IfOk result (λ v. v.items ≡ filter (λ live. is_live request.now live.scope) (numbered 0 (split_scopes index 0 splits.now))) }
{
    let mut live = Vec::new(alloc);
    if !is_chosen(request, index) {
        return Ok(live);
    }
    let mut start = 0u64;
    for split in 0..splits.len() {
        let end = start + splits[split].rows;
        let scope = WorkScope {
            file_ordinal: index,
            rows: start..end,
        };
        add_if_live(
            &mut live,
            request,
            LiveSplit {
                split: split as u64,
                scope,
            },
        )?;
        start = end;
    }
    Ok(live)
}
