// The roots of a scan: the planners of the chosen partitions, admitted in order, each over its source.
ghost use Rattle.std.specs.Prelude.{◌≡◌, ◌≤◌, ◌<◌, ◌+◌, ◌∷◌, ◌++◌, [], ℕ, All, IfOk, IfErr, Some, filter, length, slice_get, vec_capacity, vec_len};
ghost use Rattle.std.specs.List.{range_with_len};
ghost use Rattle.vortex_scan_types.specs.Valid.{ValidRequest};
ghost use Rattle.vortex_table_scan.specs.Admitting.{IsAdmitted, IsPlaced, root_scope};
ghost use Rattle.vortex_table_scan.specs.Parted.{is_admitted as is_admitted_partition, is_left, picked};
ghost use Rattle.vortex_table_scan.specs.Planned.{IsPlannerAt};
ghost use Rattle.vortex_table_types.specs.Described.{IsDescribed};

use crate::put_back::is_admitted;
use std::alloc::Global;
use vortex_array::ColumnDesc;
use vortex_io::IoSource;
use vortex_scan::{Run, next_fn};
use vortex_scan_types::{ScanRequest, WorkScope};
use vortex_table_chunks::Chunk;
use vortex_table_planner::{PlanError, TablePlanner};
use vortex_table_types::PartitionDesc;

// The scope of a partition's root: no rows.
fn root_scope(partition: u64) -> WorkScope
    ensures { result ≡ root_scope partition }
{
    WorkScope {
        file_ordinal: partition,
        rows: 0..0,
    }
}

// A planner of a partition.
fn make_planner(
    alloc: Global,
    columns: &[ColumnDesc],
    partitions: &[PartitionDesc],
    request: &ScanRequest,
    partition: u64,
) -> Result<TablePlanner, PlanError>
    requires within { partition < length partitions.now }
    requires described { IsDescribed columns.now partitions.now (length partitions.now) }
    requires valid { ValidRequest columns.now request.now }
    ensures { IfOk result (IsPlannerAt columns.now partitions.now request.now partition) }
{
    let described = &partitions[partition as usize];
    match TablePlanner::try_new(alloc, columns, described, partition, request) {
        Ok(planner) => Ok(planner),
        Err(error) => Err(PlanError::from(error)),
    }
}

// A planner of a partition, by a stored closure.
fn planner_of(
    alloc: Global,
    columns: &[ColumnDesc],
    partitions: &[PartitionDesc],
    request: &ScanRequest,
    partition: u64,
) -> Result<TablePlanner, PlanError>
    requires within { partition < length partitions.now }
    requires described { IsDescribed columns.now partitions.now (length partitions.now) }
    requires valid { ValidRequest columns.now request.now }
    ensures { IfOk result (IsPlannerAt columns.now partitions.now request.now partition) }
{
    let next = next_fn(
        |number: u64|
            requires { (number < length partitions.now) × IsDescribed columns.now partitions.now (length partitions.now) × ValidRequest columns.now request.now }
        { make_planner(alloc, columns, partitions, request, number) },
    );
    next.call(partition)
}

// Admits the root of a partition over its source, which comes back where memory is wanting.
fn admit_one<S: IoSource<Payload = Chunk>>(
    alloc: Global,
    run: &mut Run<TablePlanner, S>,
    columns: &[ColumnDesc],
    partitions: &[PartitionDesc],
    request: &ScanRequest,
    partition: u64,
    source: S,
) -> Result<(), S>
    requires idle { S.outstanding source ≡ [] }
    requires within { partition < length partitions.now }
    requires described { IsDescribed columns.now partitions.now (length partitions.now) }
    requires valid { ValidRequest columns.now request.now }
    ensures ok { IfOk result (λ _. IsAdmitted columns.now partitions.now request.now run.old (partition ∷ []) (source ∷ []) run.new) }
    ensures err { IfErr result (λ back. (back ≡ source) × (run.new ≡ run.old)) }
{
    match planner_of(alloc, columns, partitions, request, partition) {
        Ok(planner) => match run.admit(planner, root_scope(partition), source) {
            Ok(_id) => Ok(()),
            Err(refused) => Err(refused.source),
        },
        Err(_) => Err(source),
    }
}

// Admits the root of a partition over its source, if it is one to be admitted. The source joins the others where it is not, and where memory is wanting, which is
// where admission stops then. There is room.
fn place_one<S: IoSource<Payload = Chunk>>(
    alloc: Global,
    run: &mut Run<TablePlanner, S>,
    columns: &[ColumnDesc],
    partitions: &[PartitionDesc],
    request: &ScanRequest,
    stopped: Option<u64>,
    partition: u64,
    source: S,
    others: &mut Vec<S>,
) -> Option<u64>
    requires idle { S.outstanding source ≡ [] }
    requires room { length others.old.items < vec_capacity others.old }
    requires within { partition < length partitions.now }
    requires described { IsDescribed columns.now partitions.now (length partitions.now) }
    requires valid { ValidRequest columns.now request.now }
    ensures placed { IsPlaced columns.now partitions.now request.now partition source stopped result run.old run.new others.old.items others.new.items }
    ensures room { vec_capacity others.new ≡ vec_capacity others.old }
{
    if !is_admitted(request, stopped, partition) {
        others.push_reserved(source);
        return stopped;
    }
    match admit_one(alloc, run, columns, partitions, request, partition, source) {
        Ok(()) => stopped,
        Err(source) => {
            others.push_reserved(source);
            Some(partition)
        }
    }
}

/// Admits the roots of the chosen partitions in order, each over its source, until memory is wanting: the answer is the partition at which it stopped. The
/// sources of all other partitions join the others, for which there is room.
pub(crate) fn admit_all<S: IoSource<Payload = Chunk>>(
    alloc: Global,
    run: &mut Run<TablePlanner, S>,
    columns: &[ColumnDesc],
    partitions: &[PartitionDesc],
    request: &ScanRequest,
    sources: Vec<S>,
    others: &mut Vec<S>,
) -> Option<u64>
    requires idle { All (λ source. S.outstanding source ≡ []) sources.items }
    requires none { others.old.items ≡ [] }
    requires room { vec_len sources ≤ vec_capacity others.old }
    requires described { IsDescribed columns.now partitions.now (length sources.items) }
    requires valid { ValidRequest columns.now request.now }
    ensures admitted { IsAdmitted columns.now partitions.now request.now run.old (filter (is_admitted_partition request.now result) (range_with_len 0 (length sources.items))) (picked (is_admitted_partition request.now result) 0 sources.items) run.new }
    ensures others { others.new.items ≡ picked (is_left request.now result) 0 sources.items }
{
    let mut stopped = None;
    let mut partition: u64 = 0;
    'sources: for source in sources {
        stopped = place_one(
            alloc, run, columns, partitions, request, stopped, partition, source, others,
        );
        partition += 1;
    }
    stopped
}
