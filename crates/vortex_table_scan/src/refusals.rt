// Why a run of a scan fails, as a refusal of the scan.
ghost use Rattle.std.specs.Prelude.{◌≡◌};
ghost use Rattle.vortex_table_scan.specs.Refusals.{IsNamed, IsRefusal};

use crate::errors::ScanError;
use crate::partitions::partition_at;
use vortex_scan::RunError;
use vortex_scan_types::ScanRequest;
use vortex_table_planner::PlanError;

/// The refusal that a failure of the run is, of so many partitions: what happened to a root happened to its partition.
pub(crate) fn scan_error(
    request: &ScanRequest,
    partitions: u64,
    error: RunError<PlanError>,
) -> ScanError
    requires { IsNamed request.now partitions error }
    ensures { IsRefusal request.now partitions error result }
{
    match error {
        RunError::Source(root) => ScanError::Source {
            partition: partition_at(request, partitions, root.0),
        },
        RunError::Protocol {
            root,
            owner,
            request: number,
        } => ScanError::Protocol {
            partition: partition_at(request, partitions, root.0),
            owner,
            request: number,
        },
        RunError::Planner(root, PlanError::ChunkMismatch { split, column }) => {
            ScanError::ChunkMismatch {
                partition: partition_at(request, partitions, root.0),
                split,
                column,
            }
        }
        RunError::Planner(_, PlanError::OutOfMemory) => ScanError::OutOfMemory,
        RunError::StepLimit => ScanError::StepLimit,
        RunError::OutOfMemory => ScanError::OutOfMemory,
        _ => unreachable!(),
    }
}
