// The scan of a table.
ghost use Rattle.std.specs.Prelude.{◌≡◌, ◌≤◌, ℕ, List, IfErr, IfOk, OnOk, map};
ghost use Rattle.vortex_io.specs.Source.{Content};
ghost use Rattle.vortex_scan_types.specs.Valid.{ValidRequest};
ghost use Rattle.vortex_table_chunks.specs.declared.chunk.Chunk.{Chunk as Held};
ghost use Rattle.vortex_table_scan.specs.Causes.{HasCause, IsAnswered};
ghost use Rattle.vortex_table_scan.specs.Given.{ArePlain, AreRanked, given};
ghost use Rattle.vortex_table_scan.specs.Journals.{KeepJournals};
ghost use Rattle.vortex_table_scan.specs.Over.{AreBack, AreHonest, NoneFails, SurelyStand, question};
ghost use Rattle.vortex_table_types.specs.Answers.{Answers};
ghost use Rattle.vortex_table_types.specs.Described.{steps_of};

use crate::check::check_request;
use crate::errors::ScanError;
use crate::table::Table;
use std::alloc::Global;
use vortex_io::IoSource;
use vortex_scan_types::{Batch, ScanRequest};
use vortex_table_chunks::Chunk;

/// The rows of a table that a request chooses, in batches.
///
/// Over honest sources, each of which tells chunks as they are described, an answer has no empty batch and one batch at most for each split, each with the first of
/// the chosen rows there, and together as many rows as the limit allows; where the request wants order the batches stand in the order of the table, and joined are
/// the first chosen rows. Over any sources, a batch is of the root with its partition's rank among the chosen ones, and has plain columns.
///
/// A request with an unknown name, or whose filter breaks a type rule, is refused before anything is asked for, whatever the limit. Each other refusal has its cause;
/// with a valid request, honest sources that do not fail and `enough_steps`, want of memory is the only one.
///
/// Whatever the answer, the description stands, and every source is in its place with nothing outstanding. No chunk is fetched twice, none that the request does not
/// need, and something of each split that it needs before the first wait.
pub fn scan_table<S: IoSource<Payload = Chunk>>(
    alloc: Global,
    table: &mut Table<S>,
    request: &ScanRequest,
    steps: u64,
) -> Result<Vec<Batch>, ScanError>
    ensures rows { IfOk result (λ v. (told : List (Content Held)) → AreHonest S.IoSource table.old.partitions told table.old.sources table.new.sources
        → Answers (question table.old told request.now) (map given v.items)) }
    ensures roots { IfOk result (λ v. AreRanked request.now v.items) }
    ensures plain { IfOk result (λ v. ArePlain v.items) }
    ensures valid { OnOk result (ValidRequest table.old.columns request.now) }
    ensures cause { IfErr result (HasCause S.IoSource request.now steps table.old table.new) }
    ensures unfetched { ¬ ValidRequest table.old.columns request.now → table.new ≡ table.old }
    ensures complete { (told : List (Content Held)) → ValidRequest table.old.columns request.now → AreHonest S.IoSource table.old.partitions told table.old.sources table.new.sources
        → NoneFails S.IoSource table.old.sources table.new.sources → steps_of table.old.partitions ≤ steps → IsAnswered result }
    ensures sources { AreBack S.IoSource table.old.sources table.new.sources }
    ensures sure { SurelyStand S.IoSource table.old.partitions table.old.sources table.new.sources }
    ensures journals { KeepJournals S.IoSource request.now table.old table.new }
    ensures columns { table.new.columns ≡ table.old.columns }
    ensures partitions { table.new.partitions ≡ table.old.partitions }
{
    match check_request(alloc, table.columns(), request) {
        Ok(()) => table.scan(alloc, request, steps),
        Err(error) => Err(error),
    }
}
