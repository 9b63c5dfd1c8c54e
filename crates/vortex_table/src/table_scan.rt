// The scan of a table.
ghost use Rattle.std.specs.Prelude.{◌≡◌, All, IfErr, IfOk, None, OnOk, map, true};
ghost use Rattle.std.specs.List.{AllZip};
ghost use Rattle.vortex_io.specs.Memory.{MemoryState};
ghost use Rattle.vortex_table_types.specs.Answers.{Answers};
ghost use Rattle.vortex_table.specs.Built.{ChangesNothing, HasCause, is_built};
ghost use Rattle.vortex_table.specs.Fetching.{journals_after};
ghost use Rattle.vortex_table.specs.Given.{contents_of, given, question, rank};
ghost use Rattle.vortex_table.specs.State.{ArrivesInOrder, Stands};
ghost use Rattle.vortex_table_types.specs.Table.{FitsPartition};
ghost use Rattle.vortex_scan_types.specs.Valid.{first_unknown};

use crate::built::keep_of;
use crate::chunk::Chunk;
use crate::errors::ScanError;
use crate::table::Table;
use std::alloc::Global;
use vortex_io::MemorySource;
use vortex_scan_types::{Batch, ScanRequest};

/// The rows of a table that a request chooses, in batches.
///
/// The content of each source has to fit its partition, and each has to complete its oldest fetch when it is waited for. Then an answer has no empty batch, one batch at
/// most for each split, each with the first of the chosen rows there, and together as many rows as the
/// limit allows; where the request wants order the batches stand in the order of the table.
///
/// All chunks are asked for before the first wait, and none of a split without rows. Whatever the answer,
/// the table stays as it was described, and nothing is outstanding at its sources. A refusal by form or by
/// name comes before anything is asked for, and nothing is ever asked for a request with an unknown name, also where
/// memory runs out.
///
/// `steps` bounds no answer of the forms that are built today.
pub fn scan_table(
    alloc: Global,
    table: &mut Table<MemorySource<Chunk>>,
    request: &ScanRequest,
    steps: u64,
) -> Result<Vec<Batch>, ScanError>
    requires arrives { All ArrivesInOrder table.old.sources }
    requires fits { AllZip FitsPartition table.old.partitions (contents_of table.old.sources) }
    ensures rows { IfOk result (λ v. Answers (question table.old request.now) (map given v.items)) }
    ensures roots { IfOk result (λ v. All (λ (b : Batch). b.root.0 ≡ rank request.now b.scope.file_ordinal) v.items) }
    ensures built { OnOk result (is_built table.old.columns table.old.partitions request.now ≡ true) }
    ensures known { OnOk result (first_unknown table.old.columns request.now ≡ None) }
    ensures cause { IfErr result (HasCause table.old.columns table.old.partitions request.now) }
    ensures unfetched { IfErr result (ChangesNothing request.now table.old table.new) }
    ensures fetched { OnOk result (map (λ (s : MemoryState Chunk). s.journal) table.new.sources ≡ journals_after table.old.partitions table.old.sources) }
    ensures columns { table.new.columns ≡ table.old.columns }
    ensures partitions { table.new.partitions ≡ table.old.partitions }
    ensures stands { AllZip Stands table.old.sources table.new.sources }
{
    let _ = steps;
    let keep = match keep_of(alloc, table.columns(), table.partitions(), request) {
        Ok(keep) => keep,
        Err(error) => return Err(error),
    };
    match table.scan_only(alloc, &keep) {
        Ok(batches) => Ok(batches),
        Err(_) => Err(ScanError::OutOfMemory),
    }
}
