// Tables: a description, and a source for each partition.
ghost use Rattle.std.specs.Prelude.{◌≡◌, ◌<◌, ◌≤◌, OnOk, true, map, All, [], IfErr, IfOk, Some, length, option_map, slice_get};
ghost use Rattle.std.specs.List.{AllZip};
ghost use Rattle.vortex_table_types.specs.Described.{IsDescribed, Refuses, steps_of};
ghost use Rattle.vortex_io.specs.Memory.{MemoryState};
ghost use Rattle.vortex_table.specs.Built.{is_one_u64};
ghost use Rattle.vortex_table.specs.Fetching.{journals_after};
ghost use Rattle.vortex_table.specs.Given.{contents_of, given};
ghost use Rattle.vortex_table.specs.Scanning.{AreOfFirstRoot, table_batches};
ghost use Rattle.vortex_table.specs.State.{ArrivesInOrder, IsCleared, Stands};
ghost use Rattle.vortex_table_types.specs.Table.{FitsPartition};

use crate::built::Comparison;
use crate::chunk::Chunk;
use crate::partition::scan_sources;
use std::alloc::{AllocError, Global};
use std::marker::Model;
use vortex_array::ColumnDesc;
use vortex_io::{IoSource, MemorySource};
use vortex_scan_types::Batch;
use vortex_table_types::{PartitionDesc, SplitDesc, TableError, count_steps, refusal};

/// A refusal, with the sources as they were handed in.
#[derive(Drop)]
pub struct TableRefused<S: IoSource<Payload = Chunk>> {
    pub sources: Vec<S>,
    pub error: TableError,
}

/// A table: columns, partitions cut into splits, and a source for each partition, which has a chunk for
/// each split and each column. Contracts see its description and its sources.
pub struct Table<S: IoSource<Payload = Chunk>> {
    columns: Vec<ColumnDesc>,
    partitions: Vec<PartitionDesc>,
    sources: Vec<S>,
}

impl<S: IoSource<Payload = Chunk> + Drop> Drop for Table<S> {
    fn drop(self) {
        let Table {
            columns: _columns,
            partitions: _partitions,
            sources: _sources,
        } = self;
    }
}

impl<S: IoSource<Payload = Chunk>> Model for Table<S> {
    ghost use Rattle.vortex_table.specs.State.{TableState};
    ghost use Rattle.vortex_table_types.specs.Described.{IsTable};

    ghost Value = { TableState S };

    ghost view = { λ t. record { columns = t.columns.items; partitions = t.partitions.items; sources = t.sources.items } };

    ghost invariant = { λ t. IsTable S.outstanding t.columns.items t.partitions.items t.sources.items };
}

// Gives up what is outstanding at each source.
fn clear_all<S: IoSource<Payload = Chunk>>(sources: &mut Vec<S>)
    ensures { AllZip (IsCleared S.outstanding S.content S.journal S.faults S.clears) sources.old.items sources.new.items }
{
    for source in sources.iter_mut() {
        source.clear();
    }
}

impl<S: IoSource<Payload = Chunk>> Table<S> {
    /// A table of these columns, partitions and sources, one source for each partition. What is outstanding
    /// at a source is given up. On a refusal the sources come back untouched.
    pub fn try_new(
        alloc: Global,
        columns: Vec<ColumnDesc>,
        partitions: Vec<PartitionDesc>,
        sources: Vec<S>,
    ) -> Result<Table<S>, TableRefused<S>>
        ensures columns { IfOk result (λ table. table.columns ≡ columns.items) }
        ensures partitions { IfOk result (λ table. table.partitions ≡ partitions.items) }
        ensures sources { IfOk result (λ table. AllZip (IsCleared S.outstanding S.content S.journal S.faults S.clears) sources.items table.sources) }
        ensures described { IfOk result (λ _. IsDescribed columns.items partitions.items (length sources.items)) }
        ensures cause { IfErr result (λ refused. Refuses columns.items partitions.items (length sources.items) refused.error) }
        ensures untouched { IfErr result (λ refused. refused.sources ≡ sources) }
    {
        let _ = alloc;
        let count = sources.as_slice().len();
        match refusal(columns.as_slice(), partitions.as_slice(), count) {
            Some(error) => Err(TableRefused { sources, error }),
            None => {
                let mut sources = sources;
                clear_all(&mut sources);
                Ok(Table {
                    columns,
                    partitions,
                    sources,
                })
            }
        }
    }

    /// The columns.
    pub fn columns(&self) -> &[ColumnDesc]
        ensures { result.now ≡ self.now.columns }
    {
        self.columns.as_slice()
    }

    /// The partitions, as they were described.
    pub fn partitions(&self) -> &[PartitionDesc]
        ensures value { result.now ≡ self.now.partitions }
        ensures idle { All (λ source. S.outstanding source ≡ []) self.now.sources }
    {
        self.partitions.as_slice()
    }

    /// How many partitions there are.
    pub fn partition_count(&self) -> usize
        ensures { result ≡ length self.now.partitions }
    {
        self.partitions.len()
    }

    /// The splits of a partition, as they were described.
    pub fn splits(&self, index: usize) -> &[SplitDesc]
        requires { index < length self.now.partitions }
        ensures { option_map (λ partition. partition.splits) (slice_get self.now.partitions index) ≡ Some result.now }
    {
        self.partitions[index].splits.as_slice()
    }

    /// The source of a partition.
    pub fn source(&self, index: usize) -> &S
        requires { index < length self.now.partitions }
        ensures { slice_get self.now.sources index ≡ Some result.now }
    {
        &self.sources[index]
    }

    /// How many steps are enough for any scan: six for each split and two for each partition.
    pub fn enough_steps(&self) -> u64
        ensures { result ≡ steps_of self.now.partitions }
    {
        match count_steps(self.partitions.as_slice()) {
            Some(steps) => steps,
            None => unreachable!(),
        }
    }
}

impl Table<MemorySource<Chunk>> {
    /// Scans the only partition, if there is one.
    pub(crate) fn scan_only(
        &mut self,
        alloc: Global,
        keep: &Option<Comparison>,
    ) -> Result<Vec<Batch>, AllocError>
        requires one { length self.old.partitions ≤ 1 }
        requires column { is_one_u64 self.old.columns ≡ true }
        requires arrives { All ArrivesInOrder self.old.sources }
        requires fits { AllZip FitsPartition self.old.partitions (contents_of self.old.sources) }
        ensures described { IsDescribed self.old.columns self.old.partitions (length self.old.sources) }
        ensures columns { self.new.columns ≡ self.old.columns }
        ensures partitions { self.new.partitions ≡ self.old.partitions }
        ensures batches { IfOk result (λ v. map given v.items ≡ table_batches keep.now self.old.partitions self.old.sources) }
        ensures roots { IfOk result (λ v. AreOfFirstRoot v.items) }
        ensures fetched { OnOk result (map (λ (s : MemoryState Chunk). s.journal) self.new.sources ≡ journals_after self.old.partitions self.old.sources) }
        ensures stands { AllZip Stands self.old.sources self.new.sources }
    {
        scan_sources(alloc, self.partitions.as_slice(), &mut self.sources, keep)
    }
}
