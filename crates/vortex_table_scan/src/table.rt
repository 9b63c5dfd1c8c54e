// Tables: a description, and a source for each partition.
ghost use Rattle.std.specs.Prelude.{◌≡◌, ◌<◌, ◌^◌, All, IfErr, IfOk, Some, [], List, length, map, option_map, slice_get, sum_by};
ghost use Rattle.vortex_io.specs.Source.{Content};
ghost use Rattle.vortex_scan.specs.Sources.{Clears};
ghost use Rattle.vortex_scan_types.specs.Valid.{ValidRequest};
ghost use Rattle.vortex_table_chunks.specs.declared.chunk.Chunk.{Chunk as Held};
ghost use Rattle.vortex_table_scan.specs.Causes.{HasCause};
ghost use Rattle.vortex_table_scan.specs.Given.{ArePlain, AreRanked, given};
ghost use Rattle.vortex_table_scan.specs.Journals.{KeepJournals};
ghost use Rattle.vortex_table_scan.specs.Over.{AreBack, AreCleared, AreHonest, SurelyStand, question};
ghost use Rattle.vortex_table_types.specs.Answers.{Answers};
ghost use Rattle.vortex_table_types.specs.Described.{IsDescribed, Refuses, rows_of, steps_of, total_rows};

use crate::errors::ScanError;
use crate::info::PartitionInfo;
use crate::scan::{Scanned, scan_sources};
use std::alloc::Global;
use std::marker::Model;
use vortex_array::ColumnDesc;
use vortex_io::IoSource;
use vortex_scan_types::{Batch, DataSource, DataSourceScan, Precision, ScanRequest};
use vortex_table_chunks::Chunk;
use vortex_table_types::{PartitionDesc, SplitDesc, TableError, count_steps, refusal};

/// A refusal, with the sources as they were handed in.
#[derive(Drop)]
pub struct TableRefused<S: IoSource<Payload = Chunk>> {
    pub sources: Vec<S>,
    pub error: TableError,
}

/// A table: columns, partitions cut into splits, and a source for each partition, which has a chunk for
/// each split and each column. Contracts see its description and its sources.
pub struct Table<S: IoSource<Payload = Chunk>> {
    columns: Vec<ColumnDesc>,
    partitions: Vec<PartitionDesc>,
    sources: Vec<S>,
}

impl<S: IoSource<Payload = Chunk>> Drop for Table<S> {
    fn drop(self) {
        let Table {
            columns: _columns,
            partitions: _partitions,
            sources: _sources,
        } = self;
    }
}

impl<S: IoSource<Payload = Chunk>> Model for Table<S> {
    ghost use Rattle.vortex_table_scan.specs.State.{TableState};
    ghost use Rattle.vortex_table_types.specs.Described.{IsTable};

    ghost Value = { TableState S };

    ghost view = { λ t. record { columns = t.columns.items; partitions = t.partitions.items; sources = t.sources.items } };

    ghost invariant = { λ t. IsTable S.outstanding t.columns.items t.partitions.items t.sources.items };
}

// Gives up what is outstanding at a source.
fn clear<S: IoSource<Payload = Chunk>>(source: &mut S)
    ensures { Clears S.IoSource source.old source.new }
{
    source.clear();
}

// Gives up what is outstanding at each source.
fn clear_all<S: IoSource<Payload = Chunk>>(sources: &mut Vec<S>)
    ensures { AreCleared S.IoSource sources.old.items sources.new.items }
{
    for source in sources.iter_mut() {
        clear(source);
    }
}

// How many rows splits have together.
fn split_rows(splits: &[SplitDesc]) -> u64
    requires { sum_by (λ split. split.rows) splits.now < 2 ^ 64 }
    ensures { result ≡ sum_by (λ split. split.rows) splits.now }
{
    let mut rows: u64 = 0;
    for split in splits {
        rows += split.rows;
    }
    rows
}

// How many rows partitions have together.
fn partition_rows(partitions: &[PartitionDesc]) -> u64
    requires { total_rows partitions.now < 2 ^ 64 }
    ensures { result ≡ total_rows partitions.now }
{
    let mut rows: u64 = 0;
    for partition in partitions {
        rows += split_rows(partition.splits.as_slice());
    }
    rows
}

impl<S: IoSource<Payload = Chunk>> Table<S> {
    /// A table of these columns, partitions and sources, one source for each partition. What is outstanding
    /// at a source is given up. On a refusal the sources come back untouched.
    pub fn try_new(
        alloc: Global,
        columns: Vec<ColumnDesc>,
        partitions: Vec<PartitionDesc>,
        sources: Vec<S>,
    ) -> Result<Table<S>, TableRefused<S>>
        ensures columns { IfOk result (λ table. table.columns ≡ columns.items) }
        ensures partitions { IfOk result (λ table. table.partitions ≡ partitions.items) }
        ensures sources { IfOk result (λ table. AreCleared S.IoSource sources.items table.sources) }
        ensures described { IfOk result (λ _. IsDescribed columns.items partitions.items (length sources.items)) }
        ensures cause { IfErr result (λ refused. Refuses columns.items partitions.items (length sources.items) refused.error) }
        ensures untouched { IfErr result (λ refused. refused.sources ≡ sources) }
    {
        let _ = alloc;
        let count = sources.as_slice().len();
        match refusal(columns.as_slice(), partitions.as_slice(), count) {
            Some(error) => Err(TableRefused { sources, error }),
            None => {
                let mut sources = sources;
                clear_all(&mut sources);
                Ok(Table {
                    columns,
                    partitions,
                    sources,
                })
            }
        }
    }

    /// The columns.
    pub fn columns(&self) -> &[ColumnDesc]
        ensures value { result.now ≡ self.now.columns }
        ensures described { IsDescribed self.now.columns self.now.partitions (length self.now.sources) }
        ensures idle { All (λ source. S.outstanding source ≡ []) self.now.sources }
    {
        self.columns.as_slice()
    }

    /// The partitions, as they were described.
    pub fn partitions(&self) -> &[PartitionDesc]
        ensures value { result.now ≡ self.now.partitions }
        ensures idle { All (λ source. S.outstanding source ≡ []) self.now.sources }
    {
        self.partitions.as_slice()
    }

    /// How many partitions there are.
    pub fn partition_count(&self) -> usize
        ensures { result ≡ length self.now.partitions }
    {
        self.partitions.len()
    }

    /// A partition by its number: the number, and how many rows it has.
    pub fn partition(&self, index: usize) -> PartitionInfo
        requires { index < length self.now.partitions }
        ensures index { result.index ≡ index }
        ensures rows { option_map rows_of (slice_get self.now.partitions index) ≡ Some result.rows }
    {
        let partition = &self.partitions[index];
        PartitionInfo {
            index: index as u64,
            rows: split_rows(partition.splits.as_slice()),
        }
    }

    /// The splits of a partition, as they were described.
    pub fn splits(&self, index: usize) -> &[SplitDesc]
        requires { index < length self.now.partitions }
        ensures { option_map (λ partition. partition.splits) (slice_get self.now.partitions index) ≡ Some result.now }
    {
        self.partitions[index].splits.as_slice()
    }

    /// The source of a partition.
    pub fn source(&self, index: usize) -> &S
        requires { index < length self.now.partitions }
        ensures { slice_get self.now.sources index ≡ Some result.now }
    {
        &self.sources[index]
    }

    /// How many steps are enough for any scan: six for each split and two for each partition.
    pub fn enough_steps(&self) -> u64
        ensures { result ≡ steps_of self.now.partitions }
    {
        match count_steps(self.partitions.as_slice()) {
            Some(steps) => steps,
            None => unreachable!(),
        }
    }

    // How many rows there are.
    fn rows(&self) -> u64
        ensures { result ≡ total_rows self.now.partitions }
    {
        partition_rows(self.partitions.as_slice())
    }

    /// Scans the sources for a request that is valid.
    pub(crate) fn scan(
        &mut self,
        alloc: Global,
        request: &ScanRequest,
        steps: u64,
    ) -> Result<Vec<Batch>, ScanError>
        requires { ValidRequest self.old.columns request.now }
        ensures rows { IfOk result (λ v. (told : List (Content Held)) → AreHonest S.IoSource self.old.partitions told self.old.sources self.new.sources → Answers (question self.old told request.now) (map given v.items)) }
        ensures roots { IfOk result (λ v. AreRanked request.now v.items) }
        ensures plain { IfOk result (λ v. ArePlain v.items) }
        ensures cause { IfErr result (HasCause S.IoSource request.now steps self.old self.new) }
        ensures sources { AreBack S.IoSource self.old.sources self.new.sources }
        ensures sure { SurelyStand S.IoSource self.old.partitions self.old.sources self.new.sources }
        ensures journals { KeepJournals S.IoSource request.now self.old self.new }
        ensures columns { self.new.columns ≡ self.old.columns }
        ensures partitions { self.new.partitions ≡ self.old.partitions }
    {
        let sources = std::mem::replace(&mut self.sources, Vec::new(alloc));
        let Scanned { sources, answer } = scan_sources(
            alloc,
            self.columns.as_slice(),
            self.partitions.as_slice(),
            sources,
            request,
            steps,
        );
        self.sources = sources;
        answer
    }
}

impl<S: IoSource<Payload = Chunk>> DataSource for Table<S> {
    ghost use Rattle.std.specs.Prelude.{ℕ};
    ghost use Rattle.vortex_table_types.specs.Described.{total_rows};

    ghost described = { λ t. t.columns };

    ghost rows = { λ t. total_rows t.partitions };

    ghost bytes = { λ _. 0 };

    fn columns(&self) -> &[ColumnDesc] {
        self.columns.as_slice()
    }

    fn row_count(&self) -> Precision<u64> {
        Precision::Exact(self.rows())
    }
}

impl<S: IoSource<Payload = Chunk>> DataSourceScan for Table<S> {
    ghost use Rattle.std.specs.Prelude.{length};

    ghost described = { λ t. t.columns };

    ghost partitions = { λ t. length t.partitions };

    fn columns(&self) -> &[ColumnDesc] {
        self.columns.as_slice()
    }

    fn partition_count(&self) -> Precision<u64> {
        Precision::Exact(self.partitions.len() as u64)
    }
}
