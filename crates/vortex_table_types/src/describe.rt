// The description of a table.
use vortex_array::DType;
use vortex_buffer::Items;

/// The rows and the type of a chunk: one column's part of a split.
#[derive(Clone, Copy, Debug, PartialEq, Eq)]
pub struct ChunkDesc {
    pub rows: u64,
    pub dtype: DType,
}

/// The rows of a split, and one chunk for each column.
pub struct SplitDesc {
    pub rows: u64,
    pub chunks: Items<ChunkDesc>,
}

impl Drop for SplitDesc {
    fn drop(self) {
        let SplitDesc {
            rows: _rows,
            chunks: _chunks,
        } = self;
    }
}

/// The splits of a partition.
pub struct PartitionDesc {
    pub splits: Items<SplitDesc>,
}

impl Drop for PartitionDesc {
    fn drop(self) {
        let PartitionDesc { splits: _splits } = self;
    }
}
