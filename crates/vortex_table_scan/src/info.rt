// What a table tells of a partition.
use vortex_scan_types::{Partition, Precision};

/// A partition: its number, and how many rows it has.
pub struct PartitionInfo {
    pub index: u64,
    pub rows: u64,
}

impl Drop for PartitionInfo {
    fn drop(self) {
        let PartitionInfo {
            index: _index,
            rows: _rows,
        } = self;
    }
}

impl Partition for PartitionInfo {
    ghost number = { λ p. p.index };

    ghost rows = { λ p. p.rows };

    ghost bytes = { λ _. 0 };

    fn index(&self) -> u64 {
        self.index
    }

    fn row_count(&self) -> Precision<u64> {
        Precision::Exact(self.rows)
    }
}
