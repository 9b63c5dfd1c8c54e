// What a scan can be made of, and what it tells of itself.
ghost use Rattle.std.specs.Prelude.{◌≡◌, ℕ, List};
ghost use Rattle.vortex_scan_types.specs.Told.{Tells};

use vortex_array::ColumnDesc;

/// A number that is told as it is, one that need not be right, or none.
pub enum Precision<T> {
    Exact(T),
    Inexact(T),
    Absent,
}

impl<T: Drop> Drop for Precision<T> {
    fn drop(self) {
        match self {
            Precision::Exact(_part) => {}
            Precision::Inexact(_part) => {}
            Precision::Absent => {}
        }
    }
}

/// What rows can be read from. A number that is told as exact is right; where a type tells none, the answer is `Absent`.
pub trait DataSource {
    ghost use Rattle.vortex_array_types.specs.declared.column.ColumnDesc.{ColumnDesc};

    // Its columns.
    ghost described: { Self → List ColumnDesc };

    // How many rows it has.
    ghost rows: { Self → ℕ };

    // How many bytes it takes.
    ghost bytes: { Self → ℕ };

    /// Its columns, in order.
    fn columns(&self) -> &[ColumnDesc]
        ensures { result.now ≡ described self.now };

    /// How many rows it has, where it tells that.
    fn row_count(&self) -> Precision<u64>
        ensures { Tells (rows self.now) result }
    {
        Precision::Absent
    }

    /// How many bytes it takes, where it tells that.
    fn byte_size(&self) -> Precision<u64>
        ensures { Tells (bytes self.now) result }
    {
        Precision::Absent
    }
}

/// A scan of a source, in partitions.
pub trait DataSourceScan {
    ghost use Rattle.vortex_array_types.specs.declared.column.ColumnDesc.{ColumnDesc};

    // Its columns.
    ghost described: { Self → List ColumnDesc };

    // How many partitions it has.
    ghost partitions: { Self → ℕ };

    /// Its columns, in order.
    fn columns(&self) -> &[ColumnDesc]
        ensures { result.now ≡ described self.now };

    /// How many partitions it has, where it tells that.
    fn partition_count(&self) -> Precision<u64>
        ensures { Tells (partitions self.now) result }
    {
        Precision::Absent
    }
}

/// A partition of a scan.
pub trait Partition {
    // Its number.
    ghost number: { Self → ℕ };

    // How many rows it has.
    ghost rows: { Self → ℕ };

    // How many bytes it takes.
    ghost bytes: { Self → ℕ };

    /// Its number.
    fn index(&self) -> u64
        ensures { result ≡ number self.now };

    /// How many rows it has, where it tells that.
    fn row_count(&self) -> Precision<u64>
        ensures { Tells (rows self.now) result }
    {
        Precision::Absent
    }

    /// How many bytes it takes, where it tells that.
    fn byte_size(&self) -> Precision<u64>
        ensures { Tells (bytes self.now) result }
    {
        Precision::Absent
    }
}
