// Rows, rows with their places, and tables, in plain vectors.
ghost use Rattle.std.specs.Prelude.{◌≡◌, List, Option, IfOk, option_copied};

use crate::truth::cell;
use std::alloc::{AllocError, Global};
use std::marker::Model;
use vortex_array::{ColumnDesc, DType, Value};

/// A row: a value or null for each column. Contracts see its list.
pub struct PlainRow {
    cells: Vec<Option<Value>>,
}

impl Drop for PlainRow {
    fn drop(self) {
        let PlainRow { cells: _cells } = self;
    }
}

impl Model for PlainRow {
    ghost use Rattle.vortex_array_types.specs.Cells.{Row};

    ghost Value = { Row };

    ghost view = { λ r. r.cells.items };
}

impl PlainRow {
    /// These values.
    pub fn new(cells: Vec<Option<Value>>) -> PlainRow
        ensures { result ≡ cells.items }
    {
        PlainRow { cells }
    }

    /// The values.
    pub fn as_slice(&self) -> &[Option<Value>]
        ensures { result.now ≡ self.now }
    {
        self.cells.as_slice()
    }
}

/// Rows. Contracts see their list.
pub struct PlainRows {
    rows: Vec<PlainRow>,
}

impl Drop for PlainRows {
    fn drop(self) {
        let PlainRows { rows: _rows } = self;
    }
}

impl Model for PlainRows {
    ghost use Rattle.std.specs.Prelude.{List};
    ghost use Rattle.vortex_array_types.specs.Cells.{Row};

    ghost Value = { List Row };

    ghost view = { λ r. r.rows.items };
}

impl PlainRows {
    /// These rows.
    pub fn new(rows: Vec<PlainRow>) -> PlainRows
        ensures { result ≡ rows.items }
    {
        PlainRows { rows }
    }

    /// The rows.
    pub fn as_slice(&self) -> &[PlainRow]
        ensures { result.now ≡ self.now }
    {
        self.rows.as_slice()
    }
}

/// A decoded table: its columns, and the rows of each partition.
pub struct PlainTable {
    columns: Vec<ColumnDesc>,
    partitions: Vec<PlainRows>,
}

impl Drop for PlainTable {
    fn drop(self) {
        let PlainTable {
            columns: _columns,
            partitions: _partitions,
        } = self;
    }
}

impl Model for PlainTable {
    ghost use Rattle.vortex_table_types.specs.Table.{Decoded};

    ghost Value = { Decoded };

    ghost view = { λ t. record { columns = t.columns.items; partitions = t.partitions.items } };
}

impl PlainTable {
    /// A table of these columns and partitions.
    pub fn new(columns: Vec<ColumnDesc>, partitions: Vec<PlainRows>) -> PlainTable
        ensures columns { result.columns ≡ columns.items }
        ensures partitions { result.partitions ≡ partitions.items }
    {
        PlainTable {
            columns,
            partitions,
        }
    }

    /// The columns.
    pub fn columns(&self) -> &[ColumnDesc]
        ensures { result.now ≡ self.now.columns }
    {
        self.columns.as_slice()
    }

    /// The rows of each partition.
    pub fn partitions(&self) -> &[PlainRows]
        ensures { result.now ≡ self.now.partitions }
    {
        self.partitions.as_slice()
    }
}

/// A row and its place: the number of its partition, and its own number there.
pub struct PlacedRow {
    partition: u64,
    row: u64,
    values: PlainRow,
}

impl Drop for PlacedRow {
    fn drop(self) {
        let PlacedRow {
            partition: _partition,
            row: _row,
            values: _values,
        } = self;
    }
}

impl Model for PlacedRow {
    ghost use Rattle.vortex_table_types.specs.Chosen.{Placed};

    ghost Value = { Placed };

    ghost view = { λ p. record { partition = p.partition; row = p.row; values = p.values } };
}

impl PlacedRow {
    /// These values at this place.
    pub fn new(partition: u64, row: u64, values: PlainRow) -> PlacedRow
        ensures { result ≡ record { partition = partition; row = row; values = values } }
    {
        PlacedRow {
            partition,
            row,
            values,
        }
    }

    /// The number of its partition.
    pub fn partition(&self) -> u64
        ensures { result ≡ self.now.partition }
    {
        self.partition
    }

    /// Its number in the partition.
    pub fn row(&self) -> u64
        ensures { result ≡ self.now.row }
    {
        self.row
    }

    /// Its values.
    pub fn values(&self) -> &[Option<Value>]
        ensures { result.now ≡ self.now.values }
    {
        self.values.as_slice()
    }
}
