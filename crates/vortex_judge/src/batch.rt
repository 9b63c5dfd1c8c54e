// Columns, batches and the question that an answer is judged by, in plain vectors.
// Each is a type of its own, so that contracts see a record or a list of the definitions and no pointer.
ghost use Rattle.std.specs.Prelude.{◌≡◌};

use crate::rows::{PlacedRow, PlainRow};
use std::marker::Model;
use vortex_array::{DType, Value};
use vortex_scan_types::WorkScope;

/// A type and a list of rows, each a value or null.
pub struct PlainColumn {
    dtype: DType,
    rows: PlainRow,
}

impl Drop for PlainColumn {
    fn drop(self) {
        let PlainColumn {
            dtype: _dtype,
            rows: _rows,
        } = self;
    }
}

impl Model for PlainColumn {
    ghost use Rattle.vortex_array_types.specs.Row.{Column};

    ghost Value = { Column };

    ghost view = { λ c. record { dtype = c.dtype; rows = c.rows } };
}

impl PlainColumn {
    /// These rows under this type.
    pub fn new(dtype: DType, rows: PlainRow) -> PlainColumn
        ensures { result ≡ record { dtype = dtype; rows = rows } }
    {
        PlainColumn { dtype, rows }
    }

    /// The type.
    pub fn dtype(&self) -> DType
        ensures { result ≡ self.now.dtype }
    {
        self.dtype
    }

    /// The rows.
    pub fn rows(&self) -> &[Option<Value>]
        ensures { result.now ≡ self.now.rows }
    {
        self.rows.as_slice()
    }
}

/// The chunks of a split, seen as columns.
pub struct PlainSplit {
    columns: Vec<PlainColumn>,
}

impl Drop for PlainSplit {
    fn drop(self) {
        let PlainSplit { columns: _columns } = self;
    }
}

impl Model for PlainSplit {
    ghost use Rattle.std.specs.Prelude.{List};
    ghost use Rattle.vortex_array_types.specs.Row.{Column};

    ghost Value = { List Column };

    ghost view = { λ s. s.columns.items };
}

impl PlainSplit {
    /// These columns.
    pub fn new(columns: Vec<PlainColumn>) -> PlainSplit
        ensures { result ≡ columns.items }
    {
        PlainSplit { columns }
    }

    /// The columns.
    pub fn as_slice(&self) -> &[PlainColumn]
        ensures { result.now ≡ self.now }
    {
        self.columns.as_slice()
    }
}

/// The content of a source: its splits in order.
pub struct PlainContent {
    splits: Vec<PlainSplit>,
}

impl Drop for PlainContent {
    fn drop(self) {
        let PlainContent { splits: _splits } = self;
    }
}

impl Model for PlainContent {
    ghost use Rattle.vortex_table_types.specs.Table.{Content};

    ghost Value = { Content };

    ghost view = { λ c. c.splits.items };
}

impl PlainContent {
    /// These splits.
    pub fn new(splits: Vec<PlainSplit>) -> PlainContent
        ensures { result ≡ splits.items }
    {
        PlainContent { splits }
    }

    /// The splits.
    pub fn as_slice(&self) -> &[PlainSplit]
        ensures { result.now ≡ self.now }
    {
        self.splits.as_slice()
    }
}

/// A batch: the split that it names, its number of rows, its columns. The number stands by itself, since a batch may
/// have no column.
pub struct PlainBatch {
    scope: WorkScope,
    rows: u64,
    columns: Vec<PlainColumn>,
}

impl Drop for PlainBatch {
    fn drop(self) {
        let PlainBatch {
            scope: _scope,
            rows: _rows,
            columns: _columns,
        } = self;
    }
}

impl Model for PlainBatch {
    ghost use Rattle.vortex_table_types.specs.Answers.{Given};

    ghost Value = { Given };

    ghost view = { λ b. record { scope = b.scope; rows = b.rows; columns = b.columns.items } };
}

impl PlainBatch {
    /// So many rows of a split, in these columns.
    pub fn new(scope: WorkScope, rows: u64, columns: Vec<PlainColumn>) -> PlainBatch
        ensures { result ≡ record { scope = scope; rows = rows; columns = columns.items } }
    {
        PlainBatch {
            scope,
            rows,
            columns,
        }
    }

    /// The split that it names.
    pub fn scope(&self) -> &WorkScope
        ensures { result.now ≡ self.now.scope }
    {
        &self.scope
    }

    /// How many rows it has.
    pub fn rows(&self) -> u64
        ensures { result ≡ self.now.rows }
    {
        self.rows
    }

    /// The columns.
    pub fn columns(&self) -> &[PlainColumn]
        ensures { result.now ≡ self.now.columns }
    {
        self.columns.as_slice()
    }
}

/// What an answer is judged by: the splits of the table, the projected types, the chosen rows, the limit and the order.
pub struct Question {
    scopes: Vec<WorkScope>,
    types: Vec<DType>,
    rows: Vec<PlacedRow>,
    limit: Option<u64>,
    ordered: bool,
}

impl Drop for Question {
    fn drop(self) {
        let Question {
            scopes: _scopes,
            types: _types,
            rows: _rows,
            limit: _limit,
            ordered: _ordered,
        } = self;
    }
}

impl Model for Question {
    ghost use Rattle.vortex_table_types.specs.Answers.{Asked};

    ghost Value = { Asked };

    ghost view = { λ q. record { scopes = q.scopes.items; types = q.types.items; rows = q.rows.items; limit = q.limit; ordered = q.ordered } };
}

impl Question {
    /// The question of these splits, types, rows, limit and order.
    pub fn new(
        scopes: Vec<WorkScope>,
        types: Vec<DType>,
        rows: Vec<PlacedRow>,
        limit: Option<u64>,
        ordered: bool,
    ) -> Question
        ensures { result ≡ record { scopes = scopes.items; types = types.items; rows = rows.items; limit = limit; ordered = ordered } }
    {
        Question {
            scopes,
            types,
            rows,
            limit,
            ordered,
        }
    }

    /// The splits of the table.
    pub fn scopes(&self) -> &[WorkScope]
        ensures { result.now ≡ self.now.scopes }
    {
        self.scopes.as_slice()
    }

    /// The projected types.
    pub fn types(&self) -> &[DType]
        ensures { result.now ≡ self.now.types }
    {
        self.types.as_slice()
    }

    /// The chosen rows, each with its projected values.
    pub fn rows(&self) -> &[PlacedRow]
        ensures { result.now ≡ self.now.rows }
    {
        self.rows.as_slice()
    }

    /// The most rows that are answered.
    pub fn limit(&self) -> Option<u64>
        ensures { result ≡ self.now.limit }
    {
        self.limit
    }

    /// Whether the batches stand in order of the table.
    pub fn ordered(&self) -> bool
        ensures { result ≡ self.now.ordered }
    {
        self.ordered
    }
}
