// Batches of rows.
ghost use Rattle.std.specs.Prelude.{◌≡◌, ◌<◌, ◌↔◌, IsTrue, All, IfOk, OnErr, length, slice_get, Some};
ghost use Rattle.vortex_array.specs.Batch.{HasRows};

use crate::arrays::Array;
use std::marker::Model;
use vortex_array_kinds::LengthMismatch;

/// Some rows in columns of one length. Without columns the number of rows stands by itself.
pub struct RecordBatch {
    rows: usize,
    columns: Vec<Array>,
}

impl Drop for RecordBatch {
    fn drop(self) {
        let RecordBatch {
            rows: _rows,
            columns: _columns,
        } = self;
    }
}

impl Model for RecordBatch {
    ghost use Rattle.std.specs.Prelude.{All};
    ghost use Rattle.vortex_array.specs.Batch.{BatchParts, HasRows};

    ghost Value = { BatchParts };

    ghost view = { λ b. record { rows = b.rows; columns = b.columns.items } };

    ghost invariant = { λ b. All (HasRows b.rows) b.columns.items };
}

// Whether each column has so many rows.
fn are_long(rows: usize, columns: &[Array]) -> bool
    ensures { IsTrue result ↔ All (HasRows rows) columns.now }
{
    columns.iter().all(|column| column.len() == rows)
}

impl RecordBatch {
    /// So many rows in these columns. It is refused exactly where a column has another length.
    pub fn try_new(rows: usize, columns: Vec<Array>) -> Result<RecordBatch, LengthMismatch>
        ensures ok { IfOk result (λ b. b ≡ record { rows = rows; columns = columns.items }) }
        ensures fits { IfOk result (λ _. All (HasRows rows) columns.items) }
        ensures err { OnErr result (¬ All (HasRows rows) columns.items) }
    {
        if !are_long(rows, columns.as_slice()) {
            return Err(LengthMismatch);
        }
        Ok(RecordBatch { rows, columns })
    }

    /// How many rows there are.
    pub fn rows(&self) -> usize
        ensures { result ≡ self.now.rows }
    {
        self.rows
    }

    /// How many columns there are.
    pub fn column_count(&self) -> usize
        ensures { result ≡ length self.now.columns }
    {
        self.columns.len()
    }

    /// The columns, each of that many rows.
    pub fn columns(&self) -> &[Array]
        ensures value { result.now ≡ self.now.columns }
        ensures rows { All (HasRows self.now.rows) self.now.columns }
    {
        self.columns.as_slice()
    }

    /// The column at a place.
    pub fn column(&self, i: usize) -> &Array
        requires { i < length self.now.columns }
        ensures { slice_get self.now.columns i ≡ Some result.now }
    {
        &self.columns[i]
    }
}
