// Batches, and the scopes that they come from.
ghost use Rattle.std.specs.Prelude.{◌≡◌};

use crate::place::{Place, RootId};
use std::ops::Range;
use vortex_array::RecordBatch;

/// The rows of a split: the number of its partition, and its rows in that partition.
#[derive(Clone, Debug, PartialEq, Eq)]
pub struct WorkScope {
    pub file_ordinal: u64,
    pub rows: Range<u64>,
}

impl Drop for WorkScope {
    fn drop(self) {
        let WorkScope {
            file_ordinal: _file_ordinal,
            rows: _rows,
        } = self;
    }
}

impl WorkScope {
    /// The same scope.
    pub fn copy(&self) -> WorkScope
        ensures { result ≡ self.now }
    {
        WorkScope {
            file_ordinal: self.file_ordinal,
            rows: self.rows.start..self.rows.end,
        }
    }
}

/// Rows of one split that a run answers.
pub struct Batch {
    /// The root whose work made it.
    pub root: RootId,
    /// The rows' split.
    pub scope: WorkScope,
    /// Where its work stood among all work: the path of its morsel.
    pub place: Place,
    /// The rows.
    pub array: RecordBatch,
}

impl Drop for Batch {
    fn drop(self) {
        let Batch {
            root: _root,
            scope: _scope,
            place: _place,
            array: _array,
        } = self;
    }
}

impl Batch {
    /// The root whose work made it.
    pub fn root(&self) -> RootId
        ensures { result ≡ self.now.root }
    {
        self.root
    }

    /// The rows' split.
    pub fn scope(&self) -> &WorkScope
        ensures { result.now ≡ self.now.scope }
    {
        &self.scope
    }

    /// Where its work stood among all work.
    pub fn place(&self) -> &Place
        ensures { result.now ≡ self.now.place }
    {
        &self.place
    }

    /// The rows.
    pub fn array(&self) -> &RecordBatch
        ensures { result.now ≡ self.now.array }
    {
        &self.array
    }

    /// The batch with these rows in place of its own.
    pub fn with_array(self, array: RecordBatch) -> Batch
        ensures { result ≡ record self { array = array } }
    {
        let Batch {
            root,
            scope,
            place,
            array: _array,
        } = self;
        Batch {
            root,
            scope,
            place,
            array,
        }
    }
}
