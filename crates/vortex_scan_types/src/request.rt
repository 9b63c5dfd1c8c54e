// Requests.
ghost use Rattle.std.specs.Prelude.{◌≡◌, IfOk};

use crate::selection::Selection;
use std::alloc::{AllocError, Global};
use std::marker::Model;
use std::ops::Range;
use vortex_array::{Filter, Name};

/// Names, which contracts see as their list.
pub struct Names {
    items: Vec<Name>,
}

impl Drop for Names {
    fn drop(self) {
        let Names { items: _items } = self;
    }
}

impl Model for Names {
    ghost use Rattle.std.specs.Prelude.{ℕ, List};

    ghost Value = { List (List ℕ) };

    ghost view = { λ n. n.items.items };
}

impl Names {
    /// These names. It takes the vector's memory and none besides.
    pub fn from_vec(names: Vec<Name>) -> Names
        ensures { result ≡ names.items }
    {
        Names { items: names }
    }

    /// The names.
    pub fn as_slice(&self) -> &[Name]
        ensures { result.now ≡ self.now }
    {
        self.items.as_slice()
    }

    /// A second list of the same names.
    pub fn try_clone(&self, alloc: Global) -> Result<Names, AllocError>
        ensures { IfOk result (λ n. n ≡ self.now) }
    {
        let mut names = Vec::new(alloc);
        for name in self.as_slice() {
            names.push(name.try_clone(alloc)?)?;
        }
        Ok(Names { items: names })
    }
}

/// Which columns an answer has: all of them, or the named ones in their order, which may repeat.
#[derive(Default)]
pub enum Projection {
    #[default]
    All,
    Columns(Names),
}

impl Drop for Projection {
    fn drop(self) {
        match self {
            Projection::All => {}
            Projection::Columns(_part) => {}
        }
    }
}

impl Projection {
    /// A second projection that is equal.
    pub fn try_clone(&self, alloc: Global) -> Result<Projection, AllocError>
        ensures { IfOk result (λ p. p ≡ self.now) }
    {
        match self {
            Projection::All => Ok(Projection::All),
            Projection::Columns(names) => Ok(Projection::Columns(names.try_clone(alloc)?)),
        }
    }
}

/// What a scan is asked for. A missing filter or range chooses all, a missing limit cuts nothing.
#[derive(Default)]
pub struct ScanRequest {
    pub projection: Projection,
    /// What keeps a row: that it is true of the row.
    pub filter: Option<Filter>,
    /// The rows of each partition, by their numbers in it.
    pub row_range: Option<Range<u64>>,
    /// The rows of each partition, by their numbers in it.
    pub selection: Selection,
    /// The partitions, by their numbers.
    pub partition_selection: Selection,
    /// The partitions, by their numbers.
    pub partition_range: Option<Range<u64>>,
    /// Whether the batches stand in order of the table.
    pub ordered: bool,
    /// The most rows that are answered.
    pub limit: Option<u64>,
}

impl Drop for ScanRequest {
    fn drop(self) {
        let ScanRequest {
            projection: _projection,
            filter: _filter,
            row_range: _row_range,
            selection: _selection,
            partition_selection: _partition_selection,
            partition_range: _partition_range,
            ordered: _ordered,
            limit: _limit,
        } = self;
    }
}

// The filter again, where there is one.
fn filter_copied(alloc: Global, filter: &Option<Filter>) -> Result<Option<Filter>, AllocError>
    ensures { IfOk result (λ f. f ≡ filter.now) }
{
    match filter {
        None => Ok(None),
        Some(filter) => Ok(Some(filter.try_clone(alloc)?)),
    }
}

// The range again, where there is one.
fn range_copied(range: &Option<Range<u64>>) -> Option<Range<u64>>
    ensures { result ≡ range.now }
{
    match range {
        None => None,
        Some(range) => Some(range.start..range.end),
    }
}

impl ScanRequest {
    /// A second request with equal fields.
    pub fn try_clone(&self, alloc: Global) -> Result<ScanRequest, AllocError>
        ensures { IfOk result (λ r. r ≡ self.now) }
    {
        let projection = self.projection.try_clone(alloc)?;
        let selection = self.selection.try_clone(alloc)?;
        let partition_selection = self.partition_selection.try_clone(alloc)?;
        let filter = filter_copied(alloc, &self.filter)?;
        Ok(ScanRequest {
            projection,
            filter,
            row_range: range_copied(&self.row_range),
            selection,
            partition_selection,
            partition_range: range_copied(&self.partition_range),
            ordered: self.ordered,
            limit: self.limit,
        })
    }
}
