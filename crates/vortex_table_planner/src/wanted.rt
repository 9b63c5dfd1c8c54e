// What a request wants of every split.
ghost use Rattle.std.specs.Prelude.{◌≡◌, IfOk};

use std::alloc::{AllocError, Global};
use vortex_array::{ColumnDesc, Filter};
use vortex_buffer::Items;
use vortex_scan_types::Projection;

/// The table's columns, which rows are kept and in which columns they are given, and the numbers of the columns that this needs.
pub(crate) struct Wanted {
    pub(crate) columns: Items<ColumnDesc>,
    pub(crate) filter: Option<Filter>,
    pub(crate) projection: Projection,
    pub(crate) needed: Items<u64>,
}

impl Drop for Wanted {
    fn drop(self) {
        let Wanted {
            columns: _columns,
            filter: _filter,
            projection: _projection,
            needed: _needed,
        } = self;
    }
}

/// The columns again.
pub(crate) fn columns_copied(
    alloc: Global,
    columns: &[ColumnDesc],
) -> Result<Items<ColumnDesc>, AllocError>
    ensures { IfOk result (λ copy. copy ≡ columns.now) }
{
    let mut copy = Vec::with_capacity(alloc, columns.len())?;
    for column in columns {
        let name = column.name.try_clone(alloc)?;
        let dtype = column.dtype;
        copy.push(ColumnDesc { name, dtype })?;
    }
    Ok(Items::from_vec(copy))
}

/// The filter again, where there is one.
pub(crate) fn filter_copied(
    alloc: Global,
    filter: &Option<Filter>,
) -> Result<Option<Filter>, AllocError>
    ensures { IfOk result (λ copy. copy ≡ filter.now) }
{
    match filter {
        None => Ok(None),
        Some(filter) => Ok(Some(filter.try_clone(alloc)?)),
    }
}

impl Wanted {
    /// The same again.
    pub(crate) fn try_clone(&self, alloc: Global) -> Result<Wanted, AllocError>
        ensures { IfOk result (λ copy. copy ≡ self.now) }
    {
        let columns = columns_copied(alloc, self.columns.as_slice())?;
        let projection = self.projection.try_clone(alloc)?;
        let needed = Vec::from_slice(alloc, self.needed.as_slice())?;
        let filter = filter_copied(alloc, &self.filter)?;
        Ok(Wanted {
            columns,
            filter,
            projection,
            needed: Items::from_vec(needed),
        })
    }
}
