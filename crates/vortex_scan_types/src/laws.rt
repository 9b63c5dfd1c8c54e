// What the definitions imply, each law the contract of a function that does nothing.
ghost use Rattle.vortex_scan_types.specs.Laws.{RowMasksComplement, RowMasksCount, RowMasksJoin, SelectionsPartition};

/// Include and exclude by one list partition the places.
pub fn selections_partition()
    ensures { SelectionsPartition }
{}

/// A row mask of a range that has a place has that range, and as many set places as the selection holds of it.
pub fn row_masks_count()
    ensures { RowMasksCount }
{}

/// Row masks of two ranges side by side, joined, are the row mask of the joined range.
pub fn row_masks_join()
    ensures { RowMasksJoin }
{}

/// The row masks of include and exclude by one list are complementary on every range.
pub fn row_masks_complement()
    ensures { RowMasksComplement }
{}
