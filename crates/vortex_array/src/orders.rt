// Whether the rows of a column of any kind are equal or in order.
ghost use Rattle.std.specs.Prelude.{◌↔◌, IsTrue};
ghost use Rattle.vortex_array.specs.ColumnOf.{column_of};
ghost use Rattle.vortex_array_order.specs.Asked.{Holds};
ghost use Rattle.vortex_array_order.specs.InOrder.{IsConstant, IsSorted, IsStrictlySorted};

use crate::arrays::{Array, each_kind};
use vortex_array_order::{Ordered, RowOrder};

impl Array {
    // Whether the rows stand in the order that is asked for.
    fn are_in_order(&self, order: RowOrder) -> bool
        ensures { IsTrue result ↔ Holds order (column_of self.now).rows }
    {
        each_kind!(self, array => array.rows_are(order))
    }

    /// Whether there is a row, and each row equals it, null equal to null.
    pub fn is_constant(&self) -> bool
        ensures { IsTrue result ↔ IsConstant (column_of self.now).rows }
    {
        self.are_in_order(RowOrder::Constant)
    }

    /// Whether each row is at most the next one, null below every value.
    pub fn is_sorted(&self) -> bool
        ensures { IsTrue result ↔ IsSorted (column_of self.now).rows }
    {
        self.are_in_order(RowOrder::Sorted)
    }

    /// Whether each row is below the next one, null below every value.
    pub fn is_strict_sorted(&self) -> bool
        ensures { IsTrue result ↔ IsStrictlySorted (column_of self.now).rows }
    {
        self.are_in_order(RowOrder::StrictlySorted)
    }
}
