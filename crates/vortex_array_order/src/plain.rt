// The order of the rows of plain arrays: that of their values under their validity.
use crate::order::RowOrder;
use crate::ordered::{OrderValues, Ordered};
use crate::places::ExtremePlaces;
use vortex_array_kinds::PlainArray;

impl<V: OrderValues> Ordered for PlainArray<V> {
    fn rows_are(&self, order: RowOrder) -> bool {
        self.stored().are_in_order(self.validity(), order)
    }

    fn extremes(&self) -> Option<ExtremePlaces> {
        self.stored().extreme_places(self.validity())
    }
}
