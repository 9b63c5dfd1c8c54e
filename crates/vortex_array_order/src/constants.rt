// Columns of equal rows, whose order is known from how many there are.
use crate::order::RowOrder;
use crate::ordered::Ordered;
use crate::places::ExtremePlaces;
use vortex_array_kinds::ConstantArray;

impl Ordered for ConstantArray {
    fn rows_are(&self, order: RowOrder) -> bool {
        let len = self.len();
        match order {
            RowOrder::Constant => len > 0,
            RowOrder::Sorted => true,
            RowOrder::StrictlySorted => len < 2,
        }
    }

    // Both places are the first one.
    fn extremes(&self) -> Option<ExtremePlaces> {
        if self.len() == 0 {
            return None;
        }
        if self.scalar().is_null() {
            return None;
        }
        Some(ExtremePlaces {
            least: 0,
            greatest: 0,
        })
    }
}
