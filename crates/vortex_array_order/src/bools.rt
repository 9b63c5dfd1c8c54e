// The order of truth values: their bits are compared.
ghost use Rattle.std.specs.Prelude.{map};
ghost use Rattle.vortex_array_types.specs.declared.scalar.Value.TheVariants as values;

use crate::compared::{Compared, Rows};
use crate::order::{RowOrder, are_ordered};
use crate::ordered::OrderValues;
use crate::places::{ExtremePlaces, extreme_places};
use std::cmp::Ordering;
use vortex_array_kinds::Validity;
use vortex_buffer::BitBuffer;

impl Compared for BitBuffer {
    ghost items = { λ bits. map (λ b. values.Bool b) bits };

    #[inline(always)]
    fn count(&self) -> usize {
        self.len()
    }

    #[inline(always)]
    fn compare(&self, i: usize, j: usize) -> Ordering {
        let first = self.value(i);
        let second = self.value(j);
        first.cmp(&second)
    }
}

impl OrderValues for BitBuffer {
    fn are_in_order(&self, validity: &Validity, order: RowOrder) -> bool {
        are_ordered(&Rows::new(self, validity), order)
    }

    fn extreme_places(&self, validity: &Validity) -> Option<ExtremePlaces> {
        extreme_places(&Rows::new(self, validity))
    }
}
