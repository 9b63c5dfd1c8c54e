// The order of texts and of bytes: their lists of bytes are compared, and no text is read for it.
ghost use Rattle.vortex_array_kinds.specs.StringValues.{strings_of};

use crate::compared::{Compared, Rows};
use crate::order::{RowOrder, are_ordered};
use crate::ordered::OrderValues;
use crate::places::{ExtremePlaces, extreme_places};
use std::cmp::Ordering;
use vortex_array_kinds::{Strings, Validity};

impl Compared for Strings {
    ghost items = { strings_of };

    #[inline(always)]
    fn count(&self) -> usize {
        self.lists().len()
    }

    #[inline(always)]
    fn compare(&self, i: usize, j: usize) -> Ordering {
        let lists = self.lists();
        let first = lists.get(i);
        let second = lists.get(j);
        first.cmp(second)
    }
}

impl OrderValues for Strings {
    fn are_in_order(&self, validity: &Validity, order: RowOrder) -> bool {
        are_ordered(&Rows::new(self, validity), order)
    }

    fn extreme_places(&self, validity: &Validity) -> Option<ExtremePlaces> {
        extreme_places(&Rows::new(self, validity))
    }
}
