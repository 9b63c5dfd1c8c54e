// The order of whole numbers.
ghost use Rattle.vortex_array_types.specs.declared.scalar.Value.TheVariants as values;

use crate::items::{Reading, item_extremes, items_are};
use crate::order::RowOrder;
use crate::ordered::OrderValues;
use crate::places::ExtremePlaces;
use vortex_array_kinds::{PrimitiveBuffer, PrimitiveWidth, Validity, each_width};

// Items as whole numbers.
#[derive(Drop)]
struct AsNumbers;

impl<T: PrimitiveWidth> Reading<T> for AsNumbers {
    ghost use Rattle.std.proofs.Common.{Some, ap, sym};

    ghost number = { T.number };

    ghost value = { λ n. values.Int n };

    ghost ordered = { λ x y. ap (λ o. Some o) (sym (T.ordered x y)) };
}

impl OrderValues for PrimitiveBuffer {
    fn are_in_order(&self, validity: &Validity, order: RowOrder) -> bool {
        each_width!(self, items => items_are::<_, AsNumbers>(items, validity, order))
    }

    fn extreme_places(&self, validity: &Validity) -> Option<ExtremePlaces> {
        each_width!(self, items => item_extremes::<_, AsNumbers>(items, validity))
    }
}
