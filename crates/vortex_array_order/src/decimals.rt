// The order of decimals: their unscaled numbers are compared.
ghost use Rattle.vortex_array_types.specs.declared.scalar.Value.TheVariants as values;

use crate::items::{Reading, item_extremes, items_are};
use crate::order::RowOrder;
use crate::ordered::OrderValues;
use crate::places::ExtremePlaces;
use vortex_array_kinds::{DecimalWidth, Decimals, Validity, each_decimal_width};

// Items as unscaled numbers.
#[derive(Drop)]
struct AsUnscaled;

impl<T: DecimalWidth> Reading<T> for AsUnscaled {
    ghost use Rattle.std.proofs.Common.{Some, ap, sym};

    ghost number = { T.unscaled };

    ghost value = { λ n. values.Decimal n };

    ghost ordered = { λ x y. ap (λ o. Some o) (sym (T.ordered x y)) };
}

impl OrderValues for Decimals {
    fn are_in_order(&self, validity: &Validity, order: RowOrder) -> bool {
        each_decimal_width!(&self.numbers, items => items_are::<_, AsUnscaled>(items, validity, order))
    }

    fn extreme_places(&self, validity: &Validity) -> Option<ExtremePlaces> {
        each_decimal_width!(&self.numbers, items => item_extremes::<_, AsUnscaled>(items, validity))
    }
}
