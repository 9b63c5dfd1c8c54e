// Items of a native type as values that are compared: the items are compared, with no value made for one.
ghost use Rattle.std.specs.Prelude.{◌≡◌, ◌↔◌, IsTrue, ℤ, Some, length, map};
ghost use Rattle.vortex_array_types.specs.Order.{value_cmp};
ghost use Rattle.vortex_array_types.specs.declared.scalar.Value.{Value};
ghost use Rattle.vortex_array_kinds.specs.Validities.{is_as_long, rows_under};
ghost use Rattle.vortex_array_order.specs.Asked.{ExtremesBelow, Holds};

use crate::compared::{Compared, Rows};
use crate::order::{RowOrder, are_ordered};
use crate::places::{ExtremePlaces, extreme_places};
use std::cmp::Ordering;
use std::marker::PhantomData;
use vortex_array_kinds::Validity;
use vortex_buffer::Buffer;

/// How items of a native type are read: each is a number, and each number a value. Their order is that of the values.
pub(crate) trait Reading<T: Copy + Ord> {
    ghost number: { T → ℤ };

    ghost value: { ℤ → Value };

    ghost ordered: { (x y : T) → value_cmp (value (number x)) (value (number y)) ≡ Some (T.cmp x y) };
}

// Items that are read in one way.
#[derive(Drop)]
struct Items<'a, T: Copy + Ord, R: Reading<T>> {
    items: &'a [T],
    reading: PhantomData<R>,
}

impl<T: Copy + Ord, R: Reading<T>> Compared for Items<'_, T, R> {
    ghost items = { λ s. map R.value (map R.number s.items.now) };

    #[inline(always)]
    fn count(&self) -> usize {
        self.items.len()
    }

    #[inline(always)]
    fn compare(&self, i: usize, j: usize) -> Ordering {
        self.items[i].cmp(&self.items[j])
    }
}

/// Whether the rows that items are under a validity stand in the order that is asked for.
pub(crate) fn items_are<T: Copy + Ord, R: Reading<T>>(
    items: &Buffer<T>,
    validity: &Validity,
    order: RowOrder,
) -> bool
    requires { IsTrue (is_as_long validity.now (length (map R.number items.now))) }
    ensures { IsTrue result ↔ Holds order (rows_under validity.now (map R.value (map R.number items.now))) }
{
    let items = Items::<T, R> {
        items: items.as_slice(),
        reading: PhantomData,
    };
    are_ordered(&Rows::new(&items, validity), order)
}

/// The places of the least and of the greatest of those rows, or none where none is a value.
pub(crate) fn item_extremes<T: Copy + Ord, R: Reading<T>>(
    items: &Buffer<T>,
    validity: &Validity,
) -> Option<ExtremePlaces>
    requires { IsTrue (is_as_long validity.now (length (map R.number items.now))) }
    ensures { ExtremesBelow (rows_under validity.now (map R.value (map R.number items.now))) (length (rows_under validity.now (map R.value (map R.number items.now)))) result }
{
    let items = Items::<T, R> {
        items: items.as_slice(),
        reading: PhantomData,
    };
    extreme_places(&Rows::new(&items, validity))
}
