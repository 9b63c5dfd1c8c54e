// Values that are compared by their places, and rows that they are under a validity.
ghost use Rattle.std.specs.Prelude.{◌≡◌, ◌<◌, IsTrue, List, None, Some, is_some, false, length, map, slice_get, slice_index_or, true};
ghost use Rattle.vortex_array_types.specs.Order.{row_cmp};
ghost use Rattle.vortex_array_types.specs.declared.scalar.Value.{Value};
ghost use Rattle.vortex_array_kinds.specs.Validities.{is_as_long, rows_under};
ghost use Rattle.vortex_array_order.specs.InOrder.{at_most};
ghost use Rattle.vortex_array_order.specs.Nulls.{StandSo};

use crate::nulls::{Nulls, nulls_of};
use std::cmp::Ordering;
use std::marker::Model;
use vortex_array_kinds::Validity;

/// Values of one type that are compared by their places. Their meaning is the list of them.
pub(crate) trait Compared {
    ghost items: { Self → List Value };

    /// How many values there are.
    fn count(&self) -> usize
        ensures { result ≡ length (items self.now) };

    /// How the values at two places stand to one another.
    fn compare(&self, i: usize, j: usize) -> Ordering
        requires first { i < length (items self.now) }
        requires second { j < length (items self.now) }
        ensures { row_cmp (slice_get (items self.now) i) (slice_get (items self.now) j) ≡ Some result };
}

/// Values under a validity. Contracts see the rows that they are.
#[derive(Drop)]
pub(crate) struct Rows<'a, C: Compared> {
    values: &'a C,
    validity: &'a Validity,
}

impl<'a, C: Compared> Model for Rows<'a, C> {
    ghost use Rattle.std.specs.Prelude.{IsTrue, List, Option, length};
    ghost use Rattle.vortex_array_types.specs.declared.scalar.Value.{Value as Item};
    ghost use Rattle.vortex_array_kinds.specs.Validities.{is_as_long, rows_under};

    ghost Value = { List (Option Item) };

    ghost view = { λ r. rows_under r.validity.now (C.items r.values.now) };

    ghost invariant = { λ r. IsTrue (is_as_long r.validity.now (length (C.items r.values.now))) };
}

impl<'a, C: Compared> Rows<'a, C> {
    /// The rows that values are under a validity that is as long.
    pub fn new(values: &'a C, validity: &'a Validity) -> Rows<'a, C>
        requires { IsTrue (is_as_long validity.now (length (C.items values.now))) }
        ensures { result ≡ rows_under validity.now (C.items values.now) }
    {
        Rows { values, validity }
    }

    /// How many rows there are.
    #[inline(always)]
    pub fn count(&self) -> usize
        ensures { result ≡ length self.now }
    {
        self.values.count()
    }

    /// Where the nulls stand.
    pub fn nulls(&self) -> Nulls
        ensures { StandSo (map is_some self.now) result }
    {
        nulls_of(self.validity, self.values.count())
    }

    /// Whether the row at a place is not null.
    #[inline(always)]
    pub fn is_value(&self, i: usize) -> bool
        requires { i < length self.now }
        ensures { result ≡ is_some (slice_index_or self.now i None) }
    {
        self.validity.is_valid(i)
    }

    /// How the values at two places stand to one another.
    #[inline(always)]
    pub fn compare(&self, i: usize, j: usize) -> Ordering
        requires first { is_some (slice_index_or self.now i None) ≡ true }
        requires second { is_some (slice_index_or self.now j None) ≡ true }
        ensures { row_cmp (slice_index_or self.now i None) (slice_index_or self.now j None) ≡ Some result }
    {
        self.values.compare(i, j)
    }

    /// Whether the value at a place is below the one at another.
    #[inline(always)]
    pub fn is_below(&self, i: usize, j: usize) -> bool
        requires first { is_some (slice_index_or self.now i None) ≡ true }
        requires second { is_some (slice_index_or self.now j None) ≡ true }
        ensures below { result ≡ true → IsTrue (at_most (slice_index_or self.now i None) (slice_index_or self.now j None)) }
        ensures not_below { result ≡ false → IsTrue (at_most (slice_index_or self.now j None) (slice_index_or self.now i None)) }
    {
        self.compare(i, j).is_lt()
    }
}
