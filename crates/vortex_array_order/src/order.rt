// What one loop over rows that are compared two at a time says of their order.
ghost use Rattle.std.specs.Prelude.{◌≡◌, ◌↔◌, IsTrue, is_some, length, map};
ghost use Rattle.vortex_array_order.specs.Asked.{Begins, Follow, Holds, follows};
ghost use Rattle.vortex_array_order.specs.Nulls.{NullsFirst};

use crate::compared::{Compared, Rows};
use crate::nulls::Nulls;
use std::cmp::Ordering;

/// What is asked of the order of a column's rows.
#[derive(Clone, Copy, Debug, PartialEq, Eq)]
pub enum RowOrder {
    /// Whether there is a row, and each row equals it.
    Constant,
    /// Whether each row is at most the next one.
    Sorted,
    /// Whether each row is below the next one.
    StrictlySorted,
}

/// Whether the rows stand in the order that is asked for. A null is below every value, so none stands behind one.
pub(crate) fn are_ordered<C: Compared>(rows: &Rows<'_, C>, order: RowOrder) -> bool
    ensures { IsTrue result ↔ Holds order rows.now }
{
    match rows.nulls() {
        Nulls::First(nulls) => are_ordered_behind(rows, nulls, order),
        Nulls::Behind(_) => false,
    }
}

// Whether the rows, of which only so many at the front are null, stand in the order that is asked for. The order is looked
// at once: each has a loop of its own.
fn are_ordered_behind<C: Compared>(rows: &Rows<'_, C>, nulls: usize, order: RowOrder) -> bool
    requires { NullsFirst (map is_some rows.now) nulls }
    ensures { IsTrue result ↔ Holds order rows.now }
{
    if !may_begin(nulls, rows.count(), order) {
        return false;
    }
    match order {
        RowOrder::Constant => values_follow(rows, nulls, RowOrder::Constant),
        RowOrder::Sorted => values_follow(rows, nulls, RowOrder::Sorted),
        RowOrder::StrictlySorted => values_follow(rows, nulls, RowOrder::StrictlySorted),
    }
}

// Whether so many nulls may stand before the values of so many rows.
fn may_begin(nulls: usize, len: usize, order: RowOrder) -> bool
    ensures { IsTrue result ↔ Begins order nulls len }
{
    match order {
        RowOrder::Constant => len > 0 && (nulls == 0 || nulls == len),
        RowOrder::Sorted => true,
        RowOrder::StrictlySorted => nulls < 2,
    }
}

// Whether each value behind the nulls stands to the next one as the order asks.
#[inline(always)]
fn values_follow<C: Compared>(rows: &Rows<'_, C>, nulls: usize, order: RowOrder) -> bool
    requires { NullsFirst (map is_some rows.now) nulls }
    ensures { IsTrue result ↔ Follow order rows.now nulls (length rows.now) }
{
    let len = rows.count();
    if nulls == len {
        return true;
    }
    for i in nulls + 1..len {
        if !may_follow(rows.compare(i - 1, i), order) {
            return false;
        }
    }
    true
}

// Whether a value that stands so to the next one is as the order asks.
#[inline(always)]
fn may_follow(ordering: Ordering, order: RowOrder) -> bool
    ensures { result ≡ follows order ordering }
{
    match order {
        RowOrder::Constant => ordering.is_eq(),
        RowOrder::Sorted => ordering.is_le(),
        RowOrder::StrictlySorted => ordering.is_lt(),
    }
}
